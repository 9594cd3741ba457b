//! An event before it stands. It is planned by calls that only ask; then its entry is forced to the
//! log; then it stands, by calls that take no memory.
//!
//! Each kind of change has a variant of [`Change`], an arm of [`Core::stand`] and a case of
//! `Stands` (`specs/Standing.antt`).
ghost use Rattle.std.specs.Prelude.{◌≡◌, ◌≤◌, ◌+◌};
ghost use Rattle.cam_node.specs.Calls.{answers};
ghost use Rattle.cam_node.specs.Standing.{HasLearnt, HasRoom, MayChange, MayStand, Stands, places_heard, count_heard};
ghost use Rattle.cam_comman.specs.Letters.{IsWithin};
ghost use Rattle.cam_server.specs.Calls.{answers as served};

use crate::Stepped;
use crate::call_ahead::Ahead;
use crate::knowing::Heard;
use crate::state::Core;
use crate::vote_arrives::Vote;
use cam_event::Reply;
use cam_know::Outcome;
use cam_names::{Deps, Name};
use cam_recman::Record;
use cam_server::Server;

/// An event that may stand, with its letters.
#[derive(Drop)]
pub(crate) struct Plan {
    pub(crate) stepped: Stepped,
    /// What its letter brought. None if no letter came.
    pub(crate) heard: Option<Heard>,
    /// What it does to the parts of the node besides.
    pub(crate) change: Change,
    /// What its deeds add to its entry: a decision or a Secure.
    pub(crate) adds: Option<Record>,
}

/// What an event does to the parts of a node besides what it learnt.
#[derive(Drop)]
pub(crate) enum Change {
    Nothing,
    /// A child is created here. Its parent depended on these when it asked for it.
    Started {
        child: Name,
        deps: Deps,
    },
    /// An action gets what it sees of this reply to its call, where the count of the call's site is
    /// known so.
    Answered {
        action: Name,
        number: u32,
        reply: Reply,
        known: u32,
    },
    /// An action is decided so.
    Decided(Outcome),
    /// An action gives up a child, which aborts.
    GaveUp(Name, Name),
    /// A call was served already, ahead of the news.
    WentAhead(Ahead),
    /// A call was served: this server, which was informed of the news, stands in the place of the other.
    Served(Server),
    /// A family is being prepared.
    Prepared(Name),
    /// A vote yes is counted for a family, at its home.
    Voted(Vote),
    /// The site has secured a family.
    Secured(Name),
}

impl Core {
    /// The event stands. It takes no memory.
    pub(crate) fn stand(&mut self, plan: Plan) -> Stepped
        requires { MayStand plan self.old }
        ensures stands { Stands plan.change plan.heard self.old.knowing.known
            (answers self.old) (answers self.new) }
        ensures stepped { result ≡ plan.stepped }
    {
        let Plan {
            stepped,
            heard,
            change,
            adds: _adds,
        } = plan;
        self.change(&heard, change);
        stepped
    }

    /// What an event learnt stands, and then what it changes besides.
    fn change(&mut self, heard: &Option<Heard>, change: Change)
        requires room { HasRoom heard.now self.old.server }
        requires within { IsWithin self.old.knowing.known
            (places_heard heard.now self.old.knowing.places) }
        requires change { MayChange change heard.now self.old }
        ensures { Stands change heard.now self.old.knowing.known
            (answers self.old) (answers self.new) }
    {
        self.learnt_stands(heard);
        match change {
            Change::Nothing => {}
            Change::Started { child, deps } => self.start_stands(&child, &deps),
            Change::Answered {
                action,
                number,
                reply,
                known,
            } => self.answer_stands(&action, number, &reply, known),
            Change::Decided(outcome) => self.decision_stands(&outcome),
            Change::GaveUp(action, child) => self.gave_up_stands(&action, &child),
            Change::WentAhead(_) => {}
            Change::Served(server) => self.server = server,
            Change::Prepared(family) => self.preparation_stands(&family),
            Change::Voted(vote) => self.vote_stands(&vote),
            Change::Secured(family) => self.secure_stands(&family),
        }
    }

    /// What an event learnt stands: it is known, the site is informed of it, and its places are
    /// noted.
    fn learnt_stands(&mut self, heard: &Option<Heard>)
        requires room { HasRoom heard.now self.old.server }
        requires within { IsWithin self.old.knowing.known
            (places_heard heard.now self.old.knowing.places) }
        ensures learnt { HasLearnt heard.now self.old.knowing.known
            (answers self.old) (answers self.new) }
        ensures spare { (served self.old.server).table.spare
            ≤ (served self.new.server).table.spare + count_heard heard.now }
    {
        match heard {
            Some(heard) => {
                self.server.informed(&heard.news);
                self.knowing.stand(&heard.places);
            }
            None => {
                let places = *self.knowing.places();
                self.knowing.stand(&places);
            }
        }
    }
}
