//! What a node serves: calls on the objects of its site.
//!
//! [`Server`] has the site's lock table, and the replies of the node's present incarnation, by
//! action and number. Its main call is `perform`, the rule of a call that comes to its site.
//!
//! Its law: after each event of a node the server serves the site of the node's history
//! (`one_more_event`), and after a restart too (`after_restart`); what it answers a call is what
//! the node does by the step rules (`calls_are_rules`).
//!
//! It uses `cam_locks` (the table), `cam_orphan` (the test) and `cam_event` (histories and
//! rules).
#![tactic(auto)]

ghost use Rattle.cam_server.specs.Ahead.{CallsGoAhead};
ghost use Rattle.cam_server.specs.Events.{SameServes, InformsKeep, PerformKeeps, RestartKeeps};
ghost use Rattle.cam_server.specs.Events.{NewsInform, DecisionInforms, NothingInforms, InformsJoin};
ghost use Rattle.cam_server.specs.Steps.{PerformedIsRule, SightIsAnswered, OthersAreQuiet};
ghost use Rattle.cam_server.specs.Steps.{CallsAreServed};

mod ahead;
mod server;

use cam_event::Reply;
use cam_know::Reason;
use cam_names::Name;
use cam_type::Answer;
pub use server::Server;

/// What comes of a call at its site, in the order of the tests: the first that holds decides.
#[derive(Clone, Copy, Debug, PartialEq, Eq)]
pub enum Performed {
    /// It was addressed to another count.
    Missed,
    /// The commit of an ancestor of its action is known.
    Ended,
    /// It was performed or bounced before in this incarnation: the reply of then.
    Again(Reply),
    /// Its action is an orphan.
    Orphan(Reason),
    /// The lift of a live operation stands in its way.
    Busy(Name),
    /// It was performed, with this answer.
    Done(Answer),
}

/// What a site does with a call by the step rules is what [`Server::perform`] answers (`perform`),
/// for what the node goes by where its server was informed of the news that came with the call
/// (`sight`).
pub fn calls_are_rules()
    ensures perform { PerformedIsRule }
    ensures sight { SightIsAnswered }
{}

/// What the events of a node are to its site: but for a call that comes and a restart each performs
/// and bounces nothing (`quiet`); a call is served after the first Informs as the server answers
/// then (`served`).
pub fn kinds_of_steps()
    ensures quiet { OthersAreQuiet }
    ensures served { CallsAreServed }
{}

/// After one more event of its node, which is no restart, the server serves the site of the longer
/// history: where it was informed of what the event informs it of (`informs`), and did what
/// `perform` says of the call (`perform`). What answers the same serves the same (`same`).
pub fn one_more_event()
    ensures same { SameServes }
    ensures informs { InformsKeep }
    ensures perform { PerformKeeps }
{}

/// Of what an event informs its site: of the letter's news (`news`), of a decision (`decision`), of
/// nothing by other deeds (`nothing`), and one after the other of both (`joined`).
pub fn news_are_informs()
    ensures news { NewsInform }
    ensures decision { DecisionInforms }
    ensures nothing { NothingInforms }
    ensures joined { InformsJoin }
{}

/// Where the news that came with a call speak of no family with live operations here, the call may
/// be performed before the site is informed of them: all is as if it had been informed first. So
/// running out of memory in [`Server::perform`] leaves all as before, without a copy.
pub fn calls_go_ahead()
    ensures { CallsGoAhead }
{}

/// After a restart, with the table that is restored from what the log held, the server serves the
/// site of the history.
pub fn after_restart()
    ensures { RestartKeeps }
{}
