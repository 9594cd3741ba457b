//! A node decides: it commits or aborts an action, and informs its site of that at once. The decision is known when the letters of its event
//! leave.
ghost use Rattle.std.specs.Prelude.{◌≡◌, ◌≤◌, ◌++◌, ◌∷◌, [], true, false, None, OnOk, IfOk};
ghost use Rattle.cam_names.specs.Dependencies.{pairs_of};
ghost use Rattle.cam_names.specs.Names.{is_top};
ghost use Rattle.cam_know.specs.Orphans.{known_orphan};
ghost use Rattle.cam_comman.specs.Letters.{IsWithin};
ghost use Rattle.cam_event.specs.declared.Deed.TheVariants.{Inform};
ghost use Rattle.cam_event.specs.declared.Want.TheVariants as wants;
ghost use Rattle.cam_know.specs.declared.Outcome.TheVariants as outcomes;
ghost use Rattle.cam_server.specs.Calls.{answers as served};
ghost use Rattle.cam_server.specs.Events.{decision};
ghost use Rattle.cam_tranman.specs.Actions.{deps};
ghost use Rattle.cam_tranman.specs.Calls as tranman;
ghost use Rattle.cam_tranman.specs.Calls.{IsFree, decided, decides_by};
ghost use Rattle.cam_tranman.specs.Events.{decides};
ghost use Rattle.cam_tranman.specs.Tables.{answers as at_home};
ghost use Rattle.cam_node.specs.Calls.{answers, AreSame, AreToNodes};
ghost use Rattle.cam_node.specs.Decides.{decided_at_home, IsDecided, MayDecide};
ghost use Rattle.cam_node.specs.Planning.{IsMadeDeciding};
ghost use Rattle.cam_node.specs.Standing.{deciding};

use crate::did::{Did, Doing};
use crate::learning::Learnt;
use crate::news::record_of;
use crate::plan::{Change, Plan};
use crate::state::Core;
use cam_base::NoMemory;
use cam_event::{Deed, Deeds, LetterId, Note, SentList};
use cam_know::{Outcome, Reason};
use cam_names::{Deps, Name};
use cam_orphan::orphan;
use cam_tranman::Homed;
use std::alloc::Global;

impl Core {
    /// The plan of a letter by whose rule the node decides this, and sends these letters, each to a node from 1 to 8, with this note. The
    /// letters go by what is known with the decision. What is answered stays the same.
    pub(crate) fn decides(
        &mut self,
        id: &LetterId,
        learnt: Learnt,
        outcome: &Outcome,
        sent: SentList,
        note: &Note,
    ) -> Result<Plan, NoMemory>
        requires within { IsWithin self.old.knowing.known learnt.heard.places }
        requires nodes { AreToNodes sent }
        ensures same { AreSame (answers self.old) (answers self.new) }
        ensures actions { (answers self.new).actions ≡ (answers self.old).actions }
        ensures made { IfOk result (λ plan.
            IsMadeDeciding self.old self.new id.now learnt outcome.now sent note.now plan) }
    {
        let news = learnt.heard.news.len();
        self.server.reserve(news.checked_add(1).ok_or(NoMemory)?)?;
        let doing = Doing::decides(self.alloc, self.number, outcome, sent, note)?;
        self.knowing.decide(outcome)?;
        self.planned(id, learnt, doing)
    }

    /// Why an action of this node is an orphan by what is known with the letter and by what it depends on, if it is one.
    pub(crate) fn orphan_then(&self, action: &Name) -> Option<Reason>
        ensures { result ≡ known_orphan self.now.knowing.known action.now
            (pairs_of (deps (answers self.now).actions action.now)) }
    {
        orphan(self.knowing.know(), action, &self.deps_of(action))
    }

    /// A decision stands, where what a letter brought stands already. It takes no memory.
    pub(crate) fn decision_stands(&mut self, outcome: &Outcome)
        requires room { 1 ≤ (served self.old.server).table.spare }
        requires may { MayDecide outcome.now (answers self.old).actions }
        ensures { IsDecided outcome.now (decided_at_home outcome.now (answers self.old).actions)
            (answers self.old) (answers self.new) }
    {
        self.server.decided(outcome);
        match outcome {
            Outcome::Aborted(name) => decide(&mut self.actions, name, &None),
            Outcome::Committed(name, deps) => decide(&mut self.actions, name, &Some(*deps)),
        }
    }

    /// The abort of a child that its parent gives up stands. It takes no memory.
    pub(crate) fn gave_up_stands(&mut self, action: &Name, child: &Name)
        requires room { 1 ≤ (served self.old.server).table.spare }
        requires free { IsFree (answers self.old).actions action.now (wants.GiveUp child.now) }
        ensures { IsDecided (outcomes.Aborted child.now) (decided child.now None (answers self.old).actions)
            (answers self.old) (answers self.new) }
    {
        self.server.decided(&Outcome::Aborted(*child));
        self.actions.give_up(action, child);
    }
}

/// A child is decided, and commits with these dependencies or aborts. A top action is no child.
fn decide(actions: &mut Homed, name: &Name, commit: &Option<Deps>)
    requires { is_top name.now ≡ false → decides_by (at_home actions.old) name.now ≡ true }
    ensures { tranman.AreSame (decides (is_top name.now) name.now commit.now (at_home actions.old)) (at_home actions.new) }
{
    if name.depth() > 1 {
        actions.decide(name, commit);
    }
}

impl Doing {
    /// A decision at a site, with these letters and this note.
    pub(crate) fn decides(
        alloc: Global,
        site: u8,
        outcome: &Outcome,
        sent: SentList,
        note: &Note,
    ) -> Result<Doing, NoMemory>
        ensures { IfOk result (λ doing. doing ≡ deciding site outcome.now sent note.now) }
    {
        let mut deeds = Deeds::new(alloc);
        add_decision(&mut deeds, site, outcome)?;
        Ok(Doing {
            did: Did {
                deeds,
                sent,
                note: *note,
            },
            change: Change::Decided(*outcome),
            adds: Some(record_of(outcome)),
        })
    }
}

/// Adds a decision and the Inform of it at the site.
pub(crate) fn add_decision(deeds: &mut Deeds, site: u8, outcome: &Outcome) -> Result<(), NoMemory>
    ensures { OnOk result (deeds.new ≡ deeds.old ++ decision site outcome.now) }
{
    match outcome {
        Outcome::Aborted(name) => {
            deeds.push_copy(&Deed::Abort { action: *name })?;
            add_inform(deeds, site, name, false)
        }
        Outcome::Committed(name, _) => {
            deeds.push_copy(&Deed::Commit { action: *name })?;
            add_inform(deeds, site, name, true)
        }
    }
}

/// Adds the Inform of an outcome.
fn add_inform(deeds: &mut Deeds, site: u8, name: &Name, committed: bool) -> Result<(), NoMemory>
    ensures { OnOk result (deeds.new ≡ deeds.old ++ Inform site name.now committed ∷ []) }
{
    deeds.push_copy(&Deed::Inform {
        site,
        name: *name,
        committed,
    })
}
