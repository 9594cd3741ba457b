//! *Finish arrives*. Of a child: its parent's home decides it, where the parent runs there and has not ended, and the child is open; else it
//! is late. Where the parent is an orphan by what it depends on, it is stopped. A child that is an orphan by what it depends on aborts; else it
//! commits, and its parent depends on what it depended on.
//!
//! Of a top action: its home prepares it at each node on which it depends, or aborts it where it is an orphan by that, and sends News to each
//! other node of these. Where it is of another count, its outcome is known or it is preparing, that is late.
ghost use Rattle.std.specs.Prelude.{◌≡◌, ◌≤◌, true, false, List, Some, IfOk};
ghost use Rattle.cam_names.specs.Dependencies.{pairs_of};
ghost use Rattle.cam_names.specs.Names.{is_top, parent as parent_of};
ghost use Rattle.cam_know.specs.Orphans.{known_orphan};
ghost use Rattle.cam_type.specs.declared.ObjectDecl.{ObjectDecl};
ghost use Rattle.cam_node.specs.Calls.{answers, AreSame};
ghost use Rattle.cam_comman.specs.Letters.{IsWithin};
ghost use Rattle.cam_tranman.specs.Actions.{deps};
ghost use Rattle.cam_node.specs.DecideRules.{IsFinish, note_of, outcome_of, prepare_to};
ghost use Rattle.cam_node.specs.Planning.{IsMade};
ghost use Rattle.cam_node.specs.Planned.{MayBeAdded};
ghost use Rattle.cam_node.specs.Plans.{IsPlanFor};
ghost use Rattle.cam_node.specs.Standing.{preparing, HasRoom, MayStand};
ghost use Rattle.cam_node.specs.Preparing.{HasBegun};

use crate::did::{Did, Doing};
use crate::learning::Learnt;
use crate::plan::{Change, Plan};
use crate::state::Core;
use crate::to_others::{news_to, prepare_to};
use cam_base::NoMemory;
use cam_event::{Deeds, Letter, LetterId, Note, SentList};
use cam_know::Outcome;
use cam_names::{Deps, Name};
use cam_orphan::orphan;

impl Core {
    /// A letter Finish of an action, which depends on these, comes from a node, 1 to 8: the event that may stand. It fails if memory runs out.
    /// What is answered stays the same until the event stands.
    pub(crate) fn finish_comes(
        &mut self,
        id: &LetterId,
        letter: &Letter,
        action: &Name,
        deps: &Deps,
    ) -> Result<Plan, NoMemory>
        requires from { (1 ≤ letter.now.from) × (letter.now.from ≤ 8) }
        requires body { IsFinish action.now deps.now letter.now.body }
        ensures same { AreSame (answers self.old) (answers self.new) }
        ensures plan { (objects : List ObjectDecl) → IfOk result (λ plan.
            IsPlanFor objects id.now letter.now self.old self.new plan) }
        ensures may { IfOk result (λ plan. MayStand plan self.new) }
        ensures adds { IfOk result (λ plan. MayBeAdded plan.adds) }
    {
        if action.depth() == 1 {
            return self.top_finishes(id, letter, action, deps);
        }
        let parent = action.parent().unwrap();
        self.child_finishes(id, letter, action, &parent, deps)
    }

    /// A letter Finish of a child, which depends on these, comes from a node, 1 to 8: the event that may stand. It fails if memory runs out.
    /// What is answered stays the same until the event stands.
    fn child_finishes(
        &mut self,
        id: &LetterId,
        letter: &Letter,
        child: &Name,
        parent: &Name,
        deps: &Deps,
    ) -> Result<Plan, NoMemory>
        requires from { (1 ≤ letter.now.from) × (letter.now.from ≤ 8) }
        requires body { IsFinish child.now deps.now letter.now.body }
        requires parent { parent_of child.now ≡ Some parent.now }
        ensures same { AreSame (answers self.old) (answers self.new) }
        ensures plan { (objects : List ObjectDecl) → IfOk result (λ plan.
            IsPlanFor objects id.now letter.now self.old self.new plan) }
        ensures may { IfOk result (λ plan. MayStand plan self.new) }
        ensures adds { IfOk result (λ plan. MayBeAdded plan.adds) }
    {
        // Only for the proof: these are eight counts.
        let _counts = deps.counts();
        let learnt = self.receive(letter)?;
        if !self.actions.decides(child) {
            return self.planned(id, learnt, Doing::nothing_but(self.alloc, &Note::Late));
        }
        match self.orphan_then(parent) {
            Some(reason) => {
                let note = Note::Stopped(*parent, reason);
                self.planned(id, learnt, Doing::nothing_but(self.alloc, &note))
            }
            None => {
                let (outcome, note) = self.ends_so(child, deps);
                self.decides(id, learnt, &outcome, SentList::new(self.alloc), &note)
            }
        }
    }

    /// A letter Finish of a top action of this node, which depends on these, comes from a node, 1 to 8: the event that may stand. It fails where
    /// memory runs out. What is answered stays the same until the event stands.
    fn top_finishes(
        &mut self,
        id: &LetterId,
        letter: &Letter,
        action: &Name,
        deps: &Deps,
    ) -> Result<Plan, NoMemory>
        requires from { (1 ≤ letter.now.from) × (letter.now.from ≤ 8) }
        requires body { IsFinish action.now deps.now letter.now.body }
        requires top { is_top action.now ≡ true }
        ensures same { AreSame (answers self.old) (answers self.new) }
        ensures plan { (objects : List ObjectDecl) → IfOk result (λ plan.
            IsPlanFor objects id.now letter.now self.old self.new plan) }
        ensures may { IfOk result (λ plan. MayStand plan self.new) }
        ensures adds { IfOk result (λ plan. MayBeAdded plan.adds) }
    {
        // Only for the proof: these are eight counts.
        let _counts = deps.counts();
        let learnt = self.receive(letter)?;
        if self.is_closed(action) || self.families.is_preparing(action) {
            return self.planned(id, learnt, Doing::nothing_but(self.alloc, &Note::Late));
        }
        match self.orphan_then(action) {
            Some(reason) => {
                let note = Note::Stopped(*action, reason);
                let sent = news_to(self.alloc, self.number, &self.deps_of(action))?;
                self.decides(id, learnt, &Outcome::Aborted(*action), sent, &note)
            }
            None => self.prepares(id, learnt, action),
        }
    }

    /// The plan of a letter by which a family, which is not preparing, is prepared at each node on which it depends.
    fn prepares(&mut self, id: &LetterId, learnt: Learnt, family: &Name) -> Result<Plan, NoMemory>
        requires within { IsWithin self.old.knowing.known learnt.heard.places }
        requires room { HasRoom (Some learnt.heard) self.old.server }
        requires begins { (answers self.old).families.is_preparing family.now ≡ false }
        ensures same { AreSame (answers self.old) (answers self.new) }
        ensures actions { (answers self.new).actions ≡ (answers self.old).actions }
        ensures knows { self.new.knowing.known ≡ self.old.knowing.known }
        ensures made { IfOk result (λ plan. IsMade self.new id.now learnt
            (preparing family.now (prepare_to family.now (deps (answers self.old).actions family.now))) plan) }
        ensures may { IfOk result (λ plan. MayStand plan self.new) }
        ensures adds { IfOk result (λ plan. MayBeAdded plan.adds) }
    {
        self.families.reserve()?;
        let sent = prepare_to(self.alloc, family, &self.deps_of(family))?;
        let did = Did {
            deeds: Deeds::new(self.alloc),
            sent,
            note: Note::Preparing(*family),
        };
        let doing = Doing {
            did,
            change: Change::Prepared(*family),
            adds: None,
        };
        self.planned(id, learnt, doing)
    }

    /// The family is preparing, where what a letter brought stands already. It takes no memory.
    pub(crate) fn preparation_stands(&mut self, family: &Name)
        requires room { 1 ≤ (answers self.old).families.room }
        requires begins { (answers self.old).families.is_preparing family.now ≡ false }
        ensures { HasBegun family.now (answers self.old) (answers self.new) }
    {
        self.families.prepare(family);
    }

    /// How a child that finishes ends, and what its event has to say: it commits, and depends on these, or it aborts for an orphan.
    fn ends_so(&self, child: &Name, deps: &Deps) -> (Outcome, Note)
        ensures outcome { result.0 ≡ outcome_of child.now deps.now
            (known_orphan self.now.knowing.known child.now (pairs_of deps.now)) }
        ensures note { result.1 ≡ note_of child.now
            (known_orphan self.now.knowing.known child.now (pairs_of deps.now)) }
    {
        match orphan(self.knowing.know(), child, deps) {
            None => (Outcome::Committed(*child, *deps), Note::Plain),
            Some(reason) => (Outcome::Aborted(*child), Note::Stopped(*child, reason)),
        }
    }
}
