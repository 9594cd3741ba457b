//! *Quit arrives*. Of a child: its parent's home aborts it, where the parent runs there and has not ended, and the child is open; else it is
//! late. Where the parent is an orphan by what it depends on, it is stopped. Of a top action: its home aborts it, and sends News to each other
//! node on which it depends; where it is of another count, or its outcome is known, that is late.
ghost use Rattle.std.specs.Prelude.{◌≡◌, ◌≤◌, true, List, Some, IfOk};
ghost use Rattle.cam_names.specs.Names.{is_top, parent as parent_of};
ghost use Rattle.cam_type.specs.declared.ObjectDecl.{ObjectDecl};
ghost use Rattle.cam_event.specs.declared.Body.TheVariants as bodies;
ghost use Rattle.cam_node.specs.Calls.{answers, AreSame};
ghost use Rattle.cam_node.specs.DecideRules.{is_closed};
ghost use Rattle.cam_node.specs.Planned.{MayBeAdded};
ghost use Rattle.cam_node.specs.Plans.{IsPlanFor};
ghost use Rattle.cam_node.specs.Standing.{MayStand};

use crate::did::Doing;
use crate::plan::Plan;
use crate::state::Core;
use crate::to_others::news_to;
use cam_base::NoMemory;
use cam_event::{Letter, LetterId, Note, SentList};
use cam_know::Outcome;
use cam_names::Name;

impl Core {
    /// A letter Quit of an action comes from a node, 1 to 8: the event that may stand. It fails if memory runs out. What is answered stays
    /// the same until the event stands.
    pub(crate) fn quit_comes(
        &mut self,
        id: &LetterId,
        letter: &Letter,
        action: &Name,
    ) -> Result<Plan, NoMemory>
        requires from { (1 ≤ letter.now.from) × (letter.now.from ≤ 8) }
        requires body { letter.now.body ≡ bodies.Quit action.now }
        ensures same { AreSame (answers self.old) (answers self.new) }
        ensures plan { (objects : List ObjectDecl) → IfOk result (λ plan.
            IsPlanFor objects id.now letter.now self.old self.new plan) }
        ensures may { IfOk result (λ plan. MayStand plan self.new) }
        ensures adds { IfOk result (λ plan. MayBeAdded plan.adds) }
    {
        if action.depth() == 1 {
            return self.top_quits(id, letter, action);
        }
        let parent = action.parent().unwrap();
        self.child_quits(id, letter, action, &parent)
    }

    /// A letter Quit of a child comes from a node, 1 to 8: the event that may stand. It fails if memory runs out. What is answered stays
    /// the same until the event stands.
    fn child_quits(
        &mut self,
        id: &LetterId,
        letter: &Letter,
        child: &Name,
        parent: &Name,
    ) -> Result<Plan, NoMemory>
        requires from { (1 ≤ letter.now.from) × (letter.now.from ≤ 8) }
        requires body { letter.now.body ≡ bodies.Quit child.now }
        requires parent { parent_of child.now ≡ Some parent.now }
        ensures same { AreSame (answers self.old) (answers self.new) }
        ensures plan { (objects : List ObjectDecl) → IfOk result (λ plan.
            IsPlanFor objects id.now letter.now self.old self.new plan) }
        ensures may { IfOk result (λ plan. MayStand plan self.new) }
        ensures adds { IfOk result (λ plan. MayBeAdded plan.adds) }
    {
        let learnt = self.receive(letter)?;
        if !self.actions.decides(child) {
            return self.planned(id, learnt, Doing::nothing_but(self.alloc, &Note::Late));
        }
        match self.orphan_then(parent) {
            Some(reason) => {
                let note = Note::Stopped(*parent, reason);
                self.planned(id, learnt, Doing::nothing_but(self.alloc, &note))
            }
            None => {
                let abort = Outcome::Aborted(*child);
                self.decides(id, learnt, &abort, SentList::new(self.alloc), &Note::Plain)
            }
        }
    }

    /// A letter Quit of a top action of this node comes from a node, 1 to 8: the event that may stand. It fails if memory runs out. What
    /// is answered stays the same until the event stands.
    fn top_quits(&mut self, id: &LetterId, letter: &Letter, action: &Name) -> Result<Plan, NoMemory>
        requires from { (1 ≤ letter.now.from) × (letter.now.from ≤ 8) }
        requires body { letter.now.body ≡ bodies.Quit action.now }
        requires top { is_top action.now ≡ true }
        ensures same { AreSame (answers self.old) (answers self.new) }
        ensures plan { (objects : List ObjectDecl) → IfOk result (λ plan.
            IsPlanFor objects id.now letter.now self.old self.new plan) }
        ensures may { IfOk result (λ plan. MayStand plan self.new) }
        ensures adds { IfOk result (λ plan. MayBeAdded plan.adds) }
    {
        let learnt = self.receive(letter)?;
        if self.is_closed(action) {
            return self.planned(id, learnt, Doing::nothing_but(self.alloc, &Note::Late));
        }
        let sent = news_to(self.alloc, self.number, &self.deps_of(action))?;
        self.decides(id, learnt, &Outcome::Aborted(*action), sent, &Note::Plain)
    }

    /// Whether an action is of another count than the present one, or its outcome is known with the letter.
    pub(crate) fn is_closed(&self, action: &Name) -> bool
        ensures { result ≡ is_closed self.now.count self.now.knowing.known action.now }
    {
        let (_node, count) = action.home();
        let know = self.knowing.know();
        count != self.count || know.is_committed(action) || know.is_aborted(action)
    }
}
