//! A letter comes that is no call: its body says which rule it is of. Each rule stands in a file of
//! its own.
ghost use Rattle.std.specs.Prelude.{◌≤◌, List, IsFalse, IfOk};
ghost use Rattle.cam_type.specs.declared.ObjectDecl.{ObjectDecl};
ghost use Rattle.cam_node.specs.Calls.{answers, AreSame};
ghost use Rattle.cam_node.specs.MayStep.{HasFewObjects};
ghost use Rattle.cam_node.specs.Planned.{MayBeAdded};
ghost use Rattle.cam_node.specs.Plans.{IsPlanFor};
ghost use Rattle.cam_node.specs.Standing.{MayStand};
ghost use Rattle.cam_node.specs.Served.{is_call};

use crate::plan::Plan;
use crate::state::Core;
use cam_base::NoMemory;
use cam_event::{Body, Letter, LetterId};

impl Core {
    /// A letter of a node, 1 to 8, comes that is no call: the event that may stand. It fails where
    /// memory runs out. What is answered stays the same until the event stands.
    pub(crate) fn comes(&mut self, id: &LetterId, letter: &Letter) -> Result<Plan, NoMemory>
        requires from { (1 ≤ letter.now.from) × (letter.now.from ≤ 8) }
        requires few { HasFewObjects (answers self.old) letter.now.body }
        requires no_call { IsFalse (is_call letter.now.body) }
        ensures same { AreSame (answers self.old) (answers self.new) }
        ensures plan { (objects : List ObjectDecl) → IfOk result (λ plan.
            IsPlanFor objects id.now letter.now self.old self.new plan) }
        ensures may { IfOk result (λ plan. MayStand plan self.new) }
        ensures adds { IfOk result (λ plan. MayBeAdded plan.adds) }
    {
        match &letter.body {
            Body::Start { child, deps } => self.start_comes(id, letter, child, deps),
            Body::Answer {
                action,
                number,
                reply,
            } => self.answer_comes(id, letter, action, *number, reply),
            Body::Finish { action, deps, .. } => self.finish_comes(id, letter, action, deps),
            Body::Quit { action } => self.quit_comes(id, letter, action),
            Body::Prepare { family, count } => self.prepare_comes(id, letter, family, *count),
            Body::Vote { family, count, yes } => {
                self.vote_comes(id, letter, family, *count, *yes)
            }
            Body::Query { family } => self.query_comes(id, letter, family),
            Body::News => self.news_comes(id, letter),
            Body::Call { .. } => unreachable!(),
        }
    }
}
