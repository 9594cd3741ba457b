//! *News arrives*: the first Informs alone.
ghost use Rattle.std.specs.Prelude.{◌≡◌, ◌≤◌, List, None, IfOk};
ghost use Rattle.cam_type.specs.declared.ObjectDecl.{ObjectDecl};
ghost use Rattle.cam_event.specs.declared.Body.TheVariants as bodies;
ghost use Rattle.cam_node.specs.Calls.{answers, AreSame};
ghost use Rattle.cam_node.specs.Plans.{IsPlanFor};
ghost use Rattle.cam_node.specs.Standing.{MayStand};

use crate::did::Doing;
use crate::plan::Plan;
use crate::state::Core;
use cam_base::NoMemory;
use cam_event::{Letter, LetterId, Note};

impl Core {
    /// A letter News of a node, 1 to 8, comes: the event that may stand. It fails where memory runs
    /// out. What is answered stays the same until the event stands.
    pub(crate) fn news_comes(&mut self, id: &LetterId, letter: &Letter) -> Result<Plan, NoMemory>
        requires from { (1 ≤ letter.now.from) × (letter.now.from ≤ 8) }
        requires body { letter.now.body ≡ bodies.News }
        ensures same { AreSame (answers self.old) (answers self.new) }
        ensures plan { (objects : List ObjectDecl) → IfOk result (λ plan.
            IsPlanFor objects id.now letter.now self.old self.new plan) }
        ensures may { IfOk result (λ plan. MayStand plan self.new) }
        ensures adds { IfOk result (λ plan. plan.adds ≡ None) }
    {
        let learnt = self.receive(letter)?;
        self.planned(id, learnt, Doing::nothing_but(self.alloc, &Note::Plain))
    }
}
