//! *Tell*: a node tells another node what it knows, by a letter News. Nothing else happens.
ghost use Rattle.std.specs.Prelude.{◌≡◌, ◌≤◌, List, None, IfOk};
ghost use Rattle.cam_type.specs.declared.ObjectDecl.{ObjectDecl};
ghost use Rattle.cam_event.specs.Inputs.{Tells};
ghost use Rattle.cam_event.specs.Loads.{no_load};
ghost use Rattle.cam_node.specs.Calls.{answers, letters_of};
ghost use Rattle.cam_node.specs.Halting.{IsStepThrough};

use crate::Stepped;
use crate::state::Core;
use cam_base::NoMemory;
use cam_event::Body;

impl Core {
    /// It tells another node, 1 to 8, what it knows. It fails if memory runs out. What is answered stays the same.
    pub(crate) fn tell(&mut self, to: u8) -> Result<Stepped, NoMemory>
        requires { (1 ≤ to) × (to ≤ 8) }
        ensures step { (objects : List ObjectDecl) → IfOk result (λ stepped. IsStepThrough objects
            (answers self.old) (answers self.new) (Tells self.old.number to) None no_load stepped.event) }
        ensures letters { IfOk result (λ stepped.
            stepped.letters ≡ letters_of (answers self.new) stepped.event.sent) }
        ensures same { answers self.new ≡ answers self.old }
    {
        self.settle()?;
        let stepped = self.sends(to, &Body::News)?;
        Ok(stepped)
    }
}
