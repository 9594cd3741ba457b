//! *Query*: a site asks the home of a family how the family ended, by a letter Query. Nothing else happens. It has nothing to ask where it
//! knows the outcome, or has neither secured the family nor a live operation of it.
ghost use Rattle.std.specs.Prelude.{◌≡◌, List, None, IfOk};
ghost use Rattle.cam_type.specs.declared.ObjectDecl.{ObjectDecl};
ghost use Rattle.cam_event.specs.Inputs.{Queries};
ghost use Rattle.cam_event.specs.Loads.{no_load};
ghost use Rattle.cam_node.specs.Calls.{answers, letters_of};
ghost use Rattle.cam_node.specs.Halting.{IsStepThrough};

use crate::Stepped;
use crate::homes::home_of;
use crate::state::Core;
use cam_base::NoMemory;
use cam_event::Body;
use cam_names::Name;

impl Core {
    /// It asks the home of a family how the family ended. It fails if memory runs out. What is answered stays the same.
    pub(crate) fn query(&mut self, family: &Name) -> Result<Stepped, NoMemory>
        ensures step { (objects : List ObjectDecl) → IfOk result (λ stepped. IsStepThrough objects
            (answers self.old) (answers self.new) (Queries self.old.number family.now) None no_load stepped.event) }
        ensures letters { IfOk result (λ stepped.
            stepped.letters ≡ letters_of (answers self.new) stepped.event.sent) }
        ensures same { answers self.new ≡ answers self.old }
    {
        self.settle()?;
        let home = home_of(family);
        let stepped = self.sends(home, &Body::Query { family: *family })?;
        Ok(stepped)
    }
}
