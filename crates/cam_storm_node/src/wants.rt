//! What an action of a storm may ask for.
ghost use Rattle.std.specs.Prelude.{◌↔◌, IsTrue};
ghost use Rattle.cam_event.specs.Runs.{IsWant};
ghost use Rattle.cam_gen.specs.Storms.{objects_of};

use cam_event::Want;
use cam_gen::Storm;
use cam_type::{Kind, fits};

/// Whether it is in range for an action of the storm: a child at one of the eight nodes, or a call
/// of one of the registers.
pub(crate) fn has_want(storm: &Storm, want: &Want) -> bool
    ensures { IsTrue result ↔ IsWant (objects_of storm.now) want.now }
{
    match want {
        Want::Ask(node) => 1 <= *node && *node <= 8,
        Want::Call(object, op) => {
            u32::from(*object) < storm.registers() && fits(Kind::Register, op)
        }
        Want::Commit(_) | Want::Abort | Want::GiveUp(_) => true,
    }
}
