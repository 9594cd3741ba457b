//! Where objects stand, and what operations make of them.
ghost use Rattle.std.specs.Prelude.{◌≡◌, IfOk, filter, eqb};
ghost use Rattle.cam_event.specs.Live.{start_of, replay};

use crate::performed::Operations;
use cam_base::NoMemory;
use cam_type::{Objects, State, apply, start_of};

/// The state of an object after those of the operations that are its own, applied in their order
/// from its start state. It fails only if memory runs out.
pub fn value_after(
    objects: &Objects,
    object: usize,
    operations: &Operations,
) -> Result<State, NoMemory>
    ensures { IfOk result (λ state.
        state
        ≡ replay (start_of objects.now object) (filter (λ o. eqb o.object object) operations.now)) }
{
    let mut state = start_of(objects, object)?;
    for operation in operations.as_slice() {
        if operation.object as usize == object {
            apply(&mut state, &operation.op)?;
        }
    }
    Ok(state)
}
