//! The deeds of a run.
ghost use Rattle.std.specs.Prelude.{◌≡◌, IfOk};
ghost use Rattle.std.specs.List.{flat_map};

use cam_base::NoMemory;
use cam_event::{Deeds, Trace};
use std::alloc::Global;

/// The deeds of all events, in order.
pub fn deeds_of(alloc: Global, trace: &Trace) -> Result<Deeds, NoMemory>
    ensures { IfOk result (λ deeds. deeds ≡ flat_map (λ event. event.deeds) trace.now) }
{
    let mut deeds = Deeds::new(alloc);
    for event in trace.as_slice() {
        deeds.extend_from_slice(event.deeds.as_slice())?;
    }
    Ok(deeds)
}
