//! Values that are handed up past the top.
ghost use Rattle.std.specs.Prelude.{◌≡◌, IfOk};
ghost use Rattle.cam_event.specs.Settled.{settled};
ghost use Rattle.cam_plain.specs.Legal.{history};

use cam_base::NoMemory;
use cam_event::Deeds;
use cam_live::{settled, value_after};
use cam_type::{Objects, State};
use std::alloc::Global;

/// The value of an object that is handed up past the top, after these deeds: its live operations
/// whose lift is past the top, applied in order from its start state.
pub fn site_value(
    alloc: Global,
    deeds: &Deeds,
    objects: &Objects,
    object: u8,
) -> Result<State, NoMemory>
    ensures { IfOk result (λ state. state ≡ settled objects.now (history deeds.now) object) }
{
    let operations = settled(alloc, deeds, objects)?;
    let state = value_after(objects, object as usize, &operations)?;
    Ok(state)
}
