//! The events of a run by time, without their moments.
ghost use Rattle.std.specs.Prelude.{◌≡◌, IfOk, reverse};
ghost use Rattle.cam_timed.specs.Moments.{events};

use crate::TimedTrace;
use cam_base::NoMemory;
use cam_event::{Trace, copy_event};
use std::alloc::Global;

/// A copy of the events, in order.
pub(crate) fn plain_trace(alloc: Global, timed: &TimedTrace) -> Result<Trace, NoMemory>
    ensures { IfOk result (λ plain. reverse plain ≡ events (reverse timed.now)) }
{
    let mut plain = Trace::new(alloc);
    for event in timed.as_slice() {
        plain.push(copy_event(&event.event)?)?;
    }
    Ok(plain)
}
