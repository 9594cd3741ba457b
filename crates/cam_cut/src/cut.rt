//! The deeds of some events of a trace.
ghost use Rattle.std.specs.Prelude.{◌≡◌, length, reverse, IfOk};
ghost use Rattle.cam_event.specs.Pasts.{plain};
ghost use Rattle.cam_plain.specs.Legal.{history};
ghost use Rattle.cam_cut.specs.Kept.{is_kept};
ghost use Rattle.cam_cut.specs.Law.{IsLegalCut, IsLegalHaltedCut};

use cam_base::NoMemory;
use cam_event::{Deeds, Trace};
use std::alloc::Global;

/// The deeds of the events that are kept, in the order of the trace. `keep` has a flag for each event:
/// those whose flag is true are kept. Where the trace is a run, also one in which nodes halt, and the
/// kept events have with each event its past, these deeds are a legal history of plain nested
/// transactions. The time is linear in the deeds of the trace; it fails only if memory runs out.
pub fn cut_deeds(alloc: Global, trace: &Trace, keep: &[bool]) -> Result<Deeds, NoMemory>
    requires flags { length keep.now ≡ length trace.now }
    ensures exact { IfOk result
        (λ deeds. history deeds ≡ plain (reverse trace.now) (is_kept keep.now)) }
    ensures legal { IfOk result
        (λ deeds. IsLegalCut (reverse trace.now) (is_kept keep.now) (history deeds)) }
    ensures halted_legal { IfOk result
        (λ deeds. IsLegalHaltedCut (reverse trace.now) (is_kept keep.now) (history deeds)) }
{
    let mut deeds = Deeds::new(alloc);
    for (number, event) in trace.as_slice().iter().enumerate() {
        if keep[number] {
            deeds.extend_from_slice(event.deeds.as_slice())?;
        }
    }
    Ok(deeds)
}
