//! The events that stopped an action.
ghost use Rattle.std.specs.Prelude.{◌≡◌, ◌++◌, OnOk, reverse, string_bytes};
ghost use Rattle.cam_report.specs.Report.{stop_text, stops_text};

use crate::words::write_reason;
use cam_base::NoMemory;
use cam_event::{Note, Trace};
use std::alloc::Global;
use std::fmt::Write;

/// Appends the line of the event of this number, if it stopped an action.
#[tactic(auto, using(crate::proofs::Spaced::words_reason))]
pub(crate) fn write_stop(
    alloc: Global,
    number: usize,
    note: &Note,
    out: &mut String,
) -> Result<(), NoMemory>
    ensures { OnOk result (string_bytes out.new ≡ string_bytes out.old
        ++ stop_text number note.now) }
{
    if let Note::Stopped(action, reason) = note {
        write!(out, "stop {number} ")?;
        action.write_text(alloc, out)?;
        out.push_str(" ")?;
        write_reason(alloc, reason, out)?;
        writeln!(out)?;
    }
    Ok(())
}

/// Appends the line of each event that stopped an action, in order.
pub(crate) fn write_stops(alloc: Global, trace: &Trace, out: &mut String) -> Result<(), NoMemory>
    ensures { OnOk result (string_bytes out.new ≡ string_bytes out.old
        ++ stops_text (reverse trace.now)) }
{
    for (number, event) in trace.as_slice().iter().enumerate() {
        write_stop(alloc, number, &event.note, out)?;
    }
    Ok(())
}
