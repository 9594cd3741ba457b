//! The lines of the events that paused.
ghost use Rattle.std.specs.Prelude.{◌≡◌, ◌++◌, List, OnOk, reverse, string_bytes};
ghost use Rattle.cam_timed.specs.declared.TimedEvent.{TimedEvent as TimedEventFields};
ghost use Rattle.cam_timed.specs.TimedReport.{pause_text, pauses_text};
ghost use Rattle.cam_timed.specs.Untils.{TellsUntils};

use crate::untils::{Untils, until_of, untils_of};
use crate::{Pause, TimedEvent, TimedTrace};
use cam_base::NoMemory;
use std::alloc::Global;
use std::fmt::Write;

/// Appends the line of the event of this number, if it paused.
fn write_pause(
    alloc: Global,
    number: usize,
    event: &TimedEvent,
    untils: &Untils,
    out: &mut String,
) -> Result<(), NoMemory>
    ensures { OnOk result ((t : List TimedEventFields) → TellsUntils t untils.now → string_bytes out.new ≡ string_bytes out.old ++ pause_text t number event.now.moment event.now.pause) }
{
    let (word, action) = match &event.pause {
        None => return Ok(()),
        Some(Pause::Quiet(action)) => ("quiet", action),
        Some(Pause::Early(action)) => ("early", action),
    };
    write!(out, "{word} {number} ")?;
    action.write_text(alloc, out)?;
    writeln!(out, " {} {}", event.moment, until_of(untils, action))?;
    Ok(())
}

/// Appends the line of each event that paused, in order.
pub(crate) fn write_pauses(
    alloc: Global,
    timed: &TimedTrace,
    out: &mut String,
) -> Result<(), NoMemory>
    ensures { OnOk result (string_bytes out.new ≡ string_bytes out.old ++ pauses_text (reverse timed.now) (reverse timed.now)) }
{
    let untils = untils_of(alloc, timed)?;
    for (number, event) in timed.as_slice().iter().enumerate() {
        write_pause(alloc, number, event, &untils, out)?;
    }
    Ok(())
}
