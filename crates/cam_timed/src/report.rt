//! The report of a run by time.
ghost use Rattle.std.specs.Prelude.{◌≡◌, IfOk, string_bytes};
ghost use Rattle.cam_timed.specs.Records.{IsRecordOf, record_text};
ghost use Rattle.cam_timed.specs.TimedReport.{timed_text};

use crate::events::plain_trace;
use crate::marks::write_timed_marks;
use crate::pauses::write_pauses;
use crate::{TimedRecord, TimedScript};
use cam_base::NoMemory;
use cam_report::{deeds_of, write_actions, write_values};
use std::alloc::Global;

/// The report of a run by time: the created actions in order of names, each with its view; the events
/// that paused, each with the moment and the quiesce moment that decided; the marks in order of lines;
/// and the value of each object. Of the record of a script's run it is the script's text.
pub fn timed_text(
    alloc: Global,
    script: &TimedScript,
    run: &TimedRecord,
) -> Result<String, NoMemory>
    ensures exact { IfOk result (λ text. string_bytes text ≡ record_text script.now run.now) }
    ensures text { IfOk result (λ text. IsRecordOf script.now run.now → string_bytes text ≡ timed_text script.now) }
{
    let plain = plain_trace(alloc, &run.trace)?;
    let deeds = deeds_of(alloc, &plain)?;
    let mut text = String::new(alloc);
    write_actions(alloc, &script.script.labels, deeds.as_slice(), &mut text)?;
    write_pauses(alloc, &run.trace, &mut text)?;
    write_timed_marks(&run.marks, &mut text)?;
    write_values(alloc, &script.script, &deeds, &mut text)?;
    Ok(text)
}
