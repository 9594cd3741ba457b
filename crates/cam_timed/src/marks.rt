//! The lines of the marks of a run by time.
ghost use Rattle.std.specs.Prelude.{◌≡◌, ◌++◌, OnOk, string_bytes};
ghost use Rattle.std.specs.List.{flat_map};
ghost use Rattle.cam_timed.specs.TimedReport.{timed_mark_text};

use crate::{TimedMark, TimedMarks};
use cam_base::NoMemory;
use cam_event::Mark;
use cam_report::write_mark;
use std::fmt::Write;

/// Appends a mark's line.
fn write_timed_mark(mark: &TimedMark, out: &mut String) -> Result<(), NoMemory>
    ensures { OnOk result (string_bytes out.new ≡ string_bytes out.old ++ timed_mark_text mark.now) }
{
    match mark {
        TimedMark::Refused { line, refusal } => {
            let untimed = Mark::Refused {
                line: *line,
                refusal: *refusal,
            };
            write_mark(&untimed, out)
        }
        TimedMark::Quiesced {
            line,
            moment,
            until,
        } => {
            writeln!(out, "refused {line} L10 {moment} {until}")?;
            Ok(())
        }
        TimedMark::TooEarly {
            line,
            moment,
            until,
        } => {
            writeln!(out, "refused {line} L11 {moment} {until}")?;
            Ok(())
        }
    }
}

/// Appends the line of each mark, in order.
pub(crate) fn write_timed_marks(marks: &TimedMarks, out: &mut String) -> Result<(), NoMemory>
    ensures { OnOk result (string_bytes out.new ≡ string_bytes out.old ++ flat_map timed_mark_text marks.now) }
{
    for mark in marks.as_slice() {
        write_timed_mark(mark, out)?;
    }
    Ok(())
}
