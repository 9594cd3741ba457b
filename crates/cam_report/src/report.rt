//! The whole report.
ghost use Rattle.std.specs.Prelude.{◌≡◌, IfOk, string_bytes};
ghost use Rattle.cam_report.specs.Records.{record_report};

use crate::action::write_actions;
use crate::deeds::deeds_of;
use crate::marks::write_marks;
use crate::stops::write_stops;
use crate::values::write_values;
use cam_base::NoMemory;
use cam_event::RunRecord;
use cam_script::Script;
use std::alloc::Global;

/// The report of a run: the created actions in order of names, each with its view; the stops in
/// order of events; the marks in order of lines; and the value of each object.
pub fn report_text(alloc: Global, script: &Script, run: &RunRecord) -> Result<String, NoMemory>
    ensures { IfOk result (λ text. string_bytes text ≡ record_report script.now run.now) }
{
    let deeds = deeds_of(alloc, &run.trace)?;
    let mut text = String::new(alloc);
    write_actions(alloc, &script.labels, deeds.as_slice(), &mut text)?;
    write_stops(alloc, &run.trace, &mut text)?;
    write_marks(&run.marks, &mut text)?;
    write_values(alloc, script, &deeds, &mut text)?;
    Ok(text)
}
