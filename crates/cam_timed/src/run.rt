//! The run by time of a script, made.
ghost use Rattle.std.specs.Prelude.{IfOk, reverse};
ghost use Rattle.cam_timed.specs.Records.{IsRecordOf};
ghost use Rattle.cam_timed.specs.TimedRange.{IsTimedInRange};
ghost use Rattle.cam_timed.specs.TimedRuns.{IsTimedRun};

use crate::course::Course;
use crate::{TimedRecord, TimedScript};
use cam_base::NoMemory;
use std::alloc::Global;

/// The run by time of a script in the grammar's ranges, as each accepted script is: its events, the
/// oldest first, and its marks. It fails only if memory runs out.
pub fn timed(alloc: Global, script: &TimedScript) -> Result<TimedRecord, NoMemory>
    requires { IsTimedInRange script.now }
    ensures run { IfOk result (IsRecordOf script.now) }
    ensures legal { IfOk result (λ made.
        IsTimedRun script.now.script.objects (reverse made.trace)) }
{
    let mut course = Course::new(alloc)?;
    for step in script.steps.as_slice() {
        course.take(&script.script.objects, step)?;
    }
    let Course { machine, marks, .. } = course;
    Ok(TimedRecord {
        trace: machine.into_trace(),
        marks,
    })
}
