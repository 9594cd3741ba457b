//! The answer by a script by time that a source gives: the report of its run, or the line of its first fault. No disk serves such a run.
ghost use Rattle.std.specs.Prelude.{◌≡◌, ◌⊎◌, [], IfOk};
ghost use Rattle.cam_base.specs.Causes.{Rose};
ghost use Rattle.cam_base.specs.Told.{IfTold};
ghost use Rattle.cam_timed.specs.TimedGrammar.{read_timed};
ghost use Rattle.cam_timed.specs.TimedRange.{IsTimedScript};
ghost use Rattle.cam_timed.specs.TimedReport.{timed_text};
ghost use Rattle.cam_run.specs.declared.status.Status.TheVariants as statuses;
ghost use Rattle.cam_run.specs.Status.{number};
ghost use Rattle.cam_run.specs.Told.{IsTelling};
ghost use Rattle.cam_run.specs.Answer.{IsOfFault, IsOfTimed};

use crate::answer::{Answer, read_fault};
use crate::script::{refusal, too_long};
use crate::status::Status;
use cam_base::NoMemory;
use cam_io::{ReadFault, Source, read_all};
use cam_script::MOST_BYTES;
use cam_timed::{TimedScript, parse_timed, timed, timed_text};
use std::alloc::Global;

/// The answer by the script by time that the source gives.
pub(crate) fn of_timed<S: Source>(alloc: Global, source: &mut S) -> Result<Answer, NoMemory>
    ensures answer { IfTold (S.left source.old) (S.left source.new) (λ input _.
        IfOk result (λ a. (Rose (S.faults source.old) (S.faults source.new)
        × IsOfFault (number a.status) a.text.items)
        ⊎ IsOfTimed (read_timed input) (number a.status) a.text.items)) }
    ensures statuses { IfOk result
        (λ a. IsTelling a.status
        ⊎ ((a.status ≡ statuses.Refused) ⊎ (a.status ≡ statuses.ReadFault))) }
    ensures read_fault { IfOk result
        (λ a. a.status ≡ statuses.ReadFault → Rose (S.faults source.old) (S.faults source.new)) }
    ensures read { IfTold (S.left source.old) (S.left source.new)
        (λ _ rest. IfOk result (λ a. IsTelling a.status → rest ≡ [])) }
{
    match read_all(alloc, source, MOST_BYTES) {
        Ok(bytes) => of_bytes(alloc, &bytes),
        Err(ReadFault::TooLarge) => too_long(alloc),
        Err(ReadFault::Failed) => read_fault(alloc),
        Err(ReadFault::NoMemory) => Err(NoMemory),
    }
}

/// The answer by the script by time that the bytes spell, or by its first fault.
fn of_bytes(alloc: Global, bytes: &[u8]) -> Result<Answer, NoMemory>
    ensures answer { IfOk result
        (λ a. IsOfTimed (read_timed bytes.now) (number a.status) a.text.items) }
    ensures statuses { IfOk result
        (λ a. IsTelling a.status ⊎ (a.status ≡ statuses.Refused)) }
{
    match parse_timed(alloc, bytes) {
        Ok(script) => report(alloc, &script),
        Err(fault) => refusal(alloc, fault),
    }
}

/// The report of the run by time of a script.
fn report(alloc: Global, script: &TimedScript) -> Result<Answer, NoMemory>
    requires { IsTimedScript script.now }
    ensures text { IfOk result (λ a. a.text.items ≡ timed_text script.now) }
    ensures status { IfOk result (λ a. a.status ≡ statuses.Done) }
{
    let run = timed(alloc, script)?;
    Ok(Answer {
        status: Status::Done,
        text: timed_text(alloc, script, &run)?.into_bytes(),
    })
}
