//! What a command asks of the run of a script, and the answer.
ghost use Rattle.std.specs.Prelude.{◌≡◌, ◌≤◌, IfOk, drop, length, reverse};
ghost use Rattle.cam_script.specs.Law.{IsScript};
ghost use Rattle.cam_cluster.specs.HandedBack.{AreHandedBack};
ghost use Rattle.cam_run.specs.declared.question.Question.TheVariants as questions;
ghost use Rattle.cam_run.specs.Status.{number};
ghost use Rattle.cam_run.specs.declared.status.Status.TheVariants as statuses;
ghost use Rattle.cam_run.specs.Told.{ComesOfRun, IsTold, IsTelling};
ghost use Rattle.cam_why.specs.Causes.{IsWhole};
ghost use Rattle.cam_run.specs.Disks.{FailedAt, OneFailed, disks_left};
ghost use Rattle.cam_run.specs.Answer.{IsOfRun};

use crate::answer::{Answer, disk_fault};
use crate::running::run;
use crate::status::Status;
use cam_base::NoMemory;
use cam_cluster::{RunFault, Servers};
use cam_cut::CutFault;
use cam_disk::TellingDisk;
use cam_event::RunRecord;
use cam_gen::digest_text;
use cam_names::Name;
use cam_report::{report_text, summary_text, trace_text, why_text, witness_text};
use cam_script::Script;
use cam_type::DataType;
use cam_why::WhyFault;
use std::alloc::Global;

/// What is asked of the run of a script.
#[derive(Clone, Copy, Debug)]
pub(crate) enum Question {
    /// What each action saw, and what the objects hold.
    Report,
    /// The events.
    Trace,
    /// What an action saw, as a serial execution.
    Witness(Name),
    /// Why the event of this number stopped an action.
    Why(u32),
    /// The numbers of the run of a script of so many steps.
    Summary(u32),
}

impl Question {
    /// The answer, by the run of the script over the first of the disks, one for each of its nodes.
    pub(crate) fn answer<D: TellingDisk, R: DataType, Q: DataType, C: DataType>(
        &self,
        alloc: Global,
        script: &Script,
        disks: &mut Vec<D>,
        servers: &mut Servers<R, Q, C>,
    ) -> Result<Answer, NoMemory>
        requires script { IsScript script.now }
        requires enough { script.now.nodes ≤ length disks.old.items }
        ensures answer { IfOk result (λ a. IsOfRun self.now script.now
            (disks_left D.tells D.faults D.moment D.left_since disks.old.items disks.new.items)
            (number a.status) a.text.items) }
        ensures statuses { IfOk result (λ a. ComesOfRun a.status) }
        ensures disk_fault { IfOk result (λ a. a.status ≡ statuses.DiskFault
            → OneFailed script.now.nodes (FailedAt D.faults disks.old.items disks.new.items)) }
        ensures back { AreHandedBack D.tells D.faults disks.old.items disks.new.items }
        ensures others { drop script.now.nodes disks.new.items
            ≡ drop script.now.nodes disks.old.items }
    {
        match run(alloc, script, disks, servers) {
            Ok(record) => self.tell(alloc, script, &record),
            Err(RunFault::DiskFault(node)) => disk_fault(alloc, node),
            Err(RunFault::NoMemory) => Err(NoMemory),
        }
    }

    /// What is told of the run of the script.
    fn tell(&self, alloc: Global, script: &Script, run: &RunRecord) -> Result<Answer, NoMemory>
        requires { IsWhole (reverse run.now.trace) }
        ensures told { IfOk result
            (λ a. IsTold self.now script.now (reverse run.now.trace) run.now.marks
            (number a.status) a.text.items) }
        ensures telling { IfOk result (λ a. IsTelling a.status) }
    {
        match self {
            Question::Report => report(alloc, script, run),
            Question::Trace => trace(alloc, script, run),
            Question::Witness(name) => witness(alloc, script, run, name),
            Question::Why(event) => why(alloc, script, run, *event),
            Question::Summary(steps) => summary(alloc, script, run, *steps),
        }
    }
}

/// The report of a run.
fn report(alloc: Global, script: &Script, run: &RunRecord) -> Result<Answer, NoMemory>
    ensures told { IfOk result
        (λ a. IsTold questions.Report script.now (reverse run.now.trace) run.now.marks
        (number a.status) a.text.items) }
    ensures telling { IfOk result (λ a. IsTelling a.status) }
{
    Ok(Answer {
        status: Status::Done,
        text: report_text(alloc, script, run)?.into_bytes(),
    })
}

/// The events of a run.
fn trace(alloc: Global, script: &Script, run: &RunRecord) -> Result<Answer, NoMemory>
    ensures told { IfOk result
        (λ a. IsTold questions.Trace script.now (reverse run.now.trace) run.now.marks
        (number a.status) a.text.items) }
    ensures telling { IfOk result (λ a. IsTelling a.status) }
{
    Ok(Answer {
        status: Status::Done,
        text: trace_text(alloc, script, run)?.into_bytes(),
    })
}

/// The witness of an action, if it was created in the run.
fn witness(alloc: Global, script: &Script, run: &RunRecord, name: &Name) -> Result<Answer, NoMemory>
    ensures told { IfOk result
        (λ a. IsTold (questions.Witness name.now) script.now (reverse run.now.trace) run.now.marks
        (number a.status) a.text.items) }
    ensures telling { IfOk result (λ a. IsTelling a.status) }
{
    match witness_text(alloc, script, run, name) {
        Ok(text) => Ok(Answer {
            status: Status::Done,
            text: text.into_bytes(),
        }),
        Err(CutFault::NoSuchAction) => Ok(Answer {
            status: Status::Missing,
            text: format!(in alloc; "no such action\n")?.into_bytes(),
        }),
        Err(CutFault::NoMemory) => Err(NoMemory),
    }
}

/// Why an event stopped an action, if it did.
fn why(alloc: Global, script: &Script, run: &RunRecord, event: u32) -> Result<Answer, NoMemory>
    requires { IsWhole (reverse run.now.trace) }
    ensures told { IfOk result
        (λ a. IsTold (questions.Why event) script.now (reverse run.now.trace) run.now.marks
        (number a.status) a.text.items) }
    ensures telling { IfOk result (λ a. IsTelling a.status) }
{
    match why_text(alloc, run, event) {
        Ok(text) => Ok(Answer {
            status: Status::Done,
            text: text.into_bytes(),
        }),
        Err(WhyFault::NoSuchStop) => Ok(Answer {
            status: Status::Missing,
            text: format!(in alloc; "no such stop\n")?.into_bytes(),
        }),
        Err(WhyFault::NoMemory) => Err(NoMemory),
    }
}

/// The numbers of a run, with the digest of its report.
fn summary(alloc: Global, script: &Script, run: &RunRecord, steps: u32) -> Result<Answer, NoMemory>
    ensures told { IfOk result
        (λ a. IsTold (questions.Summary steps) script.now (reverse run.now.trace) run.now.marks
        (number a.status) a.text.items) }
    ensures telling { IfOk result (λ a. IsTelling a.status) }
{
    let report = report_text(alloc, script, run)?;
    let digest = digest_text(alloc, report.as_bytes())?;
    Ok(Answer {
        status: Status::Done,
        text: summary_text(alloc, run, steps, digest.as_str())?.into_bytes(),
    })
}
