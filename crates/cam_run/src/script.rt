//! The answer to a question by the bytes of a script: those that a source gives, or those that are made from a seed.
ghost use Rattle.std.specs.Prelude.{◌≡◌, ◌≤◌, ◌⊎◌, [], IfOk, drop, length};
ghost use Rattle.cam_base.specs.Causes.{Rose};
ghost use Rattle.cam_base.specs.Told.{IfTold};
ghost use Rattle.cam_words.specs.declared.cause.Cause.TheVariants as causes;
ghost use Rattle.cam_words.specs.declared.fault.ScriptFault.TheVariants.{Bad};
ghost use Rattle.cam_gen.specs.Script.{script_of as generated};
ghost use Rattle.cam_cluster.specs.HandedBack.{AreHandedBack};
ghost use Rattle.cam_script.specs.Grammar.{read_script};
ghost use Rattle.cam_run.specs.declared.status.Status.TheVariants as statuses;
ghost use Rattle.cam_run.specs.declared.question.Question.TheVariants as questions;
ghost use Rattle.cam_run.specs.Status.{number};
ghost use Rattle.cam_run.specs.Told.{ComesOfRun, IsTelling};
ghost use Rattle.cam_run.specs.Disks.{FailedAt, OneFailed, disks_left};
ghost use Rattle.cam_run.specs.Answer.{IsOfInput, IsOfScript, IsRefused, nodes_of};

use crate::answer::{Answer, read_fault, refused_line};
use crate::question::Question;
use crate::status::Status;
use cam_base::NoMemory;
use cam_cluster::Servers;
use cam_disk::TellingDisk;
use cam_io::{ReadFault, Source, read_all};
use cam_script::{Cause, MOST_BYTES, ScriptFault, parse};
use cam_type::DataType;
use std::alloc::Global;

/// The answer by the script that the source gives, and by its run over the first of the disks.
#[tactic(auto, using(crate::proofs::FirstDisks::as_they_were))]
pub(crate) fn of_source<S: Source, D: TellingDisk, R: DataType, Q: DataType, C: DataType>(
    alloc: Global,
    question: &Question,
    source: &mut S,
    disks: &mut Vec<D>,
    servers: &mut Servers<R, Q, C>,
) -> Result<Answer, NoMemory>
    requires eight { 8 ≤ length disks.old.items }
    ensures answer { IfTold (S.left source.old) (S.left source.new) (λ input _.
        IfOk result (λ a. IsOfInput question.now (record {
          source_failed = Rose (S.faults source.old) (S.faults source.new);
          disks = disks_left D.tells D.faults D.moment D.left_since
              disks.old.items disks.new.items;
        })
        input (number a.status) a.text.items)) }
    ensures statuses { IfOk result
        (λ a. ComesOfRun a.status
        ⊎ ((a.status ≡ statuses.Refused) ⊎ (a.status ≡ statuses.ReadFault))) }
    ensures disk_fault { IfOk result (λ a. a.status ≡ statuses.DiskFault
        → OneFailed 8 (FailedAt D.faults disks.old.items disks.new.items)) }
    ensures read_fault { IfOk result
        (λ a. a.status ≡ statuses.ReadFault → Rose (S.faults source.old) (S.faults source.new)) }
    ensures read { IfTold (S.left source.old) (S.left source.new)
        (λ _ rest. IfOk result (λ a. IsTelling a.status → rest ≡ [])) }
    ensures back { AreHandedBack D.tells D.faults disks.old.items disks.new.items }
    ensures untouched { IfOk result (λ a. (a.status ≡ statuses.Refused)
        ⊎ (a.status ≡ statuses.ReadFault) → disks.new ≡ disks.old) }
    ensures others { IfTold (S.left source.old) (S.left source.new) (λ input _.
        drop (nodes_of (read_script input)) disks.new.items
        ≡ drop (nodes_of (read_script input)) disks.old.items) }
{
    match read_all(alloc, source, MOST_BYTES) {
        Ok(bytes) => of_bytes(alloc, question, &bytes, disks, servers),
        Err(ReadFault::TooLarge) => too_long(alloc),
        Err(ReadFault::Failed) => read_fault(alloc),
        Err(ReadFault::NoMemory) => Err(NoMemory),
    }
}

/// The summary of the script of `size` steps that is made from the seed.
#[tactic(auto, using(crate::proofs::FirstDisks::as_they_were))]
pub(crate) fn of_seed<D: TellingDisk, R: DataType, Q: DataType, C: DataType>(
    alloc: Global,
    seed: u64,
    size: u32,
    disks: &mut Vec<D>,
    servers: &mut Servers<R, Q, C>,
) -> Result<Answer, NoMemory>
    requires eight { 8 ≤ length disks.old.items }
    ensures answer { IfOk result
        (λ a. IsOfScript (questions.Summary size) (read_script (generated seed size))
        (disks_left D.tells D.faults D.moment D.left_since disks.old.items disks.new.items)
        (number a.status) a.text.items) }
    ensures statuses { IfOk result
        (λ a. ComesOfRun a.status ⊎ (a.status ≡ statuses.Refused)) }
    ensures accepted { size ≤ 400 → IfOk result
        (λ a. (number a.status ≡ 0) ⊎ (number a.status ≡ 6)) }
    ensures disk_fault { IfOk result (λ a. a.status ≡ statuses.DiskFault
        → OneFailed 8 (FailedAt D.faults disks.old.items disks.new.items)) }
    ensures back { AreHandedBack D.tells D.faults disks.old.items disks.new.items }
    ensures untouched { IfOk result
        (λ a. a.status ≡ statuses.Refused → disks.new ≡ disks.old) }
    ensures others { drop (nodes_of (read_script (generated seed size))) disks.new.items
        ≡ drop (nodes_of (read_script (generated seed size))) disks.old.items }
{
    let script = cam_gen::script_of(alloc, seed, size)?;
    of_bytes(
        alloc,
        &Question::Summary(size),
        script.as_bytes(),
        disks,
        servers,
    )
}

/// The answer by the script that the bytes spell, and by its run; or its first fault.
#[tactic(auto, using(crate::proofs::FirstDisks::as_they_were))]
fn of_bytes<D: TellingDisk, R: DataType, Q: DataType, C: DataType>(
    alloc: Global,
    question: &Question,
    bytes: &[u8],
    disks: &mut Vec<D>,
    servers: &mut Servers<R, Q, C>,
) -> Result<Answer, NoMemory>
    requires eight { 8 ≤ length disks.old.items }
    ensures answer { IfOk result
        (λ a. IsOfScript question.now (read_script bytes.now)
        (disks_left D.tells D.faults D.moment D.left_since disks.old.items disks.new.items)
        (number a.status) a.text.items) }
    ensures statuses { IfOk result
        (λ a. ComesOfRun a.status ⊎ (a.status ≡ statuses.Refused)) }
    ensures disk_fault { IfOk result (λ a. a.status ≡ statuses.DiskFault
        → OneFailed 8 (FailedAt D.faults disks.old.items disks.new.items)) }
    ensures back { AreHandedBack D.tells D.faults disks.old.items disks.new.items }
    ensures untouched { IfOk result
        (λ a. a.status ≡ statuses.Refused → disks.new ≡ disks.old) }
    ensures others { drop (nodes_of (read_script bytes.now)) disks.new.items
        ≡ drop (nodes_of (read_script bytes.now)) disks.old.items }
{
    match parse(alloc, bytes) {
        Ok(script) => question.answer(alloc, &script, disks, servers),
        Err(fault) => refusal(alloc, fault),
    }
}

/// The answer to a script of more bytes than one may have.
pub(crate) fn too_long(alloc: Global) -> Result<Answer, NoMemory>
    ensures answer { IfOk result
        (λ a. IsRefused (Bad 1 1 causes.TooLong) (number a.status) a.text.items) }
    ensures status { IfOk result (λ a. a.status ≡ statuses.Refused) }
{
    refusal(
        alloc,
        ScriptFault::Bad {
            line: 1,
            column: 1,
            cause: Cause::TooLong,
        },
    )
}

/// The answer to a script with this first fault.
pub(crate) fn refusal(alloc: Global, fault: ScriptFault) -> Result<Answer, NoMemory>
    ensures answer { IfOk result
        (λ a. IsRefused fault (number a.status) a.text.items) }
    ensures status { IfOk result (λ a. a.status ≡ statuses.Refused) }
{
    match fault {
        ScriptFault::Bad {
            line,
            column,
            cause,
        } => Ok(Answer {
            status: Status::Refused,
            text: refused_line(alloc, line, column, cause)?.into_bytes(),
        }),
        ScriptFault::NoMemory => Err(NoMemory),
    }
}
