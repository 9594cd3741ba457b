//! What the program answers to each command but a storm, which alone needs threads.
ghost use Rattle.std.specs.Prelude.{◌≡◌, ◌≤◌, ◌⊎◌, ℕ, false, true, List, [], IfOk, drop, length};
ghost use Rattle.cam_base.specs.Causes.{Rose};
ghost use Rattle.cam_base.specs.Told.{IfTold};
ghost use Rattle.cam_args.specs.declared.Command.TheVariants.{Gen};
ghost use Rattle.cam_cluster.specs.HandedBack.{AreHandedBack};
ghost use Rattle.cam_run.specs.declared.status.Status.TheVariants as statuses;
ghost use Rattle.cam_run.specs.Status.{number};
ghost use Rattle.cam_run.specs.Told.{IsTelling, MayObey};
ghost use Rattle.cam_run.specs.Commands.{needs_threads, reads, uses_disks};
ghost use Rattle.cam_run.specs.Disks.{FailedAt, OneFailed, disks_left};
ghost use Rattle.cam_run.specs.Answer.{IsOfCommand, IsWritten, command_status, nodes_for};

use crate::answer::Answer;
use crate::image::{Making, of_image};
use crate::question::Question;
use crate::script::{of_seed, of_source};
use crate::status::Status;
use crate::timed::of_timed;
use cam_args::Command;
use cam_base::NoMemory;
use cam_cluster::Servers;
use cam_disk::TellingDisk;
use cam_io::{Sink, Source, write_all};
use cam_type::DataType;
use std::alloc::Global;

/// Does what a command says, and writes its text to the sink, as [`camelot`](crate::camelot) does for the words of the command. It takes
/// each command but `storm`. It waits for nothing, so it returns.
pub fn camelot_alone<S: Source, K: Sink, D: TellingDisk, R: DataType, Q: DataType, C: DataType>(
    alloc: Global,
    command: &Command,
    source: &mut S,
    sink: &mut K,
    disks: &mut Vec<D>,
    servers: &mut Servers<R, Q, C>,
) -> u8
    requires alone { needs_threads command.now ≡ false }
    requires eight { 8 ≤ length disks.old.items }

    // Which statuses there are, and when each comes: that of words that are no form never does.
    ensures statuses { (result ≡ 0) ⊎ ((result ≡ 3) ⊎ ((result ≡ 4) ⊎ ((result ≡ 5)
        ⊎ ((result ≡ 6) ⊎ ((result ≡ 7) ⊎ (result ≡ 8)))))) }
    ensures read_fault { result ≡ 4 → Rose (S.faults source.old) (S.faults source.new) }
    ensures write_fault { result ≡ 5 → Rose (K.faults sink.old) (K.faults sink.new) }
    ensures disk_fault { result ≡ 6
        → OneFailed 8 (FailedAt D.faults disks.old.items disks.new.items) }

    // What was written, with the run that the disks keep, as `camelot` says; and that nothing else keeps an accepted or a refused script
    // from its answer.
    ensures written { IfTold (S.left source.old) (S.left source.new) (λ input _.
        IsWritten (IsOfCommand command.now (record {
          source_failed = Rose (S.faults source.old) (S.faults source.new);
          disks = disks_left D.tells D.faults D.moment D.left_since
              disks.old.items disks.new.items;
        }) input)
        result (K.written sink.old) (K.written sink.new)) }
    ensures complete { IfTold (S.left source.old) (S.left source.new) (λ input _.
        ¬ (Rose (S.faults source.old) (S.faults source.new))
        → ¬ (Rose (K.faults sink.old) (K.faults sink.new))
        → ¬ (OneFailed (nodes_for command.now input)
        (FailedAt D.faults disks.old.items disks.new.items))
        → (result ≡ command_status command.now input) ⊎ (result ≡ 7)) }
    // The script that is made from a seed is never refused.
    ensures generated { (seed size : ℕ) → command.now ≡ Gen seed size → size ≤ 400
        → (result ≡ 0) ⊎ ((result ≡ 5) ⊎ ((result ≡ 6) ⊎ (result ≡ 7))) }

    // The source, read to its end or not at all.
    ensures read { reads command.now ≡ true → (result ≡ 0) ⊎ (result ≡ 8)
        → IfTold (S.left source.old) (S.left source.new) (λ _ rest. rest ≡ []) }
    ensures unread { reads command.now ≡ false → source.new ≡ source.old }

    // The disks, each back at its place, and which stay as they were.
    ensures back { AreHandedBack D.tells D.faults disks.old.items disks.new.items }
    ensures others { IfTold (S.left source.old) (S.left source.new) (λ input _.
        drop (nodes_for command.now input) disks.new.items
        ≡ drop (nodes_for command.now input) disks.old.items) }
    ensures idle { uses_disks command.now ≡ false → disks.new ≡ disks.old }
    ensures untouched { (result ≡ 3) ⊎ (result ≡ 4) → disks.new ≡ disks.old }
{
    let Ok(answer) = obey(alloc, command, source, disks, servers) else {
        return Status::NoMemory.number();
    };
    match write_all(sink, &answer.text) {
        Ok(()) => answer.status.number(),
        Err(_) => Status::WriteFault.number(),
    }
}

/// The answer to a command and the input.
#[tactic(auto, using(crate::proofs::FirstDisks::as_they_were))]
pub(crate) fn obey<S: Source, D: TellingDisk, R: DataType, Q: DataType, C: DataType>(
    alloc: Global,
    command: &Command,
    source: &mut S,
    disks: &mut Vec<D>,
    servers: &mut Servers<R, Q, C>,
) -> Result<Answer, NoMemory>
    requires alone { needs_threads command.now ≡ false }
    requires eight { 8 ≤ length disks.old.items }
    ensures answer { IfTold (S.left source.old) (S.left source.new) (λ input _.
        IfOk result (λ a. IsOfCommand command.now (record {
          source_failed = Rose (S.faults source.old) (S.faults source.new);
          disks = disks_left D.tells D.faults D.moment D.left_since
              disks.old.items disks.new.items;
        })
        input (number a.status) a.text.items)) }
    ensures generated { (seed size : ℕ) → command.now ≡ Gen seed size → size ≤ 400
        → IfOk result (λ a. (number a.status ≡ 0) ⊎ (number a.status ≡ 6)) }
    ensures statuses { IfOk result (λ a. MayObey a.status) }
    ensures read_fault { IfOk result
        (λ a. a.status ≡ statuses.ReadFault → Rose (S.faults source.old) (S.faults source.new)) }
    ensures disk_fault { IfOk result (λ a. a.status ≡ statuses.DiskFault
        → OneFailed 8 (FailedAt D.faults disks.old.items disks.new.items)) }
    ensures read { reads command.now ≡ true
        → IfTold (S.left source.old) (S.left source.new)
        (λ _ rest. IfOk result (λ a. IsTelling a.status → rest ≡ [])) }
    ensures unread { reads command.now ≡ false → source.new ≡ source.old }
    ensures back { AreHandedBack D.tells D.faults disks.old.items disks.new.items }
    ensures others { IfTold (S.left source.old) (S.left source.new) (λ input _.
        drop (nodes_for command.now input) disks.new.items
        ≡ drop (nodes_for command.now input) disks.old.items) }
    ensures idle { uses_disks command.now ≡ false → disks.new ≡ disks.old }
    ensures untouched { IfOk result (λ a. (a.status ≡ statuses.Refused)
        ⊎ (a.status ≡ statuses.ReadFault) → disks.new ≡ disks.old) }
{
    match command {
        Command::Run => of_source(alloc, &Question::Report, source, disks, servers),
        Command::Trace => of_source(alloc, &Question::Trace, source, disks, servers),
        Command::Witness(name) => {
            of_source(alloc, &Question::Witness(*name), source, disks, servers)
        }
        Command::Why(event) => of_source(alloc, &Question::Why(*event), source, disks, servers),
        Command::Gen { seed, size } => of_seed(alloc, *seed, *size, disks, servers),
        Command::Inspect => of_image(alloc, Making::Text, source),
        Command::Upgrade => of_image(alloc, Making::Version2, source),
        Command::Timed => of_timed(alloc, source),
        // A storm needs threads.
        Command::Storm { .. } => unreachable!(),
    }
}
