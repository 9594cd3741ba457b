//! The answer to the words of a storm: the report of its run, over the first four of the disks.
ghost use Rattle.std.specs.Prelude.{◌≡◌, ◌≤◌, false, None, IfErr, IfOk, IfSome, drop, length, reverse};
ghost use Rattle.cam_args.specs.declared.Command.TheVariants.{Storm as StormWords};
ghost use Rattle.cam_cluster.specs.HandedBack.{AreHandedBack};
ghost use Rattle.cam_storm.specs.Runs.{StormRun};
ghost use Rattle.cam_storm_run.specs.Storms.{IsSettled};
ghost use Rattle.cam_run.specs.declared.status.Status.TheVariants as statuses;
ghost use Rattle.cam_run.specs.Status.{number};
ghost use Rattle.cam_run.specs.Told.{ComesOfRun};
ghost use Rattle.cam_run.specs.Commands.{needs_threads};
ghost use Rattle.cam_run.specs.Disks.{FailedAt, IsCaused, OneFailed};
ghost use Rattle.cam_run.specs.Answer.{IsOfStorm};
ghost use Rattle.cam_run.specs.Storm.{KeepStorm, storm_report};

use crate::answer::{Answer, disk_fault};
use crate::running::{put_back, set_aside};
use crate::status::Status;
use cam_args::Command;
use cam_base::NoMemory;
use cam_cluster::RunFault;
use cam_disk::TellingDisk;
use cam_event::{Marks, RunRecord, Trace};
use cam_gen::Storm;
use cam_hall::OpenGate;
use cam_report::report_text;
use cam_storm_run::run_storm;
use std::alloc::Global;
use std::sync::Wait;
use std::thread::Threads;

/// How many nodes a storm has.
const NODES: usize = 4;

/// A storm that a command asks for, with so many threads for each node.
#[derive(Clone, Copy, Debug)]
pub(crate) struct AskedStorm {
    pub(crate) storm: Storm,
    pub(crate) threads: u32,
}

/// The storm that a command asks for; none if it asks for something else.
pub(crate) fn asked_storm(command: &Command) -> Option<AskedStorm>
    ensures storm { IfSome result (λ asked. command.now
        ≡ StormWords asked.storm.seed asked.storm.actions asked.threads asked.storm.calm) }
    ensures none { result ≡ None → needs_threads command.now ≡ false }
{
    match command {
        Command::Storm {
            seed,
            actions,
            threads,
            calm,
        } => Some(AskedStorm {
            storm: Storm {
                seed: *seed,
                actions: *actions,
                calm: *calm,
            },
            threads: *threads,
        }),
        Command::Run
        | Command::Trace
        | Command::Witness(_)
        | Command::Why(_)
        | Command::Gen { .. }
        | Command::Inspect
        | Command::Upgrade
        | Command::Timed => None,
    }
}

/// Runs the storm over the first four of the disks, which are formatted. Further disks stay as they are.
fn run<T: Threads + Wait + Sync, D: TellingDisk + Send>(
    rt: &T,
    alloc: Global,
    storm: &Storm,
    threads: u32,
    disks: &mut Vec<D>,
) -> Result<Trace, RunFault>
    requires actions { (1 ≤ storm.now.actions) × (storm.now.actions ≤ 64) }
    requires threads { (1 ≤ threads) × (threads ≤ 4) }
    requires enough { 4 ≤ length disks.old.items }
    ensures run { IfOk result (λ trace. StormRun storm.now (reverse trace)) }
    ensures settled { IfOk result (λ trace. IsSettled storm.now (reverse trace)) }
    ensures kept { IfOk result (λ trace. KeepStorm D.tells D.moment D.left_since disks.new.items
        storm.now (reverse trace)) }
    ensures cause { IfErr result (IsCaused 4 (FailedAt D.faults disks.old.items disks.new.items)) }
    ensures steady { IfOk result (λ _. ¬ (OneFailed 4
        (FailedAt D.faults disks.old.items disks.new.items))) }
    ensures back { AreHandedBack D.tells D.faults disks.old.items disks.new.items }
    ensures others { drop 4 disks.new.items ≡ drop 4 disks.old.items }
{
    let mut further = set_aside(alloc, disks, NODES)?;
    let run = run_storm(rt, alloc, storm, threads, &OpenGate, disks);
    put_back(disks, &mut further);
    run
}

/// The answer to the words of a storm with so many threads for each node.
pub(crate) fn of_storm<T: Threads + Wait + Sync, D: TellingDisk + Send>(
    rt: &T,
    alloc: Global,
    storm: &Storm,
    threads: u32,
    disks: &mut Vec<D>,
) -> Result<Answer, NoMemory>
    requires actions { (1 ≤ storm.now.actions) × (storm.now.actions ≤ 64) }
    requires threads { (1 ≤ threads) × (threads ≤ 4) }
    requires eight { 8 ≤ length disks.old.items }
    ensures answer { IfOk result (λ a. IsOfStorm storm.now
        (FailedAt D.faults disks.old.items disks.new.items)
        (KeepStorm D.tells D.moment D.left_since disks.new.items storm.now)
        (number a.status) a.text.items) }
    ensures statuses { IfOk result (λ a. ComesOfRun a.status) }
    ensures disk_fault { IfOk result (λ a. a.status ≡ statuses.DiskFault
        → OneFailed 4 (FailedAt D.faults disks.old.items disks.new.items)) }
    ensures back { AreHandedBack D.tells D.faults disks.old.items disks.new.items }
    ensures others { drop 4 disks.new.items ≡ drop 4 disks.old.items }
{
    match run(rt, alloc, storm, threads, disks) {
        Ok(trace) => report(alloc, storm, trace),
        Err(RunFault::DiskFault(node)) => disk_fault(alloc, node),
        Err(RunFault::NoMemory) => Err(NoMemory),
    }
}

/// The report of a storm's run.
fn report(alloc: Global, storm: &Storm, trace: Trace) -> Result<Answer, NoMemory>
    requires { storm.now.actions ≤ 64 }
    ensures text { IfOk result
        (λ a. a.text.items ≡ storm_report storm.now (reverse trace)) }
    ensures status { IfOk result (λ a. a.status ≡ statuses.Done) }
{
    let script = storm.script(alloc)?;
    let run = RunRecord {
        trace,
        marks: Marks::new(alloc),
    };
    Ok(Answer {
        status: Status::Done,
        text: report_text(alloc, &script, &run)?.into_bytes(),
    })
}
