//! A storm over four disks.
ghost use Rattle.std.specs.Prelude.{◌≡◌, ◌≤◌, [], IfOk, OnOk, true, length, map, reverse, vec_capacity, vec_len};
ghost use Rattle.cam_cluster.specs.Disks.{AreLogs, MayReadDisk};
ghost use Rattle.cam_cluster.specs.HandedBack.{AreHandedBack, FindsFailed, disk_named};
ghost use Rattle.cam_journal.specs.Seats.{AreNew as AreNewSeats};
ghost use Rattle.cam_storm.specs.Lawful.{goes_to, sends};
ghost use Rattle.cam_storm.specs.Runs.{StormRun};
ghost use Rattle.cam_storm_node.specs.Playing.{is_idle_by};
ghost use Rattle.cam_storm_run.specs.Disks.{HaveFailed, HaveFailedSince};
ghost use Rattle.cam_workers.specs.Rest.{IsAtRest, stood};
ghost use Rattle.cam_storm_run.specs.Storms.{AreKept, AreRunning, IsSettled};

use crate::fault_counts::FaultCounts;
use crate::founding::{found, take_out};
use cam_base::NoMemory;
use cam_cluster::RunFault;
use cam_disk::TellingDisk;
use cam_event::Trace;
use cam_gen::Storm;
use cam_hall::{Ended, Gate, Hall, HallFault, HallRoom, Names};
use cam_journal::{Gathered, Journal, Seats};
use cam_storm_node::{AsStormNode, DiskStormNode, Storming};
use cam_workers::{hall_of, settle, start, work};
use std::alloc::Global;
use std::marker::Brand;
use std::sync::Wait;
use std::thread::Threads;

/// Runs a storm of 1 to 64 top actions: four nodes over four disks, which are formatted, whatever
/// they held, with so many threads for each, 1 to 4. The gate stands before each turn of a worker.
/// Returns the events of all nodes in the order of their numbers. They are a run of the storm, which
/// is settled, unless a node has 500,000,000 events; and whatever a crash then leaves of a disk
/// opens as a log of what its node keeps in that run.
///
/// However it ends, the four disks are back in their list. It ends by `DiskFault` just if a disk
/// failed by itself in it, and names the first that did, in order of the nodes. It ends by
/// `NoMemory` only if memory ran out, and no disk failed.
pub fn run_storm<R: Threads + Wait + Sync, D: TellingDisk + Send, G: Gate + Sync>(
    rt: &R,
    alloc: Global,
    storm: &Storm,
    threads: u32,
    gate: &G,
    disks: &mut Vec<D>,
) -> Result<Trace, RunFault>
    requires actions { (1 ≤ storm.now.actions) × (storm.now.actions ≤ 64) }
    requires threads { (1 ≤ threads) × (threads ≤ 4) }
    requires one_each { length disks.old.items ≡ 4 }
    ensures run { IfOk result (λ trace. StormRun storm.now (reverse trace)) }
    ensures settled { IfOk result (λ trace. IsSettled storm.now (reverse trace)) }
    ensures kept { IfOk result (λ trace. AreKept storm.now (reverse trace)
        (MayReadDisk D.tells D.moment D.left_since disks.new.items)) }
    ensures logs { OnOk result (AreLogs D.tells D.moment D.left_since disks.new.items) }
    ensures disks { AreHandedBack D.tells D.faults disks.old.items disks.new.items }
    // A disk is named just where one failed by itself in the storm: the first that did.
    ensures failed { FindsFailed D.faults D.faults disks.old.items disks.new.items
        (disk_named result) }
    // The list keeps its room.
    ensures capacity { vec_capacity disks.old ≤ vec_capacity disks.new }
{
    let before = FaultCounts::of(disks.as_slice());
    let run = storm_as::<R, D, Brand, G>(rt, alloc, storm, threads, gate, disks);
    match before.first_failed(disks.as_slice()) {
        Some(node) => Err(RunFault::DiskFault(node)),
        None => Ok(run?),
    }
}

/// A storm whose words and disks `W` names. It fails if a disk fails or memory runs out.
#[tactic(auto, using(crate::proofs::Founded::since_then))]
fn storm_as<
    R: Threads + Wait + Sync,
    D: TellingDisk + Send,
    W: Storming + Send + Sync,
    G: Gate + Sync,
>(
    rt: &R,
    alloc: Global,
    storm: &Storm,
    threads: u32,
    gate: &G,
    disks: &mut Vec<D>,
) -> Result<Trace, NoMemory>
    requires words { storm.now ≡ W.words }
    requires few { storm.now.actions ≤ 64 }
    requires threads { (1 ≤ threads) × (threads ≤ 4) }
    requires one_each { length disks.old.items ≡ 4 }
    requires failed { HaveFailed D.faults W.failures 1 disks.old.items }
    ensures run { IfOk result (λ trace. StormRun W.words (reverse trace)) }
    ensures settled { IfOk result (λ trace. IsSettled W.words (reverse trace)) }
    ensures kept { IfOk result (λ trace. AreKept W.words (reverse trace)
        (MayReadDisk D.tells D.moment D.left_since disks.new.items)) }
    ensures logs { OnOk result (AreLogs D.tells D.moment D.left_since disks.new.items) }
    ensures floor { HaveFailedSince D.faults W.failures 1 disks.new.items }
    ensures count { length disks.new.items ≡ 4 }
    ensures capacity { vec_capacity disks.old ≤ vec_capacity disks.new }
{
    let (journal, seats) = Journal::<DiskStormNode<D, W>>::open(alloc, 4)?;
    storm_in::<R, D, W, Brand, G>(rt, alloc, storm, threads, gate, journal, seats, disks)
}

/// The same over a new journal, which `J` names.
#[tactic(auto, using(crate::proofs::Founded::since_then))]
fn storm_in<
    R: Threads + Wait + Sync,
    D: TellingDisk + Send,
    W: Storming + Send + Sync,
    J: Names + Send + Sync,
    G: Gate + Sync,
>(
    rt: &R,
    alloc: Global,
    storm: &Storm,
    threads: u32,
    gate: &G,
    journal: Journal<DiskStormNode<D, W>>,
    seats: Seats<DiskStormNode<D, W>>,
    disks: &mut Vec<D>,
) -> Result<Trace, NoMemory>
    requires own { journal.id ≡ J.journal }
    requires nodes { journal.nodes ≡ 4 }
    requires seats { AreNewSeats J.journal 4 seats.items }
    requires words { storm.now ≡ W.words }
    requires few { storm.now.actions ≤ 64 }
    requires threads { (1 ≤ threads) × (threads ≤ 4) }
    requires one_each { length disks.old.items ≡ 4 }
    requires failed { HaveFailed D.faults W.failures 1 disks.old.items }
    ensures run { IfOk result (λ trace. StormRun W.words (reverse trace)) }
    ensures settled { IfOk result (λ trace. IsSettled W.words (reverse trace)) }
    ensures kept { IfOk result (λ trace. AreKept W.words (reverse trace)
        (MayReadDisk D.tells D.moment D.left_since disks.new.items)) }
    ensures logs { OnOk result (AreLogs D.tells D.moment D.left_since disks.new.items) }
    ensures floor { HaveFailedSince D.faults W.failures 1 disks.new.items }
    ensures count { length disks.new.items ≡ 4 }
    ensures capacity { vec_capacity disks.old ≤ vec_capacity disks.new }
{
    let room = HallRoom::<DiskStormNode<D, W>, J>::new(alloc)?;
    let mut cores = Vec::with_capacity(alloc, 4)?;
    found(alloc, storm, disks, &mut cores)?;
    let hall = hall_of(alloc, room, journal, cores, seats);
    let worked = run_workers(rt, alloc, storm, threads, gate, &hall);
    end(alloc, worked, hall.end(), disks)
}

/// The top actions are created in order of their numbers, and then the workers serve the hall.
fn run_workers<
    R: Threads + Wait + Sync,
    D: TellingDisk + Send,
    W: Storming + Send + Sync,
    J: Names + Send + Sync,
    G: Gate + Sync,
>(
    rt: &R,
    alloc: Global,
    storm: &Storm,
    threads: u32,
    gate: &G,
    hall: &Hall<DiskStormNode<D, W>, J>,
) -> Result<(), HallFault>
    requires { (1 ≤ threads) × (threads ≤ 4) }
{
    start(rt, hall, storm.actions)?;
    work(rt, alloc, hall, threads, gate)
}

/// What the workers left is brought to its end. Returns its events, and puts its disks into their
/// list.
fn end<D: TellingDisk, W: Storming>(
    alloc: Global,
    worked: Result<(), HallFault>,
    mut ended: Ended<DiskStormNode<D, W>>,
    disks: &mut Vec<D>,
) -> Result<Trace, NoMemory>
    requires nodes { ended.journal.nodes ≡ 4 }
    requires none { disks.old.items ≡ [] }
    requires room { 4 ≤ vec_capacity disks.old }
    ensures run { IfOk result (λ trace. StormRun W.words (reverse trace)) }
    ensures settled { IfOk result (λ trace. IsSettled W.words (reverse trace)) }
    ensures kept { IfOk result (λ trace. AreKept W.words (reverse trace)
        (MayReadDisk D.tells D.moment D.left_since disks.new.items)) }
    ensures logs { OnOk result (AreLogs D.tells D.moment D.left_since disks.new.items) }
    ensures floor { HaveFailedSince D.faults W.failures 1 disks.new.items }
    ensures count { length disks.new.items ≡ 4 }
    ensures capacity { vec_capacity disks.old ≤ vec_capacity disks.new }
{
    let settled = settle_after(worked, &mut ended);
    let running = are_running(ended.cores());
    let (journal, mut cores, seats) = ended.into_parts();
    take_out(&mut cores, disks);
    match settled {
        Ok(()) if running => trace_of(alloc, journal.gather(seats)),
        Ok(()) | Err(_) => Err(NoMemory),
    }
}

/// What the workers left is brought to rest, if they did not fail.
fn settle_after<D: TellingDisk, W: Storming>(
    worked: Result<(), HallFault>,
    ended: &mut Ended<DiskStormNode<D, W>>,
) -> Result<(), HallFault>
    requires nodes { ended.old.journal.nodes ≡ 4 }
    ensures journal { ended.new.journal ≡ ended.old.journal }
    ensures rest { OnOk result (IsAtRest sends goes_to
        (λ core input. is_idle_by (⟦<DiskStormNode<D, W> as AsStormNode>⟧.fields core) input)
        (stood ended.new)) }
{
    worked?;
    settle(ended)
}

/// Whether no node has given up.
fn are_running<D: TellingDisk, W: Storming>(cores: &[DiskStormNode<D, W>]) -> bool
    ensures { result ≡ true
        → AreRunning (⟦<DiskStormNode<D, W> as AsStormNode>⟧.fields) cores.now }
{
    for core in cores {
        if core.is_halted() {
            return false;
        }
    }
    true
}

/// The events that were gathered, in order.
fn trace_of<D: TellingDisk, W: Storming>(
    alloc: Global,
    mut gathered: Gathered<DiskStormNode<D, W>>,
) -> Result<Trace, NoMemory>
    ensures { IfOk result (λ trace. trace ≡ map (λ event. event.1.event) gathered) }
{
    let mut trace = Trace::new(alloc);
    while let Some((_, stepped)) = gathered.take() {
        trace.push(stepped.event)?;
    }
    Ok(trace)
}
