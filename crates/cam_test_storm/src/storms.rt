//! Storms over disks in memory.
ghost use Rattle.std.specs.Prelude.{◌≡◌, ◌≤◌, IfOk, length};

use crate::check::same;
use crate::gates::{Counted, Meeting};
use cam_cluster::RunFault;
use cam_disk::MemoryDisk;
use cam_event::{Deed, Trace};
use cam_gen::Storm;
use cam_hall::{Gate, OpenGate};
use cam_storm_run::run_storm;
use std::alloc::Global;
use std::sync::Wait;
use std::test::Fail;
use std::thread::Threads;

/// Four disks in memory.
fn four_disks(alloc: Global) -> Result<Vec<MemoryDisk>, Fail>
    ensures { IfOk result (λ disks. length disks.items ≡ 4) }
{
    let mut disks = Vec::new(alloc);
    disks.push(MemoryDisk::new(alloc))?;
    disks.push(MemoryDisk::new(alloc))?;
    disks.push(MemoryDisk::new(alloc))?;
    disks.push(MemoryDisk::new(alloc))?;
    Ok(disks)
}

/// The events of a storm over four disks in memory.
fn events<R: Threads + Wait + Sync, G: Gate + Sync>(
    rt: &R,
    alloc: Global,
    words: &Storm,
    threads: u32,
    gate: &G,
) -> Result<Trace, Fail>
    requires actions { (1 ≤ words.now.actions) × (words.now.actions ≤ 64) }
    requires threads { (1 ≤ threads) × (threads ≤ 4) }
{
    let mut disks = four_disks(alloc)?;
    match run_storm(rt, alloc, words, threads, gate, &mut disks) {
        Ok(trace) => Ok(trace),
        Err(RunFault::DiskFault(_)) => Err(Fail::new("a disk failed")),
        Err(RunFault::NoMemory) => Err(Fail::new("out of memory")),
    }
}

/// How much happened in a run.
#[derive(Clone, Copy, Debug, PartialEq, Eq)]
struct Happened {
    /// The events of nodes 1 to 4.
    events: [u64; 4],
    created: u64,
    committed: u64,
    crashed: u64,
}

/// What happened: events of each node, and top actions that were created and committed.
fn count(trace: &Trace) -> Happened {
    let mut happened = Happened {
        events: [0; 4],
        created: 0,
        committed: 0,
        crashed: 0,
    };
    for event in trace.as_slice() {
        let node = (event.node as usize).wrapping_sub(1) % 4;
        happened.events[node] = happened.events[node].wrapping_add(1);
        for deed in event.deeds.as_slice() {
            match deed {
                Deed::Create { action } if action.depth() == 1 => {
                    happened.created = happened.created.wrapping_add(1);
                }
                Deed::Commit { action } if action.depth() == 1 => {
                    happened.committed = happened.committed.wrapping_add(1);
                }
                Deed::Crash { .. } => happened.crashed = happened.crashed.wrapping_add(1),
                _ => {}
            }
        }
    }
    happened
}

/// How often nodes restart in a rough storm with these events: each at its events 64 and 128.
fn restarts(trace: &Trace) -> u64 {
    let mut restarts: u64 = 0;
    for events in count(trace).events {
        if events > 64 {
            restarts = restarts.wrapping_add(1);
        }
        if events > 128 {
            restarts = restarts.wrapping_add(1);
        }
    }
    restarts
}

#[test]
fn four_workers_do_the_work_of_a_calm_storm_at_once(rt: HostRuntime) -> Result<(), Fail> {
    let words = Storm {
        seed: 1,
        actions: 4,
        calm: true,
    };
    let meeting = Meeting::new();
    let trace = events(&rt, rt.alloc(), &words, 1, &meeting)?;
    let all = Happened {
        events: [15; 4],
        created: 4,
        committed: 4,
        crashed: 0,
    };
    same(&rt, count(&trace), all);
    let counted = Counted {
        alone: 0,
        steps: [14; 4],
    };
    same(&rt, meeting.counted(), counted);
    Ok(())
}

#[test]
fn two_workers_for_each_node_commit_four_actions(rt: HostRuntime) -> Result<(), Fail> {
    let words = Storm {
        seed: 1,
        actions: 4,
        calm: true,
    };
    let trace = events(&rt, rt.alloc(), &words, 2, &OpenGate)?;
    let all = Happened {
        events: [15; 4],
        created: 4,
        committed: 4,
        crashed: 0,
    };
    same(&rt, count(&trace), all);
    Ok(())
}

#[test]
fn a_storm_without_memory_hands_its_disks_back(rt: HostRuntime) -> Result<(), Fail> {
    let words = Storm {
        seed: 1,
        actions: 4,
        calm: true,
    };
    let mut disks = four_disks(rt.alloc())?;
    let storm = run_storm(&rt, rt.alloc(), &words, 2, &OpenGate, &mut disks);
    same(&rt, disks.len(), 4);
    // With memory enough it has the events of the storm; run with `--fail-alloc N` it may have none.
    if let Ok(trace) = storm {
        same(&rt, count(&trace).committed, 4);
    }
    Ok(())
}

#[test]
fn a_rough_storm_ends_with_all_its_top_actions(rt: HostRuntime) -> Result<(), Fail> {
    let words = Storm {
        seed: 1,
        actions: 16,
        calm: false,
    };
    let trace = events(&rt, rt.alloc(), &words, 4, &OpenGate)?;
    same(&rt, count(&trace).created, 16);
    same(&rt, count(&trace).crashed, restarts(&trace));
    Ok(())
}
