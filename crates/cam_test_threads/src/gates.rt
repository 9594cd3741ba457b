//! What gates are asked and told.
ghost use Rattle.std.specs.Prelude.{◌≡◌};
ghost use Rattle.cam_journal.specs.Seats.{AreNew};

use crate::check::same;
use crate::ring::{NO_TROUBLES, Plan, ring};
use crate::speaker::Speaker;
use crate::workers::{Talk, talk};
use cam_hall::{End, Gate, Hall, HallFault, Names, OpenGate, Served, serve};
use cam_journal::{Journal, Seats};
use std::alloc::Global;
use std::marker::Brand;
use std::sync::Wait;
use std::sync::atomic::{AtomicU64, Ordering};
use std::test::Fail;
use std::thread::{Threads, yield_now};

// How often a worker looks for the others before it gives up.
const PATIENCE: u32 = 10_000_000;

/// Keeps the first call of each of four workers open until all four are there. It counts the calls
/// that waited in vain, and the steps that it was told.
#[derive(Drop)]
struct Meeting {
    first: AtomicU64,
    second: AtomicU64,
    third: AtomicU64,
    fourth: AtomicU64,
    alone: AtomicU64,
    steps: AtomicU64,
}

/// What a meeting has counted: the calls that waited in vain, none where each saw all four workers, and the steps.
#[derive(Clone, Copy, Debug, PartialEq, Eq)]
struct Counted {
    alone: u64,
    steps: u64,
}

impl Meeting {
    fn new() -> Meeting {
        Meeting {
            first: AtomicU64::new(0),
            second: AtomicU64::new(0),
            third: AtomicU64::new(0),
            fourth: AtomicU64::new(0),
            alone: AtomicU64::new(0),
            steps: AtomicU64::new(0),
        }
    }

    // The place of a worker.
    fn place(&self, worker: u32) -> &AtomicU64 {
        match worker {
            0 => &self.first,
            1 => &self.second,
            2 => &self.third,
            _ => &self.fourth,
        }
    }

    // Whether all four workers have come.
    fn is_full(&self) -> bool {
        let came = |place: &AtomicU64| place.load(Ordering::SeqCst) != 0;
        came(&self.first) && came(&self.second) && came(&self.third) && came(&self.fourth)
    }

    // Whether some worker has waited in vain. Then none waits any more.
    fn is_given_up(&self) -> bool {
        self.alone.load(Ordering::SeqCst) != 0
    }

    /// What it has counted so far.
    fn counted(&self) -> Counted {
        Counted {
            alone: self.alone.load(Ordering::SeqCst),
            steps: self.steps.load(Ordering::SeqCst),
        }
    }
}

impl Gate for Meeting {
    fn before(&self, worker: u32, _step: u32) -> bool {
        self.place(worker).store(1, Ordering::SeqCst);
        for _ in 0..PATIENCE {
            if self.is_full() || self.is_given_up() {
                return true;
            }
            yield_now();
        }
        self.alone.fetch_add(1, Ordering::SeqCst);
        true
    }

    fn after(&self, _worker: u32, _step: u32) {
        self.steps.fetch_add(1, Ordering::SeqCst);
    }
}

/// How many steps the workers of four nodes made, each of which spoke ten times, and what their meeting counted.
fn meet<R: Threads + Wait + Sync>(rt: &R, alloc: Global) -> Result<(u32, Counted), Fail> {
    let meeting = Meeting::new();
    let talked = talk(rt, alloc, 10, &meeting)?;
    Ok((talked.steps, meeting.counted()))
}

#[test]
fn four_workers_are_before_their_first_turns_at_once(rt: HostRuntime) -> Result<(), Fail> {
    let counted = Counted {
        alone: 0,
        steps: 80,
    };
    same(&rt, meet(&rt, rt.alloc())?, (80, counted));
    Ok(())
}

/// Lets the turns up to a step pass, and no later one.
#[derive(Drop)]
struct Until {
    step: u32,
}

impl Gate for Until {
    fn before(&self, _worker: u32, step: u32) -> bool {
        step < self.step
    }

    fn after(&self, _worker: u32, _step: u32) {}
}

/// What a worker of node 1 of a hall did.
fn serve_first<R: Wait, J: Names, G: Gate>(
    rt: &R,
    hall: Hall<Talk, J>,
    gate: &G,
    turns: u32,
) -> Result<Served, HallFault> {
    serve(rt, &hall, 1, 0, gate, turns)
}

/// What the worker of node 1 of this new journal did, where the node may speak three times.
fn serve_in<R: Wait, J: Names, G: Gate>(
    rt: &R,
    alloc: Global,
    journal: Journal<Talk>,
    seats: Seats<Talk>,
    gate: &G,
    turns: u32,
) -> Result<Served, Fail>
    requires own { journal.id ≡ J.journal }
    requires nodes { journal.nodes ≡ 4 }
    requires seats { AreNew journal.id 4 seats.items }
{
    let plan = Plan {
        shares: [3, 0, 0, 0],
        twice: false,
        troubles: NO_TROUBLES,
    };
    let hall = ring::<0, 4, J>(alloc, journal, seats, plan)?;
    Ok(serve_first(rt, hall, gate, turns)?)
}

/// What the worker of node 1 of a journal of its own did, where the node may speak three times.
fn serve_one<R: Wait, G: Gate>(
    rt: &R,
    alloc: Global,
    gate: &G,
    turns: u32,
) -> Result<Served, Fail> {
    let (journal, seats) = Journal::<Talk>::open(alloc, 4)?;
    serve_in::<R, Brand, G>(rt, alloc, journal, seats, gate, turns)
}

#[test]
fn a_worker_takes_no_turn_that_its_gate_holds(rt: HostRuntime) -> Result<(), Fail> {
    let served = serve_one(&rt, rt.alloc(), &Until { step: 2 }, 10_000)?;
    let held = Served {
        steps: 2,
        turns: 10_000,
        end: End::Turns,
    };
    same(&rt, served, held);
    Ok(())
}

#[test]
fn a_worker_ends_behind_so_many_empty_turns(rt: HostRuntime) -> Result<(), Fail> {
    // Three steps, and then 4,096 turns that find nothing.
    for (most, turns, end) in [
        (4_098, 4_098, End::Turns),
        (4_099, 4_099, End::Quiet),
        (10_000, 4_099, End::Quiet),
    ] {
        let served = serve_one(&rt, rt.alloc(), &OpenGate, most)?;
        let quiet = Served {
            steps: 3,
            turns,
            end,
        };
        same(&rt, (most, served), (most, quiet));
    }
    Ok(())
}
