//! Four workers, each in a thread of its own.
ghost use Rattle.std.specs.Prelude.{◌≡◌};
ghost use Rattle.cam_journal.specs.Seats.{AreNew};

use crate::check::same;
use crate::ring::{NO_TROUBLES, Plan, gather, ring};
use crate::speaker::{Speaker, Speech};
use cam_hall::{Gate, Hall, HallFault, Names, OpenGate, Served, serve};
use cam_journal::{Gathered, Journal, Seats};
use std::alloc::Global;
use std::marker::Brand;
use std::sync::Wait;
use std::test::Fail;
use std::thread::{Threads, map_indices};

// The nodes say the numbers from 1 on, each a number of its own.
pub(crate) type Talk = Speaker<0, 4>;

// What a worker may take in one round.
const TURNS: u32 = 1_000_000;

/// How many steps the workers made, and the events of all nodes.
#[derive(Drop)]
pub(crate) struct Talked {
    pub(crate) steps: u32,
    pub(crate) gathered: Gathered<Talk>,
}

/// Four nodes of a new journal speak their shares, and answer each other, until none has anything to do.
fn talk_in<R: Threads + Wait + Sync, J: Names + Send + Sync, G: Gate + Sync>(
    rt: &R,
    alloc: Global,
    journal: Journal<Talk>,
    seats: Seats<Talk>,
    share: u32,
    gate: &G,
) -> Result<Talked, Fail>
    requires own { journal.id ≡ J.journal }
    requires nodes { journal.nodes ≡ 4 }
    requires seats { AreNew journal.id 4 seats.items }
{
    let plan = Plan {
        shares: [share; 4],
        twice: false,
        troubles: NO_TROUBLES,
    };
    let hall = ring::<0, 4, J>(alloc, journal, seats, plan)?;
    let steps = rounds(rt, alloc, &hall, gate);
    let gathered = gather(hall.end());
    Ok(Talked {
        // Opened once the hall has ended, so that no exit drops a hall.
        steps: steps?,
        gathered,
    })
}

/// The workers work in rounds, of which each but the last makes a step. Answers how many steps they made.
fn rounds<R: Threads + Wait + Sync, J: Names + Send + Sync, G: Gate + Sync>(
    rt: &R,
    alloc: Global,
    hall: &Hall<Talk, J>,
    gate: &G,
) -> Result<u32, Fail> {
    let mut steps: u32 = 0;
    for _ in 0..TURNS {
        let made = round(rt, alloc, hall, gate)?;
        if made == 0 {
            break;
        }
        steps = steps.saturating_add(made);
    }
    Ok(steps)
}

/// The steps and the events of four new nodes that speak `share` remarks each, and answer each other, until none has anything to do.
pub(crate) fn talk<R: Threads + Wait + Sync, G: Gate + Sync>(
    rt: &R,
    alloc: Global,
    share: u32,
    gate: &G,
) -> Result<Talked, Fail> {
    let (journal, seats) = Journal::<Talk>::open(alloc, 4)?;
    talk_in::<R, Brand, G>(rt, alloc, journal, seats, share, gate)
}

/// Each worker works for its node once. Answers how many steps they made.
fn round<R: Threads + Wait + Sync, J: Names + Send + Sync, G: Gate + Sync>(
    rt: &R,
    alloc: Global,
    hall: &Hall<Talk, J>,
    gate: &G,
) -> Result<u32, Fail> {
    let served = map_indices(rt, alloc, 4, &|at| work(rt, hall, at, gate))?;
    let mut steps: u32 = 0;
    for served in served {
        steps = steps.saturating_add(served?.steps);
    }
    Ok(steps)
}

/// The work of one worker in a round.
fn work<R: Wait, J: Names, G: Gate>(
    rt: &R,
    hall: &Hall<Talk, J>,
    worker: usize,
    gate: &G,
) -> Result<Served, HallFault> {
    match worker {
        0 => serve(rt, hall, 1, 0, gate, TURNS),
        1 => serve(rt, hall, 2, 1, gate, TURNS),
        2 => serve(rt, hall, 3, 2, gate, TURNS),
        _ => serve(rt, hall, 4, 3, gate, TURNS),
    }
}

// How many remarks each node speaks, and how many events that makes: each remark has an answer.
const SHARE: u32 = 1_250;

const EVENTS: u64 = 10_000;

/// Why an event is not the next one that may come.
#[derive(Clone, Copy, Debug, PartialEq, Eq)]
enum Fault {
    /// It is missing.
    NoEvent,
    /// It has another number.
    OtherEvent(u64),
    /// It answers an event that does not come before it.
    AnswerToLater(u64),
    /// No node may say its number.
    NoNumber(u64),
    /// Its number was said before.
    SaidTwice(u64),
}

/// Takes the event that is due; `Err` tells why it is not as it is to be. The nodes say the numbers from 1 on, each its own, and `heard`
/// has whether it was said.
fn hear(gathered: &mut Gathered<Talk>, due: u64, heard: &mut [bool]) -> Result<(), Fault> {
    let Some((at, speech)) = gathered.take() else {
        return Err(Fault::NoEvent);
    };
    if at != due {
        return Err(Fault::OtherEvent(at));
    }
    if let Speech::Answer { event, .. } = speech {
        if event >= at {
            return Err(Fault::AnswerToLater(event));
        }
    }
    let number = speech.number();
    let Some(said) = heard.get_mut(number.wrapping_sub(1) as usize) else {
        return Err(Fault::NoNumber(number));
    };
    if *said {
        return Err(Fault::SaidTwice(number));
    }
    *said = true;
    Ok(())
}

/// The first event that is not as it is to be, and why.
fn first_fault(alloc: Global, gathered: &mut Gathered<Talk>) -> Result<Option<(u64, Fault)>, Fail> {
    let mut heard = vec![in alloc; false; 10_000]?;
    for due in 0..EVENTS {
        if let Err(fault) = hear(gathered, due, &mut heard) {
            return Ok(Some((due, fault)));
        }
    }
    Ok(None)
}

#[test]
fn events_of_four_workers_are_gathered_once_each(rt: HostRuntime) -> Result<(), Fail> {
    let mut talked = talk(&rt, rt.alloc(), SHARE, &OpenGate)?;
    same(&rt, talked.steps, 10_000);
    same(&rt, first_fault(rt.alloc(), &mut talked.gathered)?, None);
    same(&rt, talked.gathered.take(), None);
    Ok(())
}
