//! Workers that serve a hall in threads, round after round.
ghost use Rattle.std.specs.Prelude.{◌≡◌, ◌≤◌, ◌*◌, ◌<◌, ◌/◌, length};

use cam_hall::{Cell, End, Gate, Hall, HallFault, ItemOf, Names, Served, serve};
use cam_journal::Core;
use std::alloc::Global;
use std::sync::Wait;
use std::thread::{Threads, map_indices};

/// How many turns a worker may take in all rounds.
const TURNS: u32 = 1_000_000;

/// What comes after a round.
#[derive(Clone, Copy, Debug, PartialEq, Eq)]
enum After {
    /// Another round.
    Round,
    /// Nothing: no worker made a step, or the turns of one have run out.
    Nothing,
}

/// Lets the cores go on by themselves, node after node, in so many turns.
pub fn start<R: Wait, C: Core, J: Names>(
    rt: &R,
    hall: &Hall<C, J>,
    turns: u32,
) -> Result<(), HallFault> {
    for turn in 0..turns {
        match turn % 4 {
            0 => drive(rt, hall, hall.first())?,
            1 => drive(rt, hall, hall.second())?,
            2 => drive(rt, hall, hall.third())?,
            _ => drive(rt, hall, hall.fourth())?,
        }
    }
    Ok(())
}

/// A turn of a core by itself.
fn drive<R: Wait, C: Core, J: Names, const NODE: u8>(
    rt: &R,
    hall: &Hall<C, J>,
    cell: &Cell<C, J, NODE>,
) -> Result<(), HallFault> {
    cell.handle(rt, hall, ItemOf::Drive)?;
    Ok(())
}

/// Workers serve the hall in threads, so many for each node, 1 to 4, in rounds: until a round in
/// which none of them makes a step, or one of them has taken 1,000,000 turns. The workers are
/// numbered from 0, those of node 1 first.
pub fn work<R: Threads + Wait + Sync, C: Core + Send, J: Names + Send + Sync, G: Gate + Sync>(
    rt: &R,
    alloc: Global,
    hall: &Hall<C, J>,
    threads: u32,
    gate: &G,
) -> Result<(), HallFault>
where
    C::Event: Send + Sync,
    C::Letter: Send + Sync,
    requires { (1 ≤ threads) × (threads ≤ 4) }
{
    let Ok(mut left) = vec![in alloc; TURNS; 4 * threads as usize] else {
        return Err(HallFault::NoMemory);
    };
    for _ in 0..TURNS {
        if round(rt, alloc, hall, threads, gate, left.as_mut_slice())? == After::Nothing {
            break;
        }
    }
    Ok(())
}

/// Each worker serves its node once, for as many turns as it has left.
fn round<R: Threads + Wait + Sync, C: Core + Send, J: Names + Send + Sync, G: Gate + Sync>(
    rt: &R,
    alloc: Global,
    hall: &Hall<C, J>,
    threads: u32,
    gate: &G,
    left: &mut [u32],
) -> Result<After, HallFault>
where
    C::Event: Send + Sync,
    C::Letter: Send + Sync,
    requires threads { (1 ≤ threads) × (threads ≤ 4) }
    requires workers { length left.old ≡ 4 * threads }
{
    let turns = &*left;
    let served = map_indices(
        rt,
        alloc,
        turns.len(),
        &|worker| serve_for(rt, hall, threads, worker as u32, gate, turns[worker]),
    );
    let Ok(served) = served else {
        return Err(HallFault::NoMemory);
    };
    let mut after = After::Nothing;
    let mut all_may = true;
    for (left, served) in left.iter_mut().zip(served) {
        let served = served?;
        *left = left.saturating_sub(served.turns);
        if served.steps > 0 {
            after = After::Round;
        }
        all_may = all_may && served.end == End::Quiet;
    }
    if all_may {
        Ok(after)
    } else {
        Ok(After::Nothing)
    }
}

/// The work of the worker of this number in a round. There are so many for each node.
fn serve_for<R: Wait, C: Core, J: Names, G: Gate>(
    rt: &R,
    hall: &Hall<C, J>,
    threads: u32,
    worker: u32,
    gate: &G,
    turns: u32,
) -> Result<Served, HallFault>
    requires threads { 1 ≤ threads }
    requires worker { worker < 4 * threads }
{
    let node = (worker / threads) as u8 + 1;
    serve(rt, hall, node, worker, gate, turns)
}
