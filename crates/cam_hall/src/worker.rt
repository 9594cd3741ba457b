//! The work for a node.
ghost use Rattle.std.specs.Prelude.{◌≡◌, ◌<◌, ◌≤◌, ◌+◌, List, ◌∷◌, IfOk};
ghost use Rattle.cam_journal.specs.Rule.{IsNode};
ghost use Rattle.cam_hall.specs.declared.served.Turn.{Turn};
ghost use Rattle.cam_hall.specs.Serving.{IsServed, IsTally};

use crate::cell::Cell;
use crate::gate::Gate;
use crate::hall::Hall;
use crate::item::ItemOf;
use crate::mailbox::Mailbox;
use crate::names::Names;
use crate::served::{End, Handled, Served, Turn};
use crate::turned::HallFault;
use cam_journal::Core;
use std::sync::Wait;
use std::thread::yield_now;

// How many empty turns in a row end the work.
const QUIET_TURNS: u32 = 4096;

/// Works for a node, for so many turns at most: lets its core go on by itself, and hands a letter to
/// its cell where the core has nothing to do. It ends with the first 4,096 turns in a row that found
/// neither letter nor request, while no cell was at a turn, or with its last turn.
pub fn serve<R: Wait, C: Core, J: Names, G: Gate>(
    rt: &R,
    hall: &Hall<C, J>,
    node: u8,
    worker: u32,
    gate: &G,
    turns: u32,
) -> Result<Served, HallFault>
    requires { IsNode 4 node }
    ensures { IfOk result (λ served. (taken : List Turn) × IsServed turns taken served) }
{
    let mut tally = Tally { steps: 0, empty: 0 };
    for taken in 0..turns {
        let turn = pass(rt, hall, node, worker, gate, tally.steps)?;
        tally.add(turn);
        let quiet = tally.empty >= QUIET_TURNS;
        if quiet {
            return Ok(Served {
                steps: tally.steps,
                turns: taken + 1,
                end: End::Quiet,
            });
        }
    }
    Ok(Served {
        steps: tally.steps,
        turns,
        end: End::Turns,
    })
}

// The steps so far, and how many turns in a row were empty up to now.
#[derive(Drop)]
struct Tally {
    steps: u32,
    empty: u32,
}

impl Tally {
    // One turn more.
    fn add(&mut self, turn: Turn)
        requires { (self.old.steps < 4294967295) × (self.old.empty < 4294967295) }
        ensures { (taken : List Turn) → IsTally taken self.old → IsTally (turn ∷ taken) self.new }
    {
        match turn {
            Turn::Step => {
                self.steps += 1;
                self.empty = 0;
            }
            Turn::Empty => self.empty += 1,
            Turn::Unused | Turn::Waiting | Turn::Held => self.empty = 0,
        }
    }
}

// A turn of a worker, which has made so many steps in this call.
fn pass<R: Wait, C: Core, J: Names, G: Gate>(
    rt: &R,
    hall: &Hall<C, J>,
    node: u8,
    worker: u32,
    gate: &G,
    step: u32,
) -> Result<Turn, HallFault>
    requires { IsNode 4 node }
{
    if !gate.before(worker, step) {
        return Ok(Turn::Held);
    }
    let turn = match node {
        1 => work(rt, hall, &hall.first, &hall.mail.first)?,
        2 => work(rt, hall, &hall.second, &hall.mail.second)?,
        3 => work(rt, hall, &hall.third, &hall.mail.third)?,
        _ => work(rt, hall, &hall.fourth, &hall.mail.fourth)?,
    };
    if turn == Turn::Step {
        gate.after(worker, step);
    }
    if turn == Turn::Empty && hall.has_turn() {
        yield_now();
        return Ok(Turn::Waiting);
    }
    Ok(turn)
}

// Lets the core of the cell go on by itself, or hands it the next letter if it has nothing to do. It
// takes the lock only if the core may have something to do, or a letter is there.
fn work<R: Wait, C: Core, J: Names, const NODE: u8>(
    rt: &R,
    hall: &Hall<C, J>,
    cell: &Cell<C, J, NODE>,
    mailbox: &Mailbox<C, J, NODE>,
) -> Result<Turn, HallFault> {
    if cell.rests() {
        return deliver(rt, hall, cell, mailbox, Turn::Empty);
    }
    match cell.handle(rt, hall, ItemOf::Drive)? {
        Handled::Did { .. } => Ok(Turn::Step),
        Handled::Nothing => deliver(rt, hall, cell, mailbox, Turn::Empty),
        Handled::Full => deliver(rt, hall, cell, mailbox, Turn::Unused),
    }
}

// Hands the next letter to the cell; the turn is this one where there is none.
fn deliver<R: Wait, C: Core, J: Names, const NODE: u8>(
    rt: &R,
    hall: &Hall<C, J>,
    cell: &Cell<C, J, NODE>,
    mailbox: &Mailbox<C, J, NODE>,
    none: Turn,
) -> Result<Turn, HallFault> {
    let Some(note) = mailbox.take(rt) else {
        return Ok(none);
    };
    match cell.handle(rt, hall, ItemOf::Letter(note))? {
        Handled::Did { .. } => Ok(Turn::Step),
        Handled::Nothing | Handled::Full => Ok(Turn::Unused),
    }
}
