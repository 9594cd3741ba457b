//! A cell: a slot under its lock.
ghost use Rattle.std.specs.Prelude.{◌≡◌, ◌<◌, ◌≤◌, [], ◌∷◌, ◌++◌, vec_len};
ghost use Rattle.std.specs.Vec.{vec_capacity};
ghost use Rattle.cam_hall.specs.Turns.{Standing, IsFor, IsStanding};
ghost use Rattle.cam_hall.specs.Notes.{HasAddressed};

use crate::hall::Hall;
use crate::item::{Item, ItemOf};
use crate::names::Names;
use crate::served::Handled;
use crate::slot::Slot;
use crate::turned::{HallFault, Turned, TurnedOf};
use cam_journal::{Core, Journal, NodeSeat, Seats};
use std::alloc::Global;
use std::sync::atomic::{AtomicBool, Ordering};
use std::sync::{Mutex, Wait};

/// The core and the seat of node `NODE` of the journal that `J` names, under a lock.
#[derive(Drop)]
pub struct Cell<C: Core, J: Names, const NODE: u8> {
    slot: Mutex<Slot<C, J, NODE>>,
    /// Its core had nothing to do by itself when it was last asked, and has made no step since. It is
    /// written under the lock alone.
    rests: AtomicBool,
}

impl<C: Core, J: Names, const NODE: u8> Cell<C, J, NODE> {
    /// A cell of a core with the seat of its node. It takes no memory.
    pub fn new(alloc: Global, core: Box<C>, seat: NodeSeat<C>) -> Cell<C, J, NODE>
        requires seat { (seat.journal ≡ J.journal) × (seat.node ≡ NODE) }
        requires replay { C.is_replay core.value NODE seat.history }
    {
        Cell {
            slot: Mutex::new(Slot::new(alloc, core, seat)),
            rests: AtomicBool::new(false),
        }
    }

    /// Waits for the lock, takes one turn with the item, lets the lock go, and puts the notes into
    /// the mailboxes of their nodes. A note that finds no memory there is dropped.
    pub fn handle<R: Wait>(
        &self,
        rt: &R,
        hall: &Hall<C, J>,
        item: Item<C>,
    ) -> Result<Handled, HallFault>
        requires { IsFor J.journal C.goes_to NODE item }
    {
        hall.begin_turn();
        let handled = self.turn_and_send(rt, hall, item);
        hall.end_turn();
        handled
    }

    // One turn, whose notes are in the mailboxes then.
    fn turn_and_send<R: Wait>(
        &self,
        rt: &R,
        hall: &Hall<C, J>,
        item: Item<C>,
    ) -> Result<Handled, HallFault>
        requires { IsFor J.journal C.goes_to NODE item }
    {
        match self.turn(rt, hall.journal(), item)? {
            TurnedOf::Did { number, notes, .. } => Ok(Handled::Did {
                number,
                sent: hall.mail.put_all(rt, notes),
            }),
            TurnedOf::Nothing => Ok(Handled::Nothing),
            TurnedOf::Full => Ok(Handled::Full),
        }
    }

    // One turn under the lock. Its notes are of this journal.
    fn turn<R: Wait>(
        &self,
        rt: &R,
        journal: &Journal<C>,
        item: Item<C>,
    ) -> Result<Turned<C>, HallFault>
        requires own { journal.now.id ≡ J.journal }
        requires item { IsFor J.journal C.goes_to NODE item }
        ensures { HasAddressed C.goes_to J.journal result }
    {
        let by_itself = matches!(&item, ItemOf::Drive);
        let mut slot = self.slot.lock(rt);
        let answer = slot.turn(journal, item);
        match &answer {
            Ok(TurnedOf::Did { .. }) => self.rests.store(false, Ordering::SeqCst),
            Ok(TurnedOf::Nothing) if by_itself => self.rests.store(true, Ordering::SeqCst),
            Ok(TurnedOf::Nothing | TurnedOf::Full) | Err(_) => {}
        }
        answer
    }

    /// Whether its core has nothing to do by itself, by a look that takes no lock: a step that
    /// another worker makes meanwhile may not be seen yet.
    pub(crate) fn rests(&self) -> bool {
        self.rests.load(Ordering::SeqCst)
    }

    /// Puts the core and the seat behind those of the nodes before, once no thread uses the cell.
    /// It takes no memory.
    pub(crate) fn leave(self, cores: &mut Vec<C>, seats: &mut Seats<C>)
        requires cores { vec_len cores.old < vec_capacity cores.old }
        requires seats { vec_len seats.old < vec_capacity seats.old }
        ensures left { (slot : Standing C C.Event C.Letter)
            × IsStanding C.is_replay J.journal NODE slot
            × (cores.new.items ≡ cores.old.items ++ slot.core ∷ [])
            × (seats.new.items ≡ seats.old.items ++ slot.seat ∷ []) }
        ensures room { (vec_capacity cores.old ≤ vec_capacity cores.new)
            × (vec_capacity seats.old ≤ vec_capacity seats.new) }
    {
        let (core, seat) = self.slot.into_inner().into_parts();
        let Ok(()) = cores.push(core) else {
            unreachable!();
        };
        let Ok(()) = seats.push(seat) else {
            unreachable!();
        };
    }
}
