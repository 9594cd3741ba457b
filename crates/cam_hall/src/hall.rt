//! Four cells with their journal and their mailboxes.
ghost use Rattle.std.specs.Prelude.{◌≡◌};

use crate::cell::Cell;
use crate::ended::Ended;
use crate::mailbox::Mailboxes;
use crate::names::Names;
use crate::room::Room;
use cam_base::NoMemory;
use cam_journal::{Core, Journal};
use std::alloc::Global;
use std::marker::Model;
use std::sync::Mutex;
use std::sync::atomic::{AtomicU64, Ordering};

/// The cells of nodes 1 to 4 with the journal that `J` names, and a mailbox for each. Contracts see
/// the journal.
#[derive(Drop)]
pub struct Hall<C: Core, J: Names> {
    journal: Journal<C>,
    pub(crate) first: Cell<C, J, 1>,
    pub(crate) second: Cell<C, J, 2>,
    pub(crate) third: Cell<C, J, 3>,
    pub(crate) fourth: Cell<C, J, 4>,
    pub(crate) mail: Mailboxes<C, J>,
    room: Mutex<Room<C>>,
    /// How many turns of cells are under way: the letters of a turn are in the mailboxes before it
    /// is over.
    turns: AtomicU64,
}

/// What a hall takes memory for: empty mailboxes, and room for what it will leave. It is made before
/// the cells, so that no core is lost where memory runs out.
#[derive(Drop)]
pub struct HallRoom<C: Core, J: Names> {
    mail: Mailboxes<C, J>,
    room: Room<C>,
}

impl<C: Core, J: Names> HallRoom<C, J> {
    /// It fails only when out of memory.
    pub fn new(alloc: Global) -> Result<HallRoom<C, J>, NoMemory> {
        Ok(HallRoom {
            mail: Mailboxes::new(alloc)?,
            room: Room::new(alloc)?,
        })
    }
}

impl<C: Core, J: Names> Model for Hall<C, J> {
    ghost use Rattle.std.specs.Prelude.{◌≡◌};
    ghost use Rattle.cam_journal.specs.Seats.{Opened};

    ghost Value = { Opened };

    ghost view = { λ h. h.journal };

    ghost invariant = { λ h. (h.journal.id ≡ J.journal) × (h.journal.nodes ≡ 4) };
}

impl<C: Core, J: Names> Hall<C, J> {
    /// A hall in the room that was made for it. It takes no memory.
    pub fn new(
        place: HallRoom<C, J>,
        journal: Journal<C>,
        first: Cell<C, J, 1>,
        second: Cell<C, J, 2>,
        third: Cell<C, J, 3>,
        fourth: Cell<C, J, 4>,
    ) -> Hall<C, J>
        requires own { journal.id ≡ J.journal }
        requires nodes { journal.nodes ≡ 4 }
        ensures { result ≡ journal }
    {
        let HallRoom { mail, room } = place;
        Hall {
            journal,
            first,
            second,
            third,
            fourth,
            mail,
            room: Mutex::new(room),
            turns: AtomicU64::new(0),
        }
    }

    /// Gives what is left once no worker uses the hall. Letters that are still in mailboxes are
    /// dropped. It takes no memory.
    pub fn end(self) -> Ended<C>
        ensures { result.journal ≡ self }
    {
        let Hall {
            journal,
            first,
            second,
            third,
            fourth,
            mail: _,
            room,
            turns: _,
        } = self;
        let (mut cores, mut seats) = room.into_inner().into_lists();
        first.leave(&mut cores, &mut seats);
        second.leave(&mut cores, &mut seats);
        third.leave(&mut cores, &mut seats);
        fourth.leave(&mut cores, &mut seats);
        Ended::new(journal, cores, seats)
    }

    /// The cell of node 1.
    pub fn first(&self) -> &Cell<C, J, 1> {
        &self.first
    }

    /// The cell of node 2.
    pub fn second(&self) -> &Cell<C, J, 2> {
        &self.second
    }

    /// The cell of node 3.
    pub fn third(&self) -> &Cell<C, J, 3> {
        &self.third
    }

    /// The cell of node 4.
    pub fn fourth(&self) -> &Cell<C, J, 4> {
        &self.fourth
    }

    /// A turn of a cell begins.
    pub(crate) fn begin_turn(&self) {
        self.turns.fetch_add(1, Ordering::SeqCst);
    }

    /// A turn of a cell is over.
    pub(crate) fn end_turn(&self) {
        self.turns.fetch_sub(1, Ordering::SeqCst);
    }

    /// Whether a cell is at a turn, by a look that takes no lock.
    pub(crate) fn has_turn(&self) -> bool {
        self.turns.load(Ordering::SeqCst) > 0
    }

    /// The journal.
    pub(crate) fn journal(&self) -> &Journal<C>
        ensures same { result.now ≡ self.now }
        ensures own { result.now.id ≡ J.journal }
    {
        &self.journal
    }
}
