//! The journal, which numbers the events of its nodes.
ghost use Rattle.std.specs.Prelude.{◌≡◌, ◌<◌, ◌≤◌, ◌+◌, [], ◌∷◌, ◌++◌, length, All, Some, None, IfSome, IfOk, IsErrOf, OnOk, ◌↔◌, slice_get};
ghost use Rattle.cam_journal.specs.declared.fault.ReserveFault.TheVariants.{Full};
ghost use Rattle.cam_journal.specs.Taking.{IsNext};
ghost use Rattle.cam_journal.specs.Rule.{CanRecord, recorded, IsBelow};
ghost use Rattle.cam_journal.specs.Seats.{AreNew, with_event};
ghost use Rattle.cam_journal.specs.Gathered.{AreSeats, AreGathered};

use crate::fault::ReserveFault;
use crate::gathered::Gathered;
use crate::nodes::Core;
use crate::seat::{MOST, NodeSeat};
use crate::view::{Gathers, Learns, Opens, Records, Rules, Token, Told, Views};
use cam_base::NoMemory;
use std::alloc::Global;
use std::collections::VecDeque;
use std::marker::{Brand, Model};

/// The seats of a journal.
pub type Seats<C> = Vec<NodeSeat<C>>;

/// Numbers the events of its nodes, whatever threads record them. Contracts see which journal it is, and how many nodes it has.
#[derive(Drop)]
pub struct Journal<C: Core> {
    pub(crate) table: Views<C>,
    pub(crate) lists: Vec<VecDeque<(u64, C::Event)>>,
}

impl<C: Core> Model for Journal<C> {
    ghost use Rattle.std.specs.Prelude.{◌≡◌, ◌≤◌, []};
    ghost use Rattle.std.specs.Vec.{vec_capacity};
    ghost use Rattle.cam_journal.specs.Seats.{Opened};

    ghost Value = { Opened };

    ghost view = { λ j. record { id = j.table.shared.table_id; nodes = j.table.shared.key } };

    ghost invariant = { λ j. (j.table.shared.table_id.words ≡ 1) × (j.lists.items ≡ [])
        × (j.table.shared.key ≤ vec_capacity j.lists) };
}

impl<C: Core> Journal<C> {
    /// A journal for so many nodes, 1 to 8, with a seat for each node, in order, whose history is empty. It fails only when out of
    /// memory.
    pub fn open(alloc: Global, nodes: u8) -> Result<(Journal<C>, Seats<C>), NoMemory>
        requires { (0 < nodes) × (nodes ≤ 8) }
        ensures { IfOk result (λ opened. (opened.0.nodes ≡ nodes)
            × AreNew opened.0.id nodes opened.1.items) }
    {
        let lists = Vec::with_capacity(alloc, usize::from(nodes))?;
        let (table, mut maker) = Views::<C>::of_words(alloc, &[0], &nodes)?;
        let mut seats = Vec::with_capacity(alloc, usize::from(nodes))?;
        for _node in 0..nodes {
            let token = table.shared.split_seat::<Opens>(&mut maker);
            seats.push(NodeSeat {
                entries: VecDeque::new(alloc),
                token,
            })?;
        }
        Ok((Journal { table, lists }, seats))
    }

    /// Makes room for one more event of the seat, at least, and takes none away. Nothing else of the seat changes. `Full` comes exactly
    /// where the seat has 500,000,000 events; `NoMemory` may come wherever memory is wanted.
    pub fn reserve(&self, seat: &mut NodeSeat<C>) -> Result<(), ReserveFault>
        requires { seat.old.journal ≡ self.now.id }
        ensures ok { OnOk result (0 < seat.new.spare) }
        ensures full { IsErrOf result Full ↔ (length seat.old.history ≡ 500000000) }
        ensures kept { seat.old.spare ≤ seat.new.spare }
        ensures limit { seat.new.spare + length seat.new.history ≤ 500000000 }
        ensures same { seat.new ≡ record seat.old { spare = seat.new.spare } }
    {
        if seat.entries.len() >= MOST {
            return Err(ReserveFault::Full);
        }
        seat.entries.reserve(1)?;
        Ok(())
    }

    /// Records the event under the next number of the journal, which is above the earlier ones of the seat, and answers that number. It
    /// takes no memory and waits for nobody.
    pub fn record(&self, seat: &mut NodeSeat<C>, event: C::Event) -> u64
        requires own { seat.old.journal ≡ self.now.id }
        requires room { 0 < seat.old.spare }
        requires next { IsNext C.names C.lawful seat.old.node seat.old.history seat.old.taken
            event }
        ensures seat { seat.new ≡ with_event C.names result event seat.old }
        ensures above { All (λ entry. entry.number < result) seat.old.history }
    {
        let number = record_as::<C, Brand>(&self.table.shared, &mut seat.token, &event);
        let Ok(()) = seat.entries.push_back((number, event)) else {
            unreachable!();
        };
        number
    }

    /// Gathers the events of all seats in order of their numbers, which run from 0. It takes no memory and waits for nobody.
    pub fn gather(self, seats: Seats<C>) -> Gathered<C>
        requires { AreSeats self seats.items }
        ensures { AreGathered C.names C.sends C.lawful self.nodes seats.items result }
    {
        let Journal { table, mut lists } = self;
        let (_, mut token) = table.shared.load_new_seat::<Gathers>(0);
        for seat in seats {
            let NodeSeat {
                entries,
                token: other,
            } = seat;
            table.shared.join_seat::<Gathers>(&mut token, other);
            let Ok(()) = lists.push(entries) else {
                unreachable!();
            };
        }
        table.shared.load::<Learns<C>>(&mut token, 0);
        Gathered {
            lists,
            next: 0,
            token,
        }
    }
}

// Takes the next number for the event, which the step is told.
fn record_as<C: Core, N: Told<C::Event>>(
    shared: &Rules<C>,
    token: &mut Token<C>,
    event: &C::Event,
) -> u64
    requires told { N.told ≡ Some event.now }
    requires table { (token.old.table_id ≡ shared.now.table_id) × (shared.now.table_id.words ≡ 1) }
    requires next { CanRecord C.names C.lawful token.old.me.0 event.now }
    ensures table { token.new.table_id ≡ token.old.table_id }
    ensures me { token.new.me ≡ (recorded C.names event.now result token.old.me.0, token.old.me.1) }
    ensures above { IsBelow result token.old.me.0 }
{
    let _ = event;
    shared.fetch_add::<Records<C, N>>(token, 0, 1)
}
