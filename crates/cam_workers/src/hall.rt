//! A hall of cores and seats.
ghost use Rattle.std.specs.Prelude.{◌≡◌, ◌-◌, ◌<◌, map};
ghost use Rattle.cam_workers.specs.Standing.{AreStanding};

use cam_hall::{Cell, Hall, HallRoom, Names};
use cam_journal::{Core, Journal, Seats};
use std::alloc::Global;

/// A hall in the room that was made for it, of a core and a seat for each of its four nodes, in
/// order. Each core is the replay of its seat's history. It takes no memory.
pub fn hall_of<C: Core, J: Names>(
    alloc: Global,
    room: HallRoom<C, J>,
    journal: Journal<C>,
    mut cores: Vec<Box<C>>,
    mut seats: Seats<C>,
) -> Hall<C, J>
    requires own { journal.id ≡ J.journal }
    requires nodes { journal.nodes ≡ 4 }
    requires standing { AreStanding C.is_replay J.journal 4
        (map (λ core. core.value) cores.items) seats.items }
    ensures { result ≡ journal }
{
    let fourth = last_cell(alloc, &mut cores, &mut seats);
    let third = last_cell(alloc, &mut cores, &mut seats);
    let second = last_cell(alloc, &mut cores, &mut seats);
    let first = last_cell(alloc, &mut cores, &mut seats);
    Hall::new(room, journal, first, second, third, fourth)
}

/// The cell of the last of these cores and seats, which are those of the first so many nodes.
fn last_cell<C: Core, J: Names, const NODE: u8>(
    alloc: Global,
    cores: &mut Vec<Box<C>>,
    seats: &mut Seats<C>,
) -> Cell<C, J, NODE>
    requires some { 0 < NODE }
    requires standing { AreStanding C.is_replay J.journal NODE
        (map (λ core. core.value) cores.old.items) seats.old.items }
    ensures { AreStanding C.is_replay J.journal (NODE - 1)
        (map (λ core. core.value) cores.new.items) seats.new.items }
{
    let Some(core) = cores.pop() else {
        unreachable!();
    };
    let Some(seat) = seats.pop() else {
        unreachable!();
    };
    Cell::new(alloc, core, seat)
}
