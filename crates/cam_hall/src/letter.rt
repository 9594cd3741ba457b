//! Letters that stand in the histories of what is left.
ghost use Rattle.std.specs.Prelude.{◌≡◌, All, IsSome, IfSome, IfOk, OnErr};
ghost use Rattle.cam_hall.specs.Ending.{HasLetter, IsFound, IsItem, IsNoteFor};

use crate::item::{Item, ItemOf};
use cam_base::NoMemory;
use cam_journal::{Core, Journal, NodeSeat, Note, Seats};

/// What a node takes a turn with: nothing from outside, or a new note of the letter that an event
/// of this number sent at this place and that goes to the node. Only a note wants memory. The seats
/// stay as they are.
pub(crate) fn item_of<C: Core>(
    journal: &Journal<C>,
    seats: &mut Seats<C>,
    node: u8,
    letter: Option<(u64, u32)>,
) -> Result<Item<C>, NoMemory>
    requires own { All (λ seat. seat.journal ≡ journal.now.id) seats.old.items }
    requires letter { IfSome letter (λ name. HasLetter C.sends C.goes_to seats.old.items node name.0
        name.1) }
    ensures item { IfOk result
        (λ item. IsItem C.sends C.goes_to journal.now.id seats.old.items node letter item) }
    ensures fault { OnErr result (IsSome letter) }
    ensures same { seats.new.items ≡ seats.old.items }
{
    match letter {
        Some((number, place)) => Ok(ItemOf::Letter(note_of(journal, seats, node, number, place)?)),
        None => Ok(ItemOf::Drive),
    }
}

// A new note of a letter that stands in one of the histories.
fn note_of<C: Core>(
    journal: &Journal<C>,
    seats: &mut Seats<C>,
    node: u8,
    number: u64,
    place: u32,
) -> Result<Note<C>, NoMemory>
    requires own { All (λ seat. seat.journal ≡ journal.now.id) seats.old.items }
    requires letter { HasLetter C.sends C.goes_to seats.old.items node number place }
    ensures note { IfOk result (λ note. IsNoteFor C.sends C.goes_to journal.now.id seats.old.items
        node number place note) }
    ensures same { seats.new.items ≡ seats.old.items }
{
    for at in 0..seats.len() {
        if let Some(note) = find_in(journal, &mut seats[at], node, number, place)? {
            return Ok(note);
        }
    }
    unreachable!()
}

// A new note of a letter, where it stands in the history of this seat and goes to the node.
fn find_in<C: Core>(
    journal: &Journal<C>,
    seat: &mut NodeSeat<C>,
    node: u8,
    number: u64,
    place: u32,
) -> Result<Option<Note<C>>, NoMemory>
    requires own { seat.old.journal ≡ journal.now.id }
    ensures found { IfOk result (λ found. IsFound C.sends C.goes_to journal.now.id
        seat.old.history node number place found) }
    ensures same { seat.new ≡ seat.old }
{
    if !seat.sent(number, place) {
        return Ok(None);
    }
    let note = journal.note(seat, number, place)?;
    if C::to(note.letter()) != node {
        return Ok(None);
    }
    Ok(Some(note))
}
