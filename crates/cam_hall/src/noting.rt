//! Notes of the letters that an event sent.
ghost use Rattle.std.specs.Prelude.{◌≡◌, ◌<◌, ◌||◌, length};
ghost use Rattle.cam_hall.specs.Notes.{AreNotes, IsAdded, IsPushed, letters_of};

use crate::turned::Notes;
use cam_base::{NoMemory, Sequence};
use cam_journal::{Core, Journal, NodeSeat, Note};
use std::alloc::Global;

/// Notes of the letters of the event with this number, in order, each as often as it is copied; and
/// whether want of memory may have left some out. The seat stays as it is.
pub(crate) fn notes_of<C: Core>(
    alloc: Global,
    journal: &Journal<C>,
    seat: &mut NodeSeat<C>,
    number: u64,
    letters: u32,
) -> (Notes<C>, bool)
    requires own { seat.old.journal ≡ journal.now.id }
    requires letters { letters ≡ length (letters_of C.sends seat.old.history number) }
    ensures notes { AreNotes C.goes_to C.copied journal.now.id number
        (letters_of C.sends seat.old.history number) result.1 result.0 }
    ensures same { seat.new ≡ seat.old }
{
    let mut notes = Sequence::new(alloc);
    let mut short = false;
    for place in 0..letters {
        let left_out = add_notes(journal, seat, number, place, &mut notes);
        short = either(short, left_out);
    }
    (notes, short)
}

// Whether one or the other holds.
fn either(one: bool, other: bool) -> bool
    ensures { result ≡ (one || other) }
{
    one || other
}

// Adds notes of the letter at a place, as often as it is copied, and says whether want of memory
// left some of them out.
fn add_notes<C: Core>(
    journal: &Journal<C>,
    seat: &mut NodeSeat<C>,
    number: u64,
    place: u32,
    notes: &mut Notes<C>,
) -> bool
    requires own { seat.old.journal ≡ journal.now.id }
    requires letter { place < length (letters_of C.sends seat.old.history number) }
    ensures notes { IsAdded C.goes_to C.copied journal.now.id number place
        (letters_of C.sends seat.old.history number) result notes.old notes.new }
    ensures same { seat.new ≡ seat.old }
{
    let Ok(mut note) = journal.note(seat, number, place) else {
        return true;
    };
    let to = C::to(note.letter());
    match C::copies(note.letter()) {
        0 => false,
        1 => push_note(notes, to, note),
        _ => push_twice(journal, notes, to, note),
    }
}

// Adds a note and a copy of it, and says whether want of memory left some of them out.
fn push_twice<C: Core>(
    journal: &Journal<C>,
    notes: &mut Notes<C>,
    to: u8,
    mut note: Note<C>,
) -> bool
    requires { note.journal ≡ journal.now.id }
    ensures { IsPushed 2 result (to, note) notes.old notes.new }
{
    let Ok(copy) = journal.copy_note(&mut note) else {
        push_note(notes, to, note);
        return true;
    };
    let first = push_note(notes, to, copy);
    let second = push_note(notes, to, note);
    first || second
}

// Adds a note, and says whether want of memory left it out.
fn push_note<C: Core>(notes: &mut Notes<C>, to: u8, note: Note<C>) -> bool
    ensures { IsPushed 1 result (to, note) notes.old notes.new }
{
    match notes.push((to, note)) {
        Ok(()) => false,
        Err(NoMemory) => true,
    }
}
