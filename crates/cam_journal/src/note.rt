//! Notes, which stand for letters that were sent.
ghost use Rattle.std.specs.Prelude.{◌≡◌, ◌≢◌, ◌↔◌, ℕ, [], Some, All, IsSome, IsTrue, IfOk, MatchOption, slice_get};
ghost use Rattle.cam_journal.specs.Taking.{IsFromLawful};
ghost use Rattle.cam_journal.specs.Rule.{HasSent, note_of};
ghost use Rattle.cam_journal.specs.Seats.{letter_at, with_taken, AreRising};

use crate::entry::SentLetter;
use crate::journal::Journal;
use crate::nodes::Core;
use crate::seat::NodeSeat;
use crate::view::{Copies, Notes, Rules, Takes, Token, Told};
use cam_base::NoMemory;
use std::collections::VecDeque;
use std::marker::{Brand, Model};

/// A note of a letter that a node of a journal sent. Contracts see its journal, and the letter with the number of the event that sent
/// it and its place.
#[derive(Drop)]
pub struct Note<C: Core> {
    number: u64,
    place: u32,
    letter: Box<C::Letter>,
    token: Token<C>,
}

impl<C: Core> Model for Note<C> {
    ghost use Rattle.std.specs.Prelude.{◌≡◌, []};
    ghost use Rattle.cam_journal.specs.declared.view.SeatView.TheVariants.{Posted};
    ghost use Rattle.cam_journal.specs.Taking.{IsFromLawful};
    ghost use Rattle.cam_journal.specs.Seats.{Mention, sent_as};

    ghost Value = { Mention C.Letter };

    ghost view = { λ n. record {
      journal = n.token.table_id;
      sent = sent_as n.number n.place n.letter.value;
    } };

    ghost invariant = { λ n. (n.token.me ≡ (Posted (sent_as n.number n.place n.letter.value), []))
        × IsFromLawful C.sends C.lawful (sent_as n.number n.place n.letter.value) };
}

impl<C: Core> Note<C> {
    /// The number of the event that sent the letter. It takes no memory.
    pub fn number(&self) -> u64
        ensures { result ≡ self.now.sent.number }
    {
        self.number
    }

    /// The place of the letter among those of its event, from 0. It takes no memory.
    pub fn place(&self) -> u32
        ensures { result ≡ self.now.sent.place }
    {
        self.place
    }

    /// The letter. It takes no memory.
    pub fn letter(&self) -> &C::Letter
        ensures { result.now ≡ self.now.sent.letter }
    {
        &*self.letter
    }
}

impl<C: Core> Journal<C> {
    /// A note of the letter that an event of the seat sent, at a place. The seat stays as it is. It fails only when out of memory.
    pub fn note(&self, seat: &mut NodeSeat<C>, number: u64, place: u32) -> Result<Note<C>, NoMemory>
        requires own { seat.old.journal ≡ self.now.id }
        requires sent { IsSome (letter_at C.sends seat.old.history number place) }
        ensures journal { IfOk result (λ note. note.journal ≡ self.now.id) }
        ensures name { IfOk result
            (λ note. (note.sent.number ≡ number) × (note.sent.place ≡ place)) }
        ensures letter { IfOk result
            (λ note. letter_at C.sends seat.old.history number place ≡ Some note.sent.letter) }
        ensures same { seat.new ≡ seat.old }
    {
        let Some(event) = event_of(&seat.entries, number) else {
            unreachable!();
        };
        let letter = C::letter(event, place)?;
        let sent = SentLetter {
            number,
            place,
            letter,
        };
        let token = note_as::<C, Brand>(&self.table.shared, &mut seat.token, &sent);
        let letter = Box::new(*self.lists.allocator(), sent.letter)?;
        Ok(Note {
            number,
            place,
            letter,
            token,
        })
    }

    /// Another note of the same letter. The note stays as it is. It fails only when out of memory.
    pub fn copy_note(&self, note: &mut Note<C>) -> Result<Note<C>, NoMemory>
        requires { note.old.journal ≡ self.now.id }
        ensures copy { IfOk result (λ copy. copy ≡ note.old) }
        ensures same { note.new ≡ note.old }
    {
        let letter = Box::new(*self.lists.allocator(), C::copy(&*note.letter)?)?;
        let token = self.table.shared.split_seat::<Copies>(&mut note.token);
        Ok(Note {
            number: note.number,
            place: note.place,
            letter,
            token,
        })
    }

    /// Takes the letter of a note, whose receipt the seat may record next, in place of one that it took and has not used. It takes no
    /// memory and waits for nobody. The letter was sent by an event that was lawful for its node.
    pub fn take_note(&self, seat: &mut NodeSeat<C>, note: Note<C>) -> C::Letter
        requires seat { seat.old.journal ≡ self.now.id }
        requires note { note.journal ≡ self.now.id }
        ensures letter { result ≡ note.sent.letter }
        ensures taken { seat.new ≡ with_taken note.sent seat.old }
        ensures lawful { IsFromLawful C.sends C.lawful note.sent }
    {
        let Note {
            number: _,
            place: _,
            letter,
            token,
        } = note;
        self.table.shared.join_seat::<Takes>(&mut seat.token, token);
        Box::into_inner(letter)
    }
}

impl<C: Core> NodeSeat<C> {
    /// Whether an event of the history that has this number sent a letter at this place. It takes
    /// no memory.
    pub fn sent(&self, number: u64, place: u32) -> bool
        ensures { IsTrue result ↔ IsSome (letter_at C.sends self.now.history number place) }
    {
        match event_of(&self.entries, number) {
            Some(event) => place < C::letters(event),
            None => false,
        }
    }
}

// Cuts off the note of a letter, which the step is told.
fn note_as<C: Core, N: Told<SentLetter<C::Letter>>>(
    shared: &Rules<C>,
    token: &mut Token<C>,
    sent: &SentLetter<C::Letter>,
) -> Token<C>
    requires told { N.told ≡ Some sent.now }
    requires table { (token.old.table_id ≡ shared.now.table_id) × (shared.now.table_id.words ≡ 1) }
    requires sent { HasSent C.sends token.old.me.0 sent.now }
    ensures table { (token.new.table_id ≡ token.old.table_id)
        × (result.table_id ≡ token.old.table_id) }
    ensures same { token.new.me ≡ token.old.me }
    ensures note { result.me ≡ (note_of N.told, []) }
{
    let _ = sent;
    shared.split_seat::<Notes<N>>(token)
}

// The event with this number, among events whose numbers rise.
fn event_of<E>(entries: &VecDeque<(u64, E)>, number: u64) -> Option<&E>
    requires { AreRising entries.now.items }
    ensures { MatchOption result (All (λ entry. entry.0 ≢ number) entries.now.items)
        (λ event. (at : ℕ) × (slice_get entries.now.items at ≡ Some (number, event.now))) }
{
    let Ok(at) = entries.binary_search_by_key(&number, |entry| entry.0) else {
        return None;
    };
    let (_, event) = entries.get(at)?;
    Some(event)
}
