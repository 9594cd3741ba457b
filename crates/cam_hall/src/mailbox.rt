//! The mailboxes of the cells.
ghost use Rattle.std.specs.Prelude.{◌≡◌, IfSome};
ghost use Rattle.cam_hall.specs.Notes.{AreAddressed};

use crate::names::Names;
use crate::turned::Notes;
use cam_base::NoMemory;
use cam_journal::{Core, Note};
use crossbeam_queue::SegQueue;
use std::alloc::Global;
use std::marker::{Model, PhantomData};
use std::sync::Wait;

/// A note in the mailbox of node `NODE`: it is of the journal that `J` names, and its letter goes
/// to the node.
#[derive(Drop)]
pub struct Posted<C: Core, J: Names, const NODE: u8> {
    note: Note<C>,
    of: PhantomData<J>,
}

impl<C: Core, J: Names, const NODE: u8> Model for Posted<C, J, NODE> {
    ghost use Rattle.std.specs.Prelude.{◌≡◌};
    ghost use Rattle.cam_journal.specs.Seats.{Mention};

    ghost Value = { Mention C.Letter };

    ghost view = { λ p. p.note };

    ghost invariant = { λ p. (p.note.journal ≡ J.journal)
        × (C.goes_to p.note.sent.letter ≡ NODE) };
}

impl<C: Core, J: Names, const NODE: u8> Posted<C, J, NODE> {
    /// A note for the mailbox of its node.
    pub fn new(note: Note<C>) -> Posted<C, J, NODE>
        requires journal { note.journal ≡ J.journal }
        requires to { C.goes_to note.sent.letter ≡ NODE }
        ensures { result ≡ note }
    {
        Posted {
            note,
            of: PhantomData,
        }
    }

    /// The note.
    pub fn into_note(self) -> Note<C>
        ensures same { result ≡ self }
        ensures journal { result.journal ≡ J.journal }
        ensures to { C.goes_to result.sent.letter ≡ NODE }
    {
        self.note
    }
}

/// The notes on their way to node `NODE`.
#[derive(Drop)]
pub(crate) struct Mailbox<C: Core, J: Names, const NODE: u8> {
    queue: SegQueue<Posted<C, J, NODE>, Global>,
}

impl<C: Core, J: Names, const NODE: u8> Mailbox<C, J, NODE> {
    /// An empty mailbox.
    pub(crate) fn new(alloc: Global) -> Result<Mailbox<C, J, NODE>, NoMemory> {
        Ok(Mailbox {
            queue: SegQueue::new(alloc)?,
        })
    }

    /// Puts a note in, and says whether there was memory for it.
    pub(crate) fn put<R: Wait>(&self, rt: &R, note: Note<C>) -> bool
        requires journal { note.journal ≡ J.journal }
        requires to { C.goes_to note.sent.letter ≡ NODE }
    {
        self.queue.push(rt, Posted::new(note)).is_ok()
    }

    /// Takes a note out, if one is there.
    pub(crate) fn take<R: Wait>(&self, rt: &R) -> Option<Note<C>>
        ensures { IfSome result (λ note. (note.journal ≡ J.journal)
            × (C.goes_to note.sent.letter ≡ NODE)) }
    {
        Some(self.queue.pop(rt)?.into_note())
    }
}

/// The mailboxes of four nodes.
#[derive(Drop)]
pub(crate) struct Mailboxes<C: Core, J: Names> {
    pub(crate) first: Mailbox<C, J, 1>,
    pub(crate) second: Mailbox<C, J, 2>,
    pub(crate) third: Mailbox<C, J, 3>,
    pub(crate) fourth: Mailbox<C, J, 4>,
}

impl<C: Core, J: Names> Mailboxes<C, J> {
    /// Empty mailboxes.
    pub(crate) fn new(alloc: Global) -> Result<Mailboxes<C, J>, NoMemory> {
        Ok(Mailboxes {
            first: Mailbox::new(alloc)?,
            second: Mailbox::new(alloc)?,
            third: Mailbox::new(alloc)?,
            fourth: Mailbox::new(alloc)?,
        })
    }

    /// Puts each note into the mailbox of its node, and says how many were taken. A note that finds
    /// no memory, or that goes to no node of the four, is dropped.
    pub(crate) fn put_all<R: Wait>(&self, rt: &R, notes: Notes<C>) -> u32
        requires { AreAddressed C.goes_to J.journal notes }
    {
        let mut sent: u32 = 0;
        for (to, note) in notes.into_vec() {
            if self.put(rt, to, note) {
                sent = sent.saturating_add(1);
            }
        }
        sent
    }

    // Puts a note into the mailbox of its node, and says whether it was taken.
    fn put<R: Wait>(&self, rt: &R, to: u8, note: Note<C>) -> bool
        requires journal { note.journal ≡ J.journal }
        requires to { C.goes_to note.sent.letter ≡ to }
    {
        match to {
            1 => self.first.put(rt, note),
            2 => self.second.put(rt, note),
            3 => self.third.put(rt, note),
            4 => self.fourth.put(rt, note),
            _ => false,
        }
    }
}
