//! What an event has after its first Informs.
ghost use Rattle.std.specs.Prelude.{◌≡◌, ◌∷◌, [], IfOk};
ghost use Rattle.cam_event.specs.Runs.{IsNode};
ghost use Rattle.cam_event.specs.Rules.{answers, did, nothing_but, send, one as single};

use cam_base::{NoMemory, Sequence};
use cam_event::{Body, Deed, Deeds, Note, Sent, SentList};
use std::alloc::Global;
use std::marker::Model;

/// What an event has after its first Informs: deeds, letters and a note. Each letter goes to one of the
/// eight nodes.
#[derive(Drop)]
pub struct Did {
    pub deeds: Deeds,
    pub sent: SentList,
    pub note: Note,
}

impl Model for Did {
    ghost use Rattle.cam_event.specs.Rules as rules;

    ghost Value = { rules.Did };

    ghost use Rattle.cam_rules.specs.Addressed.{AreAddressed};

    ghost view = { λ d. record { deeds = d.deeds; sent = d.sent; note = d.note } };

    ghost invariant = { λ d. AreAddressed d.sent };
}

/// The list of this one value.
pub(crate) fn one<T: Copy>(alloc: Global, value: &T) -> Result<Sequence<T>, NoMemory>
    ensures { IfOk result (λ list. list ≡ value.now ∷ []) }
{
    let mut list = Sequence::new(alloc);
    list.push_copy(value)?;
    Ok(list)
}

impl Did {
    /// Nothing but a note.
    pub fn nothing_but(alloc: Global, note: &Note) -> Did
        ensures { result ≡ nothing_but note.now }
    {
        Did {
            deeds: Deeds::new(alloc),
            sent: SentList::new(alloc),
            note: *note,
        }
    }

    /// One deed.
    pub(crate) fn one_deed(alloc: Global, deed: &Deed) -> Result<Did, NoMemory>
        ensures { IfOk result (λ done. done ≡ did (single deed.now) []) }
    {
        Ok(Did {
            deeds: one(alloc, deed)?,
            sent: SentList::new(alloc),
            note: Note::Plain,
        })
    }

    /// One deed, and a letter.
    pub(crate) fn deed_and_letter(
        alloc: Global,
        deed: &Deed,
        to: u8,
        body: &Body,
    ) -> Result<Did, NoMemory>
        requires { IsNode to }
        ensures { IfOk result (λ done.
            done ≡ did (single deed.now) (single (send to body.now))) }
    {
        Ok(Did {
            deeds: one(alloc, deed)?,
            sent: one(alloc, &Sent { to, body: *body })?,
            note: Note::Plain,
        })
    }

    /// No deed, but a note and a letter.
    pub(crate) fn answer(alloc: Global, note: &Note, to: u8, body: &Body) -> Result<Did, NoMemory>
        requires { IsNode to }
        ensures { IfOk result (λ done. done ≡ answers note.now (single (send to body.now))) }
    {
        Ok(Did {
            deeds: Deeds::new(alloc),
            sent: one(alloc, &Sent { to, body: *body })?,
            note: *note,
        })
    }

    /// A letter, and nothing else.
    pub(crate) fn letter(alloc: Global, to: u8, body: &Body) -> Result<Did, NoMemory>
        requires { IsNode to }
        ensures { IfOk result (λ done. done ≡ did [] (single (send to body.now))) }
    {
        Did::answer(alloc, &Note::Plain, to, body)
    }
}
