//! What an event has after its first Informs, and what it does to the parts of the node.
ghost use Rattle.std.specs.Prelude.{◌≡◌, [], IfOk};
ghost use Rattle.cam_event.specs.Rules.{answers, did, nothing_but, send, one as single};
ghost use Rattle.cam_node.specs.Standing.{just};

use crate::plan::Change;
use crate::room::one;
use cam_base::NoMemory;
use cam_event::{Body, Deed, Deeds, Note, Sent, SentList};
use cam_recman::Record;
use std::alloc::Global;
use std::marker::Model;

/// What an event has after its first Informs: deeds, letters and a note.
#[derive(Drop)]
pub(crate) struct Did {
    pub(crate) deeds: Deeds,
    pub(crate) sent: SentList,
    pub(crate) note: Note,
}

impl Model for Did {
    ghost use Rattle.cam_event.specs.Rules as rules;

    ghost Value = { rules.Did };

    ghost view = { λ d. record { deeds = d.deeds; sent = d.sent; note = d.note } };
}

/// What the rule of a letter or a request makes: what the event has, what it changes, and what it
/// adds to the entry.
#[derive(Drop)]
pub(crate) struct Doing {
    pub(crate) did: Did,
    pub(crate) change: Change,
    pub(crate) adds: Option<Record>,
}

impl Did {
    /// Nothing but a note.
    pub(crate) fn nothing_but(alloc: Global, note: &Note) -> Did
        ensures { result ≡ nothing_but note.now }
    {
        Did {
            deeds: Deeds::new(alloc),
            sent: SentList::new(alloc),
            note: *note,
        }
    }

    /// One deed.
    pub(crate) fn one_deed(alloc: Global, deed: &Deed) -> Result<Did, NoMemory>
        ensures { IfOk result (λ done. done ≡ did (single deed.now) []) }
    {
        Ok(Did {
            deeds: one(alloc, deed)?,
            sent: SentList::new(alloc),
            note: Note::Plain,
        })
    }

    /// One deed, and a letter.
    pub(crate) fn deed_and_letter(
        alloc: Global,
        deed: &Deed,
        to: u8,
        body: &Body,
    ) -> Result<Did, NoMemory>
        ensures { IfOk result (λ done.
            done ≡ did (single deed.now) (single (send to body.now))) }
    {
        Ok(Did {
            deeds: one(alloc, deed)?,
            sent: one(alloc, &Sent { to, body: *body })?,
            note: Note::Plain,
        })
    }

    /// No deed, but a note and a letter.
    pub(crate) fn answer(alloc: Global, note: &Note, to: u8, body: &Body) -> Result<Did, NoMemory>
        ensures { IfOk result (λ done. done ≡ answers note.now (single (send to body.now))) }
    {
        Ok(Did {
            deeds: Deeds::new(alloc),
            sent: one(alloc, &Sent { to, body: *body })?,
            note: *note,
        })
    }
}

impl Doing {
    /// It changes nothing besides what was learnt, and adds nothing to the entry.
    pub(crate) fn just(did: Did) -> Doing
        ensures { result ≡ just did }
    {
        Doing {
            did,
            change: Change::Nothing,
            adds: None,
        }
    }

    /// Nothing happens but a note.
    pub(crate) fn nothing_but(alloc: Global, note: &Note) -> Doing
        ensures { result ≡ just (nothing_but note.now) }
    {
        Doing::just(Did::nothing_but(alloc, note))
    }
}
