//! The letters of an event as they leave the node.
ghost use Rattle.std.specs.Prelude.{◌≡◌, ◌≤◌, [], None, map, IfOk};
ghost use Rattle.cam_comman.specs.Letters.{IsWithin};
ghost use Rattle.cam_event.specs.Rules.{did, send, one as single};
ghost use Rattle.cam_event.specs.ByPast.{event_of};
ghost use Rattle.cam_node.specs.Calls.{answers, letter_as, letters_of, AreToNodes};

use crate::room::one;
use crate::state::Core;
use crate::{Letters, Stepped};
use cam_base::NoMemory;
use cam_comman::{Places, send};
use cam_event::{Body, Deeds, Event, Note, Sent, SentList};
use cam_know::Know;
use std::alloc::Global;

/// The letters that a node at its count sends so, each to a node from 1 to 8, by what it knows and has noted.
pub(crate) fn letters(
    alloc: Global,
    know: &Know,
    places: &Places,
    from: u8,
    count: u32,
    sent: &[Sent],
) -> Result<Letters, NoMemory>
    requires within { IsWithin know.now places.now }
    requires nodes { AreToNodes sent.now }
    ensures { IfOk result (λ letters.
        letters ≡ map (letter_as know.now places.now from count) sent.now) }
{
    let mut letters = Letters::new(alloc);
    for one in sent {
        letters.push(send(know, places, from, count, one.to, one.body)?)?;
    }
    Ok(letters)
}

impl Core {
    /// The event of the node's own request, with its letters. All that is known stands.
    pub(crate) fn own_event(
        &self,
        deeds: Deeds,
        sent: SentList,
        note: Note,
    ) -> Result<Stepped, NoMemory>
        requires settled { self.now.knowing.known ≡ self.now.knowing.stands }
        requires nodes { AreToNodes sent }
        ensures event { IfOk result (λ stepped. stepped.event
            ≡ record { node = self.now.number; got = None; deeds = deeds; sent = sent; note = note }) }
        ensures letters { IfOk result (λ stepped.
            stepped.letters ≡ letters_of (answers self.now) sent) }
    {
        let letters = letters(
            self.alloc,
            self.knowing.know(),
            self.knowing.places(),
            self.number,
            self.count,
            sent.as_slice(),
        )?;
        Ok(Stepped {
            event: Event {
                node: self.number,
                got: None,
                deeds,
                sent,
                note,
            },
            letters,
        })
    }

    /// The event without a deed that sends one letter, to a node from 1 to 8. All that is known stands.
    pub(crate) fn sends(&self, to: u8, body: &Body) -> Result<Stepped, NoMemory>
        requires settled { self.now.knowing.known ≡ self.now.knowing.stands }
        requires to { (1 ≤ to) × (to ≤ 8) }
        ensures event { IfOk result (λ stepped. stepped.event
            ≡ event_of self.now.number None [] (did [] (single (send to body.now)))) }
        ensures letters { IfOk result (λ stepped.
            stepped.letters ≡ letters_of (answers self.now) stepped.event.sent) }
    {
        let sent = one(self.alloc, &Sent { to, body: *body })?;
        let stepped = self.own_event(Deeds::new(self.alloc), sent, Note::Plain)?;
        Ok(stepped)
    }
}
