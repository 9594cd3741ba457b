//! The letters of a trace, found by the events that sent them.
use crate::letters::{Fate, NamedLetter, add_letters};
use cam_base::NoMemory;
use cam_event::{LetterId, Trace};
use std::alloc::Global;
use std::ops::Range;

/// The letters of a trace in order of sending, with how many were sent before each event.
#[derive(Drop)]
pub(crate) struct Post {
    pub(crate) letters: Vec<NamedLetter>,
    sent_before: Vec<usize>,
}

impl Post {
    /// The letters of a trace, none of them delivered.
    pub(crate) fn of(alloc: Global, trace: &Trace) -> Result<Post, NoMemory> {
        let mut letters = Vec::new(alloc);
        let mut sent_before = Vec::new(alloc);
        for (number, event) in trace.as_slice().iter().enumerate() {
            sent_before.push(letters.len())?;
            add_letters(&mut letters, number, event)?;
        }
        Ok(Post {
            letters,
            sent_before,
        })
    }

    /// How many letters were sent before the event of this number.
    pub(crate) fn sent_before(&self, event: usize) -> usize {
        match self.sent_before.get(event) {
            Some(sent) => *sent,
            None => self.letters.len(),
        }
    }

    /// The places of the letters that an event sent.
    pub(crate) fn sent_by(&self, event: usize) -> Range<usize> {
        let first = self.sent_before(event);
        let behind = match self.sent_before.get(event.saturating_add(1)) {
            Some(sent) => *sent,
            None => self.letters.len(),
        };
        first..behind
    }

    /// The place of a letter, from 0.
    pub(crate) fn place(&self, id: LetterId) -> usize {
        let event = usize::try_from(id.event).unwrap_or(usize::MAX);
        self.sent_before(event).saturating_add(id.place as usize)
    }

    /// The letters alone.
    pub(crate) fn into_letters(self) -> Vec<NamedLetter> {
        self.letters
    }

    /// Sets what became of the letter at a place. One that was received stays so.
    pub(crate) fn set_fate(&mut self, place: usize, fate: Fate) {
        if let Some(letter) = self.letters.get_mut(place) {
            if letter.fate != Fate::Received {
                letter.fate = fate;
            }
        }
    }
}
