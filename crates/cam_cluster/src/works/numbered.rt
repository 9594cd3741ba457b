//! The events of works, with what finds a letter by its number.
ghost use Rattle.std.specs.Prelude.{◌≡◌, ◌+◌, ◌≤◌, ◌<◌, ◌++◌, ◌∷◌, [], OnOk, drop, length, ltb, map, min, reverse, take, vec_capacity, vec_len};
ghost use Rattle.std.specs.List.{insert};
ghost use Rattle.cam_cluster.specs.LetterCounts.{count_before, letter_counts, most_letters};
ghost use Rattle.cam_cluster.specs.OpenHalts.{put_in_at, with_letter_renumbered};

use super::undecided::renumbered;
use crate::room::{push_reserved, reserve_one};
use cam_base::NoMemory;
use cam_event::{Event, LetterId, Trace};
use std::alloc::Global;

/// The events so far, the oldest first, and of each how many letters were sent until it stood: as many as letters can
/// have numbers, where there are more.
#[derive(Drop)]
pub(crate) struct NumberedEvents {
    pub(crate) events: Vec<Event>,
    pub(crate) counts: Vec<u32>,
    ghost counted: { counts.items ≡ letter_counts (reverse events.items) },
}

/// The count of letters after so many more.
fn count_after(before: u32, sent: usize) -> u32
    ensures { result ≡ min most_letters (before + sent) }
{
    (before as usize)
        .saturating_add(sent)
        .min(u32::MAX as usize) as u32
}

/// Adds an event for which there is room.
fn push_event(events: &mut Vec<Event>, event: Event)
    requires { vec_len events.old < vec_capacity events.old }
    ensures { events.new.items ≡ events.old.items ++ event ∷ [] }
{
    match events.push(event) {
        Ok(()) => {}
        // there is room
        Err(_) => unreachable!(),
    }
}

/// Puts an event in at a place, for which there is room.
fn insert_event(events: &mut Vec<Event>, place: usize, event: Event)
    requires place { place ≤ vec_len events.old }
    requires room { vec_len events.old < vec_capacity events.old }
    ensures items { events.new.items ≡ insert events.old.items place event }
    ensures len { vec_len events.new ≡ vec_len events.old + 1 }
    ensures capacity { vec_capacity events.old ≤ vec_capacity events.new }
{
    match events.insert(place, event) {
        Ok(()) => {}
        // there is room
        Err(_) => unreachable!(),
    }
}

/// Puts a count in at a place, for which there is room.
fn insert_count(counts: &mut Vec<u32>, place: usize, count: u32)
    requires place { place ≤ vec_len counts.old }
    requires room { vec_len counts.old < vec_capacity counts.old }
    ensures items { counts.new.items ≡ insert counts.old.items place count }
    ensures len { vec_len counts.new ≡ vec_len counts.old + 1 }
    ensures capacity { vec_capacity counts.old ≤ vec_capacity counts.new }
{
    match counts.insert(place, count) {
        Ok(()) => {}
        // there is room
        Err(_) => unreachable!(),
    }
}

/// Gives each letter that these events received its number of now, where an event is put in at a place.
fn renumber(events: &mut [Event], place: usize)
    ensures { events.new ≡ map (with_letter_renumbered place) events.old }
{
    for event in events.iter_mut() {
        event.got = renumbered(place, event.got);
    }
}

/// The same from a place on.
fn renumber_from(events: &mut Vec<Event>, at: usize, place: usize)
    requires { at ≤ vec_len events.old }
    ensures items { events.new.items
        ≡ take at events.old.items ++ map (with_letter_renumbered place) (drop at events.old.items) }
    ensures len { vec_len events.new ≡ vec_len events.old }
    ensures capacity { vec_capacity events.new ≡ vec_capacity events.old }
{
    renumber(&mut events[at..], place);
}

impl NumberedEvents {
    ghost use Rattle.cam_cluster.specs.Coming.{numbered};

    /// No events.
    pub(crate) fn new(alloc: Global) -> NumberedEvents
        ensures { result.events.items ≡ [] }
    {
        NumberedEvents {
            events: Vec::new(alloc),
            counts: Vec::new(alloc),
        }
    }

    pub(crate) fn allocator(&self) -> Global {
        *self.events.allocator()
    }

    pub(crate) fn len(&self) -> usize
        ensures { result ≡ length self.now.events.items }
    {
        self.events.len()
    }

    pub(crate) fn as_slice(&self) -> &[Event]
        ensures value { result.now ≡ self.now.events.items }
    {
        self.events.as_slice()
    }

    /// Gives the events. It takes no memory.
    pub(crate) fn into_trace(self) -> Trace
        ensures { result ≡ self.events.items }
    {
        Trace::from_vec(self.events)
    }

    /// Makes room for two more events. The events stay.
    pub(crate) fn reserve_two(&mut self) -> Result<(), NoMemory>
        ensures same { self.new.events.items ≡ self.old.events.items }
        ensures room { OnOk result ((vec_len self.new.events + 1 < vec_capacity self.new.events)
            × (vec_len self.new.counts + 1 < vec_capacity self.new.counts)) }
    {
        self.counts.reserve(2)?;
        self.events.reserve(2)?;
        Ok(())
    }

    /// Adds an event for which there is room.
    pub(crate) fn push(&mut self, event: Event)
        requires room { (vec_len self.old.events < vec_capacity self.old.events)
            × (vec_len self.old.counts < vec_capacity self.old.counts) }
        ensures { self.new.events.items ≡ self.old.events.items ++ event ∷ [] }
    {
        let before = self.sent_before(self.len());
        let count = count_after(before, event.sent.len());
        push_reserved(&mut self.counts, &count);
        push_event(&mut self.events, event);
    }

    /// Puts an event that sent no letter in at a place, where there is room for two; a place after all events is the last. Letters
    /// that events after it sent are named by their new numbers.
    pub(crate) fn insert(&mut self, place: usize, event: Event)
        requires room { (vec_len self.old.events + 1 < vec_capacity self.old.events)
            × (vec_len self.old.counts + 1 < vec_capacity self.old.counts) }
        requires mute { event.sent ≡ [] }
        ensures items { self.new.events.items ≡ put_in_at place event self.old.events.items }
        ensures room { (vec_len self.new.events < vec_capacity self.new.events)
            × (vec_len self.new.counts < vec_capacity self.new.counts) }
    {
        let at = place.min(self.len());
        let count = self.sent_before(at);
        renumber_from(&mut self.events, at, place);
        insert_event(&mut self.events, at, event);
        insert_count(&mut self.counts, at, count);
    }

    /// How many letters were sent before the event at a place.
    fn sent_before(&self, place: usize) -> u32
        requires { place ≤ vec_len self.now.counts }
        ensures { result ≡ count_before self.now.counts.items place }
    {
        match place.checked_sub(1) {
            Some(previous) => self.counts[previous],
            None => 0,
        }
    }

    /// The letter of this number among those that the events sent, found by a binary search.
    pub(crate) fn numbered(&self, number: u32) -> Option<LetterId>
        ensures { result ≡ numbered self.now.events.items number }
    {
        let earlier = number.checked_sub(1)?;
        let place = self.counts.as_slice().partition_point(
            |count: &u32| -> bool
                ensures { result ≡ ltb count.now number }
            { *count < number },
        );
        if place == self.len() {
            return None;
        }
        Some(LetterId {
            event: place as u64,
            place: earlier - self.sent_before(place),
        })
    }
}
