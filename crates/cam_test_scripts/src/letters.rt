//! A run for the tests of the texts, with the letters and the notes that no other traced run has.

use cam_base::NoMemory;
use cam_event::{Body, Deeds, Event, LetterId, Marks, Note, RunRecord, Sent, SentList, Trace};
use cam_names::{Deps, Name};
use cam_samples::event;
use std::alloc::Global;
use std::test::Fail;

/// A letter of each kind but calls and answers, which other traces have.
fn each_body(family: Name) -> [Body; 7] {
    [
        Body::Finish {
            action: family,
            value: 1,
            deps: Deps::none(),
        },
        Body::Quit { action: family },
        Body::Prepare { family, count: 1 },
        Body::Vote {
            family,
            count: 1,
            yes: true,
        },
        Body::Query { family },
        Body::News,
        Body::Start {
            child: family,
            deps: Deps::none(),
        },
    ]
}

/// These letters, all to node 2.
fn sent_to_two(alloc: Global, bodies: &[Body]) -> Result<SentList, NoMemory> {
    let mut sent = SentList::new(alloc);
    for body in bodies {
        sent.push_copy(&Sent { to: 2, body: *body })?;
    }
    Ok(sent)
}

fn preparing(alloc: Global, family: Name) -> Result<Event, NoMemory> {
    let sent = sent_to_two(alloc, &each_body(family))?;
    Ok(Event {
        node: 1,
        got: None,
        deeds: Deeds::new(alloc),
        sent,
        note: Note::Preparing(family),
    })
}

/// Adds the event in which the letter of this place of the first event comes.
fn push_got(alloc: Global, trace: &mut Trace, place: u32, note: Note) -> Result<(), NoMemory> {
    let letter = LetterId { event: 0, place };
    let event = event(alloc, 2, Some(letter), &[], note)?;
    trace.push(event)
}

/// Adds an event with each note, but that of the first event, that no other traced run has.
fn push_each_note(alloc: Global, trace: &mut Trace) -> Result<(), NoMemory> {
    push_got(alloc, trace, 0, Note::Missed)?;
    push_got(alloc, trace, 1, Note::Again)?;
    push_got(alloc, trace, 2, Note::Ended)?;
    push_got(alloc, trace, 3, Note::Late)
}

/// The events of the run.
fn events(alloc: Global, family: Name) -> Result<Trace, NoMemory> {
    let mut trace = Trace::new(alloc);
    trace.push(preparing(alloc, family)?)?;
    push_each_note(alloc, &mut trace)?;
    Ok(trace)
}

/// A run of an event that sends each of those letters, and of one with each of those notes.
pub(crate) fn each_letter_and_note(alloc: Global) -> Result<RunRecord, Fail> {
    let family = Name::parse("1.1.1")?;
    Ok(RunRecord {
        trace: events(alloc, family)?,
        marks: Marks::new(alloc),
    })
}
