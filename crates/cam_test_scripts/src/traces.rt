//! Traces for the tests of the texts: the first path, and a stop after an abort, event by event.

use cam_base::NoMemory;
use cam_event::{
    Body, Deed, Deeds, Event, LetterId, Marks, Note, Reply, RunRecord, Seen, Sent, SentList, Trace,
};
use cam_know::Reason;
use cam_names::{Deps, Name};
use cam_samples::{abort, ask, bounce, call, create, got, got_done, inform, perform};
use cam_type::{Answer, Op};
use std::alloc::Global;
use std::test::Fail;

/// An event with at most one letter received, one deed, and one letter sent.
#[derive(Clone, Copy)]
struct Step {
    node: u8,
    /// The event whose first letter is received.
    got: Option<u64>,
    deed: Option<Deed>,
    sent: Option<Sent>,
    note: Note,
}

impl Step {
    /// A node does a deed.
    fn at(node: u8, deed: Deed) -> Step {
        Step {
            node,
            got: None,
            deed: Some(deed),
            sent: None,
            note: Note::Plain,
        }
    }

    /// The same when the first letter of an event comes.
    fn on(self, event: u64) -> Step {
        Step {
            node: self.node,
            got: Some(event),
            deed: self.deed,
            sent: self.sent,
            note: self.note,
        }
    }

    /// The same with a letter sent.
    fn sends(self, to: u8, body: Body) -> Step {
        Step {
            node: self.node,
            got: self.got,
            deed: self.deed,
            sent: Some(Sent { to, body }),
            note: self.note,
        }
    }

    /// The deed, where there is one.
    fn deeds(&self, alloc: Global) -> Result<Deeds, NoMemory> {
        let mut deeds = Deeds::new(alloc);
        if let Some(deed) = self.deed {
            deeds.push_copy(&deed)?;
        }
        Ok(deeds)
    }

    /// The letter sent, where there is one.
    fn letters(&self, alloc: Global) -> Result<SentList, NoMemory> {
        let mut letters = SentList::new(alloc);
        if let Some(letter) = self.sent {
            letters.push_copy(&letter)?;
        }
        Ok(letters)
    }

    fn event(&self, alloc: Global) -> Result<Event, NoMemory> {
        let deeds = self.deeds(alloc)?;
        let sent = self.letters(alloc)?;
        Ok(Event {
            node: self.node,
            got: self.got.map(|event| LetterId { event, place: 0 }),
            deeds,
            sent,
            note: self.note,
        })
    }
}

fn record_of(alloc: Global, steps: &[Step]) -> Result<RunRecord, NoMemory> {
    let mut trace = Trace::new(alloc);
    for step in steps {
        trace.push(step.event(alloc)?)?;
    }
    Ok(RunRecord {
        trace,
        marks: Marks::new(alloc),
    })
}

fn call_letter(action: Name, number: u32, op: Op) -> Body {
    Body::Call {
        action,
        number,
        object: 0,
        op,
        count: 1,
        deps: Deps::none(),
    }
}

fn answer_letter(action: Name, number: u32, reply: Reply) -> Body {
    Body::Answer {
        action,
        number,
        reply,
    }
}

/// An action at a node calls the object, whose node is `to`.
fn calls(node: u8, to: u8, action: Name, number: u32, op: Op) -> Step {
    let letter = call_letter(action, number, op);
    Step::at(node, call(action, number, 0, op)).sends(to, letter)
}

/// The call of the writer comes, and is performed.
fn performs(writer: Name) -> Step {
    let letter = answer_letter(writer, 1, Reply::Done(Answer::Ok));
    Step::at(1, perform(writer, 1, Answer::Ok))
        .on(2)
        .sends(1, letter)
}

/// The call of the reader comes, and meets the lock of the writer.
fn bounces(reader: Name, writer: Name) -> Step {
    let letter = answer_letter(reader, 1, Reply::Busy(writer));
    Step::at(1, bounce(reader, 1, writer))
        .on(5)
        .sends(1, letter)
}

fn first_path_of(alloc: Global, writer: Name, reader: Name) -> Result<RunRecord, NoMemory> {
    let steps = [
        Step::at(1, create(writer)),
        Step::at(1, create(reader)),
        calls(1, 1, writer, 1, Op::Write(5)),
        performs(writer),
        Step::at(1, got_done(writer, 1, Answer::Ok)).on(3),
        calls(1, 1, reader, 1, Op::Read),
        bounces(reader, writer),
        Step::at(1, got(reader, 1, Seen::Busy(writer))).on(6),
        calls(1, 1, writer, 2, Op::Read),
    ];
    record_of(alloc, &steps)
}

/// An action writes, a second one meets its lock, and the first reads.
pub(crate) fn first_path(alloc: Global) -> Result<RunRecord, Fail> {
    let writer = Name::parse("1.1.1")?;
    let reader = Name::parse("1.1.2")?;
    Ok(first_path_of(alloc, writer, reader)?)
}

/// The parent asks for its child at node 3.
fn asks(parent: Name, child: Name) -> Step {
    let start = Body::Start {
        child,
        deps: Deps::none(),
    };
    Step::at(1, ask(parent, child)).sends(3, start)
}

/// The node of the parent tells node 2 what it knows.
fn tells() -> Step {
    Step {
        node: 1,
        got: None,
        deed: None,
        sent: Some(Sent {
            to: 2,
            body: Body::News,
        }),
        note: Note::Plain,
    }
}

/// The call of the child comes to node 2, which refuses it.
fn refuses(child: Name) -> Step {
    let body = answer_letter(child, 1, Reply::Refused);
    Step {
        node: 2,
        got: Some(6),
        deed: None,
        sent: Some(Sent { to: 3, body }),
        note: Note::Stopped(child, Reason::Abort(child)),
    }
}

/// The refusal comes to the child's node.
fn is_refused(child: Name) -> Step {
    Step {
        node: 3,
        got: Some(7),
        deed: None,
        sent: None,
        note: Note::Stopped(child, Reason::Abort(child)),
    }
}

fn given_up_by(alloc: Global, parent: Name, child: Name) -> Result<RunRecord, NoMemory> {
    let steps = [
        Step::at(1, create(parent)),
        asks(parent, child),
        Step::at(3, create(child)).on(1),
        Step::at(1, abort(child)),
        tells(),
        Step::at(2, inform(2, child, false)).on(4),
        calls(3, 2, child, 1, Op::Read),
        refuses(child),
        is_refused(child),
    ];
    record_of(alloc, &steps)
}

/// A parent at node 1 gives its child at node 3 up and tells node 2 so, where the child's call then comes.
pub(crate) fn given_up(alloc: Global) -> Result<RunRecord, Fail> {
    let parent = Name::parse("1.1.1")?;
    let child = Name::parse("1.1.1/3.1.1")?;
    Ok(given_up_by(alloc, parent, child)?)
}
