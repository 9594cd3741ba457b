//! An event in words: its node, the number of the letter that it got (0 for none), its note, its deeds, and the letters that it sent.

use cam_base::NoMemory;
use cam_event::{Body, Deed, Event, Reply, Seen, Sent, Trace};
use cam_names::{Deps, Name};
use cam_script::Labels;
use cam_type::{Answer, Op};
use std::alloc::Global;
use std::fmt::Write;

/// A text to which words are written. Its calls make no value that is dropped at their exits: so they are proved in little time.
#[derive(Drop)]
struct Telling {
    alloc: Global,
    text: String,
}

impl Telling {
    /// These words, as they stand.
    fn words(&mut self, words: &str) -> Result<(), NoMemory> {
        self.text.push_str(words)?;
        Ok(())
    }

    /// A name, after a blank.
    fn name(&mut self, name: &Name) -> Result<(), NoMemory> {
        self.text.push_str(" ")?;
        name.write_text(self.alloc, &mut self.text)
    }

    /// `create 1.1.1`
    fn named(&mut self, verb: &str, name: &Name) -> Result<(), NoMemory> {
        self.words(verb)?;
        self.name(name)
    }

    /// `perform 1.1.1 1`
    fn numbered(&mut self, verb: &str, action: &Name, number: u32) -> Result<(), NoMemory> {
        self.named(verb, action)?;
        write!(self.text, " {number}")?;
        Ok(())
    }

    /// `2:1`, after a blank.
    fn pair(&mut self, node: u8, count: u32) -> Result<(), NoMemory> {
        write!(self.text, " {node}:{count}")?;
        Ok(())
    }

    /// The nodes on which an action depends, each with its count.
    fn deps(&mut self, deps: &Deps) -> Result<(), NoMemory> {
        self.words(" deps")?;
        for node in 1..=8u8 {
            let count = deps.count_of(node);
            if count > 0 {
                self.pair(node, count)?;
            }
        }
        Ok(())
    }

    fn answer(&mut self, answer: &Answer) -> Result<(), NoMemory> {
        write!(self.text, " {answer:?}")?;
        Ok(())
    }

    fn seen(&mut self, seen: &Seen) -> Result<(), NoMemory> {
        match seen {
            Seen::Done(answer) => self.answer(answer),
            Seen::Busy(holder) => self.named(" busy", holder),
            Seen::Gone => self.words(" gone"),
        }
    }

    fn reply(&mut self, reply: &Reply) -> Result<(), NoMemory> {
        match reply {
            Reply::Done(answer) => self.answer(answer),
            Reply::Busy(holder) => self.named(" busy", holder),
            Reply::Missed | Reply::Refused => self.words(" not served"),
        }
    }

    /// What is asked of an object, and the count that is addressed.
    fn asked(&mut self, label: &str, op: &Op, count: u32) -> Result<(), NoMemory> {
        write!(self.text, " {label} {op:?} at {count}")?;
        Ok(())
    }

    /// A call of an action, as it stands in a deed and in a letter.
    fn call(
        &mut self,
        labels: &Labels,
        action: &Name,
        number: u32,
        object: u8,
        op: &Op,
        count: u32,
    ) -> Result<(), NoMemory> {
        self.numbered("call", action, number)?;
        self.asked(label_of(labels, object), op, count)
    }

    fn deed(&mut self, labels: &Labels, deed: &Deed) -> Result<(), NoMemory> {
        match deed {
            Deed::Create { action } => self.named("create", action),
            Deed::Call {
                action,
                number,
                object,
                op,
                count,
            } => self.call(labels, action, *number, *object, op, *count),
            other => self.answering(other),
        }
    }

    /// The deeds by which calls are answered.
    fn answering(&mut self, deed: &Deed) -> Result<(), NoMemory> {
        match deed {
            Deed::Perform {
                action,
                number,
                answer,
            } => {
                self.numbered("perform", action, *number)?;
                self.answer(answer)
            }
            Deed::Bounce {
                action,
                number,
                holder,
            } => {
                self.numbered("bounce", action, *number)?;
                self.name(holder)
            }
            Deed::Got {
                action,
                number,
                seen,
            } => {
                self.numbered("got", action, *number)?;
                self.seen(seen)
            }
            _ => self.words("another deed"),
        }
    }

    fn body(&mut self, labels: &Labels, body: &Body) -> Result<(), NoMemory> {
        match body {
            Body::Call {
                action,
                number,
                object,
                op,
                count,
                deps,
            } => {
                self.call(labels, action, *number, *object, op, *count)?;
                self.deps(deps)
            }
            Body::Answer {
                action,
                number,
                reply,
            } => {
                self.numbered("answer", action, *number)?;
                self.reply(reply)
            }
            _ => self.words("another letter"),
        }
    }

    /// A letter that an event sent, and its number.
    fn sent(&mut self, labels: &Labels, number: usize, sent: &Sent) -> Result<(), NoMemory> {
        write!(self.text, ", sent {number} to {} ", sent.to)?;
        self.body(labels, &sent.body)
    }

    /// The letters that an event sent, of which the first has this number.
    fn letters(&mut self, labels: &Labels, event: &Event, first: usize) -> Result<(), NoMemory> {
        let mut number = first;
        for sent in event.sent.as_slice() {
            self.sent(labels, number, sent)?;
            number = number.wrapping_add(1);
        }
        Ok(())
    }

    fn deeds(&mut self, labels: &Labels, event: &Event) -> Result<(), NoMemory> {
        for deed in event.deeds.as_slice() {
            self.words(", ")?;
            self.deed(labels, deed)?;
        }
        Ok(())
    }

    /// The node of an event, the letter that it got, and its note.
    fn head(&mut self, event: &Event, got: usize) -> Result<(), NoMemory> {
        write!(self.text, "node {} got {got} {:?}", event.node, event.note)?;
        Ok(())
    }

    /// The event at this place of a trace, with its deeds and its letters.
    fn event(&mut self, labels: &Labels, trace: &Trace, place: usize) -> Result<(), NoMemory> {
        let Some(event) = trace.get(place) else {
            return self.words("no event");
        };
        self.head(event, got_number(trace, event))?;
        self.deeds(labels, event)?;
        self.letters(labels, event, first_letter(trace, place))
    }
}

/// The label of an object.
fn label_of(labels: &Labels, object: u8) -> &str {
    match labels.get(object as usize) {
        Some(label) => label.as_str(),
        None => "undeclared",
    }
}

/// The number of the first letter of an event: letters are numbered from 1, in order of sending.
fn first_letter(trace: &Trace, event: usize) -> usize {
    let mut number = 1usize;
    for event in trace.as_slice().iter().take(event) {
        number = number.wrapping_add(event.sent.len());
    }
    number
}

/// The number of the letter that an event got, 0 for none.
fn got_number(trace: &Trace, event: &Event) -> usize {
    match &event.got {
        Some(letter) => first_letter(trace, letter.event as usize).wrapping_add(
            letter.place as usize,
        ),
        None => 0,
    }
}

/// An event of a trace, by its place: its node, the letter that it got, its note, its deeds and its letters.
pub(super) fn event_text(
    alloc: Global,
    labels: &Labels,
    trace: &Trace,
    place: usize,
) -> Result<String, NoMemory> {
    let mut telling = Telling {
        alloc,
        text: String::new(alloc),
    };
    telling.event(labels, trace, place)?;
    Ok(telling.text)
}
