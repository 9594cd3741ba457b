//! An event in words: its note, its deeds, and the letters that it sent. Objects are told by their numbers.
mod bodies;
mod deeds;
mod values;

use cam_base::NoMemory;
use cam_event::{Event, Letter, Sent};
use cam_know::{Know, Outcome};
use cam_names::Name;
use std::alloc::Global;
use std::fmt::Write;

/// A text to which words are written. Its calls make no value that is dropped at their exits: so they are proved in little time.
#[derive(Drop)]
struct Telling {
    alloc: Global,
    text: String,
}

impl Telling {
    fn new(alloc: Global) -> Telling {
        Telling {
            alloc,
            text: String::new(alloc),
        }
    }

    /// A word, after a blank where the text has begun.
    fn word(&mut self, word: &str) -> Result<(), NoMemory> {
        if !self.text.is_empty() {
            self.text.push_str(" ")?;
        }
        self.text.push_str(word)?;
        Ok(())
    }

    /// A number, after a blank.
    fn number(&mut self, number: i64) -> Result<(), NoMemory> {
        write!(self.text, " {number}")?;
        Ok(())
    }

    /// A name, after a blank.
    fn name(&mut self, name: &Name) -> Result<(), NoMemory> {
        self.text.push_str(" ")?;
        name.write_text(self.alloc, &mut self.text)
    }

    /// `2:1`, after a blank.
    fn pair(&mut self, node: u8, count: u32) -> Result<(), NoMemory> {
        write!(self.text, " {node}:{count}")?;
        Ok(())
    }

    fn comma(&mut self) -> Result<(), NoMemory> {
        self.text.push_str(",")?;
        Ok(())
    }

    /// `write 7`
    fn valued(&mut self, word: &str, value: i64) -> Result<(), NoMemory> {
        self.word(word)?;
        self.number(value)
    }

    /// `create 1.1.1`
    fn named(&mut self, word: &str, name: &Name) -> Result<(), NoMemory> {
        self.word(word)?;
        self.name(name)
    }

    /// `perform 1.1.1 1`
    fn numbered(&mut self, word: &str, name: &Name, number: i64) -> Result<(), NoMemory> {
        self.named(word, name)?;
        self.number(number)
    }
}

impl Telling {
    /// Its note, its deeds and its letters, with a comma between two.
    fn event(&mut self, event: &Event) -> Result<(), NoMemory> {
        self.note(&event.note)?;
        self.deeds(event)?;
        self.letters(event)
    }

    fn deeds(&mut self, event: &Event) -> Result<(), NoMemory> {
        for deed in event.deeds.as_slice() {
            self.comma()?;
            self.deed(deed)?;
        }
        Ok(())
    }

    /// The letters that an event sent.
    fn letters(&mut self, event: &Event) -> Result<(), NoMemory> {
        for sent in event.sent.as_slice() {
            self.comma()?;
            self.sent(sent)?;
        }
        Ok(())
    }

    /// `to 2 news`
    fn sent(&mut self, sent: &Sent) -> Result<(), NoMemory> {
        self.valued("to", i64::from(sent.to))?;
        self.body(&sent.body)
    }

    /// To whom it is, its count, the places, what it brings, and what it says.
    fn letter(&mut self, letter: &Letter) -> Result<(), NoMemory> {
        self.valued("to", i64::from(letter.to))?;
        self.valued("count", i64::from(letter.count))?;
        self.places(letter.have, letter.place)?;
        self.know(&letter.know)?;
        self.body(&letter.body)
    }

    /// `have 2 place 5`
    fn places(&mut self, have: u64, place: u64) -> Result<(), NoMemory> {
        write!(self.text, " have {have} place {place}")?;
        Ok(())
    }

    /// The outcomes of a letter in their order, and the counts above 1.
    fn know(&mut self, know: &Know) -> Result<(), NoMemory> {
        for outcome in know.outcomes() {
            self.outcome(outcome)?;
        }
        for node in 1..=8u8 {
            let count = know.count(node);
            if count > 1 {
                self.known(node, count)?;
            }
        }
        Ok(())
    }

    /// `knows 2 3`
    fn known(&mut self, node: u8, count: u32) -> Result<(), NoMemory> {
        self.valued("knows", i64::from(node))?;
        self.number(i64::from(count))
    }

    fn outcome(&mut self, outcome: &Outcome) -> Result<(), NoMemory> {
        match outcome {
            Outcome::Aborted(name) => self.named("aborted", name),
            Outcome::Committed(name, deps) => {
                self.named("committed", name)?;
                self.deps(deps)
            }
        }
    }
}

/// The note of an event, its deeds, and the letters that it sent.
pub(crate) fn event_text(alloc: Global, event: &Event) -> Result<String, NoMemory> {
    let mut telling = Telling::new(alloc);
    telling.event(event)?;
    Ok(telling.text)
}

/// A letter of the node itself: to whom, its count, the places, the outcomes that it carries in their order, the counts above 1, and what it says.
pub(crate) fn letter_text(alloc: Global, letter: &Letter) -> Result<String, NoMemory> {
    let mut telling = Telling::new(alloc);
    telling.letter(letter)?;
    Ok(telling.text)
}
