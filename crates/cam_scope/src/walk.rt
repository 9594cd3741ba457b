//! The steps of a script and the events of its run, walked side by side: which events happened in
//! which line.
//!
//! A line of one event has the next one, unless it left a mark that says otherwise. A `drain` has
//! the deliveries of the letters that wait, the least first. A `play` has the requests of actions
//! that work at bodies, and such deliveries.
mod drains;

use crate::letters::Fate;
use crate::marks::LineMarks;
use crate::names::{Variable, Variables};
use crate::post::Post;
use crate::source::Lines;
use cam_base::NoMemory;
use cam_event::{Deed, Event, LetterId, Mark, Note, RunRecord};
use cam_names::Name;
use cam_script::{Act, Step, Steps};
use std::alloc::Global;
use std::collections::{BTreeMap, BTreeSet};

/// What is known behind some steps of a script.
#[derive(Drop)]
pub(crate) struct Walk {
    alloc: Global,
    /// How many marks are behind.
    marks: usize,
    /// The line of each event so far.
    pub(crate) lines: Vec<u32>,
    pub(crate) post: Post,
    /// The places of the letters that wait for a node that is not halted.
    waiting: BTreeSet<usize>,
    /// Of those that wait for a halted one.
    held: BTreeSet<usize>,
    halted: BTreeSet<u8>,
    /// The top actions that work at bodies.
    pub(crate) started: BTreeSet<Name>,
    /// The actions that were stopped at their homes.
    stopped: BTreeSet<Name>,
    pub(crate) variables: Variables,
    /// The action that each step made, by the step's place.
    pub(crate) made: BTreeMap<u32, Name>,
}

/// The action that an event creates or asks for.
fn made_by(event: &Event) -> Option<Name> {
    for deed in event.deeds.as_slice() {
        match deed {
            Deed::Create { action } => return Some(*action),
            Deed::Ask { child, .. } => return Some(*child),
            _ => {}
        }
    }
    None
}

impl Walk {
    /// What is known of a run before the first step.
    pub(crate) fn new(alloc: Global, run: &RunRecord) -> Result<Walk, NoMemory> {
        Ok(Walk {
            alloc,
            marks: 0,
            lines: Vec::new(alloc),
            post: Post::of(alloc, &run.trace)?,
            waiting: BTreeSet::new(alloc),
            held: BTreeSet::new(alloc),
            halted: BTreeSet::new(alloc),
            started: BTreeSet::new(alloc),
            stopped: BTreeSet::new(alloc),
            variables: BTreeMap::new(alloc),
            made: BTreeMap::new(alloc),
        })
    }

    /// Takes all steps, in order.
    pub(crate) fn take_all(
        &mut self,
        run: &RunRecord,
        source: &Lines<'_>,
        steps: &Steps,
    ) -> Result<(), NoMemory> {
        for (place, step) in steps.as_slice().iter().enumerate() {
            self.take(run, source, u32::try_from(place).unwrap_or(u32::MAX), step)?;
        }
        Ok(())
    }

    /// Takes a step, the marks of its line with it.
    fn take(
        &mut self,
        run: &RunRecord,
        source: &Lines<'_>,
        place: u32,
        step: &Step,
    ) -> Result<(), NoMemory> {
        let (marks, behind) = LineMarks::of(
            self.alloc,
            run.marks.as_slice(),
            self.marks,
            step.line,
        )?;
        self.marks = behind;
        self.take_marked(run, source, place, step, &marks)?;
        self.note_halts(&marks)
    }

    /// Takes a step whose line left these marks.
    fn take_marked(
        &mut self,
        run: &RunRecord,
        source: &Lines<'_>,
        place: u32,
        step: &Step,
        marks: &LineMarks,
    ) -> Result<(), NoMemory> {
        match step.act {
            Act::Stop { .. } => Ok(()),
            Act::Drain => self.drain(run, step.line, marks),
            Act::Play => self.play(run, step.line, marks),
            Act::Restart { node } => self.restart(run, step.line, node),
            Act::Lose { letter } => self.lose(step.line, letter, marks),
            Act::Deliver { letter } | Act::Cut { letter, .. } => {
                self.deliver(run, step.line, letter, marks)
            }
            _ => self.request(run, source, place, step, marks),
        }
    }

    /// Takes the next event of the run, which happened in this line.
    fn take_next(&mut self, run: &RunRecord, line: u32) -> Result<(), NoMemory> {
        let Some(event) = run.trace.get(self.lines.len()) else {
            return Ok(());
        };
        if let Some(id) = event.got {
            let place = self.place_of(id);
            self.receive(place);
        }
        let number = self.lines.len();
        self.send(number)?;
        self.note_stop(event)?;
        self.lines.push(line)?;
        Ok(())
    }

    /// The place of a letter, from 0.
    fn place_of(&self, id: LetterId) -> usize {
        self.post.place(id)
    }

    /// An event received the letter at a place.
    fn receive(&mut self, place: usize) {
        self.waiting.remove(&place);
        self.held.remove(&place);
        self.post.set_fate(place, Fate::Received);
    }

    /// The letters that an event sent wait from now on.
    fn send(&mut self, event: usize) -> Result<(), NoMemory> {
        for place in self.post.sent_by(event) {
            self.waiting.insert(place)?;
        }
        Ok(())
    }

    /// Notes the action that an event stopped at its home.
    fn note_stop(&mut self, event: &Event) -> Result<(), NoMemory> {
        if let Note::Stopped(action, _) = &event.note {
            let (node, _) = action.home();
            if node == event.node {
                self.stopped.insert(*action)?;
            }
        }
        Ok(())
    }

    /// Notes the nodes that halted.
    fn note_halts(&mut self, marks: &LineMarks) -> Result<(), NoMemory> {
        for mark in &marks.marks {
            if let Mark::Halted { node, .. } = mark {
                self.halted.insert(*node)?;
            }
        }
        Ok(())
    }

    /// A letter comes to a node whose disk stops: it counts as delivered, and no event received it.
    fn meet_halt(&mut self, line: u32, place: usize) {
        self.waiting.remove(&place);
        self.post.set_fate(place, Fate::MetHalt(line));
    }

    /// A restart: what waited for the node waits on.
    fn restart(&mut self, run: &RunRecord, line: u32, node: u8) -> Result<(), NoMemory> {
        self.halted.remove(&node);
        self.waiting.append(&mut self.held)?;
        self.take_next(run, line)
    }

    /// A letter is taken out for good.
    fn lose(&mut self, line: u32, letter: u32, marks: &LineMarks) -> Result<(), NoMemory> {
        if !marks.are_blocking() {
            let place = (letter as usize).saturating_sub(1);
            self.waiting.remove(&place);
            self.held.remove(&place);
            self.post.set_fate(place, Fate::Lost(line));
        }
        Ok(())
    }

    /// A letter is handed over, or the first bytes of it.
    fn deliver(
        &mut self,
        run: &RunRecord,
        line: u32,
        letter: u32,
        marks: &LineMarks,
    ) -> Result<(), NoMemory> {
        if !marks.are_blocking() {
            return self.take_next(run, line);
        }
        if marks.has_lost_halt() {
            self.meet_halt(line, (letter as usize).saturating_sub(1));
        }
        Ok(())
    }

    /// A line of one event, unless it left a mark that says otherwise.
    fn request(
        &mut self,
        run: &RunRecord,
        source: &Lines<'_>,
        place: u32,
        step: &Step,
        marks: &LineMarks,
    ) -> Result<(), NoMemory> {
        if marks.are_blocking() {
            return Ok(());
        }
        self.bind(run, source, place, step)?;
        self.take_next(run, step.line)
    }

    /// Binds the variable of a step to the action that the next event makes.
    fn bind(
        &mut self,
        run: &RunRecord,
        source: &Lines<'_>,
        place: u32,
        step: &Step,
    ) -> Result<(), NoMemory> {
        let label = match step.act {
            Act::Begin { .. } | Act::Start { .. } => { source.name(self.alloc, step.line, 1)? }
            Act::Ask { .. } => source.name(self.alloc, step.line, 2)?,
            _ => None,
        };
        let Some(label) = label else {
            return Ok(());
        };
        let Some(event) = run.trace.get(self.lines.len()) else {
            return Ok(());
        };
        let Some(action) = made_by(event) else {
            return Ok(());
        };
        if matches!(step.act, Act::Start { .. }) {
            self.started.insert(action)?;
        }
        self.made.insert(place, action)?;
        let variable = Variable {
            label,
            line: step.line,
        };
        self.variables.insert(action, variable)?;
        Ok(())
    }
}
