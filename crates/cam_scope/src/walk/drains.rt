//! The letters that wait in a walk: a drain delivers them, and so does a play after each round of requests.
use crate::marks::{Halt, LineMarks};
use crate::walk::Walk;
use cam_base::NoMemory;
use cam_event::{Deed, Event, LetterId, Note, RunRecord};
use cam_names::Name;

/// The action whose request an event is: one that was stopped at it, too.
fn asker_of(event: &Event) -> Option<Name> {
    if let Note::Stopped(action, _) = &event.note {
        return Some(*action);
    }
    for deed in event.deeds.as_slice() {
        match deed {
            Deed::Ask { action, .. } => return Some(*action),
            Deed::Call { action, .. } => return Some(*action),
            Deed::AskCommit { action, .. } => return Some(*action),
            Deed::AskAbort { action } => return Some(*action),
            _ => {}
        }
    }
    None
}

impl Walk {
    /// No line takes more turns than there are events, letters and marks.
    fn most_turns(&self, run: &RunRecord) -> usize {
        let events = run.trace.len();
        let letters = self.post.letters.len();
        events
            .saturating_add(letters)
            .saturating_add(run.marks.len())
    }

    /// The letters that wait arrive, the least first.
    pub(crate) fn drain(
        &mut self,
        run: &RunRecord,
        line: u32,
        marks: &LineMarks,
    ) -> Result<(), NoMemory> {
        for _ in 0..self.most_turns(run) {
            if !self.deliver_least(run, line, marks)? {
                break;
            }
        }
        Ok(())
    }

    /// The actions that work at bodies make their requests, and the letters that wait arrive.
    pub(crate) fn play(
        &mut self,
        run: &RunRecord,
        line: u32,
        marks: &LineMarks,
    ) -> Result<(), NoMemory> {
        for _ in 0..self.most_turns(run) {
            if self.is_request_of_body(run) {
                self.take_next(run, line)?;
            } else if !self.deliver_least(run, line, marks)? {
                break;
            }
        }
        Ok(())
    }

    /// Whether the next event is a request that an action with a body makes in a play. An action
    /// that was stopped at its home makes none.
    fn is_request_of_body(&self, run: &RunRecord) -> bool {
        let Some(event) = run.trace.get(self.lines.len()) else {
            return false;
        };
        if event.got.is_some() {
            return false;
        }
        match asker_of(event) {
            Some(action) => {
                self.started.contains(&action.family()) && !self.stopped.contains(&action)
            }
            None => false,
        }
    }

    /// The least letter that waits arrives, or meets a halt, or is held for a node that is halted.
    /// It says whether one waited.
    fn deliver_least(
        &mut self,
        run: &RunRecord,
        line: u32,
        marks: &LineMarks,
    ) -> Result<bool, NoMemory> {
        let Some(place) = self.waiting.first().copied() else {
            return Ok(false);
        };
        let Some(letter) = self.post.letters.get(place).copied() else {
            return Ok(false);
        };
        if self.next_receives(run, &letter.id) {
            self.take_next(run, line)?;
            return Ok(true);
        }
        self.halt_before(line, place, letter.to, marks)
    }

    /// Whether the next event received this letter.
    fn next_receives(&self, run: &RunRecord, id: &LetterId) -> bool {
        match run.trace.get(self.lines.len()) {
            Some(event) => match &event.got {
                Some(got) => got == id,
                None => false,
            },
            None => false,
        }
    }

    /// The node to which a letter was to come is halted, or halts now. It says whether it is so.
    fn halt_before(
        &mut self,
        line: u32,
        place: usize,
        node: u8,
        marks: &LineMarks,
    ) -> Result<bool, NoMemory> {
        if !self.halted.contains(&node) {
            match marks.halt_of(node) {
                None => return Ok(false),
                Some(Halt::Taken) => {}
                Some(Halt::Lost) => {
                    self.halted.insert(node)?;
                    self.meet_halt(line, place);
                    return Ok(true);
                }
            }
        }
        self.halted.insert(node)?;
        self.waiting.remove(&place);
        self.held.insert(place)?;
        Ok(true)
    }
}
