//! How far an action is in its body.
ghost use Rattle.std.specs.Prelude.{◌≡◌, ◌≤◌, ◌<◌, ◌+◌, ◌^◌, ◌==◌, ℕ, List, false, if◌then◌else◌};
ghost use Rattle.cam_script.specs.declared.Statement.{Statement};
ghost use Rattle.cam_body.specs.Work.Try.{Open};
ghost use Rattle.cam_body.specs.Work.{Place, value_of, child_result, seen_result, after_try, start_of, place_of};
ghost use Rattle.cam_body.specs.Progress.{IsAt, closed, after_step};

use cam_event::{Seen, View, ViewStep};
use cam_type::Answer;

/// How far an action has come in its body.
#[derive(Clone, Copy)]
pub(crate) struct Progress {
    /// How many statements have worked, which is the place of the one at work.
    pub done: usize,
    /// How many tries of the statement at work have failed.
    pub failed: usize,
    /// Whether a try of it is open.
    pub is_open: bool,
    /// The value of the statement at the wanted place; 0 where it has none yet.
    pub kept: i64,
}

impl Progress {
    /// At the beginning of a body.
    fn new() -> Progress
        ensures at { (body : List Statement) → (wanted : ℕ)
            → IsAt (start_of body) body wanted result }
        ensures none { (result.done ≡ 0) × (result.failed ≡ 0) }
    {
        Progress {
            done: 0,
            failed: 0,
            is_open: false,
            kept: 0,
        }
    }

    /// After a new try of the statement at work.
    fn opened(self) -> Progress
        ensures at { (body : List Statement) → (place : Place) → (wanted : ℕ)
            → IsAt place body wanted self → IsAt (after_try place Open) body wanted result }
        ensures same { (result.done ≡ self.done) × (result.failed ≡ self.failed) }
    {
        Progress {
            is_open: true,
            ..self
        }
    }

    /// After the end of the open try: it worked and left a value, or it failed.
    fn closed(self, worked: Option<i64>, wanted: usize) -> Progress
        requires done { self.done + 1 < 2 ^ 64 }
        requires failed { self.failed + 1 < 2 ^ 64 }
        ensures at { (body : List Statement) → (place : Place) → IsAt place body wanted self
            → IsAt (closed place (child_result worked)) body wanted result }
        ensures grows { (result.done ≤ self.done + 1) × (result.failed ≤ self.failed + 1) }
    {
        if !self.is_open {
            return self;
        }
        match worked {
            None => Progress {
                failed: self.failed + 1,
                is_open: false,
                ..self
            },
            Some(value) => self.worked(value, wanted),
        }
    }

    /// After a try that worked and left this value.
    fn worked(self, value: i64, wanted: usize) -> Progress
        requires { self.done + 1 < 2 ^ 64 }
        ensures { result ≡ record {
          done = self.done + 1;
          failed = 0;
          is_open = false;
          kept = (if self.done == wanted then value else self.kept);
        } }
    {
        Progress {
            done: self.done + 1,
            failed: 0,
            is_open: false,
            kept: if self.done == wanted {
                value
            } else {
                self.kept
            },
        }
    }

    /// After the next step of the view.
    fn after(self, step: &ViewStep, wanted: usize) -> Progress
        requires done { self.done + 1 < 2 ^ 64 }
        requires failed { self.failed + 1 < 2 ^ 64 }
        ensures at { (body : List Statement) → (place : Place) → IsAt place body wanted self
            → IsAt (after_step place step.now) body wanted result }
        ensures grows { (result.done ≤ self.done + 1) × (result.failed ≤ self.failed + 1) }
    {
        match step {
            ViewStep::Asked(_) => self.opened(),
            ViewStep::Called(_, _, _) => self.opened(),
            ViewStep::Got(_, seen) => self.closed(value_seen(seen), wanted),
            ViewStep::Child(_, value) => self.closed(*value, wanted),
            _ => self,
        }
    }
}

/// The value that a call left; none if it failed.
fn value_seen(seen: &Seen) -> Option<i64>
    ensures { child_result result ≡ seen_result seen.now }
{
    match seen {
        Seen::Done(answer) => Some(value_of(*answer)),
        Seen::Busy(_) => None,
        Seen::Gone => None,
    }
}

/// The value that a call's answer leaves.
fn value_of(answer: Answer) -> i64
    ensures { result ≡ value_of answer }
{
    match answer {
        Answer::Value(value) => value,
        Answer::Ok | Answer::Empty => 0,
    }
}

/// How far an action of this view has come, with the value of the statement at the wanted place.
pub(crate) fn progress_of(view: &View, wanted: usize) -> Progress
    ensures { (body : List Statement) → IsAt (place_of body view.now) body wanted result }
{
    let mut progress = Progress::new();
    for step in view.as_slice() {
        progress = progress.after(step, wanted);
    }
    progress
}
