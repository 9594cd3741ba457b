//! `deliver N`: the letter of this number is handed to its node, again if it was delivered
//! before. `lose N`: it is taken out for good. Both are refused if no such letter was sent or it
//! is lost.
ghost use Rattle.std.specs.Prelude.{◌≡◌, ◌<◌, ◌+◌, ◌^◌, Some, IfOk, IfSome, OnOk, List, length, slice_get};
ghost use Rattle.cam_type.specs.declared.ObjectDecl.{ObjectDecl};
ghost use Rattle.cam_event.specs.declared.LetterId.{LetterId};
ghost use Rattle.cam_event.specs.declared.LineRefusal.TheVariants as refusals;
ghost use Rattle.cam_timed.specs.declared.refusing.TimedRefusal.TheVariants as timed;
ghost use Rattle.cam_timed.specs.declared.course.LineOutcome.TheVariants as line_outcomes;
ghost use Rattle.cam_timed.specs.declared.TimedAct.TheVariants as acts;
ghost use Rattle.cam_timed.specs.Courses.{IsCourse, IsLine, KeepsRunning, IsPlaceOf, WaitsAt};
ghost use Rattle.cam_timed.specs.Machine.{run_of};
ghost use Rattle.cam_timed.specs.TimedRunning.{TimedRunning, by_time, deliver, is_out, letters};
ghost use Rattle.cam_timed.specs.TimedScripts.{timed_act};

use super::{Course, LineOutcome};
use crate::refusing::TimedRefusal;
use cam_base::NoMemory;
use cam_event::LineRefusal;
use cam_type::Objects;

/// What a line comes to whose letter was not sent or is lost.
fn no_letter() -> LineOutcome
    ensures { result ≡ line_outcomes.Refused (timed.Untimed refusals.NoLetter) }
{
    LineOutcome::Refused(TimedRefusal::Untimed(LineRefusal::NoLetter))
}

impl Course {
    /// Delivers a letter.
    pub(super) fn deliver(
        &mut self,
        objects: &Objects,
        letter: u32,
    ) -> Result<LineOutcome, NoMemory>
        requires some { IsCourse objects.now self.old }
        ensures { IfOk result (IsLine objects.now
            (λ r. timed_act (by_time objects.now) r (acts.Deliver letter)) self.old self.new) }
    {
        let Some(place) = self.place_of(letter) else {
            return Ok(no_letter());
        };
        self.hand_over(objects, place)?;
        Ok(LineOutcome::GoesOn(None))
    }

    /// Loses a letter.
    pub(super) fn lose(&mut self, letter: u32) -> Result<LineOutcome, NoMemory>
        ensures { IfOk result (λ taken. (objects : List ObjectDecl) → IsLine objects
            (λ r. timed_act (by_time objects) r (acts.Lose letter)) self.old self.new taken) }
    {
        let Some(place) = self.place_of(letter) else {
            return Ok(no_letter());
        };
        self.lost.insert(place + 1)?;
        Ok(LineOutcome::GoesOn(None))
    }

    /// Hands the letter at a place to its node.
    pub(super) fn hand_over(&mut self, objects: &Objects, place: usize) -> Result<(), NoMemory>
        requires some { IsCourse objects.now self.old }
        requires place { place < length (letters (run_of self.old.machine)) }
        requires number { place + 1 < 2 ^ 64 }
        ensures { OnOk result ((r : TimedRunning) (letter : LetterId)
            → KeepsRunning objects.now r self.old → slice_get (letters r.trace) place ≡ Some letter
            → KeepsRunning objects.now (deliver (by_time objects.now) r (place + 1) letter)
            self.new) }
    {
        self.machine.deliver(objects, place)?;
        self.delivered.insert(place + 1)?;
        Ok(())
    }

    /// The place of the letter of a number, if it was sent and is not lost.
    fn place_of(&self, number: u32) -> Option<usize>
        ensures place { (objects : List ObjectDecl) (r : TimedRunning)
            → KeepsRunning objects r self.now → IsPlaceOf r number result }
        ensures number { IfSome result (λ place. place + 1 ≡ number) }
    {
        let place = (number as usize).checked_sub(1)?;
        if place < self.machine.letter_count() && !self.lost.contains(&(place + 1)) {
            Some(place)
        } else {
            None
        }
    }

    /// The place of the letter that waits, if one does.
    pub(super) fn next(&mut self) -> Option<usize>
        ensures waits { (objects : List ObjectDecl) (r : TimedRunning)
            → KeepsRunning objects r self.old → WaitsAt r result }
        ensures same { (objects : List ObjectDecl) (r : TimedRunning)
            → KeepsRunning objects r self.old → KeepsRunning objects r self.new }
        ensures number { IfSome result (λ place. place + 1 < 2 ^ 64) }
    {
        let count = self.machine.letter_count();
        while self.first < count && self.is_out(self.first) {
            self.first += 1;
        }
        if self.first < count {
            Some(self.first)
        } else {
            None
        }
    }

    /// Whether the letter at a place was delivered or is lost.
    fn is_out(&self, place: usize) -> bool
        requires { place + 1 < 2 ^ 64 }
        ensures { (objects : List ObjectDecl) (r : TimedRunning)
            → KeepsRunning objects r self.now → result ≡ is_out r (place + 1) }
    {
        self.delivered.contains(&(place + 1)) || self.lost.contains(&(place + 1))
    }
}
