//! The course of a script by time: what is kept after some of its lines.
ghost use Rattle.std.specs.Prelude.{◌≡◌, IfOk, List, OnOk};
ghost use Rattle.cam_type.specs.declared.ObjectDecl.{ObjectDecl};
ghost use Rattle.cam_event.specs.declared.LineRefusal.TheVariants as refusals;
ghost use Rattle.cam_timed.specs.declared.refusing.TimedRefusal.TheVariants as timed;
ghost use Rattle.cam_timed.specs.declared.course.LineOutcome.TheVariants as line_outcomes;
ghost use Rattle.cam_timed.specs.Courses.{Follows, IsCourse, IsLine, KeepsRunning, MayTake, variable_in};
ghost use Rattle.cam_timed.specs.TimedRunning.{by_time, timed_start};
ghost use Rattle.cam_timed.specs.TimedScripts.{after_line, mark_of, timed_act};

mod begin;
mod drain;
mod letters;
mod moments;
mod news;
mod requests;

use crate::machine::Machine;
use crate::refusing::TimedRefusal;
use crate::{TimedAct, TimedMark, TimedMarks, TimedStep};
use cam_base::{NoMemory, Sequence};
use cam_event::{LineRefusal, Want};
use cam_names::Name;
use cam_type::Objects;
use std::alloc::Global;
use std::collections::BTreeSet;

/// What a line comes to: it is refused, or the run goes on and its variable stands for this action.
#[derive(Clone, Copy)]
pub(crate) enum LineOutcome {
    Refused(TimedRefusal),
    GoesOn(Option<Name>),
}

/// What is kept after some lines: the machine, the numbers of the letters that were delivered and of
/// those that are lost, the marks, and for each line the action that its variable stands for, if it
/// stands for one.
#[derive(Drop)]
pub(crate) struct Course {
    pub(crate) machine: Machine,
    pub(crate) delivered: BTreeSet<usize>,
    pub(crate) lost: BTreeSet<usize>,
    /// No letter at a place before this one waits. Places are counted from 0, numbers from 1.
    pub(crate) first: usize,
    pub(crate) marks: TimedMarks,
    pub(crate) bound: Sequence<Option<Name>>,
}

/// What a line comes to whose variable stands for no action.
fn unbound() -> LineOutcome
    ensures { result ≡ line_outcomes.Refused (timed.Untimed refusals.Unbound) }
{
    LineOutcome::Refused(TimedRefusal::Untimed(LineRefusal::Unbound))
}

/// The mark of a line that is refused.
fn mark_of(line: u32, refusal: &TimedRefusal) -> TimedMark
    ensures { result ≡ mark_of line refusal.now }
{
    match *refusal {
        TimedRefusal::Untimed(refusal) => TimedMark::Refused { line, refusal },
        TimedRefusal::Quiesced { moment, until } => TimedMark::Quiesced {
            line,
            moment,
            until,
        },
        TimedRefusal::TooEarly { moment, until } => TimedMark::TooEarly {
            line,
            moment,
            until,
        },
    }
}

impl Course {
    /// Before the first line.
    pub(crate) fn new(alloc: Global) -> Result<Course, NoMemory>
        ensures { IfOk result (λ course. (objects : List ObjectDecl)
            → KeepsRunning objects timed_start course) }
    {
        Ok(Course {
            machine: Machine::new(alloc)?,
            delivered: BTreeSet::new(alloc),
            lost: BTreeSet::new(alloc),
            first: 0,
            marks: TimedMarks::new(alloc),
            bound: Sequence::new(alloc),
        })
    }

    /// The action that a variable stands for.
    fn variable(&self, variable: u32) -> Option<Name>
        ensures { result ≡ variable_in self.now.bound variable }
    {
        match self.bound.get(variable as usize) {
            Some(bound) => *bound,
            None => None,
        }
    }

    /// Takes the next line. If memory runs out the run is over.
    pub(crate) fn take(&mut self, objects: &Objects, step: &TimedStep) -> Result<(), NoMemory>
        requires some { IsCourse objects.now self.old }
        requires may { MayTake objects.now self.old.bound step.now.act }
        ensures { OnOk result (Follows objects.now
            (λ r. after_line r step.now.line (timed_act (by_time objects.now) r step.now.act))
            self.old self.new) }
    {
        match self.act(objects, &step.act)? {
            LineOutcome::Refused(refusal) => {
                self.marks.push_copy(&mark_of(step.line, &refusal))?;
                self.bound.push_copy(&None)?;
                Ok(())
            }
            LineOutcome::GoesOn(binds) => {
                self.bound.push_copy(&binds)?;
                Ok(())
            }
        }
    }

    /// Does what a line says, unless it is refused.
    fn act(&mut self, objects: &Objects, act: &TimedAct) -> Result<LineOutcome, NoMemory>
        requires some { IsCourse objects.now self.old }
        requires may { MayTake objects.now self.old.bound act.now }
        ensures { IfOk result (IsLine objects.now
            (λ r. timed_act (by_time objects.now) r act.now) self.old self.new) }
    {
        match *act {
            TimedAct::Begin { node, until } => self.begin(objects, node, until),
            TimedAct::Ask {
                parent,
                node,
                until,
            } => self.ask(objects, parent, node, until),
            TimedAct::Call { action, object, op } => {
                self.request(objects, action, &Want::Call(object, op))
            }
            TimedAct::Commit { action, value } => {
                self.request(objects, action, &Want::Commit(value))
            }
            TimedAct::Abort { action } => self.request(objects, action, &Want::Abort),
            TimedAct::GiveUp { action, child } => self.give_up(objects, action, child),
            TimedAct::Deliver { letter } => self.deliver(objects, letter),
            TimedAct::Lose { letter } => self.lose(letter),
            TimedAct::Drain => self.drain(objects),
            TimedAct::Tell { node, to } => self.tell(objects, node, to),
            TimedAct::Query { node, action } => self.query(objects, node, action),
            TimedAct::Tick { node, moment } => self.tick(objects, node, moment),
            TimedAct::Expire { action } => self.expire(objects, action),
        }
    }
}
