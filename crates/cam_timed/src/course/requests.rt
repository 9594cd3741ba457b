//! `ask`, `call`, `commit`, `abort` and `giveup`: requests of the action that a variable stands
//! for, at its home. The variable of an ask stands for the child.
ghost use Rattle.std.specs.Prelude.{IfOk};
ghost use Rattle.cam_event.specs.declared.Want.TheVariants as wants;
ghost use Rattle.cam_event.specs.Runs.{IsNode, IsWant};
ghost use Rattle.cam_timed.specs.declared.TimedAct.TheVariants as acts;
ghost use Rattle.cam_timed.specs.Courses.{IsCourse, IsLine};
ghost use Rattle.cam_timed.specs.TimedRunning.{by_time};
ghost use Rattle.cam_timed.specs.TimedScripts.{of_variable, take_request, timed_act, variable};

use super::{Course, LineOutcome, unbound};
use crate::ruled::NodeInput;
use cam_base::NoMemory;
use cam_event::Want;
use cam_names::Name;
use cam_type::Objects;

impl Course {
    /// An action asks for a child at a node, with this quiesce moment.
    pub(super) fn ask(
        &mut self,
        objects: &Objects,
        parent: u32,
        node: u8,
        until: u64,
    ) -> Result<LineOutcome, NoMemory>
        requires some { IsCourse objects.now self.old }
        requires node { IsNode node }
        ensures { IfOk result (IsLine objects.now
            (λ r. timed_act (by_time objects.now) r (acts.Ask parent node until))
            self.old self.new) }
    {
        let Some(action) = self.variable(parent) else {
            return Ok(unbound());
        };
        let want = Want::Ask(node);
        if let Some(refusal) = self.machine.request_refusal(objects, &action, &want) {
            return Ok(LineOutcome::Refused(refusal));
        }
        self.machine.step(
            objects,
            &NodeInput::Request {
                action,
                want,
                until,
            },
        )?;
        Ok(LineOutcome::GoesOn(self.machine.named()))
    }

    /// The action of a variable makes another request.
    pub(super) fn request(
        &mut self,
        objects: &Objects,
        action: u32,
        want: &Want,
    ) -> Result<LineOutcome, NoMemory>
        requires some { IsCourse objects.now self.old }
        requires want { IsWant objects.now want.now }
        ensures { IfOk result (IsLine objects.now
            (λ r. of_variable (variable r action)
            (λ a. take_request (by_time objects.now) r a want.now)) self.old self.new) }
    {
        match self.variable(action) {
            Some(action) => self.request_of(objects, &action, want),
            None => Ok(unbound()),
        }
    }

    /// An action gives up a child.
    pub(super) fn give_up(
        &mut self,
        objects: &Objects,
        action: u32,
        child: u32,
    ) -> Result<LineOutcome, NoMemory>
        requires some { IsCourse objects.now self.old }
        ensures { IfOk result (IsLine objects.now
            (λ r. timed_act (by_time objects.now) r (acts.GiveUp action child))
            self.old self.new) }
    {
        let Some(parent) = self.variable(action) else {
            return Ok(unbound());
        };
        let Some(child) = self.variable(child) else {
            return Ok(unbound());
        };
        self.request_of(objects, &parent, &Want::GiveUp(child))
    }

    /// A request of an action, unless it is refused at its home.
    fn request_of(
        &mut self,
        objects: &Objects,
        action: &Name,
        want: &Want,
    ) -> Result<LineOutcome, NoMemory>
        requires some { IsCourse objects.now self.old }
        requires want { IsWant objects.now want.now }
        ensures { IfOk result (IsLine objects.now
            (λ r. take_request (by_time objects.now) r action.now want.now) self.old self.new) }
    {
        if let Some(refusal) = self.machine.request_refusal(objects, action, want) {
            return Ok(LineOutcome::Refused(refusal));
        }
        let input = NodeInput::Request {
            action: *action,
            want: *want,
            until: 0,
        };
        self.machine.step(objects, &input)?;
        Ok(LineOutcome::GoesOn(None))
    }
}
