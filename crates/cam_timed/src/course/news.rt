//! `tell NODE TO`: a node sends its news to another. `query NODE A`: a node asks after the family
//! of an action. Both are refused if there is nothing to do.
ghost use Rattle.std.specs.Prelude.{IfOk};
ghost use Rattle.cam_event.specs.Runs.{IsNode};
ghost use Rattle.cam_timed.specs.declared.TimedAct.TheVariants as acts;
ghost use Rattle.cam_timed.specs.Courses.{IsCourse, IsLine};
ghost use Rattle.cam_timed.specs.TimedRunning.{by_time};
ghost use Rattle.cam_timed.specs.TimedScripts.{timed_act};

use super::{Course, LineOutcome, unbound};
use crate::refusing::TimedRefusal;
use crate::ruled::NodeInput;
use cam_base::NoMemory;
use cam_event::LineRefusal;
use cam_type::Objects;

impl Course {
    /// A node tells another what it knows.
    pub(super) fn tell(
        &mut self,
        objects: &Objects,
        node: u8,
        to: u8,
    ) -> Result<LineOutcome, NoMemory>
        requires some { IsCourse objects.now self.old }
        requires node { IsNode node }
        requires to { IsNode to }
        ensures { IfOk result (IsLine objects.now
            (λ r. timed_act (by_time objects.now) r (acts.Tell node to)) self.old self.new) }
    {
        if node == to {
            let refusal = TimedRefusal::Untimed(LineRefusal::NothingToDo);
            return Ok(LineOutcome::Refused(refusal));
        }
        self.machine.step(objects, &NodeInput::Tell { node, to })?;
        Ok(LineOutcome::GoesOn(None))
    }

    /// A node asks after the family of the action that a variable stands for.
    pub(super) fn query(
        &mut self,
        objects: &Objects,
        node: u8,
        action: u32,
    ) -> Result<LineOutcome, NoMemory>
        requires some { IsCourse objects.now self.old }
        requires node { IsNode node }
        ensures { IfOk result (IsLine objects.now
            (λ r. timed_act (by_time objects.now) r (acts.Query node action)) self.old self.new) }
    {
        let Some(action) = self.variable(action) else {
            return Ok(unbound());
        };
        let family = action.family();
        if let Some(refusal) = self.machine.query_refusal(objects, node, &family) {
            return Ok(LineOutcome::Refused(TimedRefusal::Untimed(refusal)));
        }
        self.machine
            .step(objects, &NodeInput::Query { node, family })?;
        Ok(LineOutcome::GoesOn(None))
    }
}
