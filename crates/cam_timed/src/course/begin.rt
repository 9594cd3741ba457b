//! `begin A NODE UNTIL`: a top action begins, and the variable stands for it. The line is refused
//! if its quiesce moment is not after the node's moment.
ghost use Rattle.std.specs.Prelude.{IfOk};
ghost use Rattle.cam_event.specs.Runs.{IsNode};
ghost use Rattle.cam_timed.specs.declared.TimedAct.TheVariants as acts;
ghost use Rattle.cam_timed.specs.Courses.{IsCourse, IsLine};
ghost use Rattle.cam_timed.specs.TimedRunning.{by_time};
ghost use Rattle.cam_timed.specs.TimedScripts.{timed_act};

use super::{Course, LineOutcome};
use crate::ruled::NodeInput;
use cam_base::NoMemory;
use cam_type::Objects;

impl Course {
    /// Begins a top action with this quiesce moment at a node.
    pub(super) fn begin(
        &mut self,
        objects: &Objects,
        node: u8,
        until: u64,
    ) -> Result<LineOutcome, NoMemory>
        requires some { IsCourse objects.now self.old }
        requires node { IsNode node }
        ensures { IfOk result (IsLine objects.now
            (λ r. timed_act (by_time objects.now) r (acts.Begin node until)) self.old self.new) }
    {
        if let Some(refusal) = self.machine.begin_refusal(node, until) {
            return Ok(LineOutcome::Refused(refusal));
        }
        self.machine
            .step(objects, &NodeInput::Begin { node, until })?;
        Ok(LineOutcome::GoesOn(self.machine.named()))
    }
}
