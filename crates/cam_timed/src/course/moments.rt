//! `tick NODE MOMENT`: a node's moment becomes this one. `expire A`: a top action is aborted at its
//! home, from its quiesce moment on.
ghost use Rattle.std.specs.Prelude.{◌≡◌, Some, true, IfOk};
ghost use Rattle.cam_names.specs.declared.name.Name.{Name as NameFields};
ghost use Rattle.cam_names.specs.Names.{is_top};
ghost use Rattle.cam_event.specs.Runs.{IsNode};
ghost use Rattle.cam_timed.specs.declared.TimedAct.TheVariants as acts;
ghost use Rattle.cam_timed.specs.Courses.{IsCourse, IsLine, variable_in};
ghost use Rattle.cam_timed.specs.TimedRunning.{by_time};
ghost use Rattle.cam_timed.specs.TimedScripts.{timed_act};

use super::{Course, LineOutcome, unbound};
use crate::ruled::NodeInput;
use cam_base::NoMemory;
use cam_type::Objects;

impl Course {
    /// Sets a node's moment.
    pub(super) fn tick(
        &mut self,
        objects: &Objects,
        node: u8,
        moment: u64,
    ) -> Result<LineOutcome, NoMemory>
        requires some { IsCourse objects.now self.old }
        requires node { IsNode node }
        ensures { IfOk result (IsLine objects.now
            (λ r. timed_act (by_time objects.now) r (acts.Tick node moment)) self.old self.new) }
    {
        if let Some(refusal) = self.machine.tick_refusal(node, moment) {
            return Ok(LineOutcome::Refused(refusal));
        }
        self.machine
            .step(objects, &NodeInput::Tick { node, moment })?;
        Ok(LineOutcome::GoesOn(None))
    }

    /// Aborts the top action that a variable stands for, whose quiesce moment has come.
    pub(super) fn expire(&mut self, objects: &Objects, action: u32) -> Result<LineOutcome, NoMemory>
        requires some { IsCourse objects.now self.old }
        requires top { (a : NameFields)
            → variable_in self.old.bound action ≡ Some a → is_top a ≡ true }
        ensures { IfOk result (IsLine objects.now
            (λ r. timed_act (by_time objects.now) r (acts.Expire action)) self.old self.new) }
    {
        let Some(action) = self.variable(action) else {
            return Ok(unbound());
        };
        if let Some(refusal) = self.machine.expire_refusal(objects, &action) {
            return Ok(LineOutcome::Refused(refusal));
        }
        self.machine.step(objects, &NodeInput::Expire { action })?;
        Ok(LineOutcome::GoesOn(None))
    }
}
