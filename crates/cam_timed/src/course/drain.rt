//! `drain`: the letters that wait are delivered, the least number first, until none waits. The line
//! is never refused.
ghost use Rattle.std.specs.Prelude.{IfOk};
ghost use Rattle.cam_timed.specs.declared.TimedAct.TheVariants as acts;
ghost use Rattle.cam_timed.specs.Courses.{IsCourse, IsLine};
ghost use Rattle.cam_timed.specs.TimedRunning.{by_time};
ghost use Rattle.cam_timed.specs.TimedScripts.{timed_act};

use super::{Course, LineOutcome};
use cam_base::NoMemory;
use cam_type::Objects;

impl Course {
    /// Delivers letters until none waits: each weighs more than all that its arrival sends.
    pub(super) fn drain(&mut self, objects: &Objects) -> Result<LineOutcome, NoMemory>
        requires some { IsCourse objects.now self.old }
        ensures { IfOk result (IsLine objects.now
            (λ r. timed_act (by_time objects.now) r acts.Drain) self.old self.new) }
    {
        while let Some(place) = self.next() {
            self.hand_over(objects, place)?;
        }
        Ok(LineOutcome::GoesOn(None))
    }
}
