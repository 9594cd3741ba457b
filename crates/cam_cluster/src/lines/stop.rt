//! `stop NODE CALLS`: the node's disk does so many calls more. The line is refused where the node is halted.
ghost use Rattle.std.specs.Prelude.{◌≤◌, length};
ghost use Rattle.cam_script.specs.declared.Act.TheVariants as acts;
ghost use Rattle.cam_cluster.specs.Failing.{DisksGoOn};
ghost use Rattle.cam_cluster.specs.LetterLines.{IsLineBy};
ghost use Rattle.cam_cluster.specs.SoFar.{AreLinesOfSome};
ghost use Rattle.cam_cluster.specs.Stops.{IsStop};

use super::{AsLines, Lines};
use crate::LineFault;
use crate::room::{push_reserved, reserve_one};
use crate::telling::TellingLog;
use crate::works::is_halted;
use cam_event::LineRefusal;

impl<L: TellingLog> Lines<L> {
    /// Stops the disk of a node after this many calls more.
    #[tactic(none)]
    pub(crate) fn stop(&mut self, line: u32, node: u8, calls: u32) -> Result<(), LineFault>
        requires low { 1 ≤ node }
        requires node { node ≤ length self.old.works.nodes.items }
        requires stand { AreLinesOfSome (⟦<Lines<L> as AsLines>⟧.fields self.old)
            (⟦<Lines<L> as AsLines>⟧.may_read self.old) }
        ensures line { IsLineBy line (acts.Stop node calls) (IsStop node calls)
            (⟦<Lines<L> as AsLines>⟧.fields self.old) (⟦<Lines<L> as AsLines>⟧.may_read self.old)
            (⟦<Lines<L> as AsLines>⟧.fields self.new) (⟦<Lines<L> as AsLines>⟧.may_read self.new)
            result }
        ensures disks { DisksGoOn (⟦<Lines<L> as AsLines>⟧.fields self.old).works
            (⟦<Lines<L> as AsLines>⟧.fields self.new).works }
    {
        let place = node as usize - 1;
        if is_halted(&self.works.halted, place) {
            return Err(self.refused(line, LineRefusal::Halted));
        }
        reserve_one(&mut self.bound)?;
        self.works.stop_after(place, calls);
        push_reserved(&mut self.bound, &None);
        Ok(())
    }
}
