//! `restart NODE`: the node's disk does all calls again, and the node goes on from what its log keeps. The line is never refused.
ghost use Rattle.std.specs.Prelude.{◌≤◌, ◌-◌, IfOk, IfSome, IsTrue, length, slice_get};
ghost use Rattle.cam_cluster.specs.Failing.{DisksGoOn};
ghost use Rattle.cam_cluster.specs.Restarts.{HasFoundByStop, IsRestartLine};
ghost use Rattle.cam_cluster.specs.SoFar.{AreLinesOfSome};

use super::{AsLines, Lines};
use crate::room::{push_reserved, reserve_one};
use crate::telling::TellingLog;
use crate::works::Restart;
use cam_base::NoMemory;
use cam_log::EntryLog;

impl<L: TellingLog> Lines<L> {
    /// Restarts a node, halted or not. If memory runs out before the node restarts the lines are those before.
    ///
    /// Where the log has the event at which the node had halted, what is kept from then on is the run in which that halt was taken.
    /// Where the restart fails nothing is said of what is kept.
    #[tactic(none)]
    pub(crate) fn restart(&mut self, node: u8) -> Result<Restart, NoMemory>
        requires low { 1 ≤ node }
        requires node { node ≤ length self.old.works.nodes.items }
        requires stand { AreLinesOfSome (⟦<Lines<L> as AsLines>⟧.fields self.old)
            (⟦<Lines<L> as AsLines>⟧.may_read self.old) }
        ensures line { IfSome (slice_get self.old.works.nodes.items (node - 1)) (λ at.
            IsTrue (L.tells at.log.log) → IsRestartLine node
            (⟦<Lines<L> as AsLines>⟧.fields self.old) (⟦<Lines<L> as AsLines>⟧.may_read self.old)
            (⟦<Lines<L> as AsLines>⟧.fields self.new) (⟦<Lines<L> as AsLines>⟧.may_read self.new)
            result) }
        // It finds the event exactly if a stop let three calls pass.
        ensures by_stop { IfOk result (HasFoundByStop (node - 1)
            (⟦<Lines<L> as AsLines>⟧.fields self.old).works
            (⟦<Lines<L> as AsLines>⟧.may_read self.old)) }
        ensures disks { DisksGoOn (⟦<Lines<L> as AsLines>⟧.fields self.old).works
            (⟦<Lines<L> as AsLines>⟧.fields self.new).works }
    {
        reserve_one(&mut self.bound)?;
        let done = self.works.restart(node as usize - 1)?;
        push_reserved(&mut self.bound, &None);
        Ok(done)
    }
}
