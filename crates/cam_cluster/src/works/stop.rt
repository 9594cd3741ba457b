//! A node's disk is stopped after some calls more, or does all calls again.
ghost use Rattle.std.specs.Prelude.{◌<◌, length};
ghost use Rattle.cam_cluster.specs.Failing.{DisksGoOn};
ghost use Rattle.cam_cluster.specs.Puts.{HasStopped};

use super::{AsWorks, Works};
use crate::telling::TellingLog;

impl<L: TellingLog> Works<L> {
    /// The disk of the node at a place does this many calls more.
    #[tactic(none)]
    pub(crate) fn stop_after(&mut self, place: usize, calls: u32)
        requires { place < length self.old.nodes.items }
        ensures stopped { HasStopped place calls
            (⟦<Works<L> as AsWorks>⟧.fields self.old) (⟦<Works<L> as AsWorks>⟧.may_read self.old)
            (⟦<Works<L> as AsWorks>⟧.fields self.new) (⟦<Works<L> as AsWorks>⟧.may_read self.new) }
        ensures disks { DisksGoOn (⟦<Works<L> as AsWorks>⟧.fields self.old)
            (⟦<Works<L> as AsWorks>⟧.fields self.new) }
    {
        self.nodes[place].stop_after(calls);
    }
}
