//! `drain`: the letters that wait are handed over, the least first, until none waits for a node that is not halted. The line is never
//! refused.
ghost use Rattle.std.specs.Prelude.{OnErr, OnOk};
ghost use Rattle.cam_cluster.specs.Drains.{IsLineOfDrain, IsPartOfDrain};
ghost use Rattle.cam_cluster.specs.Failing.{DisksGoOn};
ghost use Rattle.cam_cluster.specs.SoFar.{AreLinesOfSome};

use super::{AsLines, Lines};
use crate::room::{push_reserved, reserve_one};
use crate::servers::Servers;
use crate::telling::TellingLog;
use cam_base::NoMemory;
use cam_type::DataType;

impl<L: TellingLog> Lines<L> {
    /// Drains the network. If memory runs out some letters were handed over, each event whole.
    #[tactic(none)]
    pub(crate) fn drain<R: DataType, Q: DataType, C: DataType>(
        &mut self,
        line: u32,
        servers: &mut Servers<R, Q, C>,
    ) -> Result<(), NoMemory>
        requires stand { AreLinesOfSome (⟦<Lines<L> as AsLines>⟧.fields self.old)
            (⟦<Lines<L> as AsLines>⟧.may_read self.old) }
        ensures line { OnOk result (IsLineOfDrain line
            (⟦<Lines<L> as AsLines>⟧.fields self.old) (⟦<Lines<L> as AsLines>⟧.may_read self.old)
            (⟦<Lines<L> as AsLines>⟧.fields self.new) (⟦<Lines<L> as AsLines>⟧.may_read self.new)) }
        ensures part { OnErr result (IsPartOfDrain line
            (⟦<Lines<L> as AsLines>⟧.fields self.old) (⟦<Lines<L> as AsLines>⟧.may_read self.old)
            (⟦<Lines<L> as AsLines>⟧.fields self.new) (⟦<Lines<L> as AsLines>⟧.may_read self.new)) }
        ensures disks { DisksGoOn (⟦<Lines<L> as AsLines>⟧.fields self.old).works
            (⟦<Lines<L> as AsLines>⟧.fields self.new).works }
    {
        reserve_one(&mut self.bound)?;
        self.works.drain(line, servers)?;
        push_reserved(&mut self.bound, &None);
        Ok(())
    }
}
