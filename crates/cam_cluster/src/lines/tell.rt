//! `tell NODE TO`: the node tells another what it knows.
ghost use Rattle.cam_event.specs.Inputs.{Tells};
ghost use Rattle.cam_script.specs.declared.Act.TheVariants as acts;
ghost use Rattle.cam_cluster.specs.Failing.{DisksGoOn};
ghost use Rattle.cam_cluster.specs.SoFar.{IsLineOfInput};
ghost use Rattle.cam_cluster.specs.VariableLines.{IsNextOfSome};

use super::{AsLines, Lines};
use crate::LineFault;
use crate::servers::Servers;
use crate::telling::TellingLog;
use crate::works::Put;
use cam_node::Input;
use cam_type::DataType;

impl<L: TellingLog> Lines<L> {
    /// Tells another node what a node knows.
    #[tactic(none)]
    pub(crate) fn tell<R: DataType, Q: DataType, C: DataType>(
        &mut self,
        line: u32,
        node: u8,
        to: u8,
        servers: &mut Servers<R, Q, C>,
    ) -> Result<Put, LineFault>
        requires next { IsNextOfSome line (acts.Tell node to)
            (⟦<Lines<L> as AsLines>⟧.fields self.old)
            (⟦<Lines<L> as AsLines>⟧.may_read self.old) }
        ensures line { IsLineOfInput line (acts.Tell node to) (Tells node to)
            (⟦<Lines<L> as AsLines>⟧.fields self.old) (⟦<Lines<L> as AsLines>⟧.may_read self.old)
            (⟦<Lines<L> as AsLines>⟧.fields self.new) (⟦<Lines<L> as AsLines>⟧.may_read self.new)
            result }
        ensures disks { DisksGoOn (⟦<Lines<L> as AsLines>⟧.fields self.old).works
            (⟦<Lines<L> as AsLines>⟧.fields self.new).works }
    {
        self.try_lead(line, node as usize - 1, &Input::Tell(to), servers)
    }
}
