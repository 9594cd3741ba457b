//! `begin A NODE`: a top action is created at the node, and the variable stands for it. The line is refused where the node is halted.
ghost use Rattle.std.specs.Prelude.{◌≤◌, length};
ghost use Rattle.cam_event.specs.Inputs.{Begins};
ghost use Rattle.cam_script.specs.declared.Act.TheVariants as acts;
ghost use Rattle.cam_cluster.specs.Failing.{DisksGoOn};
ghost use Rattle.cam_cluster.specs.SoFar.{AreLinesOfSome, IsLineOfInput};

use super::{AsLines, Lines};
use crate::LineFault;
use crate::servers::Servers;
use crate::telling::TellingLog;
use crate::works::{Put, is_halted};
use cam_event::LineRefusal;
use cam_node::Input;
use cam_type::DataType;

impl<L: TellingLog> Lines<L> {
    /// Begins a top action at a node.
    #[tactic(none)]
    pub(crate) fn begin<R: DataType, Q: DataType, C: DataType>(
        &mut self,
        line: u32,
        node: u8,
        servers: &mut Servers<R, Q, C>,
    ) -> Result<Put, LineFault>
        requires low { 1 ≤ node }
        requires node { node ≤ length self.old.works.nodes.items }
        requires stand { AreLinesOfSome (⟦<Lines<L> as AsLines>⟧.fields self.old)
            (⟦<Lines<L> as AsLines>⟧.may_read self.old) }
        ensures line { IsLineOfInput line (acts.Begin node) (Begins node)
            (⟦<Lines<L> as AsLines>⟧.fields self.old) (⟦<Lines<L> as AsLines>⟧.may_read self.old)
            (⟦<Lines<L> as AsLines>⟧.fields self.new) (⟦<Lines<L> as AsLines>⟧.may_read self.new) result }
        ensures disks { DisksGoOn (⟦<Lines<L> as AsLines>⟧.fields self.old).works
            (⟦<Lines<L> as AsLines>⟧.fields self.new).works }
    {
        let place = node as usize - 1;
        if is_halted(&self.works.halted, place) {
            self.refuse(line, LineRefusal::Halted)?;
            return Err(LineFault::Refused(LineRefusal::Halted));
        }
        Ok(self.lead(line, place, &Input::Begin, servers)?)
    }
}
