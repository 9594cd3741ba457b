//! `query NODE ACTION`: the node asks the home of the action's family how the family ended.
ghost use Rattle.cam_script.specs.declared.Act.TheVariants as acts;
ghost use Rattle.cam_cluster.specs.Failing.{DisksGoOn};
ghost use Rattle.cam_cluster.specs.VariableLines.{IsVariableLine, IsNextOfSome, action_of, query_of};

use super::{AsLines, Lines};
use crate::LineFault;
use crate::servers::Servers;
use crate::telling::TellingLog;
use crate::works::Put;
use cam_event::LineRefusal;
use cam_node::Input;
use cam_type::DataType;

impl<L: TellingLog> Lines<L> {
    /// Asks how the family of an action ended.
    #[tactic(none)]
    pub(crate) fn query<R: DataType, Q: DataType, C: DataType>(
        &mut self,
        line: u32,
        node: u8,
        action: u32,
        servers: &mut Servers<R, Q, C>,
    ) -> Result<Put, LineFault>
        requires next { IsNextOfSome line (acts.Query node action)
            (⟦<Lines<L> as AsLines>⟧.fields self.old)
            (⟦<Lines<L> as AsLines>⟧.may_read self.old) }
        ensures line { IsVariableLine line (acts.Query node action)
            (query_of node (action_of self.old.bound.items action))
            (⟦<Lines<L> as AsLines>⟧.fields self.old) (⟦<Lines<L> as AsLines>⟧.may_read self.old)
            (⟦<Lines<L> as AsLines>⟧.fields self.new) (⟦<Lines<L> as AsLines>⟧.may_read self.new)
            result }
        ensures disks { DisksGoOn (⟦<Lines<L> as AsLines>⟧.fields self.old).works
            (⟦<Lines<L> as AsLines>⟧.fields self.new).works }
    {
        match self.action_of(action) {
            Some(name) => {
                let input = Input::Query(name.family());
                self.try_lead(line, node as usize - 1, &input, servers)
            }
            None => Err(self.refused(line, LineRefusal::Unbound)),
        }
    }
}
