//! A line that puts one input to a node, unless it is refused: the node is halted, or something
//! stands against the input there. And what a variable stands for.
ghost use Rattle.std.specs.Prelude.{◌≡◌, ◌+◌, ◌-◌, length};
ghost use Rattle.cam_cluster.specs.Failing.{DisksGoOn};
ghost use Rattle.cam_cluster.specs.InputLines.{IsLineToSome, IsRefusedAs, IsTriedLine};
ghost use Rattle.cam_cluster.specs.VariableLines.{action_of};

use super::{AsLines, Lines};
use crate::LineFault;
use crate::servers::Servers;
use crate::telling::TellingLog;
use crate::works::{Put, is_halted};
use cam_base::NoMemory;
use cam_event::LineRefusal;
use cam_names::Name;
use cam_node::Input;
use cam_type::DataType;

impl<L: TellingLog> Lines<L> {
    /// The action that a variable stands for; none if its line was refused or halted.
    pub(crate) fn action_of(&self, variable: u32) -> Option<Name>
        ensures { result ≡ action_of self.now.bound.items variable }
    {
        match self.bound.get(variable as usize) {
            Some(bound) => *bound,
            None => None,
        }
    }

    /// The action that the newest variable stands for; none if its line was refused or halted.
    pub(crate) fn newest(&self) -> Option<Name>
        ensures { result ≡ action_of self.now.bound.items (length self.now.bound.items - 1) }
    {
        match self.bound.last() {
            Some(bound) => *bound,
            None => None,
        }
    }

    /// Refuses the line by this test: the fault that says so, or that memory ran out.
    #[tactic(none)]
    pub(crate) fn refused(&mut self, line: u32, refusal: LineRefusal) -> LineFault
        ensures refused { IsRefusedAs line refusal
            (⟦<Lines<L> as AsLines>⟧.fields self.old) (⟦<Lines<L> as AsLines>⟧.may_read self.old)
            (⟦<Lines<L> as AsLines>⟧.fields self.new) (⟦<Lines<L> as AsLines>⟧.may_read self.new)
            result }
        ensures disks { DisksGoOn (⟦<Lines<L> as AsLines>⟧.fields self.old).works
            (⟦<Lines<L> as AsLines>⟧.fields self.new).works }
    {
        match self.refuse(line, refusal) {
            Ok(()) => LineFault::Refused(refusal),
            Err(NoMemory) => LineFault::NoMemory,
        }
    }

    /// Puts the input of a line to the node at a place, unless it is refused.
    #[tactic(none)]
    pub(crate) fn try_lead<R: DataType, Q: DataType, C: DataType>(
        &mut self,
        line: u32,
        place: usize,
        input: &Input,
        servers: &mut Servers<R, Q, C>,
    ) -> Result<Put, LineFault>
        requires to { IsLineToSome (place + 1) input.now (⟦<Lines<L> as AsLines>⟧.fields self.old)
            (⟦<Lines<L> as AsLines>⟧.may_read self.old) }
        ensures line { IsTriedLine line (place + 1) input.now
            (⟦<Lines<L> as AsLines>⟧.fields self.old) (⟦<Lines<L> as AsLines>⟧.may_read self.old)
            (⟦<Lines<L> as AsLines>⟧.fields self.new) (⟦<Lines<L> as AsLines>⟧.may_read self.new)
            result }
        ensures disks { DisksGoOn (⟦<Lines<L> as AsLines>⟧.fields self.old).works
            (⟦<Lines<L> as AsLines>⟧.fields self.new).works }
    {
        if is_halted(&self.works.halted, place) {
            return Err(self.refused(line, LineRefusal::Halted));
        }
        match self.works.nodes[place].refusal(input) {
            Some(refusal) => Err(self.refused(line, refusal)),
            None => Ok(self.lead(line, place, input, servers)?),
        }
    }
}
