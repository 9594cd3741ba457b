//! The next line of a script is taken: each kind of line has a function of its own.
ghost use Rattle.cam_cluster.specs.Failing.{DisksGoOn};
ghost use Rattle.cam_cluster.specs.Taking.{IsTakenAlone, IsInputLine, IsStepTaken, PutsInput};
ghost use Rattle.cam_cluster.specs.VariableLines.{IsNextOfSome};

use super::cut::CutLetter;
use super::{AsLines, Lines};
use crate::LineFault;
use crate::servers::Servers;
use crate::telling::TellingLog;
use crate::works::Put;
use cam_base::NoMemory;
use cam_script::{Act, Step};
use cam_type::DataType;
use cam_wire::WireFault;

impl<L: TellingLog> Lines<L> {
    /// Takes a line that puts one input, unless it is refused.
    #[tactic(none)]
    fn put_line<R: DataType, Q: DataType, C: DataType>(
        &mut self,
        step: &Step,
        servers: &mut Servers<R, Q, C>,
    ) -> Result<Put, LineFault>
        requires input { PutsInput step.now.act }
        requires next { IsNextOfSome step.now.line step.now.act
            (⟦<Lines<L> as AsLines>⟧.fields self.old) (⟦<Lines<L> as AsLines>⟧.may_read self.old) }
        ensures line { IsInputLine step.now
            (⟦<Lines<L> as AsLines>⟧.fields self.old) (⟦<Lines<L> as AsLines>⟧.may_read self.old)
            (⟦<Lines<L> as AsLines>⟧.fields self.new) (⟦<Lines<L> as AsLines>⟧.may_read self.new)
            result }
        ensures disks { DisksGoOn (⟦<Lines<L> as AsLines>⟧.fields self.old).works
            (⟦<Lines<L> as AsLines>⟧.fields self.new).works }
    {
        let line = step.line;
        match step.act {
            Act::Begin { node } => self.begin(line, node, servers),
            Act::Start { node, .. } => self.start(line, node, servers),
            Act::Ask { parent, node } => self.ask(line, parent, node, servers),
            Act::Call { action, object, op } => self.call(line, action, object, op, servers),
            Act::Commit { action, value } => self.commit(line, action, value, servers),
            Act::Abort { action } => self.abort(line, action, servers),
            Act::GiveUp { action, child } => self.give_up(line, action, child, servers),
            Act::Deliver { letter } => self.deliver(line, letter, servers),
            Act::Tell { node, to } => self.tell(line, node, to, servers),
            Act::Query { node, action } => self.query(line, node, action, servers),
            // no such line puts an input
            Act::Go { .. }
            | Act::Cut { .. }
            | Act::Lose { .. }
            | Act::Restart { .. }
            | Act::Drain
            | Act::Play
            | Act::Stop { .. } => unreachable!(),
        }
    }

    /// Takes the next line of a script, unless it is refused: the fault of a letter that it cut
    /// short is told.
    #[tactic(none)]
    pub(crate) fn take<R: DataType, Q: DataType, C: DataType>(
        &mut self,
        step: &Step,
        servers: &mut Servers<R, Q, C>,
    ) -> Result<Option<WireFault>, LineFault>
        requires built { IsTakenAlone step.now.act }
        requires next { IsNextOfSome step.now.line step.now.act
            (⟦<Lines<L> as AsLines>⟧.fields self.old) (⟦<Lines<L> as AsLines>⟧.may_read self.old) }
        ensures line { IsStepTaken step.now
            (⟦<Lines<L> as AsLines>⟧.fields self.old) (⟦<Lines<L> as AsLines>⟧.may_read self.old)
            (⟦<Lines<L> as AsLines>⟧.fields self.new) (⟦<Lines<L> as AsLines>⟧.may_read self.new)
            result }
        ensures disks { DisksGoOn (⟦<Lines<L> as AsLines>⟧.fields self.old).works
            (⟦<Lines<L> as AsLines>⟧.fields self.new).works }
    {
        match step.act {
            Act::Lose { letter } => match self.lose(step.line, letter) {
                Ok(()) => Ok(None),
                Err(fault) => Err(fault),
            },
            Act::Cut { letter, bytes } => match self.cut(step.line, letter, bytes, servers) {
                Ok(CutLetter::Bad(fault)) => Ok(Some(fault)),
                Ok(CutLetter::Delivered(_)) => Ok(None),
                Err(fault) => Err(fault),
            },
            Act::Drain => match self.drain(step.line, servers) {
                Ok(()) => Ok(None),
                Err(NoMemory) => Err(LineFault::NoMemory),
            },
            _ => match self.put_line(step, servers) {
                Ok(_) => Ok(None),
                Err(fault) => Err(fault),
            },
        }
    }
}
