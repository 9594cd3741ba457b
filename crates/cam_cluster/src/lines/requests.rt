//! Requests of the action that a variable stands for, each put to the action's home.
ghost use Rattle.cam_event.specs.declared.Want.TheVariants as wants;
ghost use Rattle.cam_script.specs.declared.Act.TheVariants as acts;
ghost use Rattle.cam_cluster.specs.Failing.{DisksGoOn};
ghost use Rattle.cam_cluster.specs.VariableLines.{IsVariableLine, IsNextOfSome, IsRequestBySome};
ghost use Rattle.cam_cluster.specs.VariableLines.{IsRequestLine, action_of, give_up_of, request_of};

use super::{AsLines, Lines};
use crate::LineFault;
use crate::servers::Servers;
use crate::telling::TellingLog;
use crate::works::Put;
use cam_event::{LineRefusal, Request, Want};
use cam_node::Input;
use cam_type::{DataType, Op};

impl<L: TellingLog> Lines<L> {
    /// Makes a request of the action that a variable stands for.
    #[tactic(none)]
    pub(crate) fn request<R: DataType, Q: DataType, C: DataType>(
        &mut self,
        line: u32,
        variable: u32,
        want: Want,
        servers: &mut Servers<R, Q, C>,
    ) -> Result<Put, LineFault>
        requires by { IsRequestBySome variable want (⟦<Lines<L> as AsLines>⟧.fields self.old)
            (⟦<Lines<L> as AsLines>⟧.may_read self.old) }
        ensures line { IsRequestLine line variable want
            (⟦<Lines<L> as AsLines>⟧.fields self.old) (⟦<Lines<L> as AsLines>⟧.may_read self.old)
            (⟦<Lines<L> as AsLines>⟧.fields self.new) (⟦<Lines<L> as AsLines>⟧.may_read self.new)
            result }
        ensures disks { DisksGoOn (⟦<Lines<L> as AsLines>⟧.fields self.old).works
            (⟦<Lines<L> as AsLines>⟧.fields self.new).works }
    {
        match self.action_of(variable) {
            Some(action) => {
                let place = action.home().0 as usize - 1;
                let input = Input::Request(Request { action, want });
                self.try_lead(line, place, &input, servers)
            }
            None => Err(self.refused(line, LineRefusal::Unbound)),
        }
    }

    /// Asks for a child of an action at a node, for which the variable stands then.
    #[tactic(none)]
    pub(crate) fn ask<R: DataType, Q: DataType, C: DataType>(
        &mut self,
        line: u32,
        parent: u32,
        node: u8,
        servers: &mut Servers<R, Q, C>,
    ) -> Result<Put, LineFault>
        requires next { IsNextOfSome line (acts.Ask parent node)
            (⟦<Lines<L> as AsLines>⟧.fields self.old)
            (⟦<Lines<L> as AsLines>⟧.may_read self.old) }
        ensures line { IsVariableLine line (acts.Ask parent node)
            (request_of (action_of self.old.bound.items parent) (wants.Ask node))
            (⟦<Lines<L> as AsLines>⟧.fields self.old) (⟦<Lines<L> as AsLines>⟧.may_read self.old)
            (⟦<Lines<L> as AsLines>⟧.fields self.new) (⟦<Lines<L> as AsLines>⟧.may_read self.new)
            result }
        ensures disks { DisksGoOn (⟦<Lines<L> as AsLines>⟧.fields self.old).works
            (⟦<Lines<L> as AsLines>⟧.fields self.new).works }
    {
        self.request(line, parent, Want::Ask(node), servers)
    }

    /// Calls an operation on an object.
    #[tactic(none)]
    pub(crate) fn call<R: DataType, Q: DataType, C: DataType>(
        &mut self,
        line: u32,
        action: u32,
        object: u8,
        op: Op,
        servers: &mut Servers<R, Q, C>,
    ) -> Result<Put, LineFault>
        requires next { IsNextOfSome line (acts.Call action object op)
            (⟦<Lines<L> as AsLines>⟧.fields self.old)
            (⟦<Lines<L> as AsLines>⟧.may_read self.old) }
        ensures line { IsVariableLine line (acts.Call action object op)
            (request_of (action_of self.old.bound.items action) (wants.Call object op))
            (⟦<Lines<L> as AsLines>⟧.fields self.old) (⟦<Lines<L> as AsLines>⟧.may_read self.old)
            (⟦<Lines<L> as AsLines>⟧.fields self.new) (⟦<Lines<L> as AsLines>⟧.may_read self.new)
            result }
        ensures disks { DisksGoOn (⟦<Lines<L> as AsLines>⟧.fields self.old).works
            (⟦<Lines<L> as AsLines>⟧.fields self.new).works }
    {
        self.request(line, action, Want::Call(object, op), servers)
    }

    /// Asks to commit an action with a value.
    #[tactic(none)]
    pub(crate) fn commit<R: DataType, Q: DataType, C: DataType>(
        &mut self,
        line: u32,
        action: u32,
        value: i64,
        servers: &mut Servers<R, Q, C>,
    ) -> Result<Put, LineFault>
        requires next { IsNextOfSome line (acts.Commit action value)
            (⟦<Lines<L> as AsLines>⟧.fields self.old)
            (⟦<Lines<L> as AsLines>⟧.may_read self.old) }
        ensures line { IsVariableLine line (acts.Commit action value)
            (request_of (action_of self.old.bound.items action) (wants.Commit value))
            (⟦<Lines<L> as AsLines>⟧.fields self.old) (⟦<Lines<L> as AsLines>⟧.may_read self.old)
            (⟦<Lines<L> as AsLines>⟧.fields self.new) (⟦<Lines<L> as AsLines>⟧.may_read self.new)
            result }
        ensures disks { DisksGoOn (⟦<Lines<L> as AsLines>⟧.fields self.old).works
            (⟦<Lines<L> as AsLines>⟧.fields self.new).works }
    {
        self.request(line, action, Want::Commit(value), servers)
    }

    /// Asks to abort an action.
    #[tactic(none)]
    pub(crate) fn abort<R: DataType, Q: DataType, C: DataType>(
        &mut self,
        line: u32,
        action: u32,
        servers: &mut Servers<R, Q, C>,
    ) -> Result<Put, LineFault>
        requires next { IsNextOfSome line (acts.Abort action)
            (⟦<Lines<L> as AsLines>⟧.fields self.old)
            (⟦<Lines<L> as AsLines>⟧.may_read self.old) }
        ensures line { IsVariableLine line (acts.Abort action)
            (request_of (action_of self.old.bound.items action) wants.Abort)
            (⟦<Lines<L> as AsLines>⟧.fields self.old) (⟦<Lines<L> as AsLines>⟧.may_read self.old)
            (⟦<Lines<L> as AsLines>⟧.fields self.new) (⟦<Lines<L> as AsLines>⟧.may_read self.new)
            result }
        ensures disks { DisksGoOn (⟦<Lines<L> as AsLines>⟧.fields self.old).works
            (⟦<Lines<L> as AsLines>⟧.fields self.new).works }
    {
        self.request(line, action, Want::Abort, servers)
    }

    /// Gives up a child of an action.
    #[tactic(none)]
    pub(crate) fn give_up<R: DataType, Q: DataType, C: DataType>(
        &mut self,
        line: u32,
        action: u32,
        child: u32,
        servers: &mut Servers<R, Q, C>,
    ) -> Result<Put, LineFault>
        requires next { IsNextOfSome line (acts.GiveUp action child)
            (⟦<Lines<L> as AsLines>⟧.fields self.old)
            (⟦<Lines<L> as AsLines>⟧.may_read self.old) }
        ensures line { IsVariableLine line (acts.GiveUp action child)
            (give_up_of (action_of self.old.bound.items action)
            (action_of self.old.bound.items child))
            (⟦<Lines<L> as AsLines>⟧.fields self.old) (⟦<Lines<L> as AsLines>⟧.may_read self.old)
            (⟦<Lines<L> as AsLines>⟧.fields self.new) (⟦<Lines<L> as AsLines>⟧.may_read self.new)
            result }
        ensures disks { DisksGoOn (⟦<Lines<L> as AsLines>⟧.fields self.old).works
            (⟦<Lines<L> as AsLines>⟧.fields self.new).works }
    {
        match self.action_of(child) {
            Some(given_up) => self.request(line, action, Want::GiveUp(given_up), servers),
            None => Err(self.refused(line, LineRefusal::Unbound)),
        }
    }
}
