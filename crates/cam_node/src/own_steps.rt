//! The node's own steps that decide nothing. They have no entry, so nothing of the disk is touched.
ghost use Rattle.std.specs.Prelude.{◌≡◌, List, Some, None, IsTrue, IsFalse, IfOk, OnErr, IsErrOf};
ghost use Rattle.cam_disk.specs.Stop.{Untouched};
ghost use Rattle.cam_event.specs.Loads.{no_load};
ghost use Rattle.cam_log.specs.Moments.{Grows, Stays};
ghost use Rattle.cam_type.specs.declared.ObjectDecl.{ObjectDecl};
ghost use Rattle.cam_event.specs.Inputs.{Requests};
ghost use Rattle.cam_tranman.specs.Calls.{IsFree};
ghost use Rattle.cam_node.specs.declared.fault.NodeFault.TheVariants.{DiskFault};
ghost use Rattle.cam_node.specs.Appending.{HasAppended, OpensAsEither};
ghost use Rattle.cam_node.specs.Calls.{answers, input_of, letters_of, load_of, mail_of, AreSame};
ghost use Rattle.cam_node.specs.Halting.{IsStepThrough};
ghost use Rattle.cam_node.specs.Keeping.{KeepsOn};
ghost use Rattle.cam_node.specs.Refused.{IsNotRefused};
ghost use Rattle.cam_node.specs.MayStep.{MayAsk, MayStep};
ghost use Rattle.cam_node.specs.Unlogged.{gives_up, is_unlogged};

use crate::fault::NodeFault;
use crate::node::Node;
use crate::state::Core;
use crate::{Input, Stepped};
use cam_base::NoMemory;
use cam_ckpt::CheckpointLog;
use cam_event::{Request, Want};

impl Core {
    /// A step of the node's own that decides nothing, so that it has no entry. It fails where memory
    /// runs out, and is then as it was.
    pub(crate) fn own(&mut self, input: &Input) -> Result<Stepped, NoMemory>
        requires own { IsTrue (is_unlogged (input_of self.old.number input.now)) }
        requires free { IsNotRefused (answers self.old) input.now }
        requires may { MayStep (answers self.old) input.now }
        ensures step { (objects : List ObjectDecl) → IfOk result (λ stepped. IsStepThrough objects
            (answers self.old) (answers self.new)
            (input_of self.old.number input.now) None no_load stepped.event) }
        ensures letters { IfOk result (λ stepped.
            stepped.letters ≡ letters_of (answers self.new) stepped.event.sent) }
        ensures err { OnErr result (AreSame (answers self.old) (answers self.new)) }
        ensures number { self.new.number ≡ self.old.number }
        ensures server { (answers self.new).server ≡ (answers self.old).server }
    {
        match input {
            Input::Begin => self.begin(),
            Input::Request(request) => self.request(request),
            Input::Tell(to) => self.tell(*to),
            Input::Query(family) => self.query(family),
            Input::Letter(_, _) => unreachable!(),
        }
    }

    /// A request of an action whose home the node is. It fails if memory runs out, and is then
    /// as it was.
    fn request(&mut self, request: &Request) -> Result<Stepped, NoMemory>
        requires unlogged { IsFalse (gives_up request.now.want) }
        requires free { IsFree (answers self.old).actions request.now.action request.now.want }
        requires may { MayAsk (answers self.old) request.now.action request.now.want }
        ensures step { (objects : List ObjectDecl) → IfOk result (λ stepped. IsStepThrough objects
            (answers self.old) (answers self.new) (Requests request.now) None no_load
            stepped.event) }
        ensures letters { IfOk result (λ stepped.
            stepped.letters ≡ letters_of (answers self.new) stepped.event.sent) }
        ensures err { OnErr result (AreSame (answers self.old) (answers self.new)) }
        ensures number { self.new.number ≡ self.old.number }
        ensures server { (answers self.new).server ≡ (answers self.old).server }
    {
        match &request.want {
            Want::Ask(node) => self.ask(&request.action, *node),
            Want::Call(object, op) => self.call(&request.action, *object, op),
            Want::Commit(value) => self.commit(&request.action, *value),
            Want::Abort => self.abort(&request.action),
            Want::GiveUp(_) => unreachable!(),
        }
    }
}

impl<L: CheckpointLog> Node<L> {
    /// The node's own step that decides nothing. No entry is due, and nothing of the log changes.
    pub(crate) fn own(&mut self, input: &Input) -> Result<Stepped, NodeFault>
        requires running { IsFalse self.old.log.halted }
        requires own { IsTrue (is_unlogged (input_of self.old.core.number input.now)) }
        requires free { IsNotRefused (answers self.old.core) input.now }
        requires may { MayStep (answers self.old.core) input.now }
        ensures step { IfOk result (λ stepped. IsStepThrough self.old.objects
            (answers self.old.core) (answers self.new.core) (input_of self.old.core.number
            input.now)
            (mail_of input.now) (load_of input.now) stepped.event) }
        ensures letters { IfOk result (λ stepped.
            stepped.letters ≡ letters_of (answers self.new.core) stepped.event.sent) }
        ensures keeps { IfOk result (λ stepped. KeepsOn self.old.objects
            (answers self.old.core) (L.listed self.old.log.log)
            (answers self.new.core) (L.listed self.new.log.log)
            (input_of self.old.core.number input.now)
            (mail_of input.now) (load_of input.now) stepped.event) }
        ensures entry { IfOk result (λ stepped. HasAppended self.old.objects
            (answers self.old.core) (input_of self.old.core.number input.now) (mail_of input.now)
            (load_of input.now) stepped.event (L.listed self.old.log.log) (L.listed self.new.log.log)
            (L.passes self.old.log.log) (L.passes self.new.log.log)) }
        ensures any_moment { IsTrue (L.tells self.old.log.log)
            → Grows (L.moment self.old.log.log) (L.moment self.new.log.log)
            (L.opens_since self.old.log.log) (L.opens_since self.new.log.log)
            (OpensAsEither self.old.objects (answers self.old.core) (L.listed self.old.log.log)
            (input_of self.old.core.number input.now) (mail_of input.now) (load_of input.now)) }
        ensures broken { IsTrue self.new.log.halted → IsTrue (L.broken self.new.log.log) }
        ensures stopped { L.passes self.old.log.log ≡ Some 0
            → Untouched (L.moment self.old.log.log) (L.moment self.new.log.log)
            (L.opens_since self.old.log.log) (L.opens_since self.new.log.log)
            (L.seen self.old.log.log) (L.seen self.new.log.log) }
        ensures number { self.new.core.number ≡ self.old.core.number }
        ensures same { OnErr result (AreSame (answers self.old.core) (answers self.new.core)) }
        ensures runs { IsTrue self.new.log.halted → ⊥ }
        ensures halted_at { self.new.halted_at ≡ self.old.halted_at }
        ensures no_fault { IsErrOf result DiskFault → ⊥ }
        ensures stays { Stays (L.moment self.old.log.log) (L.moment self.new.log.log)
            (L.opens_since self.old.log.log) (L.opens_since self.new.log.log)
            (L.seen self.old.log.log) (L.seen self.new.log.log)
            (L.faults self.old.log.log) (L.faults self.new.log.log) }
        ensures log { self.new.log ≡ self.old.log }
        ensures objects { self.new.objects ≡ self.old.objects }
    {
        self.core.knowing.is_knowledge();
        Ok(self.core.own(input)?)
    }
}
