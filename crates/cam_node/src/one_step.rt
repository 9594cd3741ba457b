//! A step of a node: the input says which rule it is of.
ghost use Rattle.std.specs.Prelude.{◌≡◌, ◌⊎◌, ◌≤◌, Some, None, IsTrue, IsFalse, OnOk, OnErr, IfOk, IsErrOf};
ghost use Rattle.cam_base.specs.Causes.{Rose};
ghost use Rattle.cam_disk.specs.Stop.{Untouched};
ghost use Rattle.cam_log.specs.CutOff.{IsCutOff};
ghost use Rattle.cam_log.specs.Moments.{Grows, Stays};
ghost use Rattle.cam_type.specs.declared.Kind.TheVariants as kinds;
ghost use Rattle.cam_node.specs.declared.fault.NodeFault.TheVariants.{DiskFault};
ghost use Rattle.cam_node.specs.Appending.{HasAppended, OpensAfter, OpensAsEither};
ghost use Rattle.cam_node.specs.Calls.{answers, input_of, letters_of, load_of, mail_of, AreSame};
ghost use Rattle.cam_node.specs.Found.{HaltsAt};
ghost use Rattle.cam_node.specs.Halting.{IsStepThrough};
ghost use Rattle.cam_node.specs.Holdings.{holdings, held_after, LeavesOthers};
ghost use Rattle.cam_node.specs.Keeping.{IsHalt, KeepsOn};
ghost use Rattle.cam_node.specs.MayStep.{MayStep};
ghost use Rattle.cam_node.specs.Opened.{MayRead};
ghost use Rattle.cam_node.specs.Refused.{IsNotRefused};

use crate::fault::NodeFault;
use crate::node::Node;
use crate::{Input, Stepped};
use cam_ckpt::CheckpointLog;
use cam_event::Want;
use cam_type::DataType;

impl<L: CheckpointLog> Node<L> {
    /// Takes an input that [`Node::refusal`] allows, applies its rule, and returns the event and its
    /// letters. The node is not halted.
    ///
    /// If memory runs out and the node is not halted, nothing has happened. The node halts if its disk
    /// failed, or had no memory. Then its log may have the event's entry, and no event and no letter is
    /// returned. `DiskFault` comes only if the disk's count of faults rose.
    ///
    /// A call takes an index up to 999,999,999, and a family may be secured with it; a restart takes
    /// none above 499,999,999.
    pub fn step<R: DataType, Q: DataType, C: DataType>(
        &mut self,
        input: &Input,
        register: &mut R,
        queue: &mut Q,
        counter: &mut C,
    ) -> Result<Stepped, NodeFault>
        requires running { IsFalse self.old.log.halted }
        requires free { IsNotRefused (answers self.old.core) input.now }
        requires may { MayStep (answers self.old.core) input.now }
        requires register { R.kind register.old ≡ kinds.Register }
        requires queue { Q.kind queue.old ≡ kinds.Queue }
        requires counter { C.kind counter.old ≡ kinds.Counter }
        ensures step { IfOk result (λ stepped. IsStepThrough self.old.objects
            (answers self.old.core) (answers self.new.core) (input_of self.old.core.number
            input.now)
            (mail_of input.now) (load_of input.now) stepped.event) }
        ensures letters { IfOk result (λ stepped.
            stepped.letters ≡ letters_of (answers self.new.core) stepped.event.sent) }
        // The log keeps each history that it kept, and the event after it.
        ensures keeps { IfOk result (λ stepped. KeepsOn self.old.objects
            (answers self.old.core) (L.listed self.old.log.log)
            (answers self.new.core) (L.listed self.new.log.log)
            (input_of self.old.core.number input.now)
            (mail_of input.now) (load_of input.now) stepped.event) }
        // The log lists the event's entry, or the same as before if the event has no record.
        ensures entry { IfOk result (λ stepped. HasAppended self.old.objects
            (answers self.old.core) (input_of self.old.core.number input.now) (mail_of input.now)
            (load_of input.now) stepped.event (L.listed self.old.log.log) (L.listed self.new.log.log)
            (L.passes self.old.log.log) (L.passes self.new.log.log)) }
        ensures runs { OnOk result (IsFalse self.new.log.halted) }
        ensures same { OnErr result (IsFalse self.new.log.halted
            → AreSame (answers self.old.core) (answers self.new.core)) }
        ensures unchanged { OnErr result (IsFalse self.new.log.halted
            → Stays (L.moment self.old.log.log) (L.moment self.new.log.log)
            (L.opens_since self.old.log.log) (L.opens_since self.new.log.log)
            (L.seen self.old.log.log) (L.seen self.new.log.log)
            (L.faults self.old.log.log) (L.faults self.new.log.log)) }
        ensures not_listed { OnErr result
            (L.listed self.new.log.log ≡ L.listed self.old.log.log) }
        // Whatever a crash leaves of a halted node's disk has the old log, or the old log and the
        // logged part of the event.
        ensures halt { IsTrue (L.tells self.old.log.log) → IsTrue self.new.log.halted
            → IsHalt self.old.objects (answers self.old.core) (L.listed self.old.log.log)
            (input_of self.old.core.number input.now) (mail_of input.now) (load_of input.now)
            (MayRead (L.opens_since self.new.log.log) (L.moment self.new.log.log)) }
        // A halted node remembers what its log may have taken of the event.
        ensures halted_at { IsTrue self.new.log.halted → HaltsAt self.old.objects
            (answers self.old.core) (L.listed self.old.log.log)
            (input_of self.old.core.number input.now) (mail_of input.now) (load_of input.now)
            (answers self.new.core) self.new.halted_at }
        ensures no_halt { IsFalse self.new.log.halted → self.new.halted_at ≡ self.old.halted_at }
        // A crash during the call leaves a log of the old history, or of the old history plus the
        // logged part of the event.
        ensures any_moment { IsTrue (L.tells self.old.log.log)
            → Grows (L.moment self.old.log.log) (L.moment self.new.log.log)
            (L.opens_since self.old.log.log) (L.opens_since self.new.log.log)
            (OpensAsEither self.old.objects (answers self.old.core) (L.listed self.old.log.log)
            (input_of self.old.core.number input.now) (mail_of input.now) (load_of input.now)) }
        // A fault comes because a call of the disk that was done failed, or because the append of an
        // event with a record was cut off. In the second case the log has the logged part of the event
        // exactly if three of its calls were done.
        ensures cut_off { IsErrOf result DiskFault
            → Rose (L.faults_within self.old.log.log) (L.faults_within self.new.log.log)
            ⊎ IsCutOff 4 (L.passes self.old.log.log) (L.passes self.new.log.log)
            (λ calls. IsTrue (L.tells self.old.log.log) → OpensAfter calls self.old.objects
            (answers self.old.core) (L.listed self.old.log.log)
            (input_of self.old.core.number input.now) (mail_of input.now) (load_of input.now)
            (L.reads self.new.log.log)) }
        ensures unbounded { L.passes self.old.log.log ≡ None → L.passes self.new.log.log ≡ None }
        // It halts only if its log must be opened again.
        ensures broken { IsTrue self.new.log.halted → IsTrue (L.broken self.new.log.log) }
        // With no call of the disk left, nothing of it is touched.
        ensures stopped { L.passes self.old.log.log ≡ Some 0
            → Untouched (L.moment self.old.log.log) (L.moment self.new.log.log)
            (L.opens_since self.old.log.log) (L.opens_since self.new.log.log)
            (L.seen self.old.log.log) (L.seen self.new.log.log) }
        ensures number { self.new.core.number ≡ self.old.core.number }
        ensures generation { L.generation self.new.log.log ≡ L.generation self.old.log.log }
        ensures disk_fault { IsErrOf result DiskFault
            → Rose (L.faults self.old.log.log) (L.faults self.new.log.log)
            × IsTrue self.new.log.halted }
        ensures tells { L.tells self.new.log.log ≡ L.tells self.old.log.log }
        ensures not_called { OnErr result (IsFalse self.new.log.halted
            → L.passes self.new.log.log ≡ L.passes self.old.log.log) }
        ensures later { L.faults self.old.log.log ≤ L.faults self.new.log.log }
        ensures faults_within { L.faults_within self.old.log.log ≤ L.faults_within self.new.log.log }
        ensures objects { self.new.objects ≡ self.old.objects }
        // The handed-in server of the object's kind does a call that is performed: it then holds the
        // value of the object. In every other case the servers hold what they held.
        ensures served { IfOk result (λ stepped.
            holdings (R.held register.new) (Q.held queue.new) (C.held counter.new)
            ≡ held_after (answers self.old.core).server.table.site
            (answers self.new.core).server.table.site input.now stepped.event
            (holdings (R.held register.old) (Q.held queue.old) (C.held counter.old))) }
        // After an error too, no server has changed but that of the kind of an object that is called.
        ensures others { LeavesOthers (answers self.old.core).server.table.site input.now
            (holdings (R.held register.old) (Q.held queue.old) (C.held counter.old))
            (holdings (R.held register.new) (Q.held queue.new) (C.held counter.new)) }
        ensures register_stays { R.kind register.new ≡ R.kind register.old }
        ensures queue_stays { Q.kind queue.new ≡ Q.kind queue.old }
        ensures counter_stays { C.kind counter.new ≡ C.kind counter.old }
    {
        match input {
            Input::Letter(id, letter) => self.letter(id, letter, register, queue, counter),
            Input::Request(request) => match &request.want {
                Want::GiveUp(child) => self.give_up(&request.action, child),
                Want::Ask(_) | Want::Call(_, _) | Want::Commit(_) | Want::Abort => self.own(input),
            },
            Input::Begin | Input::Tell(_) | Input::Query(_) => self.own(input),
        }
    }
}
