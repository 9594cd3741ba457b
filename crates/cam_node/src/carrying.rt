//! A plan is carried out: its entry is forced to the log, and its event stands. Where it does not
//! come to that, what went ahead for it is taken back.
ghost use Rattle.std.specs.Prelude.{◌≡◌, ◌⊎◌, ◌≤◌, Some, None, IsTrue, IsFalse, OnOk, OnErr, IfOk, IsErrOf};
ghost use Rattle.cam_base.specs.Causes.{Rose};
ghost use Rattle.cam_disk.specs.Stop.{Untouched};
ghost use Rattle.cam_log.specs.CutOff.{IsCutOff};
ghost use Rattle.cam_log.specs.Moments.{Grows, Stays};
ghost use Rattle.cam_node.specs.declared.fault.NodeFault.TheVariants.{DiskFault};
ghost use Rattle.cam_node.specs.Ahead.{CanForget};
ghost use Rattle.cam_node.specs.Appending.{HasAppended, OpensAfter, OpensAsEither};
ghost use Rattle.cam_node.specs.Calls.{answers, letters_of, AreSame};
ghost use Rattle.cam_node.specs.Found.{HaltsAt};
ghost use Rattle.cam_node.specs.Halting.{IsStepThrough};
ghost use Rattle.cam_node.specs.Holdings.{HasStood};
ghost use Rattle.cam_node.specs.Keeping.{IsHalt, KeepsOn};
ghost use Rattle.cam_node.specs.Opened.{MayRead};
ghost use Rattle.cam_node.specs.Planned.{ForEachInput, MayBeAdded};
ghost use Rattle.cam_node.specs.Standing.{MayStand};
ghost use Rattle.cam_node.specs.Represents.{Node as Parts};

use crate::Stepped;
use crate::call_ahead::Ahead;
use crate::fault::NodeFault;
use crate::node::Node;
use crate::plan::Plan;
use cam_ckpt::CheckpointLog;

impl<L: CheckpointLog> Node<L> {
    /// Carries out a plan. Of whichever input it is the plan: the event is that of the input's
    /// rule, and node and log stand for the longer history. After an error without a halt nothing
    /// has happened, and what went ahead is taken back.
    pub(crate) fn carry_out(
        &mut self,
        plan: Plan,
        ahead: &Option<Ahead>,
    ) -> Result<Stepped, NodeFault>
        requires running { IsFalse self.old.log.halted }
        requires may { MayStand plan self.old.core }
        requires adds { MayBeAdded plan.adds }
        ensures stood { IfOk result (λ stepped. HasStood plan self.old.core.knowing.known
            (answers self.old.core) stepped (answers self.new.core)) }
        ensures step { ForEachInput self.old.objects plan self.old.core.knowing.known
            (answers self.old.core) (λ input mail load before. IfOk result (λ stepped.
            IsStepThrough self.old.objects before (answers self.new.core) input mail load
            stepped.event)) }
        ensures letters { ForEachInput self.old.objects plan self.old.core.knowing.known
            (answers self.old.core) (λ input mail load before. IfOk result (λ stepped.
            stepped.letters ≡ letters_of (answers self.new.core) stepped.event.sent)) }
        ensures keeps { ForEachInput self.old.objects plan self.old.core.knowing.known
            (answers self.old.core) (λ input mail load before. IfOk result (λ stepped.
            KeepsOn self.old.objects before (L.listed self.old.log.log) (answers self.new.core)
            (L.listed self.new.log.log) input mail load stepped.event)) }
        ensures halt { IsTrue (L.tells self.old.log.log) → IsTrue self.new.log.halted
            → ForEachInput self.old.objects plan self.old.core.knowing.known
            (answers self.old.core) (λ input mail load before.
            IsHalt self.old.objects before (L.listed self.old.log.log) input mail load
            (MayRead (L.opens_since self.new.log.log) (L.moment self.new.log.log))) }
        ensures halted_at { IsTrue self.new.log.halted
            → ForEachInput self.old.objects plan self.old.core.knowing.known
            (answers self.old.core) (λ input mail load before.
            HaltsAt self.old.objects before (L.listed self.old.log.log) input mail load
            (answers self.new.core) self.new.halted_at) }
        ensures no_halt { IsFalse self.new.log.halted → self.new.halted_at ≡ self.old.halted_at }
        ensures entry { ForEachInput self.old.objects plan self.old.core.knowing.known
            (answers self.old.core) (λ input mail load before. IfOk result (λ stepped.
            HasAppended self.old.objects before input mail load stepped.event
            (L.listed self.old.log.log) (L.listed self.new.log.log)
            (L.passes self.old.log.log) (L.passes self.new.log.log))) }
        ensures any_moment { IsTrue (L.tells self.old.log.log)
            → ForEachInput self.old.objects plan self.old.core.knowing.known
            (answers self.old.core) (λ input mail load before.
            Grows (L.moment self.old.log.log) (L.moment self.new.log.log)
            (L.opens_since self.old.log.log) (L.opens_since self.new.log.log)
            (OpensAsEither self.old.objects before (L.listed self.old.log.log) input mail load)) }
        ensures cut_off { IsErrOf result DiskFault
            → Rose (L.faults_within self.old.log.log) (L.faults_within self.new.log.log)
            ⊎ IsCutOff 4 (L.passes self.old.log.log) (L.passes self.new.log.log)
            (λ calls. IsTrue (L.tells self.old.log.log) → ForEachInput self.old.objects plan
            self.old.core.knowing.known (answers self.old.core) (λ input mail load before.
            OpensAfter calls self.old.objects before (L.listed self.old.log.log) input mail load
            (L.reads self.new.log.log))) }
        ensures unbounded { L.passes self.old.log.log ≡ None → L.passes self.new.log.log ≡ None }
        ensures broken { IsTrue self.new.log.halted → IsTrue (L.broken self.new.log.log) }
        ensures stopped { L.passes self.old.log.log ≡ Some 0
            → Untouched (L.moment self.old.log.log) (L.moment self.new.log.log)
            (L.opens_since self.old.log.log) (L.opens_since self.new.log.log)
            (L.seen self.old.log.log) (L.seen self.new.log.log) }
        ensures number { self.new.core.number ≡ self.old.core.number }
        ensures generation { L.generation self.new.log.log ≡ L.generation self.old.log.log }
        ensures runs { OnOk result (IsFalse self.new.log.halted) }
        ensures same { (before : Parts) → CanForget before (answers self.old.core) ahead.now
            → OnErr result (IsFalse self.new.log.halted
            → AreSame before (answers self.new.core)) }
        ensures not_listed { OnErr result
            (L.listed self.new.log.log ≡ L.listed self.old.log.log) }
        ensures unchanged { OnErr result (IsFalse self.new.log.halted
            → Stays (L.moment self.old.log.log) (L.moment self.new.log.log)
            (L.opens_since self.old.log.log) (L.opens_since self.new.log.log)
            (L.seen self.old.log.log) (L.seen self.new.log.log)
            (L.faults self.old.log.log) (L.faults self.new.log.log)) }
        ensures tells { L.tells self.new.log.log ≡ L.tells self.old.log.log }
        ensures not_called { OnErr result (IsFalse self.new.log.halted
            → L.passes self.new.log.log ≡ L.passes self.old.log.log) }
        ensures later { L.faults self.old.log.log ≤ L.faults self.new.log.log }
        ensures faults_within { L.faults_within self.old.log.log ≤ L.faults_within self.new.log.log }
        ensures disk_fault { IsErrOf result DiskFault
            → Rose (L.faults self.old.log.log) (L.faults self.new.log.log)
            × IsTrue self.new.log.halted }
        ensures objects { self.new.objects ≡ self.old.objects }
    {
        match self.take(plan) {
            Ok(stepped) => Ok(stepped),
            Err(fault) => {
                self.core.forget(ahead);
                Err(fault)
            }
        }
    }
}
