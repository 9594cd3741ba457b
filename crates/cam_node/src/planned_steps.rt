//! Steps whose events may have an entry: a letter comes, or an action gives up a child. The event is
//! planned, and the plan carried out.
ghost use Rattle.std.specs.Prelude.{◌≡◌, ◌⊎◌, ◌≤◌, Some, None, IsTrue, IsFalse, OnOk, OnErr, IfOk, IsErrOf};
ghost use Rattle.cam_base.specs.Causes.{Rose};
ghost use Rattle.cam_comman.specs.Letters.{load_on};
ghost use Rattle.cam_event.specs.Inputs.{Receives};
ghost use Rattle.cam_event.specs.Loads.{no_load};
ghost use Rattle.cam_event.specs.declared.Want.TheVariants as wants;
ghost use Rattle.cam_disk.specs.Stop.{Untouched};
ghost use Rattle.cam_log.specs.CutOff.{IsCutOff};
ghost use Rattle.cam_log.specs.Moments.{Grows, Stays};
ghost use Rattle.cam_tranman.specs.Calls.{IsFree};
ghost use Rattle.cam_type.specs.declared.Kind.TheVariants as kinds;
ghost use Rattle.cam_node.specs.declared.fault.NodeFault.TheVariants.{DiskFault};
ghost use Rattle.cam_node.specs.Appending.{HasAppended, OpensAfter, OpensAsEither};
ghost use Rattle.cam_node.specs.Calls.{answers, letters_of, mail_on, AreSame};
ghost use Rattle.cam_node.specs.Found.{HaltsAt};
ghost use Rattle.cam_node.specs.Holdings.{holdings, held_after_letter, LeavesOthersOf};
ghost use Rattle.cam_node.specs.GivingUp.{giving_up};
ghost use Rattle.cam_node.specs.Halting.{IsStepThrough};
ghost use Rattle.cam_node.specs.Keeping.{IsHalt, KeepsOn};
ghost use Rattle.cam_node.specs.MayStep.{MayCome};
ghost use Rattle.cam_node.specs.Opened.{MayRead};

use crate::Stepped;
use crate::call_arrives::Called;
use crate::fault::NodeFault;
use crate::node::Node;
use cam_ckpt::CheckpointLog;
use cam_event::{Body, Letter, LetterId};
use cam_names::Name;
use cam_type::DataType;

impl<L: CheckpointLog> Node<L> {
    /// A letter comes. A call may go ahead of the news that came with it;
    /// where its event is not taken, what was done with it is taken back.
    pub(crate) fn letter<R: DataType, Q: DataType, C: DataType>(
        &mut self,
        id: &LetterId,
        letter: &Letter,
        register: &mut R,
        queue: &mut Q,
        counter: &mut C,
    ) -> Result<Stepped, NodeFault>
        requires running { IsFalse self.old.log.halted }
        requires may { MayCome (answers self.old.core) letter.now }
        requires register { R.kind register.old ≡ kinds.Register }
        requires queue { Q.kind queue.old ≡ kinds.Queue }
        requires counter { C.kind counter.old ≡ kinds.Counter }
        ensures step { IfOk result (λ stepped. IsStepThrough self.old.objects
            (answers self.old.core) (answers self.new.core)
            (Receives id.now) (Some (mail_on letter.now)) (load_on letter.now) stepped.event) }
        ensures letters { IfOk result (λ stepped.
            stepped.letters ≡ letters_of (answers self.new.core) stepped.event.sent) }
        ensures keeps { IfOk result (λ stepped. KeepsOn self.old.objects
            (answers self.old.core) (L.listed self.old.log.log)
            (answers self.new.core) (L.listed self.new.log.log)
            (Receives id.now) (Some (mail_on letter.now)) (load_on letter.now) stepped.event) }
        ensures entry { IfOk result (λ stepped. HasAppended self.old.objects
            (answers self.old.core) (Receives id.now) (Some (mail_on letter.now))
            (load_on letter.now) stepped.event (L.listed self.old.log.log) (L.listed self.new.log.log)
            (L.passes self.old.log.log) (L.passes self.new.log.log)) }
        ensures any_moment { IsTrue (L.tells self.old.log.log)
            → Grows (L.moment self.old.log.log) (L.moment self.new.log.log)
            (L.opens_since self.old.log.log) (L.opens_since self.new.log.log)
            (OpensAsEither self.old.objects (answers self.old.core) (L.listed self.old.log.log)
            (Receives id.now) (Some (mail_on letter.now)) (load_on letter.now)) }
        ensures cut_off { IsErrOf result DiskFault
            → Rose (L.faults_within self.old.log.log) (L.faults_within self.new.log.log)
            ⊎ IsCutOff 4 (L.passes self.old.log.log) (L.passes self.new.log.log)
            (λ calls. IsTrue (L.tells self.old.log.log) → OpensAfter calls self.old.objects
            (answers self.old.core) (L.listed self.old.log.log)
            (Receives id.now) (Some (mail_on letter.now)) (load_on letter.now)
            (L.reads self.new.log.log)) }
        ensures unbounded { L.passes self.old.log.log ≡ None → L.passes self.new.log.log ≡ None }
        ensures broken { IsTrue self.new.log.halted → IsTrue (L.broken self.new.log.log) }
        ensures stopped { L.passes self.old.log.log ≡ Some 0
            → Untouched (L.moment self.old.log.log) (L.moment self.new.log.log)
            (L.opens_since self.old.log.log) (L.opens_since self.new.log.log)
            (L.seen self.old.log.log) (L.seen self.new.log.log) }
        ensures number { self.new.core.number ≡ self.old.core.number }
        ensures generation { L.generation self.new.log.log ≡ L.generation self.old.log.log }
        ensures runs { OnOk result (IsFalse self.new.log.halted) }
        ensures same { OnErr result (IsFalse self.new.log.halted
            → AreSame (answers self.old.core) (answers self.new.core)) }
        ensures halt { IsTrue (L.tells self.old.log.log) → IsTrue self.new.log.halted
            → IsHalt self.old.objects (answers self.old.core) (L.listed self.old.log.log)
            (Receives id.now) (Some (mail_on letter.now)) (load_on letter.now)
            (MayRead (L.opens_since self.new.log.log) (L.moment self.new.log.log)) }
        ensures halted_at { IsTrue self.new.log.halted → HaltsAt self.old.objects
            (answers self.old.core) (L.listed self.old.log.log)
            (Receives id.now) (Some (mail_on letter.now)) (load_on letter.now)
            (answers self.new.core) self.new.halted_at }
        ensures no_halt { IsFalse self.new.log.halted → self.new.halted_at ≡ self.old.halted_at }
        ensures not_listed { OnErr result
            (L.listed self.new.log.log ≡ L.listed self.old.log.log) }
        ensures unchanged { OnErr result (IsFalse self.new.log.halted
            → Stays (L.moment self.old.log.log) (L.moment self.new.log.log)
            (L.opens_since self.old.log.log) (L.opens_since self.new.log.log)
            (L.seen self.old.log.log) (L.seen self.new.log.log)
            (L.faults self.old.log.log) (L.faults self.new.log.log)) }
        ensures tells { L.tells self.new.log.log ≡ L.tells self.old.log.log }
        ensures not_called { OnErr result (IsFalse self.new.log.halted
            → L.passes self.new.log.log ≡ L.passes self.old.log.log) }
        ensures later { L.faults self.old.log.log ≤ L.faults self.new.log.log }
        ensures faults_within { L.faults_within self.old.log.log ≤ L.faults_within self.new.log.log }
        ensures disk_fault { IsErrOf result DiskFault
            → Rose (L.faults self.old.log.log) (L.faults self.new.log.log)
            × IsTrue self.new.log.halted }
        ensures objects { self.new.objects ≡ self.old.objects }
        ensures served { IfOk result (λ stepped.
            holdings (R.held register.new) (Q.held queue.new) (C.held counter.new)
            ≡ held_after_letter (answers self.old.core).server.table.site
            (answers self.new.core).server.table.site letter.now.body stepped.event.deeds
            (holdings (R.held register.old) (Q.held queue.old) (C.held counter.old))) }
        ensures others { LeavesOthersOf (answers self.old.core).server.table.site letter.now.body
            (holdings (R.held register.old) (Q.held queue.old) (C.held counter.old))
            (holdings (R.held register.new) (Q.held queue.new) (C.held counter.new)) }
        ensures register_stays { R.kind register.new ≡ R.kind register.old }
        ensures queue_stays { Q.kind queue.new ≡ Q.kind queue.old }
        ensures counter_stays { C.kind counter.new ≡ C.kind counter.old }
    {
        match &letter.body {
            Body::Call {
                action,
                number,
                object,
                op,
                count,
                deps,
            } => {
                let call = Called {
                    action: *action,
                    number: *number,
                    object: *object,
                    op: *op,
                    count: *count,
                    deps: *deps,
                };
                let plan = self
                    .core
                    .call_of_kind(id, letter, &call, register, queue, counter)?;
                let ahead = plan.change.ahead();
                self.carry_out(plan, &ahead)
            }
            _ => {
                let plan = self.core.comes(id, letter)?;
                self.carry_out(plan, &None)
            }
        }
    }

    /// An action whose home the node is gives up a child. Nothing stands against the request.
    pub(crate) fn give_up(&mut self, action: &Name, child: &Name) -> Result<Stepped, NodeFault>
        requires running { IsFalse self.old.log.halted }
        requires free { IsFree (answers self.old.core).actions action.now
            (wants.GiveUp child.now) }
        ensures step { IfOk result (λ stepped. IsStepThrough self.old.objects
            (answers self.old.core) (answers self.new.core)
            (giving_up action.now child.now) None no_load stepped.event) }
        ensures letters { IfOk result (λ stepped.
            stepped.letters ≡ letters_of (answers self.new.core) stepped.event.sent) }
        ensures keeps { IfOk result (λ stepped. KeepsOn self.old.objects
            (answers self.old.core) (L.listed self.old.log.log)
            (answers self.new.core) (L.listed self.new.log.log)
            (giving_up action.now child.now) None no_load stepped.event) }
        ensures entry { IfOk result (λ stepped. HasAppended self.old.objects
            (answers self.old.core) (giving_up action.now child.now) None
            no_load stepped.event (L.listed self.old.log.log) (L.listed self.new.log.log)
            (L.passes self.old.log.log) (L.passes self.new.log.log)) }
        ensures any_moment { IsTrue (L.tells self.old.log.log)
            → Grows (L.moment self.old.log.log) (L.moment self.new.log.log)
            (L.opens_since self.old.log.log) (L.opens_since self.new.log.log)
            (OpensAsEither self.old.objects (answers self.old.core) (L.listed self.old.log.log)
            (giving_up action.now child.now) None no_load) }
        ensures cut_off { IsErrOf result DiskFault
            → Rose (L.faults_within self.old.log.log) (L.faults_within self.new.log.log)
            ⊎ IsCutOff 4 (L.passes self.old.log.log) (L.passes self.new.log.log)
            (λ calls. IsTrue (L.tells self.old.log.log) → OpensAfter calls self.old.objects
            (answers self.old.core) (L.listed self.old.log.log)
            (giving_up action.now child.now) None no_load (L.reads self.new.log.log)) }
        ensures unbounded { L.passes self.old.log.log ≡ None → L.passes self.new.log.log ≡ None }
        ensures broken { IsTrue self.new.log.halted → IsTrue (L.broken self.new.log.log) }
        ensures stopped { L.passes self.old.log.log ≡ Some 0
            → Untouched (L.moment self.old.log.log) (L.moment self.new.log.log)
            (L.opens_since self.old.log.log) (L.opens_since self.new.log.log)
            (L.seen self.old.log.log) (L.seen self.new.log.log) }
        ensures number { self.new.core.number ≡ self.old.core.number }
        ensures generation { L.generation self.new.log.log ≡ L.generation self.old.log.log }
        ensures runs { OnOk result (IsFalse self.new.log.halted) }
        ensures same { OnErr result (IsFalse self.new.log.halted
            → AreSame (answers self.old.core) (answers self.new.core)) }
        ensures halt { IsTrue (L.tells self.old.log.log) → IsTrue self.new.log.halted
            → IsHalt self.old.objects (answers self.old.core) (L.listed self.old.log.log)
            (giving_up action.now child.now) None no_load
            (MayRead (L.opens_since self.new.log.log) (L.moment self.new.log.log)) }
        ensures halted_at { IsTrue self.new.log.halted → HaltsAt self.old.objects
            (answers self.old.core) (L.listed self.old.log.log)
            (giving_up action.now child.now) None no_load
            (answers self.new.core) self.new.halted_at }
        ensures no_halt { IsFalse self.new.log.halted → self.new.halted_at ≡ self.old.halted_at }
        ensures not_listed { OnErr result
            (L.listed self.new.log.log ≡ L.listed self.old.log.log) }
        ensures unchanged { OnErr result (IsFalse self.new.log.halted
            → Stays (L.moment self.old.log.log) (L.moment self.new.log.log)
            (L.opens_since self.old.log.log) (L.opens_since self.new.log.log)
            (L.seen self.old.log.log) (L.seen self.new.log.log)
            (L.faults self.old.log.log) (L.faults self.new.log.log)) }
        ensures tells { L.tells self.new.log.log ≡ L.tells self.old.log.log }
        ensures not_called { OnErr result (IsFalse self.new.log.halted
            → L.passes self.new.log.log ≡ L.passes self.old.log.log) }
        ensures later { L.faults self.old.log.log ≤ L.faults self.new.log.log }
        ensures faults_within { L.faults_within self.old.log.log ≤ L.faults_within self.new.log.log }
        ensures disk_fault { IsErrOf result DiskFault
            → Rose (L.faults self.old.log.log) (L.faults self.new.log.log)
            × IsTrue self.new.log.halted }
        ensures objects { self.new.objects ≡ self.old.objects }
    {
        let plan = self.core.give_up(action, child)?;
        self.carry_out(plan, &None)
    }
}
