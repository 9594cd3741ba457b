//! Which data server does a call: that of the object's kind.
ghost use Rattle.std.specs.Prelude.{◌≡◌, ◌≤◌, List, None, IfOk, IsFalse, OnErr};
ghost use Rattle.cam_type.specs.declared.Kind.TheVariants as kinds;
ghost use Rattle.cam_type.specs.declared.ObjectDecl.{ObjectDecl};
ghost use Rattle.cam_type.specs.Objects.{start_of};
ghost use Rattle.cam_type.specs.Table.{kind_of};
ghost use Rattle.cam_node.specs.Ahead.{MayBeForgotten};
ghost use Rattle.cam_node.specs.Calls.{answers, AreSame};
ghost use Rattle.cam_node.specs.Holdings.{holdings, performs, HasChanged, HoldThen};
ghost use Rattle.cam_node.specs.Plans.{IsPlanFor};
ghost use Rattle.cam_node.specs.Standing.{MayStand};
ghost use Rattle.cam_node.specs.Served.{asked_of, IsCallOn, IsElsewhere};

use crate::call_arrives::Called;
use crate::did::Doing;
use crate::plan::Plan;
use crate::state::Core;
use cam_base::NoMemory;
use cam_event::{Letter, LetterId, Note};
use cam_type::{DataType, Kind};

impl Core {
    /// A letter Call of a node, 1 to 8, comes: the event that may stand. The handed-in server of
    /// the object's kind does it. The next index at the site is at most 999,999,999. It fails where
    /// memory runs out, and what is answered is then the same. Where the event does not come to
    /// stand what went ahead has to be taken back (`forgotten`).
    pub(crate) fn call_of_kind<R: DataType, Q: DataType, C: DataType>(
        &mut self,
        id: &LetterId,
        letter: &Letter,
        call: &Called,
        register: &mut R,
        queue: &mut Q,
        counter: &mut C,
    ) -> Result<Plan, NoMemory>
        requires from { (1 ≤ letter.now.from) × (letter.now.from ≤ 8) }
        requires call { IsCallOn letter.now (asked_of call.now) }
        requires index { (answers self.old).server.table.site.next ≤ 999999999 }
        requires register { R.kind register.old ≡ kinds.Register }
        requires queue { Q.kind queue.old ≡ kinds.Queue }
        requires counter { C.kind counter.old ≡ kinds.Counter }
        ensures err { OnErr result (AreSame (answers self.old) (answers self.new)) }
        ensures forgotten { IfOk result (λ plan.
            MayBeForgotten (answers self.old) (answers self.new) plan.change) }
        ensures know { (answers self.new).know ≡ (answers self.old).know }
        ensures number { self.new.number ≡ self.old.number }
        ensures plan { (objects : List ObjectDecl) → IfOk result (λ plan.
            IsPlanFor objects id.now letter.now self.old self.new plan) }
        ensures may { IfOk result (λ plan. MayStand plan self.new) }
        ensures adds { IfOk result (λ plan. plan.adds ≡ None) }
        ensures held { IfOk result (λ plan. HoldThen
            (kind_of (start_of (answers self.old).server.table.site.objects call.now.object))
            call.now.object plan self.new.knowing.known (answers self.new)
            (holdings (R.held register.old) (Q.held queue.old) (C.held counter.old))
            (holdings (R.held register.new) (Q.held queue.new) (C.held counter.new))) }
        ensures others { HasChanged
            (kind_of (start_of (answers self.old).server.table.site.objects call.now.object))
            (holdings (R.held register.old) (Q.held queue.old) (C.held counter.old))
            (holdings (R.held register.new) (Q.held queue.new) (C.held counter.new)) }
        ensures register_stays { R.kind register.new ≡ R.kind register.old }
        ensures queue_stays { Q.kind queue.new ≡ Q.kind queue.old }
        ensures counter_stays { C.kind counter.new ≡ C.kind counter.old }
    {
        let table = self.server.table();
        if !table.takes(call.object, &call.op) {
            return self.call_elsewhere(id, letter);
        }
        match table.kind(call.object) {
            Kind::Register => self.call_comes(id, letter, call, register),
            Kind::Queue => self.call_comes(id, letter, call, queue),
            Kind::Counter => self.call_comes(id, letter, call, counter),
        }
    }

    /// A call comes whose object does not stand here, or does not fit its op. No letter that may be
    /// put to the node is such: what it tells is learnt, and nothing else happens.
    fn call_elsewhere(&mut self, id: &LetterId, letter: &Letter) -> Result<Plan, NoMemory>
        requires from { (1 ≤ letter.now.from) × (letter.now.from ≤ 8) }
        requires elsewhere { IsElsewhere letter.now (answers self.old).server.table.site }
        ensures same { AreSame (answers self.old) (answers self.new) }
        ensures forgotten { IfOk result (λ plan.
            MayBeForgotten (answers self.old) (answers self.new) plan.change) }
        ensures plan { (objects : List ObjectDecl) → IfOk result (λ plan.
            IsPlanFor objects id.now letter.now self.old self.new plan) }
        ensures may { IfOk result (λ plan. MayStand plan self.new) }
        ensures adds { IfOk result (λ plan. plan.adds ≡ None) }
        ensures quiet { IfOk result (λ plan. IsFalse (performs plan.stepped.event.deeds)) }
    {
        let learnt = self.receive(letter)?;
        self.planned(id, learnt, Doing::nothing_but(self.alloc, &Note::Plain))
    }
}
