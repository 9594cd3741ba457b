//! An event is taken: its entry is appended and forced, and then the node takes the event's changes.
ghost use Rattle.std.specs.Prelude.{◌≡◌, ◌⊎◌, ◌≤◌, false, Some, None, IsTrue, IsFalse, OnOk, OnErr, IfOk, IsErrOf, All, ◌++◌, Ok as Opens};
ghost use Rattle.cam_base.specs.Causes.{Rose};
ghost use Rattle.cam_ckpt.specs.Moments.{IsOldOrNew};
ghost use Rattle.cam_disk.specs.Stop.{Untouched};
ghost use Rattle.cam_event.specs.History.{is_empty};
ghost use Rattle.cam_event.specs.Taken.{taken_of};
ghost use Rattle.cam_log.specs.CutOff.{IsCutOff};
ghost use Rattle.cam_log.specs.Moments.{Grows, Stays};
ghost use Rattle.cam_recman.specs.declared.Recovered.{Recovered as Recovery};
ghost use Rattle.cam_recman.specs.Ranges.{AreRecords};
ghost use Rattle.cam_recman.specs.Recovery.{with_records};
ghost use Rattle.cam_recman.specs.Says.{Says};
ghost use Rattle.cam_recman.specs.Versions.{AreOf};
ghost use Rattle.cam_recman.specs.Writable.{IsWritable};
ghost use Rattle.cam_node.specs.declared.fault.NodeFault.TheVariants.{DiskFault};
ghost use Rattle.cam_node.specs.Appending.{listed_after, SpentFor};
ghost use Rattle.cam_node.specs.Calls.{answers};
ghost use Rattle.cam_node.specs.Opened.{IsKnowledge, with_entry_of};
ghost use Rattle.cam_node.specs.Planned.{heard_records, planned_records, MayBeAdded};
ghost use Rattle.cam_node.specs.Plans.{as_list};
ghost use Rattle.cam_node.specs.Standing.{MayStand, Stands};

use crate::Stepped;
use crate::fault::NodeFault;
use crate::found::taken_of;
use crate::knowing::Heard;
use crate::news::news_records;
use crate::node::Node;
use crate::plan::Plan;
use crate::state::Core;
use cam_base::NoMemory;
use cam_ckpt::CheckpointLog;
use cam_recman::{Record, Records};

impl Core {
    /// The entry of an event that heard this, and whose deeds add that.
    #[tactic(auto, using(crate::proofs::AddedRecords::added_version))]
    fn entry_of(&self, heard: &Option<Heard>, added: Option<Record>) -> Result<Records, NoMemory>
        requires { MayBeAdded added }
        ensures exactly { IfOk result (λ records. records
            ≡ heard_records (answers self.now).know.counts heard.now ++ as_list added) }
        ensures writable { IfOk result (λ records. All IsWritable records) }
        ensures version { IfOk result (λ records. AreOf 2 records) }
    {
        let mut records = self.heard_records(heard)?;
        match added {
            None => Ok(records),
            Some(record) => {
                records.push(record)?;
                Ok(records)
            }
        }
    }

    /// The records of what a letter brought.
    fn heard_records(&self, heard: &Option<Heard>) -> Result<Records, NoMemory>
        ensures exactly { IfOk result (λ records. records
            ≡ heard_records (answers self.now).know.counts heard.now) }
        ensures writable { IfOk result (λ records. All IsWritable records) }
        ensures version { IfOk result (λ records. AreOf 2 records) }
    {
        match heard {
            Some(heard) => news_records(self.alloc, &self.knowing.counts(), &heard.news),
            None => Ok(Records::new(self.alloc)),
        }
    }

    /// The event stands, and what is known then is knowledge.
    #[tactic(auto, using(crate::proofs::StandingNumber::stands_number))]
    fn takes(&mut self, plan: Plan) -> Stepped
        requires { MayStand plan self.old }
        ensures stands { Stands plan.change plan.heard self.old.knowing.known
            (answers self.old) (answers self.new) }
        ensures stepped { result ≡ plan.stepped }
        ensures knows { IsKnowledge (answers self.new).know }
        ensures number { self.new.number ≡ self.old.number }
    {
        let stepped = self.stand(plan);
        self.knowing.is_knowledge();
        stepped
    }
}

impl<L: CheckpointLog> Node<L> {
    /// Appends the entry of an event and forces it; then the node takes the event's changes. If the
    /// node halts, its log may have the entry, and its parts may have the changes of an event that is
    /// not returned. After an error without a halt nothing has happened.
    #[tactic(auto, using(crate::proofs::TakenMoments::some_records))]
    pub(crate) fn take(&mut self, plan: Plan) -> Result<Stepped, NodeFault>
        requires running { IsFalse self.old.log.halted }
        requires may { MayStand plan self.old.core }
        requires adds { MayBeAdded plan.adds }
        ensures stepped { IfOk result (λ stepped. stepped ≡ plan.stepped) }
        ensures stands { OnOk result (Stands plan.change plan.heard self.old.core.knowing.known
            (answers self.old.core) (answers self.new.core)) }
        ensures knows { OnOk result (IsKnowledge (answers self.new.core).know) }
        ensures runs { OnOk result (IsFalse self.new.log.halted) }
        ensures halted_stands { IsTrue self.new.log.halted
            → Stands plan.change plan.heard self.old.core.knowing.known
            (answers self.old.core) (answers self.new.core) }
        ensures halted_knows { IsTrue self.new.log.halted → IsKnowledge (answers
            self.new.core).know }
        ensures core { OnErr result (IsFalse self.new.log.halted → self.new.core ≡ self.old.core) }
        ensures halted_at { IsTrue self.new.log.halted
            → self.new.halted_at ≡ Some (taken_of plan.stepped.event) }
        ensures no_halt { IsFalse self.new.log.halted → self.new.halted_at ≡ self.old.halted_at }
        ensures says { (r : Recovery) → Says (L.listed self.old.log.log) r
            → OnOk result (Says (L.listed self.new.log.log) (with_records r (planned_records
            (answers self.old.core).know.counts plan))) }
        ensures range { OnOk result (AreRecords (planned_records (answers
            self.old.core).know.counts plan)) }
        ensures halted_range { IsTrue self.new.log.halted → AreRecords (planned_records (answers
            self.old.core).know.counts plan) }
        ensures appended { OnOk result (L.listed self.new.log.log
            ≡ with_entry_of (L.listed self.old.log.log) (planned_records (answers
            self.old.core).know.counts plan)) }
        ensures spent { OnOk result (SpentFor (planned_records (answers
            self.old.core).know.counts plan) (L.passes self.old.log.log)
            (L.passes self.new.log.log)) }
        ensures cut_off { IsErrOf result DiskFault
            → Rose (L.faults_within self.old.log.log) (L.faults_within self.new.log.log)
            ⊎ IsCutOff 4 (L.passes self.old.log.log) (L.passes self.new.log.log)
            (λ calls. IsTrue (L.tells self.old.log.log) → L.reads self.new.log.log
            ≡ Opens (listed_after calls (L.listed self.old.log.log) (planned_records (answers
            self.old.core).know.counts plan))) }
        ensures some { IsErrOf result DiskFault → is_empty (planned_records (answers
            self.old.core).know.counts plan) ≡ false }
        ensures unbounded { L.passes self.old.log.log ≡ None → L.passes self.new.log.log ≡ None }
        ensures broken { IsTrue self.new.log.halted → IsTrue (L.broken self.new.log.log) }
        ensures stopped { L.passes self.old.log.log ≡ Some 0
            → Untouched (L.moment self.old.log.log) (L.moment self.new.log.log)
            (L.opens_since self.old.log.log) (L.opens_since self.new.log.log)
            (L.seen self.old.log.log) (L.seen self.new.log.log) }
        ensures number { self.new.core.number ≡ self.old.core.number }
        ensures generation { L.generation self.new.log.log ≡ L.generation self.old.log.log }
        ensures halted_version { IsTrue self.new.log.halted → AreOf 2 (planned_records (answers
            self.old.core).know.counts plan) }
        ensures any_moment { IsTrue (L.tells self.old.log.log)
            → Grows (L.moment self.old.log.log) (L.moment self.new.log.log)
            (L.opens_since self.old.log.log) (L.opens_since self.new.log.log)
            (IsOldOrNew (L.listed self.old.log.log)
            (with_entry_of (L.listed self.old.log.log) (planned_records (answers
            self.old.core).know.counts plan))) }
        ensures not_listed { OnErr result
            (L.listed self.new.log.log ≡ L.listed self.old.log.log) }
        ensures unchanged { OnErr result (IsFalse self.new.log.halted
            → Stays (L.moment self.old.log.log) (L.moment self.new.log.log)
            (L.opens_since self.old.log.log) (L.opens_since self.new.log.log)
            (L.seen self.old.log.log) (L.seen self.new.log.log)
            (L.faults self.old.log.log) (L.faults self.new.log.log)) }
        ensures tells { L.tells self.new.log.log ≡ L.tells self.old.log.log }
        ensures not_called { OnErr result (IsFalse self.new.log.halted
            → L.passes self.new.log.log ≡ L.passes self.old.log.log) }
        ensures later { L.faults self.old.log.log ≤ L.faults self.new.log.log }
        ensures faults_within { L.faults_within self.old.log.log ≤ L.faults_within self.new.log.log }
        ensures disk_fault { IsErrOf result DiskFault
            → Rose (L.faults self.old.log.log) (L.faults self.new.log.log)
            × IsTrue self.new.log.halted }
        ensures objects { self.new.objects ≡ self.old.objects }
    {
        let mut plan = plan;
        let added = plan.adds.take();
        let records = self.core.entry_of(&plan.heard, added)?;
        match self.log.append(&records) {
            Ok(()) => Ok(self.core.takes(plan)),
            Err(fault) => {
                if self.log.is_halted() {
                    let untold = self.core.takes(plan);
                    self.halted_at = Some(taken_of(untold.event));
                }
                Err(fault)
            }
        }
    }
}
