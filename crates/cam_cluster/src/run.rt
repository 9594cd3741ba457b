//! The run of a whole script: its lines one after another, over a disk for each of its nodes.
ghost use Rattle.std.specs.Prelude.{◌≡◌, ◌≤◌, [], IfErr, IfOk, OnErr, OnOk, length, vec_capacity, vec_len};
ghost use Rattle.cam_script.specs.declared.Script.{Script as ScriptFields};
ghost use Rattle.cam_script.specs.Law.{IsScript};
ghost use Rattle.cam_cluster.specs.Disks.{AreLogs, MayReadDisk};
ghost use Rattle.cam_cluster.specs.HandedBack.{AreHandedBack, AreLater, HasFailed, NamesFailed};
ghost use Rattle.cam_cluster.specs.Failing.{DisksGoOn, FailedIn, IsOfKnown};
ghost use Rattle.cam_cluster.specs.Founding.{before_first};
ghost use Rattle.cam_cluster.specs.WholeRuns.{HasTakenLines, HasTakenNext, IsNextOfRun, IsRunWithLogs};

use crate::cluster::{AsCluster, Cluster};
use crate::fault::{ClusterFault, RunFault};
use crate::founding::take_out;
use crate::lines::{AsLines, Lines};
use crate::servers::Servers;
use crate::telling::TellingLog;
use cam_base::Sequence;
use cam_ckpt::{CheckpointLog, Ckpt};
use cam_disk::{StopDisk, TellingDisk};
use cam_event::RunRecord;
use cam_node::Node;
use cam_script::{Script, Step};
use cam_type::DataType;
use std::alloc::Global;

/// A run that is over: what it gives, and its nodes.
#[derive(Drop)]
struct Ended<L: CheckpointLog> {
    record: RunRecord,
    nodes: Vec<Node<L>>,
}

impl<D: TellingDisk> Cluster<Ckpt<StopDisk<D>>> {
    /// The record of the lines so far; as many disks are back in their list. It takes no memory.
    fn end(self, disks: &mut Vec<D>) -> RunRecord
        requires none { disks.old.items ≡ [] }
        requires room { vec_len self.course.lines.works.nodes ≤ vec_capacity disks.old }
        ensures record { (script : ScriptFields) → HasTakenLines script (length script.steps)
            (⟦<Lines<Ckpt<StopDisk<D>>> as AsLines>⟧.fields self.course.lines)
            (⟦<Lines<Ckpt<StopDisk<D>>> as AsLines>⟧.may_read self.course.lines)
            self.course.workers
            → IsRunWithLogs script (FailedIn self.course.lines.works.failed)
            (MayReadDisk D.tells D.moment D.left_since disks.new.items) result }
        // Each tells what it holds exactly if the node's log did, and no count of faults fell.
        ensures later { AreLater (λ n. n.tells) (λ n. n.failures) D.tells D.faults
            (⟦<Lines<Ckpt<StopDisk<D>>> as AsLines>⟧.fields self.course.lines).works.nodes
            disks.new.items }
        ensures count { length disks.new.items ≡ length self.course.lines.works.nodes.items }
        ensures logs { AreLogs D.tells D.moment D.left_since disks.new.items }
        ensures capacity { vec_capacity disks.old ≤ vec_capacity disks.new }
    {
        let ended = self.into_ended();
        let mut nodes = ended.nodes;
        take_out(&mut nodes, disks);
        ended.record
    }
}

impl<L: TellingLog> Cluster<L> {
    /// Takes the next line of the script, which may be refused. It fails if the run has to end in it.
    fn take_next<R: DataType, Q: DataType, C: DataType>(
        &mut self,
        script: &Script,
        step: &Step,
        servers: &mut Servers<R, Q, C>,
    ) -> Result<(), RunFault>
        requires next { IsNextOfRun script.now step.now
            (⟦<Lines<L> as AsLines>⟧.fields self.old.course.lines)
            (⟦<Lines<L> as AsLines>⟧.may_read self.old.course.lines) self.old.course.workers }
        ensures disks { DisksGoOn (⟦<Lines<L> as AsLines>⟧.fields self.old.course.lines).works
            (⟦<Lines<L> as AsLines>⟧.fields self.new.course.lines).works }
        ensures as_many { length self.new.course.lines.works.nodes.items
            ≡ length self.old.course.lines.works.nodes.items }
        ensures cause { IfErr result (IsOfKnown self.new.course.lines.works.failed) }
        ensures taken { OnOk result (HasTakenNext script.now step.now
            (⟦<Lines<L> as AsLines>⟧.fields self.old.course.lines)
            (⟦<Lines<L> as AsLines>⟧.may_read self.old.course.lines) self.old.course.workers
            (⟦<Lines<L> as AsLines>⟧.fields self.new.course.lines)
            (⟦<Lines<L> as AsLines>⟧.may_read self.new.course.lines) self.new.course.workers) }
    {
        match self.line(script, step, servers) {
            Ok(_) => Ok(()),
            Err(ClusterFault::Refused(_)) => Ok(()),
            Err(ClusterFault::Ended(fault)) => Err(fault),
        }
    }

    /// Takes all lines of the script, of which none is taken yet. It fails as soon as the run has to end.
    fn take_all<R: DataType, Q: DataType, C: DataType>(
        &mut self,
        script: &Script,
        servers: &mut Servers<R, Q, C>,
    ) -> Result<(), RunFault>
        requires before_first { ⟦<Cluster<L> as AsCluster>⟧.stands self.old (before_first script.now) }
        ensures disks { DisksGoOn (⟦<Lines<L> as AsLines>⟧.fields self.old.course.lines).works
            (⟦<Lines<L> as AsLines>⟧.fields self.new.course.lines).works }
        ensures as_many { length self.new.course.lines.works.nodes.items
            ≡ length self.old.course.lines.works.nodes.items }
        ensures cause { IfErr result (IsOfKnown self.new.course.lines.works.failed) }
        ensures all { OnOk result (HasTakenLines script.now (length script.now.steps)
            (⟦<Lines<L> as AsLines>⟧.fields self.new.course.lines)
            (⟦<Lines<L> as AsLines>⟧.may_read self.new.course.lines) self.new.course.workers) }
    {
        for step in script.steps.as_slice() {
            self.take_next(script, step, servers)?;
        }
        Ok(())
    }

    /// The events and the marks of the lines so far, and the nodes. It takes no memory.
    fn into_ended(self) -> Ended<L>
        ensures record { (script : ScriptFields) → HasTakenLines script (length script.steps)
            (⟦<Lines<L> as AsLines>⟧.fields self.course.lines)
            (⟦<Lines<L> as AsLines>⟧.may_read self.course.lines) self.course.workers
            → IsRunWithLogs script (FailedIn self.course.lines.works.failed)
            (⟦<Lines<L> as AsLines>⟧.may_read self.course.lines) result.record }
        ensures nodes { result.nodes ≡ self.course.lines.works.nodes }
    {
        let works = self.course.lines.works;
        Ended {
            record: RunRecord {
                trace: works.events.into_trace(),
                marks: Sequence::from_vec(works.marks),
            },
            nodes: works.nodes,
        }
    }
}

/// Runs a whole script, each node over the disk at its place, which is formatted, whatever it held.
/// A refused line leaves its mark, and the run goes on. It also goes on if a node halts: because a
/// line has stopped its disk, or because its disk failed by itself. It returns the record of the run
/// of the script with these halts. Those of a node whose disk did not fail are just the ones that
/// its stop lines make; if no disk failed, the run is the one run of the script. However the run
/// ends, as many disks are back in their list. If it returns a record, whatever a crash then leaves
/// of a disk is a log that keeps the node's history of the run; the log of a halted node may also
/// have the event of the halt.
///
/// The servers do the operations of its objects. A disk has failed if its count of faults rose. How
/// often it had failed before does not matter, except at the end of the count's type. The run ends
/// with `DiskFault` only if that disk failed: while it was formatted, or in the run, and then a
/// restart of its node failed. It ends with `NoMemory` if memory ran out.
pub fn run_script<D: TellingDisk, R: DataType, Q: DataType, C: DataType>(
    alloc: Global,
    script: &Script,
    disks: &mut Vec<D>,
    servers: &mut Servers<R, Q, C>,
) -> Result<RunRecord, RunFault>
    requires script { IsScript script.now }
    requires one_each { length disks.old.items ≡ script.now.nodes }
    ensures run { IfOk result (IsRunWithLogs script.now
        (λ s. HasFailed D.faults D.faults s disks.old.items disks.new.items)
        (MayReadDisk D.tells D.moment D.left_since disks.new.items)) }
    ensures disks { AreHandedBack D.tells D.faults disks.old.items disks.new.items }
    ensures logs { OnOk result (AreLogs D.tells D.moment D.left_since disks.new.items) }
    // A disk is named only if it failed by itself in the run.
    ensures cause { IfErr result (NamesFailed D.faults disks.old.items disks.new.items) }
    // The list keeps its room.
    ensures capacity { vec_capacity disks.old ≤ vec_capacity disks.new }
{
    let mut cluster = Cluster::new(alloc, script, disks)?;
    let taken = cluster.take_all(script, servers);
    let record = cluster.end(disks);
    match taken {
        Ok(()) => Ok(record),
        Err(fault) => Err(fault),
    }
}
