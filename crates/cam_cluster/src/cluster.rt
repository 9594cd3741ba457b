//! A cluster: the nodes of a script, each over a disk, which takes the lines of the script one by one. What a line more makes of it,
//! and what it tells after each, is defined in `specs/Clusters`.
ghost use Rattle.std.specs.Prelude.{◌≡◌, ◌≤◌, [], IfErr, IfOk, OnErr, OnOk, length, vec_capacity};
ghost use Rattle.cam_script.specs.declared.Script.{Script as ScriptFields};
ghost use Rattle.cam_script.specs.Law.{IsScript};
ghost use Rattle.cam_cluster.specs.Between.{KeepsBetween};
ghost use Rattle.cam_cluster.specs.Clusters.{IsEndedBy, IsFirstHalted, IsLine, IsNextLine, Tells, ended_by};
ghost use Rattle.cam_cluster.specs.declared.works.failing.Failed.{Failed as FailedFields};
ghost use Rattle.cam_cluster.specs.Disks.{AreLogs, MayReadDisk};
ghost use Rattle.cam_cluster.specs.Failing.{DisksGoOn, IsOfKnown, nothing_failed};
ghost use Rattle.cam_cluster.specs.Founding.{before_first};
ghost use Rattle.cam_cluster.specs.HandedBack.{AreHandedBack, AreLater, NamesFailed};
ghost use Rattle.cam_cluster.specs.Seen.{Seen};
ghost use Rattle.cam_cluster.specs.Works.{MayGoOn};

use crate::LineFault;
use crate::course::{Course, CourseFault};
use crate::fault::{ClusterFault, RunFault};
use crate::founding::take_out;
use crate::lines::{AsLines, Lines};
use crate::servers::Servers;
use crate::telling::TellingLog;
use crate::workers::Workers;
use crate::works::is_halted;
use cam_bytes::WireFault;
use cam_ckpt::{CheckpointLog, Ckpt};
use cam_disk::{StopDisk, TellingDisk};
use cam_event::{Event, Mark};
use cam_script::{Script, Step};
use cam_type::DataType;
use std::alloc::Global;

/// The nodes of a script over their logs, after some of its lines.
#[derive(Drop)]
pub struct Cluster<L: CheckpointLog> {
    pub(crate) course: Course<L>,
}

/// What a line came to that led on.
#[derive(Clone, Copy, Debug)]
pub struct LineDone {
    /// The fault of a letter that the line cut short.
    pub bad: Option<WireFault>,
    /// The first node that halted in the line, and is halted after it.
    pub halted: Option<u8>,
}

/// What contracts see of a cluster.
pub trait AsCluster {
    ghost use Rattle.std.specs.Prelude.{ℕ};
    ghost use Rattle.cam_node.specs.Log.{Logged};
    ghost use Rattle.cam_cluster.specs.Seen.{Seen};
    ghost use Rattle.cam_cluster.specs.Works.{WorksFields};

    /// What was seen of the run of its script is what it has taken.
    ghost stands: { Self → Seen → Type 0 };

    /// Its nodes with their disks, and the events and marks so far.
    ghost works: { Self → WorksFields };

    /// What may be read from the disk of each node, after a crash now, too.
    ghost may_read: { Self → ℕ → Logged → Type 0 };
}

impl<L: CheckpointLog> AsCluster for Cluster<L> {
    ghost use Rattle.cam_cluster.specs.Clusters.{StandsAs};

    ghost stands = { λ cluster seen. StandsAs seen (⟦<Lines<L> as AsLines>⟧.fields cluster.course.lines)
        (⟦<Lines<L> as AsLines>⟧.may_read cluster.course.lines) cluster.course.workers };

    ghost works = { λ cluster. (⟦<Lines<L> as AsLines>⟧.fields cluster.course.lines).works };

    ghost may_read = { λ cluster. ⟦<Lines<L> as AsLines>⟧.may_read cluster.course.lines };
}

impl<D: TellingDisk> Cluster<Ckpt<StopDisk<D>>> {
    /// The cluster of a script before its first line, each node over the disk at its place, which is formatted, whatever it held. The disks
    /// are taken from their list, which keeps its room. If a disk fails or memory runs out as many are back in it.
    pub fn new(
        alloc: Global,
        script: &Script,
        disks: &mut Vec<D>,
    ) -> Result<Cluster<Ckpt<StopDisk<D>>>, RunFault>
        requires script { IsScript script.now }
        requires one_each { length disks.old.items ≡ script.now.nodes }
        ensures before_first { IfOk result (λ cluster.
            ⟦<Cluster<Ckpt<StopDisk<D>>> as AsCluster>⟧.stands cluster (before_first script.now)) }
        ensures count { IfOk result (λ cluster.
            length cluster.course.lines.works.nodes.items ≡ length disks.old.items) }
        ensures empty { OnOk result (disks.new.items ≡ []) }
        // Each node's disk tells what it holds exactly if it did, and no count of faults fell.
        ensures later { IfOk result (λ cluster. AreLater D.tells D.faults (λ n. n.tells)
            (λ n. n.failures) disks.old.items
            (⟦<Cluster<Ckpt<StopDisk<D>>> as AsCluster>⟧.works cluster).nodes) }
        ensures nothing { IfOk result (λ cluster.
            (⟦<Cluster<Ckpt<StopDisk<D>>> as AsCluster>⟧.works cluster).failed ≡ nothing_failed) }
        ensures back { OnErr result
            (AreHandedBack D.tells D.faults disks.old.items disks.new.items) }
        ensures cause { IfErr result (NamesFailed D.faults disks.old.items disks.new.items) }
        ensures capacity { vec_capacity disks.old ≤ vec_capacity disks.new }
    {
        let lines = Lines::new(alloc, script, disks)?;
        Ok(Cluster::over(alloc, lines))
    }

    /// All disks at their places, in a list that has room for them. It takes no memory.
    pub fn into_disks(self, disks: &mut Vec<D>)
        requires none { disks.old.items ≡ [] }
        requires room { length (⟦<Cluster<Ckpt<StopDisk<D>>> as AsCluster>⟧.works self).nodes
            ≤ vec_capacity disks.old }
        // What may be read from each after a crash is what the cluster tells of its log.
        ensures tells { (seen : Seen) → ⟦<Cluster<Ckpt<StopDisk<D>>> as AsCluster>⟧.stands self seen
            → Tells seen (⟦<Cluster<Ckpt<StopDisk<D>>> as AsCluster>⟧.works self)
            (MayReadDisk D.tells D.moment D.left_since disks.new.items) }
        // Each tells what it holds exactly if the node's log did, and no count of faults fell.
        ensures later { AreLater (λ n. n.tells) (λ n. n.failures) D.tells D.faults
            (⟦<Cluster<Ckpt<StopDisk<D>>> as AsCluster>⟧.works self).nodes disks.new.items }
        ensures logs { AreLogs D.tells D.moment D.left_since disks.new.items }
    {
        self.tells();
        let mut nodes = self.course.lines.works.nodes;
        take_out(&mut nodes, disks);
    }
}

/// How a line ended of which no disk's failure ends the run: it was refused, or memory ran out.
fn ended_by(fault: CourseFault) -> ClusterFault
    ensures is { result ≡ ended_by fault }
    ensures known { (known : FailedFields) → IsEndedBy known result }
{
    match fault {
        CourseFault::Line(LineFault::Refused(refusal)) => ClusterFault::Refused(refusal),
        CourseFault::Line(LineFault::NoMemory) => ClusterFault::Ended(RunFault::NoMemory),
        CourseFault::RestartFailed => ClusterFault::Ended(RunFault::NoMemory),
    }
}

/// The first node that is halted now and was not before.
fn first_halted(before: &[bool; 8], after: &[bool; 8]) -> Option<u8>
    ensures { IsFirstHalted before.now after.now result }
{
    for place in 0..8 {
        if is_halted(after, place) && !is_halted(before, place) {
            return Some(place as u8 + 1);
        }
    }
    None
}

impl<L: TellingLog> Cluster<L> {
    /// Takes the next line of the script. If it is refused it leaves its mark, and nothing else. If the run has to end no further line may
    /// be taken, and of what was taken nothing is said; the disks may be taken out then.
    pub fn line<R: DataType, Q: DataType, C: DataType>(
        &mut self,
        script: &Script,
        step: &Step,
        servers: &mut Servers<R, Q, C>,
    ) -> Result<LineDone, ClusterFault>
        requires next { IsNextLine script.now step.now (⟦<Cluster<L> as AsCluster>⟧.stands self.old) }
        ensures line { IsLine script.now step.now (⟦<Cluster<L> as AsCluster>⟧.stands self.old)
            (⟦<Cluster<L> as AsCluster>⟧.stands self.new) result }
        // So it tells what the lines so far came to.
        ensures tells { (seen : Seen) → ⟦<Cluster<L> as AsCluster>⟧.stands self.new seen
            → Tells seen (⟦<Cluster<L> as AsCluster>⟧.works self.new)
            (⟦<Cluster<L> as AsCluster>⟧.may_read self.new) }
        ensures halted { IfOk result (λ done. IsFirstHalted
            (⟦<Cluster<L> as AsCluster>⟧.works self.old).halted
            (⟦<Cluster<L> as AsCluster>⟧.works self.new).halted done.halted) }
        // Each disk goes on, and what failed by itself in the line is known.
        ensures disks { DisksGoOn (⟦<Cluster<L> as AsCluster>⟧.works self.old)
            (⟦<Cluster<L> as AsCluster>⟧.works self.new) }
        ensures cause { IfErr result (IsEndedBy (⟦<Cluster<L> as AsCluster>⟧.works self.new).failed) }
    {
        let done = self.take(script, step, servers);
        self.tells();
        done
    }

    /// Takes the next line.
    fn take<R: DataType, Q: DataType, C: DataType>(
        &mut self,
        script: &Script,
        step: &Step,
        servers: &mut Servers<R, Q, C>,
    ) -> Result<LineDone, ClusterFault>
        requires next { IsNextLine script.now step.now (⟦<Cluster<L> as AsCluster>⟧.stands self.old) }
        ensures line { IsLine script.now step.now (⟦<Cluster<L> as AsCluster>⟧.stands self.old)
            (⟦<Cluster<L> as AsCluster>⟧.stands self.new) result }
        ensures halted { IfOk result (λ done. IsFirstHalted
            (⟦<Cluster<L> as AsCluster>⟧.works self.old).halted
            (⟦<Cluster<L> as AsCluster>⟧.works self.new).halted done.halted) }
        ensures disks { DisksGoOn (⟦<Cluster<L> as AsCluster>⟧.works self.old)
            (⟦<Cluster<L> as AsCluster>⟧.works self.new) }
        ensures cause { IfErr result (IsEndedBy (⟦<Cluster<L> as AsCluster>⟧.works self.new).failed) }
    {
        let before = self.course.lines.works.halted;
        match self.course.take(step, &script.bodies, servers) {
            Ok(bad) => {
                self.unfailing()?;
                let halted = first_halted(&before, &self.course.lines.works.halted);
                Ok(LineDone { bad, halted })
            }
            Err(fault) => {
                self.unfailing()?;
                Err(ended_by(fault))
            }
        }
    }

    /// The events of the lines so far, the oldest first.
    pub fn trace(&self) -> &[Event]
        ensures { result.now ≡ (⟦<Cluster<L> as AsCluster>⟧.works self.now).events }
    {
        self.course.lines.works.events.as_slice()
    }

    /// The marks of the lines so far.
    pub fn marks(&self) -> &[Mark]
        ensures { result.now ≡ (⟦<Cluster<L> as AsCluster>⟧.works self.now).marks }
    {
        self.course.lines.works.marks.as_slice()
    }

    /// The cluster of these lines, before which none is taken.
    fn over(alloc: Global, lines: Lines<L>) -> Cluster<L>
        ensures lines { result.course.lines ≡ lines }
        ensures before_first { (script : ScriptFields) → KeepsBetween (before_first script)
            (⟦<Lines<L> as AsLines>⟧.fields lines) (⟦<Lines<L> as AsLines>⟧.may_read lines)
            → lines.works.failed ≡ nothing_failed
            → ⟦<Cluster<L> as AsCluster>⟧.stands result (before_first script) }
    {
        Cluster {
            course: Course {
                lines,
                workers: Workers::new(alloc),
            },
        }
    }

    /// What the lines so far came to, and what the logs keep of them: a law.
    fn tells(&self)
        ensures { (seen : Seen) → ⟦<Cluster<L> as AsCluster>⟧.stands self.now seen
            → Tells seen (⟦<Cluster<L> as AsCluster>⟧.works self.now)
            (⟦<Cluster<L> as AsCluster>⟧.may_read self.now) }
    {}

    /// Fails if the run has to end.
    fn unfailing(&self) -> Result<(), RunFault>
        ensures unfailing { OnOk result (MayGoOn
            (⟦<Lines<L> as AsLines>⟧.fields self.now.course.lines).works.failed
            (⟦<Lines<L> as AsLines>⟧.fields self.now.course.lines).works.nodes) }
        ensures cause { IfErr result (IsOfKnown self.now.course.lines.works.failed) }
    {
        self.course.lines.works.failed.unfailing()
    }
}
