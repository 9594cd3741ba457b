//! One node: its parts, and its log.
ghost use Rattle.std.specs.Prelude.{◌≡◌, ◌≤◌, ℕ, List, [], ◌∷◌, IsTrue, IsFalse, IfOk, IfErr, Ok as Opens, Some, None};
ghost use Rattle.cam_base.specs.Causes.{Rose};
ghost use Rattle.cam_ckpt.specs.Reading.{generation_of, read_ckpt};
ghost use Rattle.cam_event.specs.ByDeltas.{Received};
ghost use Rattle.cam_locks.specs.Moss.{settled};
ghost use Rattle.cam_locks.specs.Site.{is_here};
ghost use Rattle.cam_log.specs.Moments.{Stays};
ghost use Rattle.cam_log.specs.Spent.{Spent};
ghost use Rattle.cam_recman.specs.Migrating.{version_entry};
ghost use Rattle.cam_node.specs.declared.fault.NodeFault.TheVariants.{DiskFault};
ghost use Rattle.cam_node.specs.Calls.{answers};
ghost use Rattle.cam_node.specs.Keeping.{KeepsNode};
ghost use Rattle.cam_node.specs.Represents.{Represents};
ghost use Rattle.cam_node.specs.Values.{handed_up};

use crate::fault::{FormatRefused, NodeFault};
use crate::log::NodeLog;
use crate::state::Core;
use cam_base::NoMemory;
use cam_ckpt::{CheckpointLog, Ckpt};
use cam_disk::Disk;
use cam_event::Event;
use cam_log::{EntryLog, StopLog};
use cam_type::{Objects, State};
use std::alloc::Global;

/// One node, 1 to 8, over the declared objects: its parts, and the log that it forces before a
/// letter leaves. Both stand for one history from `format` on, and `step` and `restart` keep that
/// for inputs that may come. Over a disk its log is a [`Ckpt`].
#[derive(Drop)]
pub struct Node<L: CheckpointLog> {
    pub(crate) core: Core,
    pub(crate) log: NodeLog<L>,
    pub(crate) objects: Objects,
    /// What its log may have taken of the event at which it halted; none if it is not halted.
    pub(crate) halted_at: Option<Event>,
    ghost numbered: { (1 ≤ core.number) × (core.number ≤ 8) },
    ghost runs_on: { IsFalse log.halted → halted_at ≡ None },
}

impl<D: Disk> Node<Ckpt<D>> {
    /// Makes a node, 1 to 8, to which nothing has happened, and formats a disk for it, whatever the
    /// disk held. If the disk fails or memory runs out, the disk is returned.
    pub fn format(
        alloc: Global,
        number: u8,
        objects: Objects,
        disk: D,
    ) -> Result<Node<Ckpt<D>>, FormatRefused<D>>
        requires { (1 ≤ number) × (number ≤ 8) }
        ensures keeps { IfOk result (λ node. KeepsNode objects [] (answers node.core)
            (⟦<Ckpt<D> as EntryLog>⟧.listed node.log.log)) }
        // Its one entry is the Version record alone.
        ensures entries { IfOk result
            (λ node. ⟦<Ckpt<D> as EntryLog>⟧.listed node.log.log ≡ version_entry ∷ []) }
        ensures generation { IfOk result
            (λ node. ⟦<Ckpt<D> as EntryLog>⟧.generation node.log.log ≡ 1) }
        ensures number { IfOk result (λ node. node.core.number ≡ number) }
        ensures objects { IfOk result (λ node. node.objects ≡ objects) }
        ensures running { IfOk result (λ node. IsFalse node.log.halted) }
        ensures never_halted { IfOk result (λ node. node.halted_at ≡ None) }
        // It takes seven calls of the disk.
        ensures spent { IfOk result
            (λ node. Spent 7 (D.passes disk) (⟦<Ckpt<D> as EntryLog>⟧.passes node.log.log)) }
        ensures tells { IfOk result
            (λ node. ⟦<Ckpt<D> as EntryLog>⟧.tells node.log.log ≡ D.tells disk) }
        ensures time { IsTrue (D.tells disk) → IfOk result
            (λ node. D.moment disk ≤ ⟦<Ckpt<D> as EntryLog>⟧.moment node.log.log) }
        ensures later { IfOk result
            (λ node. D.faults disk ≤ ⟦<Ckpt<D> as EntryLog>⟧.faults node.log.log) }
        ensures faults_within { IfOk result
            (λ node. D.faults_within disk
            ≤ ⟦<Ckpt<D> as EntryLog>⟧.faults_within node.log.log) }
        ensures disk_fault { IfErr result (λ refused. refused.fault ≡ DiskFault
            → Rose (D.faults disk) (D.faults refused.disk)) }
        // If the disk does all calls, it fails by a call that it did.
        ensures failed_within { D.passes disk ≡ None → IfErr result (λ refused.
            refused.fault ≡ DiskFault
            → Rose (D.faults_within disk) (D.faults_within refused.disk)) }
        ensures within_later { IfErr result
            (λ refused. D.faults_within disk ≤ D.faults_within refused.disk) }
        ensures refused_later { IfErr result (λ refused. D.faults disk ≤ D.faults refused.disk) }
        ensures refused_tells { IfErr result (λ refused. D.tells refused.disk ≡ D.tells disk) }
    {
        let core = match Core::new(alloc, number, &objects) {
            Ok(core) => core,
            Err(NoMemory) => {
                return Err(FormatRefused {
                    fault: NodeFault::NoMemory,
                    disk,
                });
            }
        };
        let log = match NodeLog::format(alloc, disk) {
            Ok(log) => log,
            Err(refused) => return Err(refused),
        };
        Ok(Node {
            core,
            log,
            objects,
            halted_at: None,
        })
    }

    /// The disk, as it is. What a crash may leave of it opens as the log of the node would.
    pub fn into_disk(self) -> D
        ensures opens { IsTrue (D.tells result) → IsFalse self.log.halted
            → read_ckpt (D.seen result) ≡ Opens (⟦<Ckpt<D> as EntryLog>⟧.listed self.log.log) }
        ensures opens_since { (t : ℕ) (image : List ℕ) → D.left_since result t image
            → ⟦<Ckpt<D> as EntryLog>⟧.opens_since self.log.log t (read_ckpt image) }
        ensures tells { D.tells result ≡ ⟦<Ckpt<D> as EntryLog>⟧.tells self.log.log }
        ensures moment { D.moment result ≡ ⟦<Ckpt<D> as EntryLog>⟧.moment self.log.log }
        ensures seen { D.seen result ≡ ⟦<Ckpt<D> as EntryLog>⟧.seen self.log.log }
        ensures reads { read_ckpt (D.seen result) ≡ ⟦<Ckpt<D> as EntryLog>⟧.reads self.log.log }
        ensures disk_generation { generation_of (D.seen result)
            ≡ ⟦<Ckpt<D> as CheckpointLog>⟧.disk_generation self.log.log }
        ensures generation { IsTrue (D.tells result) → IsFalse self.log.halted
            → generation_of (D.seen result)
            ≡ Some (⟦<Ckpt<D> as EntryLog>⟧.generation self.log.log) }
        ensures passes { D.passes result ≡ ⟦<Ckpt<D> as EntryLog>⟧.passes self.log.log }
        ensures faults { D.faults result ≡ ⟦<Ckpt<D> as EntryLog>⟧.faults self.log.log }
        ensures faults_within { D.faults_within result
            ≡ ⟦<Ckpt<D> as EntryLog>⟧.faults_within self.log.log }
    {
        self.log.into_disk()
    }
}

impl<L: CheckpointLog> Node<L> {
    /// The number of the node.
    pub fn number(&self) -> u8
        ensures value { result ≡ (answers self.now.core).number }
        ensures range { (1 ≤ result) × (result ≤ 8) }
    {
        self.core.number()
    }

    /// The log of the node, to look at.
    pub fn log(&self) -> &L
        ensures { result.now ≡ self.now.log.log }
    {
        &self.log.log
    }

    /// Whether the node is halted: it must be restarted before the next step.
    pub fn is_halted(&self) -> bool
        ensures { result ≡ self.now.log.halted }
    {
        self.log.is_halted()
    }

    /// The value of an object of the node that is handed up past the top. The parts of a halted node
    /// may have the changes of the event at which it halted.
    pub fn value(&self, object: u8) -> Result<State, NoMemory>
        requires here { IsTrue (is_here (answers self.now.core).server.table.site.objects
            (answers self.now.core).server.table.site.node object) }
        ensures table { IfOk result (λ state.
            state ≡ settled (answers self.now.core).server.table.site object) }
        // It is the value by each history that the node represents.
        ensures history { IfOk result (λ state. (history : List Received)
            → Represents self.now.objects history (answers self.now.core)
            → state ≡ handed_up self.now.objects self.now.core.number history object) }
    {
        self.core.server.table().value(object)
    }
}

impl<L: CheckpointLog + StopLog> Node<L> {
    /// Lets the disk do this many calls more, and fail each later one without doing it. Nothing
    /// else changes, on the disk or of the node.
    pub fn stop_after(&mut self, calls: u32)
        ensures passes { L.passes self.new.log.log ≡ Some calls }
        ensures reads { L.reads self.new.log.log ≡ L.reads self.old.log.log }
        ensures faults_within { L.faults_within self.new.log.log ≡ L.faults_within self.old.log.log }
        ensures core { self.new.core ≡ self.old.core }
        ensures objects { self.new.objects ≡ self.old.objects }
        ensures halted_at { self.new.halted_at ≡ self.old.halted_at }
        ensures listed { L.listed self.new.log.log ≡ L.listed self.old.log.log }
        ensures generation { L.generation self.new.log.log ≡ L.generation self.old.log.log }
        ensures halted { self.new.log.halted ≡ self.old.log.halted }
        ensures tells { L.tells self.new.log.log ≡ L.tells self.old.log.log }
        ensures stays { Stays (L.moment self.old.log.log) (L.moment self.new.log.log)
            (L.opens_since self.old.log.log) (L.opens_since self.new.log.log)
            (L.seen self.old.log.log) (L.seen self.new.log.log)
            (L.faults self.old.log.log) (L.faults self.new.log.log) }
    {
        self.log.stop_after(calls);
    }

    /// Lets the disk do all calls again. Nothing else changes, on the disk or of the node.
    pub fn clear(&mut self)
        ensures passes { L.passes self.new.log.log ≡ None }
        ensures reads { L.reads self.new.log.log ≡ L.reads self.old.log.log }
        ensures faults_within { L.faults_within self.new.log.log ≡ L.faults_within self.old.log.log }
        ensures core { self.new.core ≡ self.old.core }
        ensures objects { self.new.objects ≡ self.old.objects }
        ensures halted_at { self.new.halted_at ≡ self.old.halted_at }
        ensures listed { L.listed self.new.log.log ≡ L.listed self.old.log.log }
        ensures generation { L.generation self.new.log.log ≡ L.generation self.old.log.log }
        ensures halted { self.new.log.halted ≡ self.old.log.halted }
        ensures tells { L.tells self.new.log.log ≡ L.tells self.old.log.log }
        ensures stays { Stays (L.moment self.old.log.log) (L.moment self.new.log.log)
            (L.opens_since self.old.log.log) (L.opens_since self.new.log.log)
            (L.seen self.old.log.log) (L.seen self.new.log.log)
            (L.faults self.old.log.log) (L.faults self.new.log.log) }
    {
        self.log.clear();
    }
}
