// The log of one node: what it appends of an event.
ghost use Rattle.std.specs.Prelude.{◌≡◌, ◌⊎◌, ◌≤◌, ℕ, List, [], ◌∷◌, IsTrue, IsFalse, IsOk, OnOk, OnErr, IfOk, IfErr, IsErrOf, All, Ok as Opens, Some, None};
ghost use Rattle.cam_base.specs.Causes.{Rose};
ghost use Rattle.cam_disk.specs.Stop.{Untouched};
ghost use Rattle.cam_log.specs.CutOff.{IsCutOff};
ghost use Rattle.cam_log.specs.Spent.{Spent};
ghost use Rattle.cam_log.specs.Moments.{Opened, Grows, Stays};
ghost use Rattle.cam_ckpt.specs.Moments.{IsOldOrNew};
ghost use Rattle.cam_ckpt.specs.Reading.{generation_of, read_ckpt};
ghost use Rattle.cam_recman.specs.declared.Recovered.{Recovered as Recovery};
ghost use Rattle.cam_recman.specs.Ranges.{AreRecords};
ghost use Rattle.cam_recman.specs.Recovery.{with_records};
ghost use Rattle.cam_recman.specs.Says.{Says};
ghost use Rattle.cam_recman.specs.Versions.{AreOf};
ghost use Rattle.cam_recman.specs.Writable.{IsWritable};
ghost use Rattle.cam_recman.specs.Migrating.{version_entry};
ghost use Rattle.cam_node.specs.declared.fault.NodeFault.TheVariants.{DiskFault};
ghost use Rattle.cam_node.specs.Appending.{listed_after, SpentFor};
ghost use Rattle.cam_node.specs.Opened.{is_readable, with_entry_of};

use crate::fault::{FormatRefused, NodeFault};
use cam_ckpt::{CheckpointLog, Ckpt};
use cam_disk::Disk;
use cam_log::{EntryLog, StopLog};
use cam_recman::{Record, Records, encode_entry};
use std::alloc::Global;

/// The log of one node. While the node is not halted, a crash leaves exactly its entries. A node halts where its disk failed, or had no memory,
/// in an append; then its log is read again before the next one. Wherever the disk tells what it holds, whatever a crash leaves is read.
#[derive(Drop)]
pub(crate) struct NodeLog<L: CheckpointLog> {
    pub(crate) alloc: Global,
    pub(crate) log: L,
    pub(crate) halted: bool,
    ghost whole: { IsFalse halted → IsFalse (L.broken log) },
    ghost stands: { IsFalse halted → IsTrue (is_readable (Opens (L.listed log))) },
    ghost readable: { (opened : Opened) → IsTrue (L.tells log)
        → L.opens_since log (L.moment log) opened → IsTrue (is_readable opened) },
}

/// Appends the first entry of a node's log: the Version record alone.
fn append_version<L: EntryLog>(alloc: Global, log: &mut L) -> Result<(), NodeFault>
    requires whole { IsFalse (L.broken log.old) }
    requires empty { L.listed log.old ≡ [] }
    ensures appended { OnOk result (L.listed log.new ≡ version_entry ∷ []) }
    ensures readable { OnOk result (IsTrue (is_readable (Opens (L.listed log.new)))) }
    ensures whole { OnOk result (IsFalse (L.broken log.new)) }
    ensures spent { OnOk result (Spent 4 (L.passes log.old) (L.passes log.new)) }
    ensures time { IsTrue (L.tells log.old) → L.moment log.old ≤ L.moment log.new }
    ensures tells { L.tells log.new ≡ L.tells log.old }
    ensures later { L.faults log.old ≤ L.faults log.new }
    ensures disk_fault { IsErrOf result DiskFault → Rose (L.faults log.old) (L.faults log.new) }
    ensures generation { L.generation log.new ≡ L.generation log.old }
    ensures within_later { L.faults_within log.old ≤ L.faults_within log.new }
    ensures failed_within { L.passes log.old ≡ None → IsErrOf result DiskFault
        → Rose (L.faults_within log.old) (L.faults_within log.new) }
{
    let mut records = Records::new(alloc);
    records.push(Record::Version)?;
    let entry = encode_entry(alloc, &records)?;
    log.append(entry.as_slice())?;
    Ok(())
}

impl<D: Disk> NodeLog<Ckpt<D>> {
    /// Makes a disk the log of a node that has no history, whatever the disk held: its one entry is the Version record alone.
    pub(crate) fn format(alloc: Global, disk: D) -> Result<NodeLog<Ckpt<D>>, FormatRefused<D>>
        ensures entries { IfOk result
            (λ node. ⟦<Ckpt<D> as EntryLog>⟧.listed node.log ≡ version_entry ∷ []) }
        ensures generation { IfOk result
            (λ node. ⟦<Ckpt<D> as EntryLog>⟧.generation node.log ≡ 1) }
        ensures running { IfOk result (λ node. IsFalse node.halted) }
        // It takes seven calls of the disk.
        ensures spent { IfOk result
            (λ node. Spent 7 (D.passes disk) (⟦<Ckpt<D> as EntryLog>⟧.passes node.log)) }
        ensures tells { IfOk result
            (λ node. ⟦<Ckpt<D> as EntryLog>⟧.tells node.log ≡ D.tells disk) }
        ensures time { IsTrue (D.tells disk) → IfOk result
            (λ node. D.moment disk ≤ ⟦<Ckpt<D> as EntryLog>⟧.moment node.log) }
        ensures later { IfOk result
            (λ node. D.faults disk ≤ ⟦<Ckpt<D> as EntryLog>⟧.faults node.log) }
        ensures faults_within { IfOk result
            (λ node. D.faults_within disk ≤ ⟦<Ckpt<D> as EntryLog>⟧.faults_within node.log) }
        ensures disk_fault { IfErr result (λ refused. refused.fault ≡ DiskFault
            → Rose (D.faults disk) (D.faults refused.disk)) }
        // A disk that does all calls fails by a call that it did.
        ensures failed_within { D.passes disk ≡ None → IfErr result (λ refused.
            refused.fault ≡ DiskFault
            → Rose (D.faults_within disk) (D.faults_within refused.disk)) }
        ensures within_later { IfErr result
            (λ refused. D.faults_within disk ≤ D.faults_within refused.disk) }
        ensures refused_later { IfErr result (λ refused. D.faults disk ≤ D.faults refused.disk) }
        ensures refused_tells { IfErr result (λ refused. D.tells refused.disk ≡ D.tells disk) }
    {
        let mut log = match Ckpt::format(alloc, disk) {
            Ok(log) => log,
            Err(refused) => {
                return Err(FormatRefused {
                    fault: refused.fault.into(),
                    disk: refused.disk,
                });
            }
        };
        match append_version(alloc, &mut log) {
            Ok(()) => Ok(NodeLog::over(alloc, log)),
            Err(fault) => Err(FormatRefused {
                fault,
                disk: log.into_disk(),
            }),
        }
    }

    /// The disk, as it is. What a crash may leave of it opens as the log would.
    pub(crate) fn into_disk(self) -> D
        ensures opens { IsTrue (D.tells result) → IsFalse self.halted
            → read_ckpt (D.seen result) ≡ Opens (⟦<Ckpt<D> as EntryLog>⟧.listed self.log) }
        ensures opens_since { (t : ℕ) (image : List ℕ) → D.left_since result t image
            → ⟦<Ckpt<D> as EntryLog>⟧.opens_since self.log t (read_ckpt image) }
        ensures tells { D.tells result ≡ ⟦<Ckpt<D> as EntryLog>⟧.tells self.log }
        ensures moment { D.moment result ≡ ⟦<Ckpt<D> as EntryLog>⟧.moment self.log }
        ensures seen { D.seen result ≡ ⟦<Ckpt<D> as EntryLog>⟧.seen self.log }
        ensures reads { read_ckpt (D.seen result) ≡ ⟦<Ckpt<D> as EntryLog>⟧.reads self.log }
        ensures disk_generation { generation_of (D.seen result)
            ≡ ⟦<Ckpt<D> as CheckpointLog>⟧.disk_generation self.log }
        ensures generation { IsTrue (D.tells result) → IsFalse self.halted
            → generation_of (D.seen result) ≡ Some (⟦<Ckpt<D> as EntryLog>⟧.generation self.log) }
        ensures passes { D.passes result ≡ ⟦<Ckpt<D> as EntryLog>⟧.passes self.log }
        ensures faults { D.faults result ≡ ⟦<Ckpt<D> as EntryLog>⟧.faults self.log }
        ensures faults_within { D.faults_within result
            ≡ ⟦<Ckpt<D> as EntryLog>⟧.faults_within self.log }
    {
        self.log.into_disk()
    }
}

impl<L: CheckpointLog> NodeLog<L> {
    /// The log of a node that runs.
    fn over(alloc: Global, log: L) -> NodeLog<L>
        requires whole { IsFalse (L.broken log) }
        requires readable { IsTrue (is_readable (Opens (L.listed log))) }
        ensures log { result.log ≡ log }
        ensures runs { IsFalse result.halted }
    {
        NodeLog {
            alloc,
            log,
            halted: false,
        }
    }

    /// Whether the node is halted: its log has to be read again before the next append.
    pub(crate) fn is_halted(&self) -> bool
        ensures { result ≡ self.now.halted }
    {
        self.halted
    }

    /// Halts the node.
    pub(crate) fn halt(&mut self)
        ensures log { self.new.log ≡ self.old.log }
        ensures halted { IsTrue self.new.halted }
    {
        self.halted = true;
    }

    /// Appends one entry of these records and forces it, which four calls of the disk do; where there are no records, nothing is done. At Ok
    /// a crash leaves a log that has the entry, and at any moment of the call one without it or with it. It requires a node that is not halted,
    /// and records that may be written where the format has version 2. The node is halted after a `DiskFault`, and where the disk itself is
    /// out of memory; if memory runs out elsewhere nothing has happened.
    pub(crate) fn append(&mut self, records: &Records) -> Result<(), NodeFault>
        requires running { IsFalse self.old.halted }
        requires writable { All IsWritable records.now }
        requires version { AreOf 2 records.now }
        ensures appended { OnOk result
            (L.listed self.new.log ≡ with_entry_of (L.listed self.old.log) records.now) }
        ensures says { (r : Recovery) → Says (L.listed self.old.log) r
            → OnOk result (Says (L.listed self.new.log) (with_records r records.now)) }
        ensures runs { OnOk result (IsFalse self.new.halted) }
        // It halts only if its log has to be opened again.
        ensures broken { IsTrue self.new.halted → IsTrue (L.broken self.new.log) }
        ensures spent { OnOk result
            (SpentFor records.now (L.passes self.old.log) (L.passes self.new.log)) }
        ensures unbounded { L.passes self.old.log ≡ None → L.passes self.new.log ≡ None }
        // A fault comes because a call that was done failed, or because the append was cut off: then the log reads with the entry exactly if
        // three of its calls were done.
        ensures cut_off { IsErrOf result DiskFault
            → Rose (L.faults_within self.old.log) (L.faults_within self.new.log)
            ⊎ IsCutOff 4 (L.passes self.old.log) (L.passes self.new.log)
            (λ calls. IsTrue (L.tells self.old.log) → L.reads self.new.log
            ≡ Opens (listed_after calls (L.listed self.old.log) records.now)) }
        // The records are in their ranges where the disk was called.
        ensures range { OnOk result (AreRecords records.now) }
        ensures halted_range { IsTrue self.new.halted → AreRecords records.now }
        ensures none { records.now ≡ [] → OnOk result (self.new ≡ self.old) }
        ensures always { records.now ≡ [] → IsOk result }
        ensures any_moment { IsTrue (L.tells self.old.log)
            → Grows (L.moment self.old.log) (L.moment self.new.log)
            (L.opens_since self.old.log) (L.opens_since self.new.log)
            (IsOldOrNew (L.listed self.old.log) (with_entry_of (L.listed self.old.log) records.now)) }
        ensures stopped { L.passes self.old.log ≡ Some 0
            → Untouched (L.moment self.old.log) (L.moment self.new.log)
            (L.opens_since self.old.log) (L.opens_since self.new.log)
            (L.seen self.old.log) (L.seen self.new.log) }
        ensures not_listed { OnErr result (L.listed self.new.log ≡ L.listed self.old.log) }
        ensures generation { L.generation self.new.log ≡ L.generation self.old.log }
        ensures unchanged { OnErr result (IsFalse self.new.halted
            → Stays (L.moment self.old.log) (L.moment self.new.log)
            (L.opens_since self.old.log) (L.opens_since self.new.log)
            (L.seen self.old.log) (L.seen self.new.log)
            (L.faults self.old.log) (L.faults self.new.log)) }
        ensures not_called { OnErr result
            (IsFalse self.new.halted → L.passes self.new.log ≡ L.passes self.old.log) }
        ensures tells { L.tells self.new.log ≡ L.tells self.old.log }
        ensures later { L.faults self.old.log ≤ L.faults self.new.log }
        ensures faults_within { L.faults_within self.old.log ≤ L.faults_within self.new.log }
        ensures disk_fault { IsErrOf result DiskFault
            → Rose (L.faults self.old.log) (L.faults self.new.log) × IsTrue self.new.halted }
    {
        if records.is_empty() {
            return Ok(());
        }
        let entry = encode_entry(self.alloc, records)?;
        let result = self.log.append(entry.as_slice());
        self.halted = self.log.is_broken();
        result?;
        Ok(())
    }
}

impl<L: CheckpointLog + StopLog> NodeLog<L> {
    /// Lets the disk do this many calls more, and fail each later one without doing it. It changes neither what a read of the disk gives nor
    /// what a crash may leave of it.
    pub(crate) fn stop_after(&mut self, calls: u32)
        ensures passes { L.passes self.new.log ≡ Some calls }
        ensures reads { L.reads self.new.log ≡ L.reads self.old.log }
        ensures faults_within { L.faults_within self.new.log ≡ L.faults_within self.old.log }
        ensures listed { L.listed self.new.log ≡ L.listed self.old.log }
        ensures generation { L.generation self.new.log ≡ L.generation self.old.log }
        ensures halted { self.new.halted ≡ self.old.halted }
        ensures tells { L.tells self.new.log ≡ L.tells self.old.log }
        ensures stays { Stays (L.moment self.old.log) (L.moment self.new.log)
            (L.opens_since self.old.log) (L.opens_since self.new.log)
            (L.seen self.old.log) (L.seen self.new.log)
            (L.faults self.old.log) (L.faults self.new.log) }
    {
        self.log.stop_after(calls);
    }

    /// Lets the disk do all calls again. It changes neither what a read of the disk gives nor what a crash may leave of it.
    pub(crate) fn clear(&mut self)
        ensures passes { L.passes self.new.log ≡ None }
        ensures reads { L.reads self.new.log ≡ L.reads self.old.log }
        ensures faults_within { L.faults_within self.new.log ≡ L.faults_within self.old.log }
        ensures listed { L.listed self.new.log ≡ L.listed self.old.log }
        ensures generation { L.generation self.new.log ≡ L.generation self.old.log }
        ensures halted { self.new.halted ≡ self.old.halted }
        ensures tells { L.tells self.new.log ≡ L.tells self.old.log }
        ensures stays { Stays (L.moment self.old.log) (L.moment self.new.log)
            (L.opens_since self.old.log) (L.opens_since self.new.log)
            (L.seen self.old.log) (L.seen self.new.log)
            (L.faults self.old.log) (L.faults self.new.log) }
    {
        self.log.clear();
    }
}
