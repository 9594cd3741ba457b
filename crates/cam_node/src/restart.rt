// What a restart reads of a node's log, and what it puts in its place.
ghost use Rattle.std.specs.Prelude.{◌≡◌, ◌≤◌, ◌<◌, true, [], ◌∷◌, IsTrue, IsFalse, OnOk, OnErr, IfOk, IfSome, IsErrOf, Ok as Opens, Some, None};
ghost use Rattle.std.specs.List.{AllByRecursion};
ghost use Rattle.cam_base.specs.Causes.{Rose};
ghost use Rattle.cam_bytes.specs.Ranges.{IsFrom};
ghost use Rattle.cam_log.specs.Moments.{Opened, Grows, AddsNothing};
ghost use Rattle.cam_ckpt.specs.Opening.{can_follow, HasNextNumber, next_number};
ghost use Rattle.cam_recman.specs.declared.Recovered.{Recovered as Recovery};
ghost use Rattle.cam_recman.specs.declared.Record.TheVariants.{Count};
ghost use Rattle.cam_recman.specs.Ranges.{IsHeld};
ghost use Rattle.cam_recman.specs.Records.{entry_bytes};
ghost use Rattle.cam_recman.specs.Says.{Says};
ghost use Rattle.cam_node.specs.declared.fault.NodeFault.TheVariants.{DiskFault};
ghost use Rattle.cam_node.specs.Opened.{is_readable, kept_entries, kept_by, raised, IsReadOrKept, IsReplaced, MayRestart, OpensRestarted, Rereads};

use crate::fault::NodeFault;
use crate::log::NodeLog;
use crate::restartable::{can_restart, known_counts};
use cam_base::NoMemory;
use cam_ckpt::CheckpointLog;
use cam_log::{Entries, Entry, EntryLog, LogFault};
use cam_recman::{
    MigrateFault, RecFault, Record, Records, Recovered, encode_entry, migrate, restart, snapshot,
};
use cam_type::Objects;
use std::alloc::Global;

/// The bytes that the disk gave are not a node's log: a disk that tells what it holds cannot give such.
fn spoiled<L: CheckpointLog>(log: &mut L) -> NodeFault
    ensures fault { result ≡ DiskFault }
    ensures rose { IsFalse (L.tells log.old) → Rose (L.faults log.old) (L.faults log.new) }
    ensures any_moment { IsTrue (L.tells log.old)
        → AddsNothing (L.moment log.old) (L.moment log.new)
        (L.opens_since log.old) (L.opens_since log.new) }
    ensures unbounded { L.passes log.old ≡ None → L.passes log.new ≡ None }
    ensures tells { L.tells log.new ≡ L.tells log.old }
    ensures later { L.faults log.old ≤ L.faults log.new }
    ensures faults_within { L.faults_within log.old ≤ L.faults_within log.new }
{
    log.spoil();
    NodeFault::DiskFault
}

/// Reads the log of its disk again, and what its entries say. A log of version 1, which only a disk that does not tell may give, is brought
/// to version 2 first.
fn read_again<L: CheckpointLog>(alloc: Global, log: &mut L) -> Result<Recovered, NodeFault>
    requires { (opened : Opened) → IsTrue (L.tells log.old)
        → L.opens_since log.old (L.moment log.old) opened → IsTrue (is_readable opened) }
    ensures says { IfOk result (λ r. Says (L.listed log.new) r) }
    ensures range { IfOk result (λ r. IsFrom 1 1000000000 r.count × AllByRecursion IsHeld r.held) }
    ensures was { IsTrue (L.tells log.old) → OnOk result
        (L.opens_since log.old (L.moment log.old) (Opens (L.listed log.new))) }
    ensures read_now { IsTrue (L.tells log.old)
        → OnOk result (Opens (L.listed log.new) ≡ L.reads log.old) }
    ensures disk_generation { IsTrue (L.tells log.old)
        → OnOk result (L.disk_generation log.old ≡ Some (L.generation log.new)) }
    ensures generation { IsTrue (L.tells log.old) → IsFalse (L.broken log.old)
        → OnOk result (L.generation log.new ≡ L.generation log.old) }
    ensures whole { OnOk result (IsFalse (L.broken log.new)) }
    ensures any_moment { IsTrue (L.tells log.old)
        → AddsNothing (L.moment log.old) (L.moment log.new)
        (L.opens_since log.old) (L.opens_since log.new) }
    ensures unbounded { L.passes log.old ≡ None → L.passes log.new ≡ None }
    ensures tells { L.tells log.new ≡ L.tells log.old }
    ensures later { L.faults log.old ≤ L.faults log.new }
    ensures faults_within { L.faults_within log.old ≤ L.faults_within log.new }
    ensures disk_fault { IsErrOf result DiskFault → Rose (L.faults log.old) (L.faults log.new) }
{
    match log.reopen() {
        Ok(()) => {}
        Err(LogFault::NotALog(_)) => return Err(spoiled(log)),
        Err(fault) => return Err(fault.into()),
    }
    match migrate(alloc, log) {
        Ok(_) => {}
        Err(MigrateFault::BadRecord { .. }) => return Err(spoiled(log)),
        Err(MigrateFault::DiskFault) => return Err(NodeFault::DiskFault),
        Err(MigrateFault::NoMemory) => return Err(NodeFault::NoMemory),
    }
    match restart(alloc, log) {
        Ok(recovered) => Ok(recovered),
        Err(RecFault::BadRecord { .. }) => Err(spoiled(log)),
        Err(RecFault::NoMemory) => Err(NodeFault::NoMemory),
    }
}

/// The one entry that keeps all of this.
fn entry_of_all(alloc: Global, kept: &Recovered) -> Result<Entries, NoMemory>
    requires count { IsFrom 1 1000000000 kept.now.count }
    requires held { AllByRecursion IsHeld kept.now.held }
    ensures exactly { IfOk result (λ entries. entries ≡ kept_entries true [] kept.now) }
    ensures says { IfOk result (λ entries. Says entries kept.now) }
{
    // Only for the proof: they give the facts that no outcome stands twice, and that counts are in their range.
    let _outcomes = kept.know.outcomes();
    let _counts = kept.know.counts();
    let entry = encode_entry(alloc, &snapshot(alloc, kept)?)?;
    let mut entries = Entries::new(alloc);
    entries.push(Entry::from_vec(entry))?;
    Ok(entries)
}

/// The entry of a raised count.
fn entry_of_count(alloc: Global, count: u32) -> Result<Vec<u8>, NoMemory>
    requires { IsFrom 2 1000000000 count }
    ensures { IfOk result (λ entry. entry.items ≡ entry_bytes (Count count ∷ [])) }
{
    let mut records = Records::new(alloc);
    records.push(Record::Count(count))?;
    encode_entry(alloc, &records)
}

/// Puts the one entry that keeps all of this in place of a log's entries. Where the log's list cannot be replaced, as the number of its
/// generation is the last, the raised count goes after them.
fn keep<L: CheckpointLog>(alloc: Global, log: &mut L, kept: &Recovered) -> Result<(), NodeFault>
    requires whole { IsFalse (L.broken log.old) }
    requires count { IsFrom 2 1000000000 kept.now.count }
    requires held { AllByRecursion IsHeld kept.now.held }
    ensures kept { OnOk result (L.listed log.new
        ≡ kept_entries (can_follow (L.broken log.old) (L.generation log.old)) (L.listed log.old) kept.now) }
    // Unless the list has the last number it is replaced.
    ensures replaced { OnOk result (IsReplaced (L.generation log.new) kept.now (L.listed log.new)) }
    ensures says { (r : Recovery) → Says (L.listed log.old) r → OnOk result (Says (L.listed log.new)
        (kept_by (can_follow (L.broken log.old) (L.generation log.old)) r kept.now)) }
    ensures generation { OnOk result (L.generation log.new ≡ next_number (L.generation log.old)) }
    ensures whole { OnOk result (IsFalse (L.broken log.new)) }
    ensures any_moment { (r : Recovery) → IsTrue (L.tells log.old) → Says (L.listed log.old) r
        → Grows (L.moment log.old) (L.moment log.new) (L.opens_since log.old) (L.opens_since log.new)
        (IsReadOrKept (can_follow (L.broken log.old) (L.generation log.old)) (L.listed log.old) r kept.now) }
    ensures unbounded { L.passes log.old ≡ None → L.passes log.new ≡ None }
    ensures tells { L.tells log.new ≡ L.tells log.old }
    ensures later { L.faults log.old ≤ L.faults log.new }
    ensures faults_within { L.faults_within log.old ≤ L.faults_within log.new }
    ensures disk_fault { IsErrOf result DiskFault → Rose (L.faults log.old) (L.faults log.new) }
{
    if log.can_replace() {
        let entries = entry_of_all(alloc, kept)?;
        log.replace(&entries)?;
    } else {
        let entry = entry_of_count(alloc, kept.count)?;
        log.append(entry.as_slice())?;
    }
    Ok(())
}

/// What is kept after a restart: the count is one more.
fn raise(mut recovered: Recovered, node: u8) -> Recovered
    requires node { (1 ≤ node) × (node ≤ 8) }
    requires count { recovered.count < 1000000000 }
    ensures { result ≡ raised node recovered }
{
    recovered.count += 1;
    recovered.know.raise(node, recovered.count);
    recovered
}

/// What a restart of a log read, and put in its place.
#[derive(Drop)]
pub(crate) struct Reread {
    /// All that is kept, with the count that is one more than the one read.
    pub kept: Recovered,
    /// The counts of the nodes that were known by what was read, the node's own among them.
    pub counts: [u32; 8],
}

impl<L: CheckpointLog> NodeLog<L> {
    /// Restarts the node's log: reads the disk again, and puts one entry of all that is kept then, with the count that is one more, in place
    /// of what it read. Where the log's list cannot be replaced, as the number of its generation is the last, the raised count goes after
    /// the entries. It answers what is kept.
    ///
    /// At any moment of the call a crash leaves a log as it could leave it before, or as the restart of one of those. `DiskFault` comes where
    /// what was read cannot be restarted: a count that is the last, an operation that is not on an object of the node or does not fit it, an
    /// index that stands twice or is above 499,999,999, a family that is secured twice, a commit that depends on a count above the known one
    /// of its node. A disk that does not tell what it holds is spoiled then. Over a disk of which nothing such can be read it comes only if
    /// the disk's count of faults rose. After an error the node is halted.
    pub(crate) fn restart(&mut self, objects: &Objects, node: u8) -> Result<Reread, NodeFault>
        requires node { (1 ≤ node) × (node ≤ 8) }
        ensures restarted { IfOk result (λ reread.
            Rereads objects.now node (L.tells self.old.log)
            (L.opens_since self.old.log (L.moment self.old.log)) (L.listed self.new.log) reread) }
        // What it read is what the log reads when the call begins.
        ensures read_now { IfOk result (λ reread.
            Rereads objects.now node (L.tells self.old.log)
            (λ opened. opened ≡ L.reads self.old.log) (L.listed self.new.log) reread) }
        // Unless the log's list has the last number, what is kept is the one entry that it lists.
        ensures replaced { IfOk result (λ reread.
            IsReplaced (L.generation self.new.log) reread.kept (L.listed self.new.log)) }
        // So it is unless the list that was read has the last number.
        ensures replaced_after { IsTrue (L.tells self.old.log) → IfOk result (λ reread.
            IfSome (L.disk_generation self.old.log) (λ number.
            IsReplaced number reread.kept (L.listed self.new.log))) }
        ensures disk_generation { IsTrue (L.tells self.old.log) → OnOk result
            (HasNextNumber (L.disk_generation self.old.log) (L.generation self.new.log)) }
        ensures generation { IsTrue (L.tells self.old.log) → IsFalse self.old.halted
            → OnOk result (L.generation self.new.log ≡ next_number (L.generation self.old.log)) }
        ensures runs { OnOk result (IsFalse self.new.halted) }
        ensures halted { OnErr result (IsTrue self.new.halted) }
        ensures unbounded { L.passes self.old.log ≡ None → L.passes self.new.log ≡ None }
        ensures any_moment { IsTrue (L.tells self.old.log)
            → Grows (L.moment self.old.log) (L.moment self.new.log)
            (L.opens_since self.old.log) (L.opens_since self.new.log)
            (OpensRestarted objects.now node (L.disk_generation self.old.log)
            (L.opens_since self.old.log (L.moment self.old.log))) }
        ensures tells { L.tells self.new.log ≡ L.tells self.old.log }
        ensures later { L.faults self.old.log ≤ L.faults self.new.log }
        ensures faults_within { L.faults_within self.old.log ≤ L.faults_within self.new.log }
        ensures disk_fault { ((opened : Opened) → IsTrue (L.tells self.old.log)
            → L.opens_since self.old.log (L.moment self.old.log) opened
            → MayRestart objects.now node opened)
            → IsErrOf result DiskFault → Rose (L.faults self.old.log) (L.faults self.new.log) }
    {
        self.halted = true;
        let recovered = read_again(self.alloc, &mut self.log)?;
        if !can_restart(self.alloc, objects, node, &recovered)? {
            return Err(spoiled(&mut self.log));
        }
        let counts = known_counts(&recovered.know, node, recovered.count);
        let kept = raise(recovered, node);
        keep(self.alloc, &mut self.log, &kept)?;
        self.halted = false;
        Ok(Reread { kept, counts })
    }
}
