// A log over a disk.
ghost use Rattle.std.specs.Prelude.{◌≡◌, ◌+◌, ◌≤◌, ◌<◌, ◌^◌, ◌++◌, ◌∷◌, [], ℕ, List, IsTrue, IsFalse, OnOk, OnErr, IfOk, IfErr, IsErrOf, Ok, None};
ghost use Rattle.cam_base.specs.Causes.{Rose};
ghost use Rattle.cam_disk.specs.Disk.{Only, FailsWithCause};
ghost use Rattle.cam_log.specs.declared.fault.LogFault.TheVariants.{DiskFault, NotALog};
ghost use Rattle.cam_log.specs.Faults.{Refuses};
ghost use Rattle.cam_log.specs.Image.{log_bytes, IsAppended};
ghost use Rattle.cam_log.specs.Reading.{read_log};
ghost use Rattle.cam_log.specs.Spent.{Spent};
ghost use Rattle.cam_log.specs.Moments.{IsAtRest, AddsNothing, Openings};

use crate::device::{force, read_in, write_entry};
use crate::entry_log::{Entries, EntryLog, drop_newest, entry_of};
use crate::fault::{LogFault, OpenRefused};
use crate::image::{EMPTY, HEADER, appended};
use cam_disk::{Disk, DiskError};
use std::alloc::Global;

/// A log over a disk. While it is not broken, a crash leaves exactly its entries.
#[derive(Drop)]
pub struct Log<D: Disk> {
    alloc: Global,
    pub(crate) disk: D,
    entries: Entries,
    /// The place of the closed gate after the last entry.
    gate: u64,
    broken: bool,
    ghost at_rest: { IsTrue (D.tells disk) → IsFalse broken → IsAtRest entries gate (D.seen disk) },
    ghost durable: { IsTrue (D.tells disk) → IsFalse broken
        → Only (D.seen disk) (D.may_leave disk) },
    ghost within: { gate < 2 ^ 63 },
}

/// Makes a disk a log without entries.
#[tactic(auto, using(crate::specs::Spent::spent_one, crate::specs::Spent::spent_then))]
fn format_disk<D: Disk>(disk: &mut D) -> Result<(), DiskError>
    ensures at_rest { IsTrue (D.tells disk.old) → OnOk result (IsAtRest [] 8 (D.seen disk.new)) }
    ensures durable { IsTrue (D.tells disk.old)
        → OnOk result (Only (D.seen disk.new) (D.may_leave disk.new)) }
    ensures bytes { IsTrue (D.tells disk.old) → OnOk result (D.seen disk.new ≡ log_bytes []) }
    ensures spent { OnOk result (Spent 3 (D.passes disk.old) (D.passes disk.new)) }
    ensures tells { D.tells disk.new ≡ D.tells disk.old }
    ensures cause { FailsWithCause (D.faults disk.old) (D.faults disk.new) result }
    ensures later { IsTrue (D.tells disk.old) → D.moment disk.old ≤ D.moment disk.new }
{
    disk.cut(0)?;
    force(disk, 0, &EMPTY)
}

impl<D: Disk> Log<D> {
    /// A log without entries, whatever the disk held. `NotALog` is never the fault.
    pub fn format(alloc: Global, disk: D) -> Result<Log<D>, OpenRefused<D>>
        ensures empty { IfOk result (λ log. ⟦<Log<D> as EntryLog>⟧.listed log ≡ []) }
        ensures whole { IfOk result (λ log. IsFalse (⟦<Log<D> as EntryLog>⟧.broken log)) }
        ensures bytes { IsTrue (D.tells disk)
            → IfOk result (λ log. ⟦<Log<D> as EntryLog>⟧.seen log ≡ log_bytes []) }
        // It takes three calls of the disk.
        ensures spent { IfOk result
            (λ log. Spent 3 (D.passes disk) (⟦<Log<D> as EntryLog>⟧.passes log)) }
        ensures tells { IfOk result (λ log. ⟦<Log<D> as EntryLog>⟧.tells log ≡ D.tells disk) }
        ensures time { IsTrue (D.tells disk)
            → IfOk result (λ log. D.moment disk ≤ ⟦<Log<D> as EntryLog>⟧.moment log) }
        ensures later { IfOk result (λ log. D.faults disk ≤ ⟦<Log<D> as EntryLog>⟧.faults log) }
        ensures disk_fault { IfErr result (λ refused. refused.fault ≡ DiskFault
            → Rose (D.faults disk) (D.faults refused.disk)) }
        ensures is_a_log { IfErr result (λ refused. (at : ℕ) → refused.fault ≡ NotALog at → ⊥) }
        ensures refused_later { IfErr result (λ refused. D.faults disk ≤ D.faults refused.disk) }
        ensures refused_tells { IfErr result (λ refused. D.tells refused.disk ≡ D.tells disk) }
    {
        let mut disk = disk;
        match format_disk(&mut disk) {
            Ok(()) => Ok(Log {
                alloc,
                disk,
                entries: Entries::new(alloc),
                gate: HEADER.len() as u64,
                broken: false,
            }),
            Err(error) => Err(OpenRefused {
                fault: error.into(),
                disk,
            }),
        }
    }

    /// Opens the log of a disk, as a crash or a log left it. It syncs the disk and reads it, and a crash
    /// meanwhile leaves what was there. `NotALog` says from which place on the bytes are no log.
    pub fn open(alloc: Global, disk: D) -> Result<Log<D>, OpenRefused<D>>
        ensures read { IsTrue (D.tells disk)
            → IfOk result (λ log. read_log (D.seen disk) ≡ Ok (⟦<Log<D> as EntryLog>⟧.listed log)) }
        ensures refused { IsTrue (D.tells disk)
            → IfErr result (λ refused. Refuses refused.fault (read_log (D.seen disk))) }
        ensures whole { IfOk result (λ log. IsFalse (⟦<Log<D> as EntryLog>⟧.broken log)) }
        ensures any_moment { IsTrue (D.tells disk) → IfOk result (λ log.
            AddsNothing (D.moment disk) (⟦<Log<D> as EntryLog>⟧.moment log)
            (Openings (D.left_since disk)) (⟦<Log<D> as EntryLog>⟧.opens_since log)) }
        ensures unbounded { D.passes disk ≡ None
            → IfOk result (λ log. ⟦<Log<D> as EntryLog>⟧.passes log ≡ None) }
        ensures tells { IfOk result (λ log. ⟦<Log<D> as EntryLog>⟧.tells log ≡ D.tells disk) }
        ensures later { IfOk result (λ log. D.faults disk ≤ ⟦<Log<D> as EntryLog>⟧.faults log) }
        ensures disk_fault { IfErr result (λ refused. refused.fault ≡ DiskFault
            → Rose (D.faults disk) (D.faults refused.disk)) }
        ensures refused_later { IfErr result (λ refused. D.faults disk ≤ D.faults refused.disk) }
        ensures refused_tells { IfErr result (λ refused. D.tells refused.disk ≡ D.tells disk) }
        ensures refused_same { IsTrue (D.tells disk)
            → IfErr result (λ refused. D.seen refused.disk ≡ D.seen disk) }
        ensures refused_any_moment { IsTrue (D.tells disk) → IfErr result (λ refused.
            AddsNothing (D.moment disk) (D.moment refused.disk)
            (D.left_since disk) (D.left_since refused.disk)) }
    {
        let mut disk = disk;
        match read_in(alloc, &mut disk) {
            Ok(found) => Ok(Log {
                alloc,
                disk,
                entries: found.entries,
                gate: found.gate,
                broken: false,
            }),
            Err(fault) => Err(OpenRefused { fault, disk }),
        }
    }

    /// The disk, as it is. What a crash may leave of it opens as the log would.
    pub fn into_disk(self) -> D
        ensures opens { IsTrue (D.tells result) → IsFalse (⟦<Log<D> as EntryLog>⟧.broken self)
            → read_log (D.seen result) ≡ Ok (⟦<Log<D> as EntryLog>⟧.listed self) }
        ensures opens_since { (t : ℕ) (image : List ℕ) → D.left_since result t image
            → ⟦<Log<D> as EntryLog>⟧.opens_since self t (read_log image) }
        ensures tells { D.tells result ≡ ⟦<Log<D> as EntryLog>⟧.tells self }
        ensures moment { D.moment result ≡ ⟦<Log<D> as EntryLog>⟧.moment self }
        ensures seen { D.seen result ≡ ⟦<Log<D> as EntryLog>⟧.seen self }
        ensures reads { read_log (D.seen result) ≡ ⟦<Log<D> as EntryLog>⟧.reads self }
        ensures passes { D.passes result ≡ ⟦<Log<D> as EntryLog>⟧.passes self }
        ensures faults { D.faults result ≡ ⟦<Log<D> as EntryLog>⟧.faults self }
    {
        self.disk
    }
}

impl<D: Disk> EntryLog for Log<D> {
    ghost use Rattle.cam_log.specs.Rest.{opens, opens_alone};
    ghost use Rattle.std.proofs.Common.{arith, refl};

    ghost tells = { λ log. D.tells log.disk };

    ghost listed = { λ log. log.entries };

    ghost broken = { λ log. log.broken };

    ghost moment = { λ log. D.moment log.disk };

    ghost opens_since = { λ log. Openings (D.left_since log.disk) };

    ghost reads = { λ log. read_log (D.seen log.disk) };

    ghost faults = { λ log. D.faults log.disk };

    ghost faults_within = { λ log. D.faults_within log.disk };

    ghost seen = { λ log. D.seen log.disk };

    ghost passes = { λ log. D.passes log.disk };

    ghost is_written = { λ old _ new. IsAppended new.entries (D.seen old.disk) (D.seen new.disk) };

    ghost reads_now = { λ log h. (D.seen log.disk, D.counts_now log.disk (D.moment log.disk) (D.seen log.disk) h (Prim.omega arith) (D.kept log.disk h), refl) };

    ghost at_rest = { λ log opened h whole o. opens_alone log.entries log.gate (D.seen log.disk) o.0 (D.may_leave log.disk) opened (Prim.omega (arith, log.within)) (log.at_rest h whole) (log.durable h whole) (D.only_now log.disk o.0 h o.1) o.2 };

    ghost counts = { λ log t h whole le. (D.seen log.disk, D.counts_now log.disk t (D.seen log.disk) h le (D.kept log.disk h), opens log.entries log.gate (D.seen log.disk) (Prim.omega (arith, log.within)) (log.at_rest h whole)) };

    ghost counts_now = { λ log t opened h le o. (o.0, D.counts_now log.disk t o.0 h le (D.only_now log.disk o.0 h o.1), o.2) };

    fn append(&mut self, entry: &[u8]) -> Result<(), LogFault> {
        let behind = appended(self.alloc, entry)?;
        self.entries.push(entry_of(self.alloc, entry)?)?;
        self.broken = true;
        if let Err(error) = write_entry(&mut self.disk, self.gate, &behind) {
            drop_newest(&mut self.entries, self.alloc);
            return Err(error.into());
        }
        self.gate += behind.len() as u64;
        self.broken = false;
        Ok(())
    }

    fn entries(&self) -> &Entries {
        &self.entries
    }

    fn is_broken(&self) -> bool {
        self.broken
    }
}
