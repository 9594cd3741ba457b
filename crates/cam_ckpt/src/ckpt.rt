// A log with checkpoints over a disk.
ghost use Rattle.std.specs.Prelude.{◌≡◌, ◌+◌, ◌≤◌, ◌<◌, ◌^◌, [], ℕ, List, length, IsTrue, IsFalse, IfOk, IfErr, Ok, Some, None};
ghost use Rattle.cam_base.specs.Causes.{Rose};
ghost use Rattle.cam_disk.specs.Disk.{Only};
ghost use Rattle.cam_log.specs.declared.fault.LogFault.TheVariants.{DiskFault, NotALog};
ghost use Rattle.cam_log.specs.Faults.{Refuses};
ghost use Rattle.cam_log.specs.Moments.{AddsNothing};
ghost use Rattle.cam_log.specs.Spent.{Spent};
ghost use Rattle.cam_log.specs.Image.{appended};
ghost use Rattle.cam_ckpt.specs.Image.{formatted, other_slot, segment, numbers};
ghost use Rattle.cam_ckpt.specs.Written.{IsAppended, IsReplaced};
ghost use Rattle.cam_ckpt.specs.Steps.{closing_by};
ghost use Rattle.cam_ckpt.specs.Reading.{generation_of, read_ckpt};
ghost use Rattle.cam_ckpt.specs.Moments.{Openings};
ghost use Rattle.cam_ckpt.specs.Opening.{IsOpened};

use crate::checkpoint_log::CheckpointLog;
use crate::device::{write_entry, write_list};
use crate::image::{FIRST_SEGMENT, FIRST_SLOT, numbers, other_slot, segment};
use crate::parts::{copy_of, format_disk, new_start, read_in};
use crate::reading::Opened;
use cam_disk::Disk;
use cam_log::{Entries, EntryLog, LogFault, OpenRefused, appended, drop_newest, entry_of};
use std::alloc::Global;

/// A log with checkpoints over a disk. While it is not broken, a crash leaves exactly its entries.
#[derive(Drop)]
pub struct Ckpt<D: Disk> {
    alloc: Global,
    pub(crate) disk: D,
    /// The entries, and where they are.
    state: Opened,
    broken: bool,
    ghost opened: { IsTrue (D.tells disk) → IsFalse broken → IsOpened (D.seen disk) state },
    ghost durable: { IsTrue (D.tells disk) → IsFalse broken
        → Only (D.seen disk) (D.may_leave disk) },
    ghost within: { state.gate < 2 ^ 63 },
    ghost slot: { state.place < 2 ^ 32 },
}

impl<D: Disk> Ckpt<D> {
    /// A log without entries, whatever the disk held. `NotALog` is never the fault.
    pub fn format(alloc: Global, disk: D) -> Result<Ckpt<D>, OpenRefused<D>>
        ensures empty { IfOk result (λ log. ⟦<Ckpt<D> as EntryLog>⟧.listed log ≡ []) }
        ensures whole { IfOk result (λ log. IsFalse (⟦<Ckpt<D> as EntryLog>⟧.broken log)) }
        ensures bytes { IsTrue (D.tells disk)
            → IfOk result (λ log. ⟦<Ckpt<D> as EntryLog>⟧.seen log ≡ formatted) }
        ensures generation { IfOk result (λ log. ⟦<Ckpt<D> as EntryLog>⟧.generation log ≡ 1) }
        // It takes three calls of the disk.
        ensures spent { IfOk result
            (λ log. Spent 3 (D.passes disk) (⟦<Ckpt<D> as EntryLog>⟧.passes log)) }
        ensures tells { IfOk result (λ log. ⟦<Ckpt<D> as EntryLog>⟧.tells log ≡ D.tells disk) }
        ensures time { IsTrue (D.tells disk)
            → IfOk result (λ log. D.moment disk ≤ ⟦<Ckpt<D> as EntryLog>⟧.moment log) }
        ensures later { IfOk result (λ log. D.faults disk ≤ ⟦<Ckpt<D> as EntryLog>⟧.faults log) }
        ensures faults_within { IfOk result
            (λ log. D.faults_within disk ≤ ⟦<Ckpt<D> as EntryLog>⟧.faults_within log) }
        ensures disk_fault { IfErr result (λ refused. refused.fault ≡ DiskFault
            → Rose (D.faults disk) (D.faults refused.disk)) }
        // A disk that does all calls fails by a call that it did.
        ensures failed_within { D.passes disk ≡ None → IfErr result (λ refused.
            refused.fault ≡ DiskFault
            → Rose (D.faults_within disk) (D.faults_within refused.disk)) }
        ensures within_later { IfErr result
            (λ refused. D.faults_within disk ≤ D.faults_within refused.disk) }
        ensures is_a_log { IfErr result (λ refused. (at : ℕ) → refused.fault ≡ NotALog at → ⊥) }
        ensures refused_later { IfErr result (λ refused. D.faults disk ≤ D.faults refused.disk) }
        ensures refused_tells { IfErr result (λ refused. D.tells refused.disk ≡ D.tells disk) }
    {
        let mut disk = disk;
        match format_disk(&mut disk) {
            Ok(()) => Ok(Ckpt {
                alloc,
                disk,
                state: Opened {
                    entries: Entries::new(alloc),
                    gate: FIRST_SEGMENT,
                    place: FIRST_SLOT,
                    generation: 1,
                    start: FIRST_SEGMENT,
                    is_other_open: false,
                },
                broken: false,
            }),
            Err(error) => Err(OpenRefused {
                fault: error.into(),
                disk,
            }),
        }
    }

    /// Opens the log of a disk, as a crash or a log left it. It syncs the disk and reads it, and a crash
    /// meanwhile leaves what was there. `NotALog` says from which place on the bytes are no log.
    pub fn open(alloc: Global, disk: D) -> Result<Ckpt<D>, OpenRefused<D>>
        ensures read { IsTrue (D.tells disk)
            → IfOk result (λ log. read_ckpt (D.seen disk) ≡ Ok
            (⟦<Ckpt<D> as EntryLog>⟧.listed log)) }
        ensures refused { IsTrue (D.tells disk)
            → IfErr result (λ refused. Refuses refused.fault (read_ckpt (D.seen disk))) }
        ensures whole { IfOk result (λ log. IsFalse (⟦<Ckpt<D> as EntryLog>⟧.broken log)) }
        ensures any_moment { IsTrue (D.tells disk) → IfOk result (λ log.
            AddsNothing (D.moment disk) (⟦<Ckpt<D> as EntryLog>⟧.moment log)
            (Openings (D.left_since disk)) (⟦<Ckpt<D> as EntryLog>⟧.opens_since log)) }
        ensures generation { IsTrue (D.tells disk) → IfOk result (λ log.
            generation_of (D.seen disk) ≡ Some (⟦<Ckpt<D> as EntryLog>⟧.generation log)) }
        ensures unbounded { D.passes disk ≡ None
            → IfOk result (λ log. ⟦<Ckpt<D> as EntryLog>⟧.passes log ≡ None) }
        ensures tells { IfOk result (λ log. ⟦<Ckpt<D> as EntryLog>⟧.tells log ≡ D.tells disk) }
        ensures later { IfOk result (λ log. D.faults disk ≤ ⟦<Ckpt<D> as EntryLog>⟧.faults log) }
        ensures disk_fault { IfErr result (λ refused. refused.fault ≡ DiskFault
            → Rose (D.faults disk) (D.faults refused.disk)) }
        ensures refused_later { IfErr result (λ refused. D.faults disk ≤ D.faults refused.disk) }
        ensures refused_tells { IfErr result (λ refused. D.tells refused.disk ≡ D.tells disk) }
        ensures refused_same { IsTrue (D.tells disk)
            → IfErr result (λ refused. D.seen refused.disk ≡ D.seen disk) }
        ensures refused_any_moment { IsTrue (D.tells disk) → IfErr result (λ refused.
            AddsNothing (D.moment disk) (D.moment refused.disk)
            (D.left_since disk) (D.left_since refused.disk)) }
    {
        let mut disk = disk;
        match read_in(alloc, &mut disk) {
            Ok(state) => Ok(Ckpt {
                alloc,
                disk,
                state,
                broken: false,
            }),
            Err(fault) => Err(OpenRefused { fault, disk }),
        }
    }

    /// The disk, to look at.
    pub fn disk(&self) -> &D
        ensures { D.faults_within result.now ≡ ⟦<Ckpt<D> as EntryLog>⟧.faults_within self.now }
    {
        &self.disk
    }

    /// The disk, as it is. What a crash may leave of it opens as the log would.
    pub fn into_disk(self) -> D
        ensures opens { IsTrue (D.tells result) → IsFalse (⟦<Ckpt<D> as EntryLog>⟧.broken self)
            → read_ckpt (D.seen result) ≡ Ok (⟦<Ckpt<D> as EntryLog>⟧.listed self) }
        ensures opens_since { (t : ℕ) (image : List ℕ) → D.left_since result t image
            → ⟦<Ckpt<D> as EntryLog>⟧.opens_since self t (read_ckpt image) }
        ensures tells { D.tells result ≡ ⟦<Ckpt<D> as EntryLog>⟧.tells self }
        ensures moment { D.moment result ≡ ⟦<Ckpt<D> as EntryLog>⟧.moment self }
        ensures seen { D.seen result ≡ ⟦<Ckpt<D> as EntryLog>⟧.seen self }
        ensures reads { read_ckpt (D.seen result) ≡ ⟦<Ckpt<D> as EntryLog>⟧.reads self }
        ensures disk_generation { generation_of (D.seen result)
            ≡ ⟦<Ckpt<D> as CheckpointLog>⟧.disk_generation self }
        ensures generation { IsTrue (D.tells result) → IsFalse (⟦<Ckpt<D> as EntryLog>⟧.broken self)
            → generation_of (D.seen result) ≡ Some (⟦<Ckpt<D> as EntryLog>⟧.generation self) }
        ensures passes { D.passes result ≡ ⟦<Ckpt<D> as EntryLog>⟧.passes self }
        ensures faults { D.faults result ≡ ⟦<Ckpt<D> as EntryLog>⟧.faults self }
        ensures faults_within { D.faults_within result
            ≡ ⟦<Ckpt<D> as EntryLog>⟧.faults_within self }
    {
        self.disk
    }
}

impl<D: Disk> EntryLog for Ckpt<D> {
    ghost use Rattle.cam_ckpt.specs.Again.{logs_are_read, opens_alone, rests_of};
    ghost use Rattle.cam_ckpt.specs.Opening.{standing_of};
    ghost use Rattle.std.proofs.Common.{arith, refl};

    ghost tells = { λ log. D.tells log.disk };

    ghost listed = { λ log. log.state.entries };

    ghost broken = { λ log. log.broken };

    ghost moment = { λ log. D.moment log.disk };

    ghost opens_since = { λ log. Openings (D.left_since log.disk) };

    ghost reads = { λ log. read_ckpt (D.seen log.disk) };

    ghost faults = { λ log. D.faults log.disk };

    ghost faults_within = { λ log. D.faults_within log.disk };

    ghost seen = { λ log. D.seen log.disk };

    ghost passes = { λ log. D.passes log.disk };

    ghost generation = { λ log. log.state.generation };

    ghost is_written = { λ old entry new. IsAppended old.state.gate (appended entry) (D.seen old.disk) (D.seen new.disk) };

    ghost reads_now = { λ log h. (D.seen log.disk, D.counts_now log.disk (D.moment log.disk) (D.seen log.disk) h (Prim.omega arith) (D.kept log.disk h), refl) };

    ghost at_rest = { λ log opened h whole o. opens_alone (standing_of log.state) (D.seen log.disk) o.0 (D.may_leave log.disk) opened (rests_of (standing_of log.state) (D.seen log.disk) (log.opened h whole).rests) (log.durable h whole) (D.only_now log.disk o.0 h o.1) o.2 };

    ghost counts = { λ log t h whole le. (D.seen log.disk, D.counts_now log.disk t (D.seen log.disk) h le (D.kept log.disk h), logs_are_read (standing_of log.state) (D.seen log.disk) (rests_of (standing_of log.state) (D.seen log.disk) (log.opened h whole).rests)) };

    ghost counts_now = { λ log t opened h le o. (o.0, D.counts_now log.disk t o.0 h le (D.only_now log.disk o.0 h o.1), o.2) };

    fn append(&mut self, entry: &[u8]) -> Result<(), LogFault> {
        let behind = appended(self.alloc, entry)?;
        self.state.entries.push(entry_of(self.alloc, entry)?)?;
        self.broken = true;
        if let Err(error) = write_entry(&mut self.disk, self.state.gate, &behind) {
            drop_newest(&mut self.state.entries, self.alloc);
            return Err(error.into());
        }
        self.state.gate += behind.len() as u64;
        self.broken = false;
        Ok(())
    }

    fn entries(&self) -> &Entries {
        &self.state.entries
    }

    fn is_broken(&self) -> bool {
        self.broken
    }
}

impl<D: Disk> CheckpointLog for Ckpt<D> {
    ghost use Rattle.cam_ckpt.specs.Again.{generation_found, rests_of};
    ghost use Rattle.cam_ckpt.specs.Opening.{standing_of, start_for};

    ghost end_of = { λ log entries. start_for log.state entries + length (segment entries) };

    ghost is_rewritten = { λ old entries new. IsReplaced (other_slot old.state.place)
        (closing_by old.state.is_other_open) new.state.start (segment entries)
        (numbers new.state.generation new.state.start) (D.seen old.disk) (D.seen new.disk) };

    ghost disk_generation = { λ log. generation_of (D.seen log.disk) };

    ghost generation_at_rest = { λ log h whole. generation_found (standing_of log.state)
        (D.seen log.disk)
        (rests_of (standing_of log.state) (D.seen log.disk) (log.opened h whole).rests) };

    fn can_replace(&self) -> bool {
        !self.broken && self.state.generation < u64::MAX
    }

    fn replace(&mut self, entries: &Entries) -> Result<(), LogFault> {
        let text = segment(self.alloc, entries)?;
        let copy = copy_of(self.alloc, entries)?;
        let start = new_start(self.state.start, self.state.gate, text.len());
        let generation = self.state.generation + 1;
        let behind = numbers(self.alloc, generation, start)?;
        let other = other_slot(self.state.place);
        self.broken = true;
        let is_open = self.state.is_other_open;
        if let Err(error) = write_list(&mut self.disk, other, is_open, start, &text, &behind) {
            return Err(error.into());
        }
        self.state = Opened {
            entries: copy,
            gate: start + text.len() as u64 - 1,
            place: other,
            generation,
            start,
            is_other_open: true,
        };
        self.broken = false;
        Ok(())
    }

    fn reopen(&mut self) -> Result<(), LogFault> {
        self.broken = true;
        self.state = read_in(self.alloc, &mut self.disk)?;
        self.broken = false;
        Ok(())
    }

    fn spoil(&mut self) {
        self.broken = true;
        self.disk.spoil();
    }
}
