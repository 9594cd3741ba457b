// A disk in memory.
ghost use Rattle.std.specs.Prelude.{◌<◌, ◌↔◌, refl, IfOk, IfErr, IsErrOf, Err, IsOk, ◌≡◌, ◌+◌, ◌≤◌, ◌^◌, true, [], ◌∷◌, ◌++◌, length, take, reverse, IsTrue, OnOk, OnErr};
ghost use Rattle.cam_base.specs.Causes.{Rose};
ghost use Rattle.cam_disk.specs.declared.call.Call.TheVariants.{Write, Resize, Sync};
ghost use Rattle.cam_disk.specs.declared.error.DiskError.TheVariants.{Failed, NoMemory as OutOfMemory};
ghost use Rattle.cam_disk.specs.Disk.{Only, Follows, Torn, Cut, Same, Holds, FailsWithCause, Reads};
ghost use Rattle.cam_disk.specs.Images.{held_after, is_record, written, IsImage, MayLeave, Onward, Unchanged, LeftSince, held_is_image, LeftSince-now, LeftSince-only};

use crate::call::Call;
use crate::disk::Disk;
use crate::error::DiskError;
use crate::limit::fits;
use crate::telling::TellingDisk;
use cam_base::NoMemory;
use std::alloc::Global;

/// A disk in memory. It keeps a record of its calls, and what a crash may leave follows from that.
/// It fails only at a write past 2^62 bytes.
#[derive(Drop)]
pub struct MemoryDisk {
    alloc: Global,
    bytes: Vec<u8>,
    calls: Vec<Call>,
    faults: u64,
    ghost held: { bytes.items ≡ held_after (reverse calls.items) },
    ghost placed: { IsTrue (is_record (reverse calls.items)) },
}

impl MemoryDisk {
    /// An empty disk.
    pub fn new(alloc: Global) -> MemoryDisk
        ensures seen { ⟦<MemoryDisk as Disk>⟧.seen result ≡ [] }
        ensures durable { Only [] (⟦<MemoryDisk as Disk>⟧.may_leave result) }
        ensures faults { ⟦<MemoryDisk as Disk>⟧.faults result ≡ 0 }
    {
        MemoryDisk {
            alloc,
            bytes: Vec::new(alloc),
            calls: Vec::new(alloc),
            faults: 0,
        }
    }

    /// How many bytes it holds.
    pub fn size(&self) -> u64
        ensures { result ≡ length (⟦<MemoryDisk as Disk>⟧.seen self.now) }
    {
        self.bytes.len() as u64
    }

    /// Whether a read at a place, with so much room, gives these bytes.
    pub(crate) fn gives(&self, at: u64, room: usize, bytes: &[u8]) -> bool
        ensures { IsTrue result
            ↔ Reads self.now.bytes.items at room (length bytes.now) bytes.now }
    {
        let held = &self.bytes[(at.min(self.bytes.len() as u64)) as usize..];
        bytes == &held[..room.min(held.len())]
    }

    /// Counts a fault of the file beside it.
    pub(crate) fn count_fault(&mut self)
        ensures rose { Rose self.old.faults self.new.faults }
        ensures later { self.old.faults ≤ self.new.faults }
        ensures bytes { self.new.bytes ≡ self.old.bytes }
        ensures calls { self.new.calls ≡ self.old.calls }
    {
        self.faults = self.faults.saturating_add(1);
    }
}

/// Writes over the bytes from a place on, and past the end, in the time of what is written. If memory
/// runs out, nothing changes.
fn put(held: &mut Vec<u8>, at: usize, bytes: &[u8]) -> Result<(), NoMemory>
    requires { at ≤ length held.old.items }
    ensures ok { OnOk result (held.new.items ≡ written held.old.items at bytes.now) }
    ensures err { OnErr result (held.new.items ≡ held.old.items) }
{
    let over = bytes.len().min(held.len() - at);
    held.extend_from_slice(&bytes[over..])?;
    held[at..at + over].copy_from_slice(&bytes[..over]);
    Ok(())
}

/// A copy of bytes.
fn copy_of(alloc: Global, bytes: &[u8]) -> Result<Vec<u8>, NoMemory>
    ensures { IfOk result (λ copy. copy.items ≡ bytes.now) }
{
    Ok(bytes.to_vec(alloc)?)
}

/// Adds a call to a record of calls.
fn note(calls: &mut Vec<Call>, call: Call) -> Result<(), NoMemory>
    ensures ok { OnOk result (calls.new.items ≡ calls.old.items ++ call ∷ []) }
    ensures err { OnErr result (calls.new.items ≡ calls.old.items) }
{
    calls.push(call)?;
    Ok(())
}

impl Disk for MemoryDisk {
    ghost tells = { λ d. true };

    ghost seen = { λ d. d.bytes.items };

    ghost may_leave = { λ d c. IsImage (reverse d.calls.items) c };

    ghost moment = { λ d. length d.calls.items };

    ghost left_since = { λ d t c. LeftSince d.calls.items t c };

    ghost faults = { λ d. d.faults };

    ghost faults_within = { λ d. d.faults };

    ghost kept = { λ d h. held_is_image d.calls.items d.held d.placed };

    ghost counts_now = { λ d t c h le now. LeftSince-now d.calls.items t c le now };

    ghost only_now = { λ d c h left. LeftSince-only d.calls.items c left };

    fn read(&mut self, at: u64, into: &mut [u8]) -> Result<usize, DiskError>
        ensures count { IfOk result (λ n. n ≤ length into.new) }
        ensures bytes { IfOk result
            (λ n. Reads self.old.bytes.items at (length into.new) n (take n into.new)) }
        ensures done { IsOk result }
        ensures same { self.new ≡ self.old }
    {
        let held = &self.bytes[(at.min(self.bytes.len() as u64)) as usize..];
        let count = into.len().min(held.len());
        into[..count].copy_from_slice(&held[..count]);
        Ok(count)
    }

    fn write_at(&mut self, at: u64, bytes: &[u8]) -> Result<(), DiskError>
        requires { at ≤ length self.old.bytes.items }
        ensures written { OnOk result
            (Holds self.old.bytes.items at bytes.now self.new.bytes.items) }
        ensures no_memory { IsErrOf result OutOfMemory
            → Unchanged self.old.bytes.items self.new.bytes.items self.old.calls.items
            self.new.calls.items }
        ensures limit { 2 ^ 62 < at + length bytes.now → result ≡ Err Failed }
        ensures crash { Follows (Torn at (length bytes.now))
            (MayLeave self.old.calls.items) (MayLeave self.new.calls.items) }
        ensures time { Onward self.old.calls.items self.new.calls.items }
        ensures cause { FailsWithCause self.old.faults self.new.faults result }
        ensures steady { at + length bytes.now ≤ 2 ^ 62 → self.new.faults ≡ self.old.faults }
        ensures fails { IsErrOf result Failed → 2 ^ 62 < at + length bytes.now }
    {
        if !fits(at, bytes) {
            self.faults = self.faults.saturating_add(1);
            return Err(DiskError::Failed);
        }
        let copy = copy_of(self.alloc, bytes)?;
        let count = self.calls.len();
        note(&mut self.calls, Call::Write { at, bytes: copy })?;
        if put(&mut self.bytes, at as usize, bytes).is_err() {
            self.calls.truncate(count);
            return Err(DiskError::NoMemory);
        }
        Ok(())
    }

    fn cut(&mut self, size: u64) -> Result<(), DiskError>
        requires { size ≤ length self.old.bytes.items }
        ensures cut { OnOk result (self.new.bytes.items ≡ take size self.old.bytes.items) }
        ensures no_memory { IsErrOf result OutOfMemory
            → Unchanged self.old.bytes.items self.new.bytes.items self.old.calls.items
            self.new.calls.items }
        ensures crash { Follows (Cut size) (MayLeave self.old.calls.items)
            (MayLeave self.new.calls.items) }
        ensures time { Onward self.old.calls.items self.new.calls.items }
        ensures cause { FailsWithCause self.old.faults self.new.faults result }
        ensures steady { self.new.faults ≡ self.old.faults }
        ensures fails { IfErr result (λ error. error ≡ OutOfMemory) }
    {
        note(&mut self.calls, Call::Resize { size })?;
        self.bytes.truncate(size as usize);
        Ok(())
    }

    fn sync(&mut self) -> Result<(), DiskError>
        ensures durable { OnOk result (Only self.old.bytes.items (MayLeave self.new.calls.items)) }
        ensures seen { self.new.bytes.items ≡ self.old.bytes.items }
        ensures crash { Follows Same (MayLeave self.old.calls.items)
            (MayLeave self.new.calls.items) }
        ensures time { Onward self.old.calls.items self.new.calls.items }
        ensures cause { FailsWithCause self.old.faults self.new.faults result }
        ensures steady { self.new.faults ≡ self.old.faults }
        ensures fails { IfErr result (λ error. error ≡ OutOfMemory) }
    {
        note(&mut self.calls, Call::Sync)?;
        Ok(())
    }

    fn spoil(&mut self)
        ensures same { self.new ≡ self.old }
    {}
}

impl TellingDisk for MemoryDisk {
    ghost always = { λ _. refl };

    fn failures(&self) -> u64 {
        self.faults
    }
}
