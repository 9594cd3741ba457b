// The device calls of a log.
ghost use Rattle.std.specs.Prelude.{◌≡◌, ◌⊎◌, ◌+◌, ◌≤◌, ◌<◌, ◌^◌, ◌++◌, ◌∷◌, [], ℕ, List, length, IsTrue, OnOk, IfOk, IfErr, IsErrOf, Ok, Some, None};
ghost use Rattle.cam_base.specs.Causes.{Rose};
ghost use Rattle.cam_disk.specs.declared.error.DiskError.TheVariants.{Failed};
ghost use Rattle.cam_log.specs.declared.fault.LogFault.TheVariants.{DiskFault};
ghost use Rattle.cam_log.specs.Faults.{Refuses};
ghost use Rattle.cam_disk.specs.Disk.{Only, Holds, Follows, Same, FailsWithCause};
ghost use Rattle.cam_log.specs.Image.{appended, IsAppended};
ghost use Rattle.cam_disk.specs.Stop.{Untouched};
ghost use Rattle.cam_log.specs.Spent.{Spent};
ghost use Rattle.cam_log.specs.CutOff.{IsCutOff, ForcedBy, entries_after};
ghost use Rattle.cam_log.specs.Moments.{IsAtRest, Grows, AddsNothing, Written, IsBeforeOrAfter};
ghost use Rattle.cam_log.specs.Reading.{read_log};

use crate::fault::LogFault;
use crate::image::OPEN;
use crate::reading::{Found, read_entries};
use cam_base::NoMemory;
use cam_disk::{Disk, DiskError};
use std::alloc::Global;

/// Writes and syncs. At `Ok` a crash leaves the bytes as they are then.
#[tactic(auto, using(crate::specs::Spent::spent_one, crate::specs::Spent::spent_then, crate::specs::Spent::stops_at_none, crate::specs::Spent::none_left))]
pub fn force<D: Disk>(disk: &mut D, at: u64, bytes: &[u8]) -> Result<(), DiskError>
    requires { IsTrue (D.tells disk.old) → at ≤ length (D.seen disk.old) }
    ensures written { IsTrue (D.tells disk.old)
        → OnOk result (Holds (D.seen disk.old) at bytes.now (D.seen disk.new)) }
    ensures durable { IsTrue (D.tells disk.old)
        → OnOk result (Only (D.seen disk.new) (D.may_leave disk.new)) }
    ensures limit { OnOk result (at + length bytes.now ≤ 2 ^ 62) }
    ensures spent { OnOk result (Spent 2 (D.passes disk.old) (D.passes disk.new)) }
    ensures stopped { D.passes disk.old ≡ Some 0 → Untouched (D.moment disk.old) (D.moment disk.new)
        (D.left_since disk.old) (D.left_since disk.new) (D.seen disk.old) (D.seen disk.new) }
    ensures tells { D.tells disk.new ≡ D.tells disk.old }
    ensures any_moment { IsTrue (D.tells disk.old) → Grows (D.moment disk.old) (D.moment disk.new)
        (D.left_since disk.old) (D.left_since disk.new)
        (Written at (length bytes.now) (D.may_leave disk.old)) }
    // It fails because a call that was done did, or because it was cut off.
    ensures cut_off { IsErrOf result Failed
        → Rose (D.faults_within disk.old) (D.faults_within disk.new)
        ⊎ IsCutOff 2 (D.passes disk.old) (D.passes disk.new) (λ calls. IsTrue (D.tells disk.old)
        → ForcedBy calls at bytes.now (D.seen disk.old) (D.seen disk.new)) }
    ensures unbounded { D.passes disk.old ≡ None → D.passes disk.new ≡ None }
    ensures cause { FailsWithCause (D.faults disk.old) (D.faults disk.new) result }
    ensures faults_within { D.faults_within disk.old ≤ D.faults_within disk.new }
{
    disk.write_at(at, bytes)?;
    disk.sync()
}

/// The four device calls of an append: the entry goes after its closed gate, and then the gate is opened.
#[tactic(auto, using(crate::specs::Spent::spent_then, crate::specs::Spent::none_spent))]
pub fn write_entry<D: Disk>(disk: &mut D, gate: u64, behind: &[u8]) -> Result<(), DiskError>
    requires within { gate < 2 ^ 63 }
    requires place { IsTrue (D.tells disk.old) → gate + 1 ≤ length (D.seen disk.old) }
    requires only { IsTrue (D.tells disk.old) → Only (D.seen disk.old) (D.may_leave disk.old) }
    ensures at_rest { IsTrue (D.tells disk.old) → OnOk result (
        (entries : List (List ℕ)) (entry : List ℕ) → behind.now ≡ appended entry
        → IsAtRest entries gate (D.seen disk.old)
        → IsAtRest (entries ++ entry ∷ []) (gate + length behind.now) (D.seen disk.new)) }
    ensures durable { IsTrue (D.tells disk.old)
        → OnOk result (Only (D.seen disk.new) (D.may_leave disk.new)) }
    ensures bytes { IsTrue (D.tells disk.old) → OnOk result (
        (entries : List (List ℕ)) (entry : List ℕ) → behind.now ≡ appended entry
        → IsAtRest entries gate (D.seen disk.old)
        → IsAppended (entries ++ entry ∷ []) (D.seen disk.old) (D.seen disk.new)) }
    ensures limit { OnOk result (gate + length behind.now ≤ 2 ^ 62) }
    ensures spent { OnOk result (Spent 4 (D.passes disk.old) (D.passes disk.new)) }
    ensures stopped { D.passes disk.old ≡ Some 0 → Untouched (D.moment disk.old) (D.moment disk.new)
        (D.left_since disk.old) (D.left_since disk.new) (D.seen disk.old) (D.seen disk.new) }
    ensures tells { D.tells disk.new ≡ D.tells disk.old }
    ensures any_moment { IsTrue (D.tells disk.old) → (entries : List (List ℕ)) (entry : List ℕ)
        → behind.now ≡ appended entry → IsAtRest entries gate (D.seen disk.old)
        → Grows (D.moment disk.old) (D.moment disk.new)
        (D.left_since disk.old) (D.left_since disk.new)
        (λ image. IsBeforeOrAfter entries entry (read_log image)) }
    ensures cut_off { IsErrOf result Failed
        → Rose (D.faults_within disk.old) (D.faults_within disk.new)
        ⊎ IsCutOff 4 (D.passes disk.old) (D.passes disk.new) (λ calls. IsTrue (D.tells disk.old)
        → (entries : List (List ℕ)) (entry : List ℕ) → behind.now ≡ appended entry
        → IsAtRest entries gate (D.seen disk.old)
        → read_log (D.seen disk.new) ≡ Ok (entries_after calls entries entry)) }
    ensures unbounded { D.passes disk.old ≡ None → D.passes disk.new ≡ None }
    ensures cause { FailsWithCause (D.faults disk.old) (D.faults disk.new) result }
    ensures faults_within { D.faults_within disk.old ≤ D.faults_within disk.new }
{
    force(disk, gate + 1, behind)?;
    force(disk, gate, &[OPEN])
}

/// How many bytes a disk is asked for at once.
const PIECE: usize = 4096;

/// Adds a piece to what was read.
fn add_piece(bytes: &mut Vec<u8>, piece: &[u8]) -> Result<(), NoMemory>
    ensures { OnOk result (bytes.new.items ≡ bytes.old.items ++ piece.now) }
{
    bytes.extend_from_slice(piece)?;
    Ok(())
}

/// All that a disk holds.
pub fn read_whole<D: Disk>(alloc: Global, disk: &mut D) -> Result<Vec<u8>, DiskError>
    ensures bytes { IsTrue (D.tells disk.old)
        → IfOk result (λ bytes. bytes.items ≡ D.seen disk.old) }
    ensures unbounded { D.passes disk.old ≡ None → D.passes disk.new ≡ None }
    ensures tells { D.tells disk.new ≡ D.tells disk.old }
    ensures seen { IsTrue (D.tells disk.old) → D.seen disk.new ≡ D.seen disk.old }
    ensures crash { IsTrue (D.tells disk.old)
        → Follows Same (D.may_leave disk.old) (D.may_leave disk.new) }
    ensures any_moment { IsTrue (D.tells disk.old)
        → AddsNothing (D.moment disk.old) (D.moment disk.new)
        (D.left_since disk.old) (D.left_since disk.new) }
    ensures cause { FailsWithCause (D.faults disk.old) (D.faults disk.new) result }
    ensures faults_within { D.faults_within disk.old ≤ D.faults_within disk.new }
{
    let mut bytes = Vec::new(alloc);
    let mut piece = [0u8; PIECE];
    loop {
        let count = disk.read(bytes.len() as u64, &mut piece)?;
        if count == 0 {
            return Ok(bytes);
        }
        add_piece(&mut bytes, &piece[..count])?;
    }
}

/// Reads a log from a disk, which is synced first: what is read is then what a crash leaves.
#[tactic(auto, using(crate::specs::Spent::none_left))]
pub fn read_in<D: Disk>(alloc: Global, disk: &mut D) -> Result<Found, LogFault>
    ensures read { IsTrue (D.tells disk.old)
        → IfOk result (λ found. read_log (D.seen disk.old) ≡ Ok found.entries) }
    ensures refused { IsTrue (D.tells disk.old)
        → IfErr result (λ fault. Refuses fault (read_log (D.seen disk.old))) }
    ensures at_rest { IsTrue (D.tells disk.old)
        → IfOk result (λ found. IsAtRest found.entries found.gate (D.seen disk.new)) }
    ensures durable { IsTrue (D.tells disk.old)
        → OnOk result (Only (D.seen disk.new) (D.may_leave disk.new)) }
    ensures within { IfOk result (λ found. found.gate < 2 ^ 63) }
    ensures unbounded { D.passes disk.old ≡ None → D.passes disk.new ≡ None }
    ensures tells { D.tells disk.new ≡ D.tells disk.old }
    ensures seen { IsTrue (D.tells disk.old) → D.seen disk.new ≡ D.seen disk.old }
    ensures any_moment { IsTrue (D.tells disk.old)
        → AddsNothing (D.moment disk.old) (D.moment disk.new)
        (D.left_since disk.old) (D.left_since disk.new) }
    ensures later { D.faults disk.old ≤ D.faults disk.new }
    ensures faults_within { D.faults_within disk.old ≤ D.faults_within disk.new }
    ensures disk_fault { IsErrOf result DiskFault → Rose (D.faults disk.old) (D.faults disk.new) }
{
    disk.sync()?;
    let bytes = read_whole(alloc, disk)?;
    read_entries(alloc, &bytes)
}
