// The device calls of a log with checkpoints.
ghost use Rattle.std.specs.Prelude.{◌≡◌, ◌⊎◌, ◌+◌, ◌≤◌, ◌<◌, ◌^◌, ℕ, List, length, IsTrue, OnOk, IsErrOf, Ok, Some, None};
ghost use Rattle.cam_base.specs.Causes.{Rose};
ghost use Rattle.cam_disk.specs.declared.error.DiskError.TheVariants.{Failed};
ghost use Rattle.cam_disk.specs.Disk.{Only, Holds, FailsWithCause};
ghost use Rattle.cam_log.specs.Image.{appended};
ghost use Rattle.cam_disk.specs.Stop.{Untouched};
ghost use Rattle.cam_log.specs.Spent.{Spent};
ghost use Rattle.cam_log.specs.CutOff.{IsCutOff, entries_after};
ghost use Rattle.cam_ckpt.specs.Written.{IsAppended, IsReplaced};
ghost use Rattle.cam_log.specs.Moments.{Grows, Written, IsBeforeOrAfter};
ghost use Rattle.cam_ckpt.specs.Image.{Standing, gate_of, other_slot, with_entry, with_entries};
ghost use Rattle.cam_ckpt.specs.Reading.{read_ckpt};
ghost use Rattle.cam_ckpt.specs.Opening.{IsMove, SameGate};
ghost use Rattle.cam_ckpt.specs.Steps.{closing_by};
ghost use Rattle.cam_ckpt.specs.Moments.{IsAtRest, IsOldOrNew, WrittenTwice};

use cam_disk::{Disk, DiskError};
use cam_log::{CLOSED, OPEN, force};

/// The four device calls of an append: the entry goes after its closed gate, and then the gate is opened.
#[tactic(auto, using(cam_log::specs::Spent::spent_then, cam_log::specs::Spent::none_spent))]
pub fn write_entry<D: Disk>(disk: &mut D, gate: u64, behind: &[u8]) -> Result<(), DiskError>
    requires within { gate < 2 ^ 63 }
    requires place { IsTrue (D.tells disk.old) → gate + 1 ≤ length (D.seen disk.old) }
    requires only { IsTrue (D.tells disk.old) → Only (D.seen disk.old) (D.may_leave disk.old) }
    ensures at_rest { IsTrue (D.tells disk.old) → OnOk result (
        (s : Standing) (entry : List ℕ) → behind.now ≡ appended entry → gate ≡ gate_of s
        → IsAtRest s (D.seen disk.old) → IsAtRest (with_entry s entry) (D.seen disk.new)
        × SameGate (other_slot s.place) (D.seen disk.old) (D.seen disk.new)) }
    ensures durable { IsTrue (D.tells disk.old)
        → OnOk result (Only (D.seen disk.new) (D.may_leave disk.new)) }
    ensures bytes { IsTrue (D.tells disk.old)
        → OnOk result (IsAppended gate behind.now (D.seen disk.old) (D.seen disk.new)) }
    ensures limit { OnOk result (gate + length behind.now ≤ 2 ^ 62) }
    ensures spent { OnOk result (Spent 4 (D.passes disk.old) (D.passes disk.new)) }
    ensures stopped { D.passes disk.old ≡ Some 0 → Untouched (D.moment disk.old) (D.moment disk.new)
        (D.left_since disk.old) (D.left_since disk.new) (D.seen disk.old) (D.seen disk.new) }
    ensures tells { D.tells disk.new ≡ D.tells disk.old }
    ensures any_moment { IsTrue (D.tells disk.old) → (s : Standing) (entry : List ℕ)
        → behind.now ≡ appended entry → gate ≡ gate_of s
        → IsAtRest s (D.seen disk.old) → Grows (D.moment disk.old) (D.moment disk.new)
        (D.left_since disk.old) (D.left_since disk.new)
        (λ image. IsBeforeOrAfter s.entries entry (read_ckpt image)) }
    // It fails because a call that was done did, or because it was cut off.
    ensures cut_off { IsErrOf result Failed
        → Rose (D.faults_within disk.old) (D.faults_within disk.new)
        ⊎ IsCutOff 4 (D.passes disk.old) (D.passes disk.new) (λ calls. IsTrue (D.tells disk.old)
        → (s : Standing) (entry : List ℕ) → behind.now ≡ appended entry → gate ≡ gate_of s
        → IsAtRest s (D.seen disk.old)
        → read_ckpt (D.seen disk.new) ≡ Ok (entries_after calls s.entries entry)) }
    ensures unbounded { D.passes disk.old ≡ None → D.passes disk.new ≡ None }
    ensures cause { FailsWithCause (D.faults disk.old) (D.faults disk.new) result }
    ensures faults_within { D.faults_within disk.old ≤ D.faults_within disk.new }
{
    force(disk, gate + 1, behind)?;
    force(disk, gate, &[OPEN])
}

/// Writes twice and syncs, which makes three device calls.
#[tactic(auto, using(cam_log::specs::Spent::spent_one, cam_log::specs::Spent::spent_then, cam_log::specs::Spent::none_left))]
fn force_two<D: Disk>(
    disk: &mut D,
    at: u64,
    bytes: &[u8],
    second: u64,
    more: &[u8],
) -> Result<(), DiskError>
    requires place { IsTrue (D.tells disk.old) → at ≤ length (D.seen disk.old) }
    requires second { IsTrue (D.tells disk.old) → second ≤ length (D.seen disk.old) }
    ensures written { IsTrue (D.tells disk.old) → OnOk result ((mid : List ℕ)
        × Holds (D.seen disk.old) at bytes.now mid × Holds mid second more.now (D.seen disk.new)) }
    ensures durable { IsTrue (D.tells disk.old)
        → OnOk result (Only (D.seen disk.new) (D.may_leave disk.new)) }
    ensures limit { OnOk result (at + length bytes.now ≤ 2 ^ 62) }
    ensures spent { OnOk result (Spent 3 (D.passes disk.old) (D.passes disk.new)) }
    ensures tells { D.tells disk.new ≡ D.tells disk.old }
    ensures any_moment { IsTrue (D.tells disk.old) → Grows (D.moment disk.old) (D.moment disk.new)
        (D.left_since disk.old) (D.left_since disk.new)
        (WrittenTwice at (length bytes.now) second (length more.now) (D.may_leave disk.old)) }
    ensures unbounded { D.passes disk.old ≡ None → D.passes disk.new ≡ None }
    ensures cause { FailsWithCause (D.faults disk.old) (D.faults disk.new) result }
    ensures faults_within { D.faults_within disk.old ≤ D.faults_within disk.new }
{
    disk.write_at(at, bytes)?;
    disk.write_at(second, more)?;
    disk.sync()
}

/// The first two device calls of a replacement: the other slot's gate is closed, if it is open.
fn close_other<D: Disk>(disk: &mut D, other: u64, is_open: bool) -> Result<(), DiskError>
    requires place { IsTrue (D.tells disk.old) → other ≤ length (D.seen disk.old) }
    ensures written { IsTrue (D.tells disk.old)
        → OnOk result (Holds (D.seen disk.old) other (closing_by is_open) (D.seen disk.new)) }
    ensures spent { OnOk result (Spent 2 (D.passes disk.old) (D.passes disk.new)) }
    ensures stopped { D.passes disk.old ≡ Some 0 → Untouched (D.moment disk.old) (D.moment disk.new)
        (D.left_since disk.old) (D.left_since disk.new) (D.seen disk.old) (D.seen disk.new) }
    ensures durable { IsTrue (D.tells disk.old)
        → OnOk result (Only (D.seen disk.new) (D.may_leave disk.new)) }
    ensures tells { D.tells disk.new ≡ D.tells disk.old }
    ensures any_moment { IsTrue (D.tells disk.old) → Grows (D.moment disk.old) (D.moment disk.new)
        (D.left_since disk.old) (D.left_since disk.new)
        (Written other (length (closing_by is_open)) (D.may_leave disk.old)) }
    ensures unbounded { D.passes disk.old ≡ None → D.passes disk.new ≡ None }
    ensures cause { FailsWithCause (D.faults disk.old) (D.faults disk.new) result }
    ensures faults_within { D.faults_within disk.old ≤ D.faults_within disk.new }
{
    if is_open {
        force(disk, other, &[CLOSED])
    } else {
        force(disk, other, &[])
    }
}

/// The seven device calls of a replacement. The other slot's gate is closed; the new segment is written, and
/// what the other slot has after its gate; then that gate is opened.
#[tactic(auto, using(cam_log::specs::Spent::spent_then, cam_log::specs::Spent::none_spent))]
pub fn write_list<D: Disk>(
    disk: &mut D,
    other: u64,
    is_open: bool,
    at: u64,
    text: &[u8],
    numbers: &[u8],
) -> Result<(), DiskError>
    requires within { other < 2 ^ 32 }
    requires place { IsTrue (D.tells disk.old) → other + 1 ≤ length (D.seen disk.old) }
    requires start { IsTrue (D.tells disk.old) → at ≤ length (D.seen disk.old) }
    requires only { IsTrue (D.tells disk.old) → Only (D.seen disk.old) (D.may_leave disk.old) }
    ensures at_rest { IsTrue (D.tells disk.old)
        → OnOk result ((s : Standing) (entries : List (List ℕ))
        → IsMove s entries (D.seen disk.old) other is_open at text.now numbers.now
        → IsAtRest (with_entries s entries) (D.seen disk.new)
        × SameGate s.place (D.seen disk.old) (D.seen disk.new)) }
    ensures durable { IsTrue (D.tells disk.old)
        → OnOk result (Only (D.seen disk.new) (D.may_leave disk.new)) }
    ensures bytes { IsTrue (D.tells disk.old)
        → OnOk result (IsReplaced other (closing_by is_open) at
        text.now numbers.now (D.seen disk.old) (D.seen disk.new)) }
    ensures limit { OnOk result (at + length text.now ≤ 2 ^ 62) }
    ensures spent { OnOk result (Spent 7 (D.passes disk.old) (D.passes disk.new)) }
    ensures stopped { D.passes disk.old ≡ Some 0 → Untouched (D.moment disk.old) (D.moment disk.new)
        (D.left_since disk.old) (D.left_since disk.new) (D.seen disk.old) (D.seen disk.new) }
    ensures tells { D.tells disk.new ≡ D.tells disk.old }
    ensures any_moment { IsTrue (D.tells disk.old) → (s : Standing) (entries : List (List ℕ))
        → IsMove s entries (D.seen disk.old) other is_open at text.now numbers.now
        → Grows (D.moment disk.old) (D.moment disk.new)
        (D.left_since disk.old) (D.left_since disk.new)
        (λ image. IsOldOrNew s.entries entries (read_ckpt image)) }
    ensures unbounded { D.passes disk.old ≡ None → D.passes disk.new ≡ None }
    ensures cause { FailsWithCause (D.faults disk.old) (D.faults disk.new) result }
    ensures faults_within { D.faults_within disk.old ≤ D.faults_within disk.new }
{
    close_other(disk, other, is_open)?;
    force_two(disk, at, text, other + 1, numbers)?;
    force(disk, other, &[OPEN])
}
