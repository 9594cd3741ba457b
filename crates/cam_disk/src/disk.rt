// What a disk owes its callers.
ghost use Rattle.std.specs.Prelude.{◌≡◌, ◌≤◌, ◌+◌, ◌^◌, ◌<◌, Bool, List, ℕ, length, take, IsTrue, IsFalse, IfOk, OnOk, IsErrOf, Result, Err, Option, None};
ghost use Rattle.cam_base.specs.Causes.{Rose};
ghost use Rattle.cam_disk.specs.declared.error.DiskError.TheVariants.{Failed, NoMemory};
ghost use Rattle.cam_disk.specs.Stop.{Untouched, Stops, FailsWithin};
ghost use Rattle.cam_disk.specs.Disk.{Only, Follows, Torn, Cut, Same, Holds, Elapses, FailsWithCause, Reads};

use crate::error::DiskError;

/// A disk of bytes, which may fail at each call, and at which a crash may come at any moment.
///
/// A disk that tells what it holds owes the clauses on its bytes and on crashes; one that does not owes
/// those on its faults alone.
pub trait Disk: Drop {
    /// Whether the disk tells what it holds. No call changes it.
    ghost tells: { Self → Bool };

    /// What a read gives.
    ghost seen: { Self → List ℕ };

    /// What a crash now may leave.
    ghost may_leave: { Self → List ℕ → Type 0 };

    /// The moment, as a number that does not fall.
    ghost moment: { Self → ℕ };

    /// What a crash at some moment since that one might have left.
    ghost left_since: { Self → ℕ → List ℕ → Type 0 };

    /// How often the disk has failed.
    ghost faults: { Self → ℕ };

    /// How many calls it still does. None: no bound.
    ghost passes: { Self → Option ℕ } = { λ _. None };

    /// How many of its faults are its own, if it is over another disk: those of calls not passed on.
    ghost own_faults: { Self → ℕ } = { λ _. 0 };

    /// How often a call that it did has failed: of its faults those that are not its own.
    ghost faults_within: { Self → ℕ };

    /// Whether the inner disk is the same as before, if it is over another disk.
    ghost same_within: { Self → Self → Type 0 } = { λ _ _. Unit {0} };

    /// Copies the bytes from `at` on, as many as there are and fit, and returns their number.
    /// It returns 0 at and past the end.
    fn read(&mut self, at: u64, into: &mut [u8]) -> Result<usize, DiskError>
        ensures count { IfOk result (λ n. n ≤ length into.new) }
        ensures bytes { IsTrue (tells self.old) → IfOk result (λ n.
            Reads (seen self.old) at (length into.new) n (take n into.new)) }
        ensures tells { tells self.new ≡ tells self.old }
        ensures seen { IsTrue (tells self.old) → seen self.new ≡ seen self.old }
        ensures crash { IsTrue (tells self.old)
            → Follows Same (may_leave self.old) (may_leave self.new) }
        ensures time { IsTrue (tells self.old) → Elapses (moment self.old) (moment self.new)
            (left_since self.old) (left_since self.new) (may_leave self.new) }
        ensures stops { Stops (passes self.old) (passes self.new)
            (own_faults self.old) (own_faults self.new)
            (same_within self.old self.new × Untouched (moment self.old) (moment self.new)
            (left_since self.old) (left_since self.new) (seen self.old) (seen self.new)) result }
        ensures cause { FailsWithCause (faults self.old) (faults self.new) result }
        ensures within { FailsWithin (passes self.old)
            (faults_within self.old) (faults_within self.new) result };

    /// Writes over what is there, and past the end. A write that would reach past 2^62 bytes fails. If
    /// memory runs out, nothing changes.
    fn write_at(&mut self, at: u64, bytes: &[u8]) -> Result<(), DiskError>
        requires { IsTrue (tells self.old) → at ≤ length (seen self.old) }
        ensures written { IsTrue (tells self.old)
            → OnOk result (Holds (seen self.old) at bytes.now (seen self.new)) }
        ensures no_memory { IsTrue (tells self.old) → IsErrOf result NoMemory
            → (seen self.new ≡ seen self.old)
            × Follows Same (may_leave self.old) (may_leave self.new) }
        ensures limit { 2 ^ 62 < at + length bytes.now → result ≡ Err Failed }
        ensures tells { tells self.new ≡ tells self.old }
        ensures crash { IsTrue (tells self.old)
            → Follows (Torn at (length bytes.now)) (may_leave self.old) (may_leave self.new) }
        ensures time { IsTrue (tells self.old) → Elapses (moment self.old) (moment self.new)
            (left_since self.old) (left_since self.new) (may_leave self.new) }
        ensures stops { Stops (passes self.old) (passes self.new)
            (own_faults self.old) (own_faults self.new)
            (same_within self.old self.new × Untouched (moment self.old) (moment self.new)
            (left_since self.old) (left_since self.new) (seen self.old) (seen self.new)) result }
        ensures cause { FailsWithCause (faults self.old) (faults self.new) result }
        ensures within { FailsWithin (passes self.old)
            (faults_within self.old) (faults_within self.new) result };

    /// Cuts the disk to a size, in bytes, that it has at least. If memory runs out, nothing changes.
    fn cut(&mut self, size: u64) -> Result<(), DiskError>
        requires { IsTrue (tells self.old) → size ≤ length (seen self.old) }
        ensures cut { IsTrue (tells self.old)
            → OnOk result (seen self.new ≡ take size (seen self.old)) }
        ensures no_memory { IsTrue (tells self.old) → IsErrOf result NoMemory
            → (seen self.new ≡ seen self.old)
            × Follows Same (may_leave self.old) (may_leave self.new) }
        ensures tells { tells self.new ≡ tells self.old }
        ensures crash { IsTrue (tells self.old)
            → Follows (Cut size) (may_leave self.old) (may_leave self.new) }
        ensures time { IsTrue (tells self.old) → Elapses (moment self.old) (moment self.new)
            (left_since self.old) (left_since self.new) (may_leave self.new) }
        ensures stops { Stops (passes self.old) (passes self.new)
            (own_faults self.old) (own_faults self.new)
            (same_within self.old self.new × Untouched (moment self.old) (moment self.new)
            (left_since self.old) (left_since self.new) (seen self.old) (seen self.new)) result }
        ensures cause { FailsWithCause (faults self.old) (faults self.new) result }
        ensures within { FailsWithin (passes self.old)
            (faults_within self.old) (faults_within self.new) result };

    /// At `Ok` a crash leaves what a read gives.
    fn sync(&mut self) -> Result<(), DiskError>
        ensures durable { IsTrue (tells self.old)
            → OnOk result (Only (seen self.old) (may_leave self.new)) }
        ensures tells { tells self.new ≡ tells self.old }
        ensures seen { IsTrue (tells self.old) → seen self.new ≡ seen self.old }
        ensures crash { IsTrue (tells self.old)
            → Follows Same (may_leave self.old) (may_leave self.new) }
        ensures time { IsTrue (tells self.old) → Elapses (moment self.old) (moment self.new)
            (left_since self.old) (left_since self.new) (may_leave self.new) }
        ensures stops { Stops (passes self.old) (passes self.new)
            (own_faults self.old) (own_faults self.new)
            (same_within self.old self.new × Untouched (moment self.old) (moment self.new)
            (left_since self.old) (left_since self.new) (seen self.old) (seen self.new)) result }
        ensures cause { FailsWithCause (faults self.old) (faults self.new) result }
        ensures within { FailsWithin (passes self.old)
            (faults_within self.old) (faults_within self.new) result };

    /// Says that the disk gave bytes that it cannot have held, which counts as a fault. It is for disks
    /// that do not tell what they hold; a disk that tells does nothing here.
    fn spoil(&mut self)
        ensures passes { passes self.new ≡ passes self.old }
        ensures own_faults { own_faults self.new ≡ own_faults self.old }
        ensures rose { IsFalse (tells self.old) → Rose (faults self.old) (faults self.new) }
        ensures later { faults self.old ≤ faults self.new }
        ensures within { faults_within self.old ≤ faults_within self.new }
        ensures tells { tells self.new ≡ tells self.old }
        ensures seen { IsTrue (tells self.old) → seen self.new ≡ seen self.old }
        ensures crash { IsTrue (tells self.old)
            → Follows Same (may_leave self.old) (may_leave self.new) }
        ensures time { IsTrue (tells self.old) → Elapses (moment self.old) (moment self.new)
            (left_since self.old) (left_since self.new) (may_leave self.new) };

    /// What a read gives is one of the images that a crash may leave.
    ghost kept: { (disk : Self) → IsTrue (tells disk) → may_leave disk (seen disk) };

    /// This moment is one of those since an earlier one.
    ghost counts_now: { (disk : Self) (t : ℕ) (c : List ℕ)
        → IsTrue (tells disk) → t ≤ moment disk → may_leave disk c → left_since disk t c };

    /// Since this moment there is no other.
    ghost only_now: { (disk : Self) (c : List ℕ)
        → IsTrue (tells disk) → left_since disk (moment disk) c → may_leave disk c };
}
