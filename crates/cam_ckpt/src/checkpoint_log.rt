// What callers see of a log whose list of entries can be replaced.
ghost use Rattle.std.specs.Prelude.{◌≡◌, ◌≤◌, ◌+◌, ◌^◌, List, ℕ, IsTrue, IsFalse, OnOk, OnErr, IsErrOf, Ok as Opens, Err as NoLog, Option, Some, None};
ghost use Rattle.cam_base.specs.Causes.{Rose};
ghost use Rattle.cam_disk.specs.Stop.{Untouched};
ghost use Rattle.cam_log.specs.declared.fault.LogFault.TheVariants.{DiskFault, NotALog};
ghost use Rattle.cam_log.specs.Moments.{Grows, AddsNothing, Stays};
ghost use Rattle.cam_log.specs.Spent.{Spent};
ghost use Rattle.cam_ckpt.specs.Moments.{IsOldOrNew};
ghost use Rattle.cam_ckpt.specs.Opening.{can_follow};

use cam_log::{Entries, EntryLog, LogFault};

/// A log whose list of entries can be replaced by another as a whole, as a checkpoint does. A crash at any
/// moment leaves it with the old list or with the new one. A list that takes another's place has the next
/// number, which is written in 64 bits: the list with the last number cannot be replaced.
pub trait CheckpointLog: EntryLog {
    /// Where on its disk this list would end, in bytes, if it took the place of the log's own.
    ghost end_of: { Self → List (List ℕ) → ℕ };

    /// Whether a replacement of a log's list by this one made it this other log with exactly the bytes that the
    /// log's format has for it.
    ghost is_rewritten: { Self → List (List ℕ) → Self → Type 0 };

    /// The number of the list that opening its disk gives now.
    ghost disk_generation: { Self → Option ℕ };

    /// Whether the list can be replaced: the log is not broken, and its generation is not the last.
    fn can_replace(&self) -> bool
        ensures { result ≡ can_follow (Self.broken self.now) (Self.generation self.now) };

    /// Makes the list of entries this one. At `Ok` a crash leaves a log that has it, and at any moment of
    /// the call one that has the old list or the new one. It fails with `DiskFault`, as it does if the new
    /// list would reach past 2^62 bytes, or with `NoMemory`, and its own list is then the old one. It is broken
    /// after a `DiskFault`, and after a `NoMemory` of the disk itself.
    fn replace(&mut self, entries: &Entries) -> Result<(), LogFault>
        requires { IsTrue (can_follow (Self.broken self.old) (Self.generation self.old)) }
        ensures replaced { OnOk result (Self.listed self.new ≡ entries.now) }
        ensures whole { OnOk result (IsFalse (Self.broken self.new)) }
        ensures generation { OnOk result (Self.generation self.new ≡ Self.generation self.old + 1) }
        ensures room { OnOk result (end_of self.old entries.now ≤ 2 ^ 62) }
        ensures bytes { IsTrue (Self.tells self.old)
            → OnOk result (is_rewritten self.old entries.now self.new) }
        // It takes seven calls of the disk: with fewer left it fails, and with none left it touches nothing.
        ensures spent { OnOk result (Spent 7 (Self.passes self.old) (Self.passes self.new)) }
        ensures stopped { Self.passes self.old ≡ Some 0
            → Untouched (Self.moment self.old) (Self.moment self.new)
            (Self.opens_since self.old) (Self.opens_since self.new)
            (Self.seen self.old) (Self.seen self.new) }
        ensures unbounded { Self.passes self.old ≡ None → Self.passes self.new ≡ None }
        // A crash at any moment of the call leaves the old entries or the new ones.
        ensures any_moment { IsTrue (Self.tells self.old)
            → Grows (Self.moment self.old) (Self.moment self.new)
            (Self.opens_since self.old) (Self.opens_since self.new)
            (IsOldOrNew (Self.listed self.old) entries.now) }
        ensures not_listed { OnErr result (Self.listed self.new ≡ Self.listed self.old) }
        ensures same_generation { OnErr result (Self.generation self.new ≡ Self.generation self.old) }
        ensures unchanged { OnErr result (IsFalse (Self.broken self.new)
            → Stays (Self.moment self.old) (Self.moment self.new)
            (Self.opens_since self.old) (Self.opens_since self.new)
            (Self.seen self.old) (Self.seen self.new)
            (Self.faults self.old) (Self.faults self.new)) }
        ensures tells { Self.tells self.new ≡ Self.tells self.old }
        ensures later { Self.faults self.old ≤ Self.faults self.new }
        ensures faults_within { Self.faults_within self.old ≤ Self.faults_within self.new }
        ensures disk_fault { IsErrOf result DiskFault
            → Rose (Self.faults self.old) (Self.faults self.new) × IsTrue (Self.broken self.new) }
        ensures is_a_log { (at : ℕ) → IsErrOf result (NotALog at) → ⊥ };

    /// Opens the log of its disk again, as a crash or the log left it: it syncs the disk and reads it, and a
    /// crash meanwhile leaves what was there. `NotALog` says from which place on the bytes are no log. After
    /// an error it is broken, and may be opened again.
    fn reopen(&mut self) -> Result<(), LogFault>
        ensures read { IsTrue (Self.tells self.old) → OnOk result
            (Self.opens_since self.old (Self.moment self.old) (Opens (Self.listed self.new))) }
        ensures refused { IsTrue (Self.tells self.old) → (at : ℕ) → IsErrOf result (NotALog at)
            → Self.opens_since self.old (Self.moment self.old) (NoLog (NotALog at)) }
        // That is what the log reads, and it reads the same afterwards.
        ensures read_now { IsTrue (Self.tells self.old)
            → OnOk result (Self.reads self.old ≡ Opens (Self.listed self.new)) }
        ensures refused_now { IsTrue (Self.tells self.old) → (at : ℕ)
            → IsErrOf result (NotALog at) → Self.reads self.old ≡ NoLog (NotALog at) }
        ensures reads { IsTrue (Self.tells self.old) → Self.reads self.new ≡ Self.reads self.old }
        // Its list has the number that the disk gives it, and the same as before if the log was
        // not broken.
        ensures disk_generation { IsTrue (Self.tells self.old)
            → OnOk result (Self.disk_generation self.old ≡ Some (Self.generation self.new)) }
        ensures generation { IsTrue (Self.tells self.old) → IsFalse (Self.broken self.old)
            → OnOk result (Self.generation self.new ≡ Self.generation self.old) }
        ensures whole { OnOk result (IsFalse (Self.broken self.new)) }
        ensures not_read { OnErr result (IsTrue (Self.broken self.new)) }
        ensures any_moment { IsTrue (Self.tells self.old)
            → AddsNothing (Self.moment self.old) (Self.moment self.new)
            (Self.opens_since self.old) (Self.opens_since self.new) }
        ensures unbounded { Self.passes self.old ≡ None → Self.passes self.new ≡ None }
        ensures tells { Self.tells self.new ≡ Self.tells self.old }
        ensures later { Self.faults self.old ≤ Self.faults self.new }
        ensures faults_within { Self.faults_within self.old ≤ Self.faults_within self.new }
        ensures disk_fault { IsErrOf result DiskFault
            → Rose (Self.faults self.old) (Self.faults self.new) };

    /// Says that the disk gave bytes that it cannot have held, which counts as a fault of a disk that does
    /// not tell what it holds. The log is broken then.
    fn spoil(&mut self)
        ensures rose { IsFalse (Self.tells self.old)
            → Rose (Self.faults self.old) (Self.faults self.new) }
        ensures broken { IsTrue (Self.broken self.new) }
        ensures any_moment { IsTrue (Self.tells self.old)
            → AddsNothing (Self.moment self.old) (Self.moment self.new)
            (Self.opens_since self.old) (Self.opens_since self.new) }
        ensures reads { IsTrue (Self.tells self.old) → Self.reads self.new ≡ Self.reads self.old }
        ensures passes { Self.passes self.new ≡ Self.passes self.old }
        ensures tells { Self.tells self.new ≡ Self.tells self.old }
        ensures later { Self.faults self.old ≤ Self.faults self.new }
        ensures faults_within { Self.faults_within self.old ≤ Self.faults_within self.new };

    /// The number of its list is the one that its disk gives, if it is not broken.
    ghost generation_at_rest: { (log : Self) → IsTrue (Self.tells log) → IsFalse (Self.broken log)
        → disk_generation log ≡ Some (Self.generation log) };
}
