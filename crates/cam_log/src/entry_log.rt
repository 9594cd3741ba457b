// What callers see of a log.
ghost use Rattle.std.specs.Prelude.{◌≡◌, ◌⊎◌, ◌≤◌, ◌+◌, ◌-◌, ◌++◌, ◌∷◌, [], Bool, List, ℕ, length, take, IsTrue, IsFalse, OnOk, OnErr, IfOk, IsErrOf, Ok, Option, Some, None};
ghost use Rattle.cam_disk.specs.Stop.{Untouched};
ghost use Rattle.cam_log.specs.Spent.{Spent};
ghost use Rattle.cam_log.specs.CutOff.{IsCutOff, entries_after};
ghost use Rattle.cam_base.specs.Causes.{Rose};
ghost use Rattle.cam_log.specs.declared.fault.LogFault.TheVariants.{DiskFault, NotALog};
ghost use Rattle.cam_log.specs.Moments.{Grows, Stays, Opened, IsBeforeOrAfter};

use crate::fault::LogFault;
use cam_base::{NoMemory, Sequence};
use std::alloc::Global;
use std::mem;

/// The bytes of an entry.
pub type Entry = Sequence<u8>;

/// An entry of these bytes.
pub fn entry_of(alloc: Global, bytes: &[u8]) -> Result<Entry, NoMemory>
    ensures { IfOk result (λ entry. entry ≡ bytes.now) }
{
    Ok(Entry::from_vec(bytes.to_vec(alloc)?))
}

/// The entries of a log, the oldest first.
pub type Entries = Sequence<Entry>;

/// Takes the newest entry away. It takes no memory.
pub fn drop_newest(entries: &mut Entries, alloc: Global)
    ensures { entries.new ≡ take (length entries.old - 1) entries.old }
{
    let mut list = mem::replace(entries, Entries::new(alloc)).into_vec();
    list.truncate(list.len().saturating_sub(1));
    *entries = Entries::from_vec(list);
}

/// A log of entries, to which entries are appended, and which a crash at any moment leaves with the
/// entries before, with or without the new one.
pub trait EntryLog: Drop {
    /// Whether its disk tells what it holds. No call changes it.
    ghost tells: { Self → Bool };

    /// The entries, the oldest first.
    ghost listed: { Self → List (List ℕ) };

    /// Whether an append failed at the disk. Then the log has to be opened again.
    ghost broken: { Self → Bool };

    /// The moment, as a number that does not fall.
    ghost moment: { Self → ℕ };

    /// What opening the disk gives after a crash at some moment since that one: entries, or why it is no log.
    ghost opens_since: { Self → ℕ → Opened → Type 0 };

    /// What opening its disk gives now: entries, or why it is no log.
    ghost reads: { Self → Opened };

    /// How often its disk has failed.
    ghost faults: { Self → ℕ };

    /// How often a call that its disk did has failed, as the disk counts it.
    ghost faults_within: { Self → ℕ };

    /// What a read of its disk gives, if the disk tells it.
    ghost seen: { Self → List ℕ } = { λ _. [] };

    /// How many calls its disk still does. None: no bound.
    ghost passes: { Self → Option ℕ } = { λ _. None };

    /// The number of the log's list. A log begins with 1, and an append keeps it: only a list that takes
    /// another's place has another number.
    ghost generation: { Self → ℕ } = { λ _. 1 };

    /// Whether an append of this entry to a log made it this other one with exactly the bytes that the log's
    /// format has for it.
    ghost is_written: { Self → List ℕ → Self → Type 0 } = { λ _ _ _. Unit {0} };

    /// Appends an entry. At `Ok` a crash leaves a log that has it. It fails with `DiskFault` or `NoMemory`,
    /// and is broken after a `DiskFault`, and after a `NoMemory` of the disk itself.
    fn append(&mut self, entry: &[u8]) -> Result<(), LogFault>
        requires { IsFalse (broken self.old) }
        ensures appended { OnOk result (listed self.new ≡ listed self.old ++ entry.now ∷ []) }
        ensures whole { OnOk result (IsFalse (broken self.new)) }
        ensures bytes { IsTrue (tells self.old)
            → OnOk result (is_written self.old entry.now self.new) }
        // It takes four calls of the disk: with fewer left it fails, and with none left it touches nothing.
        ensures spent { OnOk result (Spent 4 (passes self.old) (passes self.new)) }
        ensures stopped { passes self.old ≡ Some 0 → Untouched (moment self.old) (moment self.new)
            (opens_since self.old) (opens_since self.new) (seen self.old) (seen self.new) }
        ensures unbounded { passes self.old ≡ None → passes self.new ≡ None }
        // A fault comes because a call that was done failed, or because the append was cut off: then
        // the log reads with the new entry exactly if three of its calls were done.
        ensures cut_off { IsErrOf result DiskFault
            → Rose (faults_within self.old) (faults_within self.new)
            ⊎ IsCutOff 4 (passes self.old) (passes self.new) (λ calls. IsTrue (tells self.old)
            → reads self.new ≡ Ok (entries_after calls (listed self.old) entry.now)) }
        // A crash at any moment of the call leaves the entries before it, with or without the new one.
        ensures any_moment { IsTrue (tells self.old) → Grows (moment self.old) (moment self.new)
            (opens_since self.old) (opens_since self.new)
            (IsBeforeOrAfter (listed self.old) entry.now) }
        ensures not_listed { OnErr result (listed self.new ≡ listed self.old) }
        ensures generation { generation self.new ≡ generation self.old }
        ensures unchanged { OnErr result
            (IsFalse (broken self.new) → Stays (moment self.old) (moment self.new)
            (opens_since self.old) (opens_since self.new) (seen self.old) (seen self.new)
            (faults self.old) (faults self.new)) }
        ensures not_called { OnErr result
            (IsFalse (broken self.new) → passes self.new ≡ passes self.old) }
        ensures tells { tells self.new ≡ tells self.old }
        ensures later { faults self.old ≤ faults self.new }
        ensures faults_within { faults_within self.old ≤ faults_within self.new }
        ensures disk_fault { IsErrOf result DiskFault → Rose (faults self.old) (faults self.new)
            × IsTrue (broken self.new) }
        ensures is_a_log { (at : ℕ) → IsErrOf result (NotALog at) → ⊥ };

    /// The entries, the oldest first. It takes no memory.
    fn entries(&self) -> &Entries
        ensures { result.now ≡ listed self.now };

    /// Whether the log has to be opened again before the next append.
    fn is_broken(&self) -> bool
        ensures { result ≡ broken self.now };

    /// What it reads now is among what a crash now may leave.
    ghost reads_now: { (log : Self) → IsTrue (tells log) → opens_since log (moment log) (reads log) };

    /// A crash now leaves a log of its entries, if it is not broken.
    ghost at_rest: { (log : Self) (opened : Opened) → IsTrue (tells log) → IsFalse (broken log)
        → opens_since log (moment log) opened → opened ≡ Ok (listed log) };

    /// That is one of the things that may come since an earlier moment.
    ghost counts: { (log : Self) (t : ℕ) → IsTrue (tells log) → IsFalse (broken log)
        → t ≤ moment log → opens_since log t (Ok (listed log)) };

    /// This moment is one of those since an earlier one.
    ghost counts_now: { (log : Self) (t : ℕ) (opened : Opened) → IsTrue (tells log) → t ≤ moment log
        → opens_since log (moment log) opened → opens_since log t opened };
}
