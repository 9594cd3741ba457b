//! What a node forces to its log, as records, and what it knows again after a restart.
//!
//! An entry of the log is a list of records, one after another. All numbers are big-endian; number, name, family, dependencies,
//! object and operation are the fields of `cam_bytes`.
//!
//! | Tag | Record | Fields |
//! |---|---|---|
//! | 1 | Count | the node's own count (number, 2 or more) |
//! | 2 | Abort | name |
//! | 3 | Commit | name, dependencies |
//! | 4 | Seen | node (one byte), its count (number, 2 or more) |
//! | 5 | Secure | family, count (number), how many operations (four bytes), then of each its index (four bytes, 0 to 999,999,999), object and operation |
//! | 6 | Version | the version after it, 2 (one byte) |
//!
//! A log begins with version 1. Version may be there once; before it an Add is not known, and after it the version is 2. Recovery takes
//! nothing from it.
//!
//! Recovered are the last count, every outcome, of each node the greatest count, and what each secured family holds, and nothing else.
//! One more entry adds what its records say, and nothing else.
//!
//! Its main clauses are `read`, `refused`, `said` and `first` of [`recover`] (what the entries say, or the first entry that is no list of
//! records), and those of the law [`recovery`]. It uses `cam_bytes` (fields), `cam_log` (logs), `cam_know` (knowledge) and `cam_type`
//! (what a secured family holds).
#![tactic(auto)]

ghost use Rattle.std.specs.Prelude.{◌≡◌};
ghost use Rattle.cam_recman.specs.declared.RecFault.TheVariants.{NoMemory as OutOfMemory};
ghost use Rattle.cam_recman.specs.declared.MigrateFault.TheVariants.{NoMemory as NoMemoryToMigrate};
ghost use Rattle.cam_recman.specs.Migrating.{fault_of};

mod entry;
mod keeping;
mod laws;
mod migrating;
mod reading;
mod recovering;
mod writing;

use cam_base::{NoMemory, Sequence};
use cam_know::Know;
use cam_names::{Deps, Name};
use cam_type::{Held, HeldList};
pub use entry::decode_entry;
pub use keeping::snapshot;
pub use laws::{entries, migration, recovery, snapshots, version2};
pub use migrating::migrate;
pub use recovering::{recover, restart};
use thiserror::Error;
pub use writing::encode_entry;

/// What an entry of the log keeps of an event.
#[derive(Drop)]
pub enum Record {
    /// The node has this count from now on: 2 to 1,000,000,000. The first count, 1, has no record.
    Count(u32),
    /// This action aborted.
    Abort(Name),
    /// This action committed, and depended on these nodes at these counts.
    Commit(Name, Deps),
    /// This node, 1 to 8, has reached this count: 2 to 1,000,000,000.
    Seen(u8, u32),
    /// A family was secured here with these operations.
    Secure(Held),
    /// What stands after this is of version 2.
    Version,
}

/// The records of an entry, in order.
pub type Records = Sequence<Record>;

/// What a node has after a restart.
#[derive(Drop)]
pub struct Recovered {
    /// The last count of the node: 1 to 1,000,000,000.
    pub count: u32,
    /// Every outcome, and of each node the greatest count that was seen.
    pub know: Know,
    /// What each secured family holds.
    pub held: HeldList,
}

/// Why entries say nothing that can be recovered.
#[derive(Clone, Copy, Debug, PartialEq, Eq, Error)]
pub enum RecFault {
    /// This entry, counted from 0, is no list of records. The place is that of its first fault.
    #[error("entry {entry} is no list of records at byte {at}")]
    BadRecord { entry: u64, at: u64 },
    /// Memory ran out, which says nothing of the entries.
    #[error("out of memory")]
    NoMemory,
}

impl From<NoMemory> for RecFault {
    ghost from_gives = { λ _ fault. fault ≡ OutOfMemory };

    fn from(_: NoMemory) -> RecFault {
        RecFault::NoMemory
    }
}

/// What bringing a log to version 2 found: one of version 1, to which it appended an entry, or one of version 2.
#[derive(Clone, Copy, Debug, PartialEq, Eq)]
pub enum Migrated {
    Done,
    Already,
}

/// Why a log can't be brought to version 2.
#[derive(Clone, Copy, Debug, PartialEq, Eq, Error)]
pub enum MigrateFault {
    /// The disk failed. Its count of faults rose.
    #[error("the disk failed")]
    DiskFault,
    /// This entry, counted from 0, is no list of records. The place is that of its first fault.
    #[error("entry {entry} is no list of records at byte {at}")]
    BadRecord { entry: u64, at: u64 },
    #[error("out of memory")]
    NoMemory,
}

impl From<NoMemory> for MigrateFault {
    ghost from_gives = { λ _ fault. fault ≡ NoMemoryToMigrate };

    fn from(_: NoMemory) -> MigrateFault {
        MigrateFault::NoMemory
    }
}

impl From<RecFault> for MigrateFault {
    ghost from_gives = { λ fault given. given ≡ fault_of fault };

    fn from(fault: RecFault) -> MigrateFault {
        match fault {
            RecFault::BadRecord { entry, at } => MigrateFault::BadRecord { entry, at },
            RecFault::NoMemory => MigrateFault::NoMemory,
        }
    }
}
