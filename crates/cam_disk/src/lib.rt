//! Disks: what a read gives, what a crash may leave, and what has failed.
//!
//! A disk holds bytes. Between two syncs a crash may leave any bytes in each range that was written and
//! past the old end; other bytes stay. After a sync that succeeds a crash leaves what a read gives. The
//! trait `Disk` says so of each call, and of each moment inside a call.
//!
//! `MemoryDisk` keeps its bytes and a record of its calls, from which the images of a crash follow.
//! `StopDisk` stops doing calls, as a machine that lost its power. `FileDisk` is a file with a copy in
//! memory: it tells what the copy holds, and fails if the file gives anything else. `HostDisk` is one
//! in memory or a file. Those that always tell what they hold are `TellingDisk`s.
//!
//! It uses `cam_base`. Its main clause is `Disk::sync`, `durable`: at `Ok` a crash leaves what a
//! read gives, and nothing else.
#![tactic(auto)]

mod call;
mod disk;
mod error;
mod file;
mod host;
mod limit;
mod memory;
mod stop;
mod telling;

pub use call::Call;
pub use disk::Disk;
pub use error::DiskError;
pub use file::FileDisk;
pub use host::HostDisk;
pub use memory::MemoryDisk;
pub use stop::StopDisk;
pub use telling::TellingDisk;
