// Why a log fails.
ghost use Rattle.std.specs.Prelude.{◌≡◌};
ghost use Rattle.cam_log.specs.declared.fault.LogFault.TheVariants.{NoMemory as OutOfMemory};
ghost use Rattle.cam_log.specs.Faults.{fault_of};

use cam_base::NoMemory;
use cam_disk::DiskError;
use thiserror::Error;

/// Why a log can't be opened or an entry can't be appended.
#[derive(Clone, Copy, Debug, PartialEq, Eq, Error)]
pub enum LogFault {
    /// The disk failed. Its count of faults rose.
    #[error("the disk failed")]
    DiskFault,
    /// The bytes are no log, from this place on.
    #[error("not a log at byte {0}")]
    NotALog(u64),
    #[error("out of memory")]
    NoMemory,
}

impl From<DiskError> for LogFault {
    ghost from_gives = { λ error fault. fault ≡ fault_of error };

    fn from(error: DiskError) -> LogFault {
        match error {
            DiskError::Failed => LogFault::DiskFault,
            DiskError::NoMemory => LogFault::NoMemory,
        }
    }
}

impl From<NoMemory> for LogFault {
    ghost from_gives = { λ _ fault. fault ≡ OutOfMemory };

    fn from(_: NoMemory) -> LogFault {
        LogFault::NoMemory
    }
}

/// A disk that wasn't made or opened as a log, and why.
#[derive(Drop)]
pub struct OpenRefused<D> {
    pub fault: LogFault,
    pub disk: D,
}
