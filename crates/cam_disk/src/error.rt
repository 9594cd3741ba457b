// Why a disk fails.
ghost use Rattle.std.specs.Prelude.{◌≡◌};
ghost use Rattle.cam_disk.specs.declared.error.DiskError.TheVariants.{NoMemory as OutOfMemory};

use cam_base::NoMemory;
use thiserror::Error;

/// Why a disk did not do a call.
#[derive(Clone, Copy, Debug, PartialEq, Eq, Error)]
pub enum DiskError {
    /// The disk failed. Its count of faults rose.
    #[error("the disk failed")]
    Failed,
    #[error("out of memory")]
    NoMemory,
}

impl From<NoMemory> for DiskError {
    ghost from_gives = { λ _ e. e ≡ OutOfMemory };

    fn from(_: NoMemory) -> DiskError {
        DiskError::NoMemory
    }
}
