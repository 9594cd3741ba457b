//! Why a read or a write did not come to its end.
ghost use Rattle.std.specs.Prelude.{◌≡◌};
ghost use Rattle.cam_io.specs.declared.fault.ReadFault.TheVariants.{Failed as ReadFailed, NoMemory as ReadNoMemory};

use cam_base::NoMemory;
use thiserror::Error;

/// The object's own failure, which its count of faults shows.
#[derive(Clone, Copy, Debug, PartialEq, Eq, Error)]
#[error("a read or a write failed")]
pub struct Failed;

/// Why a source was not read to its end.
#[derive(Clone, Copy, Debug, PartialEq, Eq, Error)]
pub enum ReadFault {
    /// A read failed. The source's count of faults rose.
    #[error("a read failed")]
    Failed,
    /// More bytes than the limit were read.
    #[error("more bytes than the limit")]
    TooLarge,
    /// Memory ran out.
    #[error("out of memory")]
    NoMemory,
}

impl From<Failed> for ReadFault {
    ghost from_gives = { λ _ e. e ≡ ReadFailed };

    fn from(_: Failed) -> ReadFault {
        ReadFault::Failed
    }
}

impl From<NoMemory> for ReadFault {
    ghost from_gives = { λ _ e. e ≡ ReadNoMemory };

    fn from(_: NoMemory) -> ReadFault {
        ReadFault::NoMemory
    }
}
