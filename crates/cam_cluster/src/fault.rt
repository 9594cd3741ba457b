//! Why a script was not run to its end; and running out of memory, as the fault of a run and of a line.
ghost use Rattle.std.specs.Prelude.{◌≡◌};
ghost use Rattle.cam_cluster.specs.declared.LineFault.TheVariants.{NoMemory as LineNoMemory};

use crate::LineFault;
use cam_base::NoMemory;
use cam_event::LineRefusal;
use std::alloc::{AllocError, AllocFailed};
use thiserror::Error;

/// Why a script was not run to its end.
#[derive(Clone, Copy, Debug, PartialEq, Eq, Error)]
pub enum RunFault {
    /// The disk of the node of this number failed by itself: its count of faults rose.
    #[error("the disk of a node failed")]
    DiskFault(u8),
    #[error("out of memory")]
    NoMemory,
}

/// Why a line of a cluster did not lead on.
#[derive(Clone, Copy, Debug, Error)]
pub enum ClusterFault {
    /// It was refused: it left its mark, and the next line may be taken.
    #[error("the line was refused")]
    Refused(LineRefusal),
    /// The run has to end.
    #[error("the run ended")]
    Ended(RunFault),
}

impl From<RunFault> for ClusterFault {
    ghost use Rattle.cam_cluster.specs.declared.fault.ClusterFault.TheVariants.{Ended};

    ghost from_gives = { λ fault e. e ≡ Ended fault };

    fn from(fault: RunFault) -> ClusterFault {
        ClusterFault::Ended(fault)
    }
}

impl From<NoMemory> for RunFault {
    ghost use Rattle.cam_cluster.specs.declared.fault.RunFault.TheVariants.{NoMemory as OutOfMemory};

    ghost from_gives = { λ _ e. e ≡ OutOfMemory };

    fn from(_: NoMemory) -> RunFault {
        RunFault::NoMemory
    }
}

impl From<NoMemory> for LineFault {
    ghost from_gives = { λ _ e. e ≡ LineNoMemory };

    fn from(_: NoMemory) -> LineFault {
        LineFault::NoMemory
    }
}

impl From<AllocError> for LineFault {
    ghost from_gives = { λ _ e. e ≡ LineNoMemory };

    fn from(_: AllocError) -> LineFault {
        LineFault::NoMemory
    }
}

impl<T: Drop> From<AllocFailed<T>> for LineFault {
    ghost from_gives = { λ _ e. e ≡ LineNoMemory };

    fn from(_: AllocFailed<T>) -> LineFault {
        LineFault::NoMemory
    }
}
