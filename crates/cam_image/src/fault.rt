//! Why an image is refused.
ghost use Rattle.std.specs.Prelude.{◌≡◌};
ghost use Rattle.cam_image.specs.declared.fault.ImageFault.TheVariants.{NoMemory as OutOfMemory};
ghost use Rattle.cam_image.specs.Images.{log_fault, record_fault};

use cam_base::NoMemory;
use cam_log::LogFault;
use cam_recman::RecFault;
use thiserror::Error;

/// Why bytes are not the image of a log that can be recovered.
#[derive(Clone, Copy, Debug, PartialEq, Eq, Error)]
pub enum ImageFault {
    /// From this place on the bytes are no log.
    #[error("no log from byte {0} on")]
    NotALog(u64),
    /// This entry, counted from 0, is no list of records. The place is that of its first fault.
    #[error("entry {entry} is no list of records at byte {at}")]
    BadRecord { entry: u64, at: u64 },
    /// Memory ran out, which says nothing of the bytes.
    #[error("out of memory")]
    NoMemory,
}

impl From<NoMemory> for ImageFault {
    ghost from_gives = { λ _ fault. fault ≡ OutOfMemory };

    fn from(_: NoMemory) -> ImageFault {
        ImageFault::NoMemory
    }
}

impl From<LogFault> for ImageFault {
    ghost from_gives = { λ fault given. given ≡ log_fault fault };

    fn from(fault: LogFault) -> ImageFault {
        match fault {
            LogFault::NotALog(at) => ImageFault::NotALog(at),
            // a disk in memory fails only if memory runs out
            LogFault::DiskFault | LogFault::NoMemory => ImageFault::NoMemory,
        }
    }
}

impl From<RecFault> for ImageFault {
    ghost from_gives = { λ fault given. given ≡ record_fault fault };

    fn from(fault: RecFault) -> ImageFault {
        match fault {
            RecFault::BadRecord { entry, at } => ImageFault::BadRecord { entry, at },
            RecFault::NoMemory => ImageFault::NoMemory,
        }
    }
}
