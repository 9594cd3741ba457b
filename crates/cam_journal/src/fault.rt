//! Why a seat may get no room.
ghost use Rattle.std.specs.Prelude.{◌≡◌};
ghost use Rattle.cam_journal.specs.declared.fault.ReserveFault.TheVariants.{NoMemory};

use std::alloc::AllocError;
use thiserror::Error;

/// Why a seat got no room.
#[derive(Clone, Copy, Debug, PartialEq, Eq, Error)]
pub enum ReserveFault {
    /// The seat has 500,000,000 events.
    #[error("the seat has as many events as a seat can have")]
    Full,
    /// There is no memory for one more event.
    #[error("out of memory")]
    NoMemory,
}

impl From<AllocError> for ReserveFault {
    ghost from_gives = { λ _ e. e ≡ NoMemory };

    fn from(_: AllocError) -> ReserveFault {
        ReserveFault::NoMemory
    }
}
