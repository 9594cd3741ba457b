//! The first fault of a script.
ghost use Rattle.std.specs.Prelude.{◌≡◌};
ghost use Rattle.cam_words.specs.declared.fault.ScriptFault.TheVariants.{NoMemory as OutOfMemory};

use crate::Cause;
use cam_base::NoMemory;
use thiserror::Error;

/// The first fault of a script: its line and column, from 1, and its cause.
#[derive(Clone, Copy, Debug, PartialEq, Eq, Error)]
pub enum ScriptFault {
    #[error("line {line}, column {column}: {cause}")]
    Bad {
        line: u32,
        column: u32,
        cause: Cause,
    },
    #[error("out of memory")]
    NoMemory,
}

impl From<NoMemory> for ScriptFault {
    ghost from_gives = { λ _ e. e ≡ OutOfMemory };

    fn from(_: NoMemory) -> ScriptFault {
        ScriptFault::NoMemory
    }
}
