//! The words of the command line.
//!
//! [`read_words`] gives the command of which the words are the form (`specs/Forms`), and refuses the
//! words exactly where they are no command's form, unless memory runs out.
//!
//! It stands on `clap` (which command and which values the words have) and `cam_names` (the name of
//! an action).
#![tactic(auto)]

mod line;
mod numbers;
mod words;

ghost use Rattle.cam_args.specs.declared.ArgsFault.TheVariants.{NoMemory as OutOfMemory};
ghost use Rattle.std.specs.Prelude.{◌≡◌};

use cam_names::Name;
use std::alloc::AllocError;
use thiserror::Error;
pub use words::read_words;

/// What the program is to do.
#[derive(Clone, Copy, Debug, PartialEq, Eq)]
pub enum Command {
    /// Write the report of a script.
    Run,
    /// Write the events of a script's run.
    Trace,
    /// Write what an action saw, as a serial execution.
    Witness(Name),
    /// Run the script of `size` steps, 1 to 400, that is made from a seed.
    Gen {
        seed: u64,
        size: u32,
    },
    /// Run 1 to 64 top actions on four nodes with 1 to 4 threads each, `calm` or rough.
    Storm {
        seed: u64,
        actions: u32,
        threads: u32,
        calm: bool,
    },
    /// Write what a log image holds.
    Inspect,
    /// Write a log image in the last form.
    Upgrade,
    /// Write why the event of this number stopped an action.
    Why(u32),
    /// Write the report of a timed script.
    Timed,
}

/// Why there is no command.
#[derive(Clone, Copy, Debug, PartialEq, Eq, Error)]
pub enum ArgsFault {
    #[error("the words are no command")]
    Usage,
    #[error("out of memory")]
    NoMemory,
}

impl From<AllocError> for ArgsFault {
    ghost from_gives = { λ _ e. e ≡ OutOfMemory };

    fn from(_: AllocError) -> ArgsFault {
        ArgsFault::NoMemory
    }
}
