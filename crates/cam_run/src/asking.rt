//! Whether words ask for what goes over disks.
ghost use Rattle.std.specs.Prelude.{◌≡◌, ◌↔◌, true, IfOk, map, string_bytes};
ghost use Rattle.cam_run.specs.Commands.{UsesDisks, uses_disks};

use cam_args::{ArgsFault, Command, read_words};
use cam_base::NoMemory;
use std::alloc::Global;

/// Whether the words are the form of a command that goes over disks: one that runs a script, or a storm. It fails only if memory runs
/// out.
#[tactic(auto, using(crate::proofs::WordsForDisks::asks_by, crate::proofs::WordsForDisks::asks_nothing))]
pub fn uses_disks(alloc: Global, words: &[String]) -> Result<bool, NoMemory>
    ensures { IfOk result (λ uses. (uses ≡ true) ↔ UsesDisks (map string_bytes words.now)) }
{
    match read_words(alloc, words) {
        Ok(command) => Ok(goes_over_disks(&command)),
        Err(ArgsFault::Usage) => Ok(false),
        Err(ArgsFault::NoMemory) => Err(NoMemory),
    }
}

/// Whether a command goes over disks.
fn goes_over_disks(command: &Command) -> bool
    ensures { result ≡ uses_disks command.now }
{
    match command {
        Command::Run
        | Command::Trace
        | Command::Witness(_)
        | Command::Why(_)
        | Command::Gen { .. }
        | Command::Storm { .. } => true,
        Command::Inspect | Command::Upgrade | Command::Timed => false,
    }
}
