//! A core for tests: an event is a number, and sends that number as its one letter.
ghost use Rattle.std.specs.Prelude.{◌↔◌, None, IsNone, IsTrue, IfOk, is_none};
ghost use Rattle.cam_journal.specs.Taking.{letter_in, IsStep, FaultsWithCause};

use cam_base::NoMemory;
use cam_journal::{Core, CoreFault, CoreInput};

#[derive(Drop)]
pub(crate) struct Numbers;

impl Core for Numbers {
    type Event = u64;

    type Letter = u64;

    ghost use Rattle.std.specs.Prelude.{[], ◌∷◌, None, is_none};
    ghost use Rattle.cam_journal.specs.Taking.{letter_in};

    ghost faults = { λ core. 0 };

    ghost names = { λ event. None };

    ghost sends = { λ event. event ∷ [] };

    ghost goes_to = { λ letter. 2 };

    ghost copied = { λ letter. 1 };

    ghost lawful = { λ node history received event. Unit {0} };

    ghost answers = { λ node history input event. Unit {0} };

    ghost is_replay = { λ core node history. Unit {0} };

    ghost is_idle = { λ core input. is_none (letter_in input) };

    fn step(&mut self, input: CoreInput<u64>) -> Result<Option<u64>, CoreFault>
        ensures step { IsStep (λ core node history. Unit {0}) (λ event. None) (λ letter. 2)
            (λ node history received event. Unit {0})
            (λ node history input event. Unit {0})
            self.old input self.new result }
        ensures none { IfOk result (λ made. IsNone made ↔ IsTrue (is_none (letter_in input))) }
        ensures cause { FaultsWithCause 0 0 result }
    {
        match input {
            CoreInput::Letter { letter, .. } => Ok(Some(letter)),
            CoreInput::Drive => Ok(None),
        }
    }

    fn idle(&self, input: &CoreInput<u64>) -> bool {
        matches!(input, CoreInput::Drive)
    }

    fn copies(_letter: &u64) -> u8 {
        1
    }

    fn to(_letter: &u64) -> u8 {
        2
    }

    fn letters(_event: &u64) -> u32 {
        1
    }

    fn letter(event: &u64, _place: u32) -> Result<u64, NoMemory> {
        Ok(*event)
    }

    fn copy(letter: &u64) -> Result<u64, NoMemory> {
        Ok(*letter)
    }
}
