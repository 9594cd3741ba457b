//! What a node must be, so that its events can be recorded.
ghost use Rattle.std.specs.Prelude.{◌≡◌, ◌<◌, ◌≤◌, ◌↔◌, ℕ, Bool, List, length, slice_get, Option, IsTrue, IsNone, IfOk};
ghost use Rattle.cam_journal.specs.declared.entry.NumberedEvent.{NumberedEvent};
ghost use Rattle.cam_journal.specs.declared.entry.SentLetter.{SentLetter};
ghost use Rattle.cam_journal.specs.declared.input.CoreInput.{CoreInput};
ghost use Rattle.cam_journal.specs.Taking.{CanStep, IsStep, FaultsWithCause};

use crate::input::{CoreFault, CoreInput};
use cam_base::NoMemory;

/// A node whose events are recorded. It is the replay of its history, and says which event may come next.
pub trait Core: Drop {
    /// What a node records: one step of it.
    type Event: Drop;

    /// What an event sends to a node.
    type Letter: Drop;

    /// How often the core's disk has failed.
    ghost faults: { Self → ℕ };

    /// Which letter an event names as received, by number and place, or none.
    ghost names: { Self.Event → Option (ℕ × ℕ) };

    /// The letters that an event sends, in order of their places.
    ghost sends: { Self.Event → List Self.Letter };

    /// The node to which a letter goes.
    ghost goes_to: { Self.Letter → ℕ };

    /// How often a letter is put into its mailbox.
    ghost copied: { Self.Letter → ℕ };

    /// Whether an event is lawful for a node, after its history and a letter that it received, or none.
    ghost lawful: { ℕ → List (NumberedEvent Self.Event Self.Letter)
        → Option (SentLetter Self.Letter) → Self.Event
        → Type 0 };

    /// Whether an event answers an input of a node, after its history.
    ghost answers: { ℕ → List (NumberedEvent Self.Event Self.Letter)
        → CoreInput Self.Letter → Self.Event
        → Type 0 };

    /// Whether the core is the replay of a node's history.
    ghost is_replay: { Self → ℕ → List (NumberedEvent Self.Event Self.Letter) → Type 0 };

    /// Whether the core has nothing to do with an input.
    ghost is_idle: { Self → CoreInput Self.Letter → Bool };

    /// Takes a step: an event that answers the input, or none exactly if there is nothing to do.
    /// After none and after a fault the core is the replay of its history as before.
    fn step(&mut self, input: CoreInput<Self::Letter>) -> Result<Option<Self::Event>, CoreFault>
        requires { CanStep is_replay sends goes_to lawful self.old input }
        ensures step { IsStep is_replay names goes_to lawful answers self.old input self.new
            result }
        ensures none { IfOk result (λ made. IsNone made ↔ IsTrue (is_idle self.old input)) }
        ensures cause { FaultsWithCause (faults self.old) (faults self.new) result };

    /// Whether there is nothing to do with an input. It takes no memory.
    fn idle(&self, input: &CoreInput<Self::Letter>) -> bool
        ensures { result ≡ is_idle self.now input.now };

    /// How often a letter is put into its mailbox: 0, 1 or 2 times.
    fn copies(letter: &Self::Letter) -> u8
        ensures count { result ≡ copied letter.now }
        ensures few { result ≤ 2 };

    /// The node to which a letter goes, from 1.
    fn to(letter: &Self::Letter) -> u8
        ensures { result ≡ goes_to letter.now };

    /// How many letters an event sends.
    fn letters(event: &Self::Event) -> u32
        ensures { result ≡ length (sends event.now) };

    /// The letter of an event at a place, from 0.
    fn letter(event: &Self::Event, place: u32) -> Result<Self::Letter, NoMemory>
        requires { place < length (sends event.now) }
        ensures { IfOk result (λ letter. slice_get (sends event.now) place ≡ Some letter) };

    /// An equal letter.
    fn copy(letter: &Self::Letter) -> Result<Self::Letter, NoMemory>
        ensures { IfOk result (λ copy. copy ≡ letter.now) };
}
