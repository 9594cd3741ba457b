//! Why the first bytes of a letter cannot be read.
ghost use Rattle.std.specs.Prelude.{◌≡◌};
ghost use Rattle.cam_sentences.specs.Sentences.{fault_text};

use cam_event::LetterFault;

const SHORT: &str = "It breaks off within a field.";

const TAG: &str = "A tag is not known.";

const NUMBER: &str = "A number is out of its range.";

const ORDER: &str = "An item is not above the one before.";

const REST: &str = "Bytes follow its last field.";

/// What the fault of a letter says.
pub fn fault_sentence(fault: LetterFault) -> &'static str
    ensures { result.now ≡ fault_text fault }
{
    match fault {
        LetterFault::Short => SHORT,
        LetterFault::Tag => TAG,
        LetterFault::Number => NUMBER,
        LetterFault::Order => ORDER,
        LetterFault::Rest => REST,
    }
}
