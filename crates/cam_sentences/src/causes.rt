//! Why a script is refused.
ghost use Rattle.std.specs.Prelude.{◌≡◌};
ghost use Rattle.cam_sentences.specs.Sentences.{cause_text};

use cam_words::Cause;

const TOO_LONG: &str = "The script has more than 262,144 bytes.";

const BYTE_NOT_ALLOWED: &str = "A script has printing characters of ASCII alone, in comments too.";

const UNKNOWN_WORD: &str = "This word begins no line, or is no kind, or no operation of this kind.";

const MISSING_WORD: &str = "A word is missing here.";

const EXTRA_WORD: &str = "The line has a word too many. A comment needs a line of its own.";

const INVALID_NUMBER: &str = "This is no number, value or expression, or it is out of its range.";

const INVALID_NAME: &str = "This is no name: a name is a letter and up to 15 letters or digits.";

const DECLARED_AGAIN: &str = "This name is declared above already.";

const UNDECLARED: &str = "This name is not declared above.";

const MISPLACED: &str = "This may not stand here: `nodes`, then objects and bodies, then steps.";

const NO_SUCH_NODE: &str = "The script has no node of this number.";

const TOO_MANY: &str = "This is one more object, body, statement, step or nesting than may be.";

/// What a cause says.
pub fn cause_sentence(cause: Cause) -> &'static str
    ensures { result.now ≡ cause_text cause }
{
    match cause {
        Cause::TooLong => TOO_LONG,
        Cause::ByteNotAllowed => BYTE_NOT_ALLOWED,
        Cause::UnknownWord => UNKNOWN_WORD,
        Cause::MissingWord => MISSING_WORD,
        Cause::ExtraWord => EXTRA_WORD,
        Cause::InvalidNumber => INVALID_NUMBER,
        Cause::InvalidName => INVALID_NAME,
        Cause::DeclaredAgain => DECLARED_AGAIN,
        Cause::Undeclared => UNDECLARED,
        Cause::Misplaced => MISPLACED,
        Cause::NoSuchNode => NO_SUCH_NODE,
        Cause::TooMany => TOO_MANY,
    }
}
