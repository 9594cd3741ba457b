//! The causes of faults, each with its number.

ghost use Rattle.std.specs.Prelude.{◌≡◌};
ghost use Rattle.cam_words.specs.Causes.{cause_number};

use std::fmt;

/// Why a script is refused. Its number is the place in this list, from 1.
#[derive(Clone, Copy, Debug, PartialEq, Eq)]
pub enum Cause {
    /// The script has more bytes than a script may have.
    TooLong = 1,
    /// A byte that no script may have.
    ByteNotAllowed,
    /// A word names no line, kind or operation that is built.
    UnknownWord,
    /// The line ends before a word that it needs.
    MissingWord,
    /// The line has a word too many.
    ExtraWord,
    /// A word is no number, node or value in its range.
    InvalidNumber,
    /// A new name is not a letter and up to 15 letters or digits.
    InvalidName,
    /// A new name is declared above.
    DeclaredAgain,
    /// A name is not declared above.
    Undeclared,
    /// A line or a variable is where it may not be, or `nodes` is missing.
    Misplaced,
    /// The script has no node of this number.
    NoSuchNode,
    /// One object, body, statement or step more than a script may have, or a body that nests too deep.
    TooMany,
}

impl Cause {
    /// Its number, 1 to 12.
    pub fn number(self) -> u8
        ensures { result ≡ cause_number self }
    {
        self as u8
    }
}

impl fmt::Display for Cause {
    fn fmt<W: fmt::Write>(&self, f: &mut fmt::Formatter<W>) -> fmt::Result {
        write!(f, "S{}", self.number())
    }
}
