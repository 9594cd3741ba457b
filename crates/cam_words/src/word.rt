//! Where a word is.

ghost use Rattle.std.specs.Prelude.{◌≡◌};
ghost use Rattle.cam_words.specs.Words.{is_missing};

/// The places of a line where a word begins and ends. They count from 0.
#[derive(Clone, Copy, Debug, PartialEq, Eq)]
pub struct Word {
    pub start: usize,
    pub end: usize,
}

impl Word {
    /// Whether there is no word: the line ended before it.
    pub fn is_missing(self) -> bool
        ensures { result ≡ is_missing self }
    {
        self.start == self.end
    }
}
