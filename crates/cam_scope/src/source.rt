//! The lines of a script, by their numbers, and their words.
ghost use Rattle.std.specs.Prelude.{◌≡◌, IfOk};
ghost use Rattle.cam_words.specs.Lines.{lines_of};
ghost use Rattle.cam_scope.specs.Source.{column_of, is_blank, line_of, word_of, words_before};

use cam_base::NoMemory;
use cam_words::{Label, first_line, is_name};
use std::alloc::Global;
use std::marker::Model;

/// The lines of a text, without the ends of lines. Their numbers count from 1.
#[derive(Drop)]
pub struct Lines<'a> {
    lines: Vec<&'a [u8]>,
}

impl<'a> Model for Lines<'a> {
    ghost use Rattle.std.specs.Prelude.{List, ℕ, map};

    ghost Value = { List (List ℕ) };

    ghost view = { λ s. map (λ line. line.now) s.lines.items };
}

impl<'a> Lines<'a> {
    /// The lines of a text.
    pub fn of(alloc: Global, text: &'a [u8]) -> Result<Lines<'a>, NoMemory>
        ensures { IfOk result (λ lines. lines ≡ lines_of text.now) }
    {
        let mut lines = Vec::new(alloc);
        let mut rest = text;
        while !rest.is_empty() {
            let (line, behind) = first_line(rest);
            lines.push(line)?;
            rest = behind;
        }
        Ok(Lines { lines })
    }

    /// How many lines there are.
    pub fn count(&self) -> usize {
        self.lines.len()
    }

    /// The line of this number; an empty one where there is none.
    pub fn line(&self, number: u32) -> &'a [u8]
        ensures { result.now ≡ line_of self.now number }
    {
        let Some(before) = number.checked_sub(1) else {
            return &[];
        };
        match self.lines.get(before as usize) {
            Some(line) => *line,
            None => &[],
        }
    }

    /// The name that stands at a place among the words of a line, from 0, if one does.
    pub(crate) fn name(
        &self,
        alloc: Global,
        number: u32,
        place: usize,
    ) -> Result<Option<Label>, NoMemory> {
        let word = word(self.line(number), place);
        if is_name(word) {
            Ok(Some(Label::of_word(alloc, word)?))
        } else {
            Ok(None)
        }
    }
}

/// Whether a byte separates words.
fn is_blank(byte: u8) -> bool
    ensures { result ≡ is_blank byte }
{
    byte == b' ' || byte == b'\t'
}

/// The column, from 1, at which a word of a line begins, by its place among the words, from 0; that
/// behind the line where there is none.
#[tactic(auto, using(crate::proofs::Starts::one_more, crate::proofs::Starts::found))]
pub fn column(line: &[u8], place: usize) -> usize
    ensures { result ≡ column_of line.now place }
{
    let mut words = 0usize;
    let mut was_blank = true;
    for (at, byte) in line.iter().enumerate() {
        let is_blank = is_blank(*byte);
        if was_blank && !is_blank {
            if words == place {
                return at + 1;
            }
            words = words.saturating_add(1);
        }
        was_blank = is_blank;
    }
    line.len().saturating_add(1)
}

/// How many words of a line begin before a column, which counts from 1.
pub fn words_before(line: &[u8], column: usize) -> usize
    ensures { result ≡ words_before line.now column }
{
    let front = match line.get(..column.saturating_sub(1)) {
        Some(front) => front,
        None => line,
    };
    let mut words = 0usize;
    let mut was_blank = true;
    for byte in front {
        let is_blank = is_blank(*byte);
        if was_blank && !is_blank {
            words = words.saturating_add(1);
        }
        was_blank = is_blank;
    }
    words
}

/// The word of a line at a place, from 0; an empty one where there is none.
pub fn word(line: &[u8], place: usize) -> &[u8]
    ensures { result.now ≡ word_of line.now place }
{
    let start = column(line, place).saturating_sub(1);
    let Some(rest) = line.get(start..) else {
        return &[];
    };
    for (at, byte) in rest.iter().enumerate() {
        if is_blank(*byte) {
            return &rest[..at];
        }
    }
    rest
}
