//! A line and its words.
ghost use Rattle.std.specs.Prelude.{◌≡◌, ◌≤◌, ◌<◌, ◌+◌, drop, length, Ok, Err, IfOk};
ghost use Rattle.cam_words.specs.declared.fault.ScriptFault.TheVariants.{Bad};
ghost use Rattle.cam_words.specs.Words.{is_blank, blanks_end, word_end, next_word, third_word, text_of, word_at, end_at};

use crate::{Cause, ScriptFault, Word};

/// A line of a script, with its number from 1.
#[derive(Clone, Copy)]
pub struct Line<'a> {
    pub number: u32,
    pub bytes: &'a [u8],
    ghost short: { length bytes.now ≤ 262144 },
}

impl Line<'_> {
    /// The fault of this cause at this place.
    pub fn fault(&self, at: usize, cause: Cause) -> ScriptFault
        requires { at ≤ length self.now.bytes.now }
        ensures { result ≡ Bad self.now.number (at + 1) cause }
    {
        ScriptFault::Bad {
            line: self.number,
            column: at as u32 + 1,
            cause,
        }
    }

    /// The bytes of a word.
    pub fn text(&self, word: Word) -> &[u8]
        requires start { word.start ≤ word.end }
        requires end { word.end ≤ length self.now.bytes.now }
        ensures { result.now ≡ text_of word self.now.bytes.now }
    {
        &self.bytes[word.start..word.end]
    }

    /// The next word from this place on: an empty one at the line's end if there is none.
    pub fn next_word(&self, at: usize) -> Word
        requires { at ≤ length self.now.bytes.now }
        ensures value { result ≡ next_word at self.now.bytes.now }
        ensures start { (at ≤ result.start) × (result.start ≤ result.end) }
        ensures end { result.end ≤ length self.now.bytes.now }
    {
        let start = blanks_end(self.bytes, at);
        Word {
            start,
            end: word_end(self.bytes, start),
        }
    }

    /// The third word from this place on: an empty one at the line's end if there is none.
    pub fn third_word(&self, at: usize) -> Word
        requires { at ≤ length self.now.bytes.now }
        ensures value { result ≡ third_word at self.now.bytes.now }
        ensures start { result.start ≤ result.end }
        ensures end { result.end ≤ length self.now.bytes.now }
    {
        let first = self.next_word(at);
        let second = self.next_word(first.end);
        self.next_word(second.end)
    }

    /// The next word, which must be there.
    pub fn word_at(&self, at: usize) -> Result<Word, ScriptFault>
        requires { at ≤ length self.now.bytes.now }
        ensures value { result ≡ word_at self.now.number at self.now.bytes.now }
        ensures word { IfOk result (λ word. (at ≤ word.start) × (word.start < word.end)) }
        ensures end { IfOk result (λ word. word.end ≤ length self.now.bytes.now) }
    {
        let word = self.next_word(at);
        if word.is_missing() {
            return Err(self.fault(at, Cause::MissingWord));
        }
        Ok(word)
    }

    /// No word is left.
    pub fn end_at(&self, at: usize) -> Result<(), ScriptFault>
        requires { at ≤ length self.now.bytes.now }
        ensures value { result ≡ end_at self.now.number at self.now.bytes.now }
    {
        let word = self.next_word(at);
        if !word.is_missing() {
            return Err(self.fault(word.start, Cause::ExtraWord));
        }
        Ok(())
    }
}

fn is_blank(byte: u8) -> bool
    ensures { result ≡ is_blank byte }
{
    byte == b' ' || byte == b'\t'
}

fn blanks_end(line: &[u8], at: usize) -> usize
    requires { at ≤ length line.now }
    ensures value { result ≡ blanks_end at (drop at line.now) }
    ensures end { (at ≤ result) × (result ≤ length line.now) }
{
    let rest = &line[at..];
    for (i, byte) in rest.iter().enumerate() {
        if !is_blank(*byte) {
            return at + i;
        }
    }
    line.len()
}

fn word_end(line: &[u8], at: usize) -> usize
    requires { at ≤ length line.now }
    ensures value { result ≡ word_end at (drop at line.now) }
    ensures end { (at ≤ result) × (result ≤ length line.now) }
{
    let rest = &line[at..];
    for (i, byte) in rest.iter().enumerate() {
        if is_blank(*byte) {
            return at + i;
        }
    }
    line.len()
}
