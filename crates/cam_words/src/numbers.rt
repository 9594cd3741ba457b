//! Numbers, nodes and values.
ghost use Rattle.std.specs.Prelude.{◌≡◌, ◌≤◌, length, Ok, Err, IfOk, IfSome};
ghost use Rattle.cam_words.specs.Words.{word_at, IsFurther};
ghost use Rattle.cam_words.specs.Numbers.{number_of, digits_on, number_at, node_at, value_of, value_at};

use crate::line::Line;
use crate::{Cause, ScriptFault};

impl Line<'_> {
    /// A number of this range, and the place after it.
    #[tactic(auto, unfolding(crate::specs::Numbers::number_at))]
    pub fn number_at(&self, at: usize, least: u32, most: u32) -> Result<(u32, usize), ScriptFault>
        requires { at ≤ length self.now.bytes.now }
        ensures value { result ≡ number_at least most self.now.number at self.now.bytes.now }
        ensures range { IfOk result (λ read. (least ≤ read.0) × (read.0 ≤ most)) }
        ensures end { IfOk result (λ read. IsFurther at self.now.bytes.now read.1) }
    {
        let word = self.word_at(at)?;
        match number_of(self.text(word), most as u64) {
            Some(n) if least as u64 <= n => Ok((n as u32, word.end)),
            _ => Err(self.fault(word.start, Cause::InvalidNumber)),
        }
    }

    /// A node, of which there are this many, and the place after it.
    #[tactic(auto, unfolding(crate::specs::Numbers::node_at))]
    pub fn node_at(&self, at: usize, nodes: u8) -> Result<(u8, usize), ScriptFault>
        requires { at ≤ length self.now.bytes.now }
        ensures value { result ≡ node_at nodes self.now.number at self.now.bytes.now }
        ensures end { IfOk result (λ read. IsFurther at self.now.bytes.now read.1) }
    {
        let word = self.word_at(at)?;
        match number_of(self.text(word), 8) {
            Some(n) if 1 <= n => {
                if n as u8 > nodes {
                    return Err(self.fault(word.start, Cause::NoSuchNode));
                }
                Ok((n as u8, word.end))
            }
            _ => Err(self.fault(word.start, Cause::InvalidNumber)),
        }
    }

    /// A value, and the place after it.
    #[tactic(auto, unfolding(crate::specs::Numbers::value_at))]
    pub fn value_at(&self, at: usize) -> Result<(i64, usize), ScriptFault>
        requires { at ≤ length self.now.bytes.now }
        ensures value { result ≡ value_at self.now.number at self.now.bytes.now }
        ensures end { IfOk result (λ read. IsFurther at self.now.bytes.now read.1) }
    {
        let word = self.word_at(at)?;
        match value_of(self.text(word)) {
            Some(value) => Ok((value, word.end)),
            None => Err(self.fault(word.start, Cause::InvalidNumber)),
        }
    }
}

/// The number that these digits spell, if it is no more than `limit`.
pub(crate) fn number_of(digits: &[u8], limit: u64) -> Option<u64>
    requires { limit ≤ 9223372036854775808 }
    ensures value { result ≡ number_of limit digits.now }
    ensures within { IfSome result (λ n. n ≤ limit) }
{
    if digits.is_empty() {
        return None;
    }
    digits_on(digits, limit)
}

fn digits_on(digits: &[u8], limit: u64) -> Option<u64>
    requires { limit ≤ 9223372036854775808 }
    ensures value { result ≡ digits_on limit 0 digits.now }
    ensures within { IfSome result (λ n. n ≤ limit) }
{
    let mut number = 0u64;
    for byte in digits {
        if !byte.is_ascii_digit() {
            return None;
        }
        let longer = 10 * number as u128 + (*byte - b'0') as u128;
        if longer > limit as u128 {
            return None;
        }
        number = longer as u64;
    }
    Some(number)
}

/// The value that a word spells: digits, with or without a `-` before them.
pub(crate) fn value_of(word: &[u8]) -> Option<i64>
    ensures { result ≡ value_of word.now }
{
    match word.split_first() {
        None => None,
        Some((b'-', digits)) => match number_of(digits, 1 << 63)? {
            0 => Some(0),
            magnitude => Some(-1 - (magnitude - 1) as i64),
        },
        Some(_) => Some(number_of(word, (1 << 63) - 1)? as i64),
    }
}
