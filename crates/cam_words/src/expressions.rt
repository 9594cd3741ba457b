//! Values in bodies: fixed, or of an earlier statement.
ghost use Rattle.std.specs.Prelude.{◌≡◌, ◌≤◌, length, take, drop, Ok, Err, IfOk};
ghost use Rattle.cam_words.specs.Words.{IsFurther};
ghost use Rattle.cam_words.specs.Expressions.{digits_in_front, behind_digits, added_of, earlier_of, kept_of, expression_of, expression_at};

use crate::line::Line;
use crate::numbers::{number_of, value_of};
use crate::{Cause, ScriptFault};

/// A value in a body: fixed, or that of an earlier statement, counted from 1, with a number added.
#[derive(Clone, Copy, Debug)]
pub enum Expr {
    Fixed(i64),
    Kept { place: u8, add: i64 },
}

impl Line<'_> {
    /// An expression after this many earlier statements, and the place after it.
    #[tactic(auto, unfolding(crate::specs::Expressions::expression_at))]
    pub fn expression_at(&self, at: usize, earlier: u8) -> Result<(Expr, usize), ScriptFault>
        requires { at ≤ length self.now.bytes.now }
        ensures value { result ≡ expression_at earlier self.now.number at self.now.bytes.now }
        ensures end { IfOk result (λ read. IsFurther at self.now.bytes.now read.1) }
    {
        let word = self.word_at(at)?;
        let expr = self.expression_of(word.start, self.text(word), earlier)?;
        Ok((expr, word.end))
    }

    /// The expression that the text of a word spells, which begins at this place.
    fn expression_of(&self, at: usize, text: &[u8], earlier: u8) -> Result<Expr, ScriptFault>
        requires { at ≤ length self.now.bytes.now }
        ensures { result ≡ expression_of earlier self.now.number at text.now }
    {
        match text.split_first() {
            None => Err(self.fault(at, Cause::InvalidNumber)),
            Some((b'$', rest)) => self.kept_of(at, rest, earlier),
            Some(_) => match value_of(text) {
                Some(value) => Ok(Expr::Fixed(value)),
                None => Err(self.fault(at, Cause::InvalidNumber)),
            },
        }
    }

    /// The expression of `$` and this text.
    #[tactic(auto, unfolding(crate::specs::Expressions::kept_of))]
    fn kept_of(&self, at: usize, text: &[u8], earlier: u8) -> Result<Expr, ScriptFault>
        requires { at ≤ length self.now.bytes.now }
        ensures { result ≡ kept_of earlier self.now.number at text.now }
    {
        let end = digits_len(text);
        match added_of(&text[end..]) {
            None => Err(self.fault(at, Cause::InvalidNumber)),
            Some(add) => {
                let place = self.earlier_of(at, &text[..end], earlier)?;
                Ok(Expr::Kept { place, add })
            }
        }
    }

    /// The place of one of the earlier statements, by its digits.
    fn earlier_of(&self, at: usize, digits: &[u8], earlier: u8) -> Result<u8, ScriptFault>
        requires { at ≤ length self.now.bytes.now }
        ensures { result ≡ earlier_of earlier self.now.number at digits.now }
    {
        if digits.is_empty() {
            return Err(self.fault(at, Cause::InvalidNumber));
        }
        match number_of(digits, earlier as u64) {
            Some(place) if 1 <= place => Ok(place as u8),
            _ => Err(self.fault(at, Cause::Undeclared)),
        }
    }
}

/// How many digits are in front.
fn digits_len(text: &[u8]) -> usize
    ensures front { take result text.now ≡ digits_in_front text.now }
    ensures behind { drop result text.now ≡ behind_digits text.now }
    ensures within { result ≤ length text.now }
{
    for (i, byte) in text.iter().enumerate() {
        if !byte.is_ascii_digit() {
            return i;
        }
    }
    text.len()
}

/// The number that is added: none, `+U` or `-U`.
fn added_of(text: &[u8]) -> Option<i64>
    ensures { result ≡ added_of text.now }
{
    match text.split_first() {
        None => Some(0),
        Some((b'+', digits)) => Some(number_of(digits, (1 << 63) - 1)? as i64),
        Some((b'-', digits)) => Some(-(number_of(digits, (1 << 63) - 1)? as i64)),
        Some(_) => None,
    }
}
