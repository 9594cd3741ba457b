//! Names, as scripts spell them.
ghost use Rattle.std.specs.Prelude.{◌≡◌, string_bytes, IfOk, IsTrue};
ghost use Rattle.std.specs.List.{list_all};
ghost use Rattle.cam_words.specs.Numbers.{is_letter, is_letter_or_digit, is_name};

use cam_base::{NoMemory, Sequence};
use std::alloc::Global;
use std::marker::Model;

/// A name, as the script spells it. Contracts see its bytes.
#[derive(Drop)]
pub struct Label {
    text: String,
}

impl Model for Label {
    ghost use Rattle.std.specs.Prelude.{List, ℕ, string_bytes};

    ghost Value = { List ℕ };

    ghost view = { λ l. string_bytes l.text };
}

/// Names, in order of their declarations.
pub type Labels = Sequence<Label>;

impl Label {
    /// The name of this text, which is taken as it is: whether it is a name of the grammar is not tested.
    pub fn new(text: String) -> Label
        ensures { result ≡ string_bytes text }
    {
        Label { text }
    }

    /// The name that a word spells.
    #[tactic(auto, using(crate::proofs::Ascii::name_is_text))]
    pub fn of_word(alloc: Global, word: &[u8]) -> Result<Label, NoMemory>
        requires { IsTrue (is_name word.now) }
        ensures { IfOk result (λ label. label ≡ word.now) }
    {
        let text = str::from_utf8(word).unwrap();
        Ok(Label::new(String::from_str(alloc, text)?))
    }

    /// The text of the name.
    pub fn as_str(&self) -> &str
        ensures { result.now ≡ self.now }
    {
        &self.text
    }
}

/// A name is a letter and up to 15 letters or digits.
pub fn is_name(word: &[u8]) -> bool
    ensures { result ≡ is_name word.now }
{
    match word.split_first() {
        None => false,
        Some((first, rest)) => {
            is_letter(*first) && (has_letters_and_digits(rest) && rest.len() <= 15)
        }
    }
}

fn is_letter(byte: u8) -> bool
    ensures { result ≡ is_letter byte }
{
    (b'A' <= byte && byte <= b'Z') || (b'a' <= byte && byte <= b'z')
}

fn is_letter_or_digit(byte: u8) -> bool
    ensures { result ≡ is_letter_or_digit byte }
{
    is_letter(byte) || (b'0' <= byte && byte <= b'9')
}

fn has_letters_and_digits(bytes: &[u8]) -> bool
    ensures { result ≡ list_all is_letter_or_digit bytes.now }
{
    for byte in bytes {
        if !is_letter_or_digit(*byte) {
            return false;
        }
    }
    true
}
