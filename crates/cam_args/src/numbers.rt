//! Numbers in words.

ghost use Rattle.std.specs.Prelude.{◌≡◌, ℕ, decimal, Ok, IfOk};
ghost use Rattle.cam_args.specs.Forms.{IsFrom};
ghost use Rattle.cam_args.specs.Numbers.{is_plain};

use crate::ArgsFault;

/// Whether the word is `0`, or begins with neither a sign nor a zero.
fn is_plain(word: &[u8]) -> bool
    ensures { result ≡ is_plain word.now }
{
    match word.split_first() {
        Some((first, rest)) => {
            if *first == b'0' {
                rest.len() == 0
            } else {
                *first > b'0'
            }
        }
        None => false,
    }
}

/// The number from `least` to `most` that a word spells in decimal digits, without a sign or a
/// leading zero.
pub(crate) fn number(word: &str, least: u64, most: u64) -> Result<u64, ArgsFault>
    ensures read { IfOk result (λ n. IsFrom least most n × (word.now ≡ decimal n)) }
    ensures each { (n : ℕ) → IsFrom least most n → word.now ≡ decimal n → result ≡ Ok n }
{
    let plain = is_plain(word.as_bytes());
    match word.parse::<u64>() {
        Ok(number) if plain && least <= number && number <= most => Ok(number),
        _ => Err(ArgsFault::Usage),
    }
}
