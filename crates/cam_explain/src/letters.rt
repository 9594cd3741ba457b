//! The letters that no event received.
ghost use Rattle.std.specs.Prelude.{◌≡◌, ◌++◌, OnOk, string_bytes};
ghost use Rattle.cam_explain.specs.Notes.{fate_text, letter_text, letters_from};

use crate::texts::{say, say_number};
use cam_base::NoMemory;
use cam_scope::{Fate, NamedLetter};

/// Appends what became of a letter.
fn write_fate(fate: Fate, out: &mut String) -> Result<(), NoMemory>
    ensures { OnOk result (string_bytes out.new ≡ string_bytes out.old ++ fate_text fate) }
{
    match fate {
        Fate::Waiting => Ok(out.push_str("was not delivered.\n")?),
        Fate::Received => Ok(()),
        Fate::Lost(line) => say_number(out, "was lost in line ", line as u64, ".\n"),
        Fate::MetHalt(line) => {
            let before = "met the halt of its node in line ";
            say_number(out, before, line as u64, ".\n")
        }
    }
}

/// Appends a letter by its number, unless an event received it.
fn write_letter(number: u64, letter: &NamedLetter, out: &mut String) -> Result<(), NoMemory>
    ensures { OnOk result (string_bytes out.new ≡ string_bytes out.old
        ++ letter_text number letter.now) }
{
    if letter.fate == Fate::Received {
        return Ok(());
    }
    say_number(out, "letter ", number, ", ")?;
    say(out, letter.kind.words(), " from node ", "")?;
    say_number(out, "", letter.from as u64, " to ")?;
    say_number(out, "", letter.to as u64, ", ")?;
    write_fate(letter.fate, out)
}

/// Appends the letters that no event received, in order of sending.
pub(crate) fn write_letters(letters: &[NamedLetter], out: &mut String) -> Result<(), NoMemory>
    ensures { OnOk result (string_bytes out.new ≡ string_bytes out.old
        ++ letters_from 1 letters.now) }
{
    for (place, letter) in letters.iter().enumerate() {
        write_letter(place as u64 + 1, letter, out)?;
    }
    Ok(())
}
