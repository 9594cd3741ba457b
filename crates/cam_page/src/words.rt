//! The words of a question.
ghost use Rattle.std.specs.Prelude.{◌≡◌, IfOk, map, string_bytes};
ghost use Rattle.cam_page.specs.Words.{words_in};

use cam_base::NoMemory;
use std::alloc::Global;

/// The words of a question: each ends at a newline. A word that is no text reads as what can be read
/// of it.
pub(crate) fn words_of(alloc: Global, question: &[u8]) -> Result<Vec<String>, NoMemory>
    ensures { IfOk result (λ words. map string_bytes words.items ≡ words_in question.now) }
{
    let mut words = Vec::new(alloc);
    let mut word = Vec::new(alloc);
    for byte in question {
        if *byte == b'\n' {
            words.push(String::from_utf8_lossy(alloc, &word)?)?;
            word.clear();
        } else {
            word.push(*byte)?;
        }
    }
    Ok(words)
}
