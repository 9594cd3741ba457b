//! What a table of words has for a word.

ghost use Rattle.std.specs.Prelude.{◌≡◌};
ghost use Rattle.cam_words.specs.Words.{looked_up};
ghost use Rattle.cam_script.specs.Table.{entries};

/// What a table has for a word, by its first row with that word.
pub fn find<T: Copy>(table: &[(&str, T)], word: &[u8]) -> Option<T>
    ensures { result ≡ looked_up (entries table.now) word.now }
{
    for row in table {
        if word == row.0.as_bytes() {
            return Some(row.1);
        }
    }
    None
}
