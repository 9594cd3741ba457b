//! Text in lines of a cell.
use cam_base::NoMemory;
use std::alloc::Global;

/// How many characters a line of a cell has at most; a longer word stands alone.
const WIDTH: usize = 20;

/// The lines of a cell.
pub(crate) type CellLines = Vec<String>;

/// The lines of a text, each broken between words to the width of a cell.
pub(crate) fn wrapped(alloc: Global, text: &str) -> Result<CellLines, NoMemory> {
    let mut lines = Vec::new(alloc);
    for part in text.lines() {
        add_wrapped(alloc, part, &mut lines)?;
    }
    Ok(lines)
}

/// Adds the words of a line, broken to the width of a cell.
fn add_wrapped(alloc: Global, part: &str, lines: &mut CellLines) -> Result<(), NoMemory> {
    let mut line = String::new(alloc);
    for word in part.split_whitespace() {
        if !fits(&line, word) {
            lines.push(line)?;
            line = String::new(alloc);
        }
        add_word(&mut line, word)?;
    }
    lines.push(line)?;
    Ok(())
}

/// Whether a word may stand behind others of a line.
fn fits(line: &str, word: &str) -> bool {
    line.is_empty() || line.len().saturating_add(word.len()) < WIDTH
}

/// Appends a word.
fn add_word(line: &mut String, word: &str) -> Result<(), NoMemory> {
    if !line.is_empty() {
        line.push_str(" ")?;
    }
    Ok(line.push_str(word)?)
}
