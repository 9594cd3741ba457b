//! The lines of a text, and the text of some of them.
ghost use Rattle.std.specs.Prelude.{◌≡◌, ◌++◌, IfOk, OnOk, map};
ghost use Rattle.cam_words.specs.Lines.{lines_of};
ghost use Rattle.cam_whatif.specs.Texts.{behind_word, has_line, is_like, line_at, text_at};

use cam_base::NoMemory;
use cam_words::first_line;
use std::alloc::Global;

/// The lines of a text.
pub(crate) fn lines_in<'a>(alloc: Global, text: &'a [u8]) -> Result<Vec<&'a [u8]>, NoMemory>
    ensures { IfOk result (λ lines. map (λ line. line.now) lines.items ≡ lines_of text.now) }
{
    let mut lines = Vec::new(alloc);
    let mut rest = text;
    while !rest.is_empty() {
        let (line, behind) = first_line(rest);
        lines.push(line)?;
        rest = behind;
    }
    Ok(lines)
}

/// Appends the line at a place, if there is one.
fn push_line(lines: &[&[u8]], place: usize, text: &mut Vec<u8>) -> Result<(), NoMemory>
    ensures { OnOk result (text.new.items
        ≡ text.old.items ++ line_at (map (λ line. line.now) lines.now) place) }
{
    if let Some(line) = lines.get(place) {
        text.extend_from_slice(line)?;
        text.push(b'\n')?;
    }
    Ok(())
}

/// The text of the lines at these places.
pub(crate) fn text_of(alloc: Global, lines: &[&[u8]], places: &[usize]) -> Result<Vec<u8>, NoMemory>
    ensures { IfOk result (λ text.
        text.items ≡ text_at (map (λ line. line.now) lines.now) places.now) }
{
    let mut text = Vec::new(alloc);
    for place in places {
        push_line(lines, *place, &mut text)?;
    }
    Ok(text)
}

/// What comes behind the word with which a line begins.
fn behind_word(line: &[u8]) -> &[u8]
    ensures value { result.now ≡ behind_word line.now }
{
    let mut rest = line;
    while let Some((first, behind)) = rest.split_first() {
        if *first == b' ' {
            return rest;
        }
        rest = behind;
    }
    rest
}

/// Whether a line is like another one, in which a `*` stands for the rest of a word, whatever it is.
fn is_like(wanted: &[u8], line: &[u8]) -> bool
    ensures { result ≡ is_like wanted.now line.now }
{
    let mut left = wanted;
    let mut rest = line;
    while let Some((first, behind)) = left.split_first() {
        if *first == b'*' {
            rest = behind_word(rest);
        } else {
            match rest.split_first() {
                Some((byte, more)) if *byte == *first => rest = more,
                _ => return false,
            }
        }
        left = behind;
    }
    rest.is_empty()
}

/// Whether a text has a line like this.
pub(crate) fn has_line(wanted: &[u8], text: &[u8]) -> bool
    ensures { result ≡ has_line wanted.now text.now }
{
    let mut rest = text;
    while !rest.is_empty() {
        let (line, behind) = first_line(rest);
        if is_like(wanted, line) {
            return true;
        }
        rest = behind;
    }
    false
}
