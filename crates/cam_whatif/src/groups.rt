//! The lines of a script that go together: those of a variable, of an object, of a body.
use cam_base::NoMemory;
use cam_scope::word;
use cam_shrink::{Cuts, Places};
use std::alloc::Global;

/// Whether this is the first word of a line.
fn begins_with(line: &[u8], first: &str) -> bool {
    word(line, 0) == first.as_bytes()
}

/// Whether a line has this word behind its first one.
fn has_word(line: &[u8], wanted: &[u8]) -> bool {
    for place in 1..line.len() {
        let found = word(line, place);
        if found.is_empty() {
            return false;
        }
        if found == wanted {
            return true;
        }
    }
    false
}

/// Whether a line has one of these words behind its first one.
fn has_one(line: &[u8], wanted: &[&[u8]]) -> bool {
    for name in wanted {
        if has_word(line, name) {
            return true;
        }
    }
    false
}

/// The name that a line declares or binds: of an object, a body or a variable.
fn declared<'a>(line: &'a [u8]) -> Option<&'a [u8]> {
    match word(line, 0) {
        b"begin" | b"start" | b"object" | b"body" => Some(word(line, 1)),
        b"ask" => Some(word(line, 2)),
        _ => None,
    }
}

/// The lines from a declaration on that have its name, or that of an action that one of them asks
/// for. Those of a body reach to its `end`.
fn group_of(alloc: Global, lines: &[&[u8]], first: usize, name: &[u8]) -> Result<Places, NoMemory> {
    let mut names = Vec::new(alloc);
    names.push(name)?;
    let mut places = Places::new(alloc);
    let mut is_in_body = false;
    for (place, line) in lines.iter().enumerate().skip(first) {
        if place == first && begins_with(line, "body") {
            is_in_body = true;
        }
        if is_in_body || has_one(line, &names) {
            places.push(place)?;
            if begins_with(line, "ask") {
                names.push(word(line, 2))?;
            }
        }
        if begins_with(line, "end") {
            is_in_body = false;
        }
    }
    Ok(places)
}

/// The groups of lines that go together.
pub(crate) fn groups(alloc: Global, lines: &[&[u8]]) -> Result<Cuts, NoMemory> {
    let mut groups = Cuts::new(alloc);
    for (place, line) in lines.iter().enumerate() {
        if let Some(name) = declared(line) {
            groups.push(group_of(alloc, lines, place, name)?)?;
        }
    }
    Ok(groups)
}
