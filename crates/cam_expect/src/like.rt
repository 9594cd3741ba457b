//! What a run comes to in the place of what was expected.
use crate::facts::Facts;
use cam_base::NoMemory;
use std::alloc::Global;

/// How many bytes two texts have alike at their fronts.
fn alike(one: &[u8], other: &[u8]) -> usize {
    for (place, byte) in one.iter().enumerate() {
        if other.get(place) != Some(byte) {
            return place;
        }
    }
    one.len()
}

/// How many bytes the first word has with the blank behind it.
fn first_word(text: &[u8]) -> usize {
    for (place, byte) in text.iter().enumerate() {
        if *byte == b' ' {
            return place + 1;
        }
    }
    text.len()
}

/// The fact that is most like a text, and begins with its first word, if one does.
pub(crate) fn like(alloc: Global, facts: &Facts, text: &str) -> Result<Option<String>, NoMemory> {
    let mut nearest: Option<&str> = None;
    let mut most = first_word(text.as_bytes());
    for fact in facts {
        let alike = alike(text.as_bytes(), fact.as_bytes());
        if alike > most || (alike == most && nearest.is_none()) {
            nearest = Some(fact.as_str());
            most = alike;
        }
    }
    match nearest {
        Some(fact) => Ok(Some(String::from_str(alloc, fact)?)),
        None => Ok(None),
    }
}
