//! The expectations of a script.
use cam_base::{NoMemory, Sequence};
use cam_scope::Lines;
use std::alloc::Global;

/// What a line of a script expects.
#[derive(Drop)]
pub struct Expectation {
    /// The number of the line.
    pub line: u32,
    /// The line that is expected of the run, with single blanks between its words.
    pub text: String,
}

/// The expectations of a script, in order.
pub type Expectations = Sequence<Expectation>;

/// The words of a text with single blanks between them.
fn with_single_blanks(alloc: Global, text: &str) -> Result<String, NoMemory> {
    let mut words = String::new(alloc);
    for word in text.split_whitespace() {
        if !words.is_empty() {
            words.push_str(" ")?;
        }
        words.push_str(word)?;
    }
    Ok(words)
}

/// The expectation of a line, if it has one.
fn expectation_of(
    alloc: Global,
    number: u32,
    line: &[u8],
) -> Result<Option<Expectation>, NoMemory> {
    match line.strip_prefix(b"#=") {
        Some(text) => {
            let text = String::from_utf8_lossy(alloc, text)?;
            Ok(Some(Expectation {
                line: number,
                text: with_single_blanks(alloc, &text)?,
            }))
        }
        None => Ok(None),
    }
}

/// The expectations of a script: its lines that begin with `#=`.
pub fn expectations_of(alloc: Global, source: &Lines<'_>) -> Result<Expectations, NoMemory> {
    let mut found = Expectations::new(alloc);
    for before in 0..source.count() {
        let number = u32::try_from(before).unwrap_or(u32::MAX).saturating_add(1);
        if let Some(expectation) = expectation_of(alloc, number, source.line(number))? {
            found.push(expectation)?;
        }
    }
    Ok(found)
}
