//! Why a script is refused, in words.
use crate::forms::{FORMS, KINDS, LineForm, OPERATIONS};
use crate::near::Nearest;
use crate::pointer::write_pointed;
use crate::texts::{say, say_number};
use cam_base::NoMemory;
use cam_scope::{Lines, word, words_before};
use cam_sentences::cause_sentence;
use cam_words::Cause;
use std::alloc::Global;

/// The form of the lines that begin by a word.
fn form_of(first: &[u8]) -> Option<&'static LineForm> {
    FORMS.iter().find(|form| form.word.as_bytes() == first)
}

/// Offers the words by which lines begin.
fn offer_forms(alloc: Global, nearest: &mut Nearest<'_>) -> Result<(), NoMemory> {
    for form in &FORMS {
        nearest.offer(alloc, form.word.as_bytes())?;
    }
    Ok(())
}

/// Offers some words.
fn offer_all(
    alloc: Global,
    words: &[&'static str],
    nearest: &mut Nearest<'_>,
) -> Result<(), NoMemory> {
    for word in words {
        nearest.offer(alloc, word.as_bytes())?;
    }
    Ok(())
}

/// Offers the names that the lines before this one declare.
fn offer_names<'a>(
    alloc: Global,
    source: &Lines<'a>,
    before: u32,
    nearest: &mut Nearest<'a>,
) -> Result<(), NoMemory> {
    for number in 1..before {
        let line = source.line(number);
        match word(line, 0) {
            b"object" | b"body" | b"begin" | b"start" => nearest.offer(alloc, word(line, 1))?,
            b"ask" => nearest.offer(alloc, word(line, 2))?,
            _ => {}
        }
    }
    Ok(())
}

/// Appends the form of the line, or the words by which lines begin.
fn write_expected(
    line: &[u8],
    place: usize,
    cause: Cause,
    out: &mut String,
) -> Result<(), NoMemory> {
    let first = word(line, 0);
    if place > 0 && cause == Cause::UnknownWord {
        return if first == b"object".as_slice() {
            Ok(out.push_str("  Expected: register, queue or counter.\n")?)
        } else {
            Ok(out.push_str(
                "  Expected: read, write V or swap V of a register; size, put V or take of \
                 a queue; read or add V of a counter.\n",
            )?)
        };
    }
    if place > 0 && cause == Cause::Misplaced {
        return Ok(out.push_str(
            "  Only `go` and `query` stand on a variable of `start`; `go` on no other.\n",
        )?);
    }
    match form_of(first) {
        Some(form) => say(out, "  The form of the line: ", form.form, "\n"),
        None => Ok(()),
    }
}

/// Appends the near word, if one is near.
fn write_near(
    alloc: Global,
    source: &Lines<'_>,
    number: u32,
    place: usize,
    cause: Cause,
    out: &mut String,
) -> Result<(), NoMemory> {
    let line = source.line(number);
    let mut nearest = Nearest::to(word(line, place));
    match cause {
        Cause::UnknownWord => if place == 0 {
            offer_forms(alloc, &mut nearest)?;
        } else if word(line, 0) == b"object".as_slice() {
            offer_all(alloc, &KINDS, &mut nearest)?;
        } else {
            offer_all(alloc, &OPERATIONS, &mut nearest)?;
        },
        Cause::Undeclared => offer_names(alloc, source, number, &mut nearest)?,
        _ => {}
    }
    match nearest.found() {
        Some(near) => {
            let text = String::from_utf8_lossy(alloc, near)?;
            say(out, "  A near word is `", &text, "`.\n")
        }
        None => Ok(()),
    }
}

/// Why the script of a file is refused at a line and column, which count from 1: the line, a caret
/// under the column, the cause, what was expected, and the word or name that is near, if one is.
pub fn fault_text(
    alloc: Global,
    file: &str,
    source: &Lines<'_>,
    number: u32,
    column: u32,
    cause: Cause,
) -> Result<String, NoMemory> {
    let mut text = String::new(alloc);
    say(&mut text, file, ":", "")?;
    say_number(&mut text, "", number as u64, ":")?;
    say_number(&mut text, "", column as u64, ":\n")?;
    let line = source.line(number);
    write_pointed(alloc, line, column as usize, &mut text)?;
    say_number(&mut text, "  S", u64::from(cause.number()), ": ")?;
    say(&mut text, cause_sentence(cause), "\n", "")?;
    let place = words_before(line, column as usize);
    write_expected(line, place, cause, &mut text)?;
    write_near(alloc, source, number, place, cause, &mut text)?;
    Ok(text)
}
