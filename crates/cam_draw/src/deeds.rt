//! What happened at events, in full.
ghost use Rattle.std.specs.Prelude.{◌≡◌, ◌++◌, IfOk, OnOk, string_bytes};
ghost use Rattle.std.specs.List.{flat_map};
ghost use Rattle.cam_draw.specs.Deeds.{
  by_letter,
  deed_line,
  deeds_words,
  letter_words,
  line_and_letter,
  line_words,
  numbered_letter,
  origin_words,
  way_of,
  way_words,
};

use crate::notes::{write_note, write_numbered};
use cam_base::NoMemory;
use cam_event::{Deeds, Event};
use cam_scope::{NamedEvent, NamedLetter, Scope, write_deed};
use cam_script::Labels;
use std::alloc::Global;

/// Appends deeds, each on a line.
fn write_deeds(
    alloc: Global,
    scope: &Scope,
    labels: &Labels,
    deeds: &Deeds,
    out: &mut String,
) -> Result<(), NoMemory>
    ensures { OnOk result (string_bytes out.new ≡ string_bytes out.old
        ++ flat_map (deed_line scope.now.names labels.now) deeds.now) }
{
    for deed in deeds.as_slice() {
        out.push_str("\n")?;
        write_deed(alloc, &scope.names, labels, deed, out)?;
    }
    Ok(())
}

/// What happened at the event of this number, in full: where, by which letter, and each deed on a
/// line.
pub(crate) fn deeds_of(
    alloc: Global,
    scope: &Scope,
    labels: &Labels,
    number: usize,
    event: &Event,
) -> Result<String, NoMemory>
    ensures { IfOk result (λ text.
        string_bytes text ≡ deeds_words scope.now labels.now number event.now) }
{
    let mut words = String::new(alloc);
    write_numbered(&mut words, "event ", number as u64)?;
    write_numbered(&mut words, " at node ", event.node as u64)?;
    write_origin(scope, number, &mut words)?;
    words.push_str("\n")?;
    write_note(alloc, &scope.names, &event.note, &mut words)?;
    write_deeds(alloc, scope, labels, &event.deeds, &mut words)?;
    Ok(words)
}

/// Appends the line in which an event happened, and the letter that it received.
fn write_origin(scope: &Scope, number: usize, out: &mut String) -> Result<(), NoMemory>
    ensures { OnOk result (string_bytes out.new ≡ string_bytes out.old
        ++ origin_words scope.now number) }
{
    match scope.events.get(number) {
        Some(event) => write_line_and_letter(scope, event, out),
        None => Ok(()),
    }
}

/// Appends a line, if there is one.
fn write_line(line: Option<u32>, out: &mut String) -> Result<(), NoMemory>
    ensures { OnOk result (string_bytes out.new ≡ string_bytes out.old ++ line_words line) }
{
    match line {
        Some(line) => write_numbered(out, ", line ", line as u64),
        None => Ok(()),
    }
}

/// Appends the line of an event, and the letter that it received.
fn write_line_and_letter(
    scope: &Scope,
    event: &NamedEvent,
    out: &mut String,
) -> Result<(), NoMemory>
    ensures { OnOk result (string_bytes out.new ≡ string_bytes out.old
        ++ line_and_letter scope.now.letters event.now) }
{
    write_line(event.line, out)?;
    write_letter(scope, event.received, out)
}

/// Appends the letter of a number, and from where it came, if there is one.
fn write_letter(scope: &Scope, number: Option<usize>, out: &mut String) -> Result<(), NoMemory>
    ensures { OnOk result (string_bytes out.new ≡ string_bytes out.old
        ++ letter_words scope.now.letters number) }
{
    match number {
        Some(number) => write_numbered_letter(scope, number, out),
        None => Ok(()),
    }
}

/// How it begins by which letter an event happened.
#[tactic(auto, unfolding(crate::specs::Deeds::by_letter))]
fn by_letter() -> &'static str
    ensures { result.now ≡ by_letter }
{
    ", by letter "
}

/// Appends the letter of this number, and from where it came.
fn write_numbered_letter(scope: &Scope, number: usize, out: &mut String) -> Result<(), NoMemory>
    ensures { OnOk result (string_bytes out.new ≡ string_bytes out.old
        ++ numbered_letter scope.now.letters number) }
{
    write_numbered(out, by_letter(), number as u64)?;
    write_way_of(scope, number, out)
}

/// Appends the way of the letter of this number, if there is one.
fn write_way_of(scope: &Scope, number: usize, out: &mut String) -> Result<(), NoMemory>
    ensures { OnOk result (string_bytes out.new ≡ string_bytes out.old
        ++ way_of scope.now.letters number) }
{
    match scope.letters.get(number.saturating_sub(1)) {
        Some(letter) => write_way(letter, out),
        None => Ok(()),
    }
}

/// Appends the kind of a letter, and the node that sent it.
fn write_way(letter: &NamedLetter, out: &mut String) -> Result<(), NoMemory>
    ensures { OnOk result (string_bytes out.new ≡ string_bytes out.old ++ way_words letter.now) }
{
    out.push_str(", ")?;
    out.push_str(letter.kind.words())?;
    write_numbered(out, " from node ", letter.from as u64)
}
