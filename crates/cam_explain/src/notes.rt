//! The events that say something beside their deeds, but for the stops.
ghost use Rattle.std.specs.Prelude.{◌≡◌, ◌++◌, OnOk, string_bytes};
ghost use Rattle.cam_explain.specs.Notes.{is_told, named_part, notes_from, received_part, told_text};

use crate::texts::{say, say_line, say_number};
use cam_base::NoMemory;
use cam_event::{Event, Note, Trace};
use cam_scope::{NamedEvent, Scope};
use cam_sentences::note_sentence;

/// Appends the letter that an event received: `letter 9, call, `.
fn write_received(scope: &Scope, received: Option<usize>, out: &mut String) -> Result<(), NoMemory>
    ensures { OnOk result (string_bytes out.new ≡ string_bytes out.old
        ++ received_part scope.now received) }
{
    let Some(number) = received else {
        return Ok(());
    };
    match scope.letters.get(number.saturating_sub(1)) {
        Some(letter) => {
            say_number(out, "letter ", number as u64, ", ")?;
            say(out, letter.kind.words(), ", ", "")
        }
        None => Ok(()),
    }
}

/// Appends an event with its letter and its line.
fn write_named(
    scope: &Scope,
    number: usize,
    named: &NamedEvent,
    out: &mut String,
) -> Result<(), NoMemory>
    ensures { OnOk result (string_bytes out.new ≡ string_bytes out.old
        ++ named_part scope.now number named.now) }
{
    write_received(scope, named.received, out)?;
    say_number(out, "event ", number as u64, "")?;
    match named.line {
        Some(line) => say_line(out, line),
        None => Ok(()),
    }
}

/// Appends what the note of an event says.
fn write_note(scope: &Scope, number: usize, event: &Event, out: &mut String) -> Result<(), NoMemory>
    ensures { OnOk result (string_bytes out.new ≡ string_bytes out.old
        ++ told_text scope.now number event.now) }
{
    if let Some(named) = scope.events.get(number) {
        write_named(scope, number, named, out)?;
    }
    say_number(out, " of node ", event.node as u64, ": ")?;
    say(out, note_sentence(&event.note), "\n", "")
}

/// Whether a note is told of here: a plain one says nothing, and stops are told of by themselves.
fn is_told(note: &Note) -> bool
    ensures { result ≡ is_told note.now }
{
    !matches!(note, Note::Plain | Note::Stopped(..))
}

/// Appends what the notes of events say, in order.
pub(crate) fn write_notes(scope: &Scope, trace: &Trace, out: &mut String) -> Result<(), NoMemory>
    ensures { OnOk result (string_bytes out.new ≡ string_bytes out.old
        ++ notes_from scope.now 0 trace.now) }
{
    for (number, event) in trace.as_slice().iter().enumerate() {
        if is_told(&event.note) {
            write_note(scope, number, event, out)?;
        }
    }
    Ok(())
}
