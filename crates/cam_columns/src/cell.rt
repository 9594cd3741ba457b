//! What a cell says of an event: the letter that it received, its deeds and its note, and the
//! letters that it sent.
use cam_base::NoMemory;
use cam_event::Event;
use cam_scope::{NamedEvent, NamedLetter, Scope, push_number, write_deed, write_note};
use cam_script::Labels;
use std::alloc::Global;

/// Ends the line of the part before, if there is one.
fn separate(out: &mut String) -> Result<(), NoMemory> {
    if !out.is_empty() {
        out.push_str("\n")?;
    }
    Ok(())
}

/// Appends a letter's number and kind.
fn write_letter(number: usize, letter: &NamedLetter, out: &mut String) -> Result<(), NoMemory> {
    push_number(out, number as u64)?;
    out.push_str(" ")?;
    Ok(out.push_str(letter.kind.words())?)
}

/// Appends the letter that an event received: `> 9 call`.
fn write_received(scope: &Scope, event: &NamedEvent, out: &mut String) -> Result<(), NoMemory> {
    let Some(number) = event.received else {
        return Ok(());
    };
    let Some(letter) = scope.letters.get(number.saturating_sub(1)) else {
        return Ok(());
    };
    out.push_str("> ")?;
    write_letter(number, letter, out)
}

/// Appends the letters that an event sent: `10 answer > 4`.
fn write_sent(scope: &Scope, event: &NamedEvent, out: &mut String) -> Result<(), NoMemory> {
    for before in 0..event.sent {
        let place = event.sent_before.saturating_add(before);
        if let Some(letter) = scope.letters.get(place) {
            separate(out)?;
            write_letter(place.saturating_add(1), letter, out)?;
            out.push_str(" > ")?;
            push_number(out, u64::from(letter.to))?;
        }
    }
    Ok(())
}

/// Appends the deeds of an event, and its note.
fn write_deeds(
    alloc: Global,
    scope: &Scope,
    labels: &Labels,
    event: &Event,
    out: &mut String,
) -> Result<(), NoMemory> {
    for deed in event.deeds.as_slice() {
        separate(out)?;
        write_deed(alloc, &scope.names, labels, deed, out)?;
    }
    let mut note = String::new(alloc);
    write_note(alloc, &scope.names, &event.note, &mut note)?;
    if !note.is_empty() {
        separate(out)?;
        out.push_str(&note)?;
    }
    Ok(())
}

/// What a cell says of an event, each part in a line of its own.
pub(crate) fn cell_text(
    alloc: Global,
    scope: &Scope,
    labels: &Labels,
    named: &NamedEvent,
    event: &Event,
) -> Result<String, NoMemory> {
    let mut text = String::new(alloc);
    write_received(scope, named, &mut text)?;
    write_deeds(alloc, scope, labels, event, &mut text)?;
    write_sent(scope, named, &mut text)?;
    Ok(text)
}
