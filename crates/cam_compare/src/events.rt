//! The first event at which two runs differ.
use crate::side::Side;
use cam_base::NoMemory;
use cam_event::Trace;
use cam_scope::{push_number, write_deed, write_note};
use std::alloc::Global;

/// The number of the first event at which two traces differ, or at which one of them ends; none if
/// they are the same.
pub(crate) fn first_difference(a: &Trace, b: &Trace) -> Option<usize> {
    for (number, event) in a.as_slice().iter().enumerate() {
        match b.get(number) {
            Some(other) if event == other => {}
            _ => return Some(number),
        }
    }
    if a.len() == b.len() {
        None
    } else {
        Some(a.len())
    }
}

/// Appends an event of one of two runs: its node, its line, its deeds and its note.
pub(crate) fn write_event(
    alloc: Global,
    mark: &str,
    side: &Side<'_>,
    number: usize,
    out: &mut String,
) -> Result<(), NoMemory> {
    out.push_str(mark)?;
    let (Some(event), Some(named)) = (side.run.trace.get(number), side.scope.events.get(number))
    else {
        out.push_str("it has ended\n")?;
        return Ok(());
    };
    out.push_str("node ")?;
    push_number(out, u64::from(event.node))?;
    if let Some(line) = named.line {
        out.push_str(", line ")?;
        push_number(out, u64::from(line))?;
    }
    let mut before = ": ";
    for deed in event.deeds.as_slice() {
        out.push_str(before)?;
        write_deed(alloc, &side.scope.names, &side.script.labels, deed, out)?;
        before = ", ";
    }
    let mut note = String::new(alloc);
    write_note(alloc, &side.scope.names, &event.note, &mut note)?;
    if !note.is_empty() {
        out.push_str(before)?;
        out.push_str(note.as_str())?;
    }
    out.push_str("\n")?;
    Ok(())
}
