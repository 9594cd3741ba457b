//! The log as text.
use crate::clocks::{Clock, clocks_of};
use cam_base::NoMemory;
use cam_event::{Event, RunRecord};
use cam_scope::{Scope, push_number, write_deed, write_note};
use cam_script::{Labels, Script};
use std::alloc::Global;

/// Appends a node's name.
fn write_node(node: u64, out: &mut String) -> Result<(), NoMemory> {
    out.push_str("node")?;
    push_number(out, node)
}

/// Appends a clock: the nodes of which events stand in it, with how many.
fn write_clock(clock: &Clock, out: &mut String) -> Result<(), NoMemory> {
    out.push_str("{")?;
    let mut separator = "";
    for (before, count) in clock.counts.iter().enumerate() {
        if *count > 0 {
            out.push_str(separator)?;
            out.push_str("\"")?;
            write_node((before as u64).saturating_add(1), out)?;
            out.push_str("\":")?;
            push_number(out, *count)?;
            separator = ", ";
        }
    }
    Ok(out.push_str("}")?)
}

/// The deeds and the note of an event, in one line.
fn deeds_text(
    alloc: Global,
    scope: &Scope,
    labels: &Labels,
    event: &Event,
) -> Result<String, NoMemory> {
    let mut text = String::new(alloc);
    write_note(alloc, &scope.names, &event.note, &mut text)?;
    for deed in event.deeds.as_slice() {
        if !text.is_empty() {
            text.push_str("; ")?;
        }
        write_deed(alloc, &scope.names, labels, deed, &mut text)?;
    }
    Ok(text)
}

/// Appends an event.
fn write_event(
    alloc: Global,
    script: &Script,
    scope: &Scope,
    number: usize,
    event: &Event,
    clock: &Clock,
    out: &mut String,
) -> Result<(), NoMemory> {
    write_node(u64::from(event.node), out)?;
    out.push_str(" ")?;
    write_clock(clock, out)?;
    out.push_str("\n")?;
    push_number(out, number as u64)?;
    let deeds = deeds_text(alloc, scope, &script.labels, event)?;
    if !deeds.is_empty() {
        out.push_str(" ")?;
        out.push_str(&deeds)?;
    }
    Ok(out.push_str("\n")?)
}

/// A run in the log form that ShiViz reads: two lines an event, in order.
pub fn shiviz_text(
    alloc: Global,
    script: &Script,
    run: &RunRecord,
    scope: &Scope,
) -> Result<String, NoMemory> {
    let clocks = clocks_of(alloc, &run.trace)?;
    let mut text = String::from_str(alloc, "(?<host>\\S*) (?<clock>{.*})\\n(?<event>.*)\n\n")?;
    for (number, event) in run.trace.as_slice().iter().enumerate() {
        if let Some(clock) = clocks.get(number) {
            write_event(alloc, script, scope, number, event, clock, &mut text)?;
        }
    }
    Ok(text)
}
