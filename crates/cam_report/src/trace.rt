//! The text of a trace.
ghost use Rattle.std.specs.Prelude.{◌≡◌, ◌+◌, ◌≤◌, ◌^◌, ◌++◌, List, IfOk, OnOk, length, reverse, take, string_bytes};
ghost use Rattle.std.specs.List.{flat_map};
ghost use Rattle.cam_event.specs.declared.Event.{Event};
ghost use Rattle.cam_report.specs.Words.{inner_line};
ghost use Rattle.cam_report.specs.DeedWords.{deed_words};
ghost use Rattle.cam_report.specs.Numbered.{IsNumbering, IsSmall};
ghost use Rattle.cam_report.specs.Records.{record_trace};
ghost use Rattle.cam_report.specs.Traces.{body_word, note_word, sent_text, event_text, events_text};

use crate::deed::write_deed;
use crate::marks::write_marks;
use crate::numbering::{Numbering, numbering_of};
use cam_base::NoMemory;
use cam_event::{Body, Deed, Event, Note, RunRecord, Sent, Trace};
use cam_script::{Labels, Script};
use std::alloc::Global;
use std::fmt::Write;

/// The word for a note.
fn note_word(note: &Note) -> &'static str
    ensures { result.now ≡ note_word note.now }
{
    match note {
        Note::Plain => "plain",
        Note::Stopped(..) => "stopped",
        Note::Missed => "missed",
        Note::Again => "again",
        Note::Ended => "ended",
        Note::Late => "late",
        Note::Preparing(_) => "preparing",
        Note::Voted => "voted",
    }
}

/// The word for what a letter says.
fn body_word(body: &Body) -> &'static str
    ensures { result.now ≡ body_word body.now }
{
    match body {
        Body::Start { .. } => "start",
        Body::Call { .. } => "call",
        Body::Answer { .. } => "answer",
        Body::Finish { .. } => "finish",
        Body::Quit { .. } => "quit",
        Body::Prepare { .. } => "prepare",
        Body::Vote { .. } => "vote",
        Body::Query { .. } => "query",
        Body::News => "news",
    }
}

/// Appends the deeds of an event, a line each.
fn write_deeds(
    alloc: Global,
    labels: &Labels,
    deeds: &[Deed],
    out: &mut String,
) -> Result<(), NoMemory>
    ensures { OnOk result (string_bytes out.new ≡ string_bytes out.old
        ++ flat_map (λ d. inner_line (deed_words labels.now d)) deeds.now) }
{
    for deed in deeds {
        out.push_str("  ")?;
        write_deed(alloc, labels, deed, out)?;
        writeln!(out)?;
    }
    Ok(())
}

/// Appends the letters that an event sent, a line each, numbered on from `first`.
fn write_sent(first: u128, sent: &[Sent], out: &mut String) -> Result<(), NoMemory>
    requires { first ≤ 2 ^ 127 + 1 }
    ensures { OnOk result (string_bytes out.new ≡ string_bytes out.old
        ++ sent_text first sent.now) }
{
    for (place, letter) in sent.iter().enumerate() {
        let number = first + place as u128;
        let word = body_word(&letter.body);
        writeln!(out, "  sent {number} to {} {word}", letter.to)?;
    }
    Ok(())
}

/// Appends the event of this number, with its deeds and letters.
fn write_event(
    alloc: Global,
    labels: &Labels,
    numbering: &Numbering,
    number: usize,
    event: &Event,
    out: &mut String,
) -> Result<(), NoMemory>
    requires { IsSmall numbering.now }
    ensures { OnOk result ((events : List Event)
        → IsNumbering (reverse events) numbering.now → number ≤ length events
        → string_bytes out.new ≡ string_bytes out.old
        ++ event_text labels.now (reverse (take number events)) event.now) }
{
    let letter = numbering.number(event.got, number);
    let note = note_word(&event.note);
    writeln!(
        out,
        "event {number} node {} letter {letter} note {note}",
        event.node
    )?;
    write_deeds(alloc, labels, event.deeds.as_slice(), out)?;
    let first = numbering.sent_before(number) + 1;
    write_sent(first, event.sent.as_slice(), out)?;
    Ok(())
}

/// Appends the events of a trace, in order.
fn write_events(
    alloc: Global,
    labels: &Labels,
    trace: &Trace,
    out: &mut String,
) -> Result<(), NoMemory>
    ensures { OnOk result (string_bytes out.new ≡ string_bytes out.old
        ++ events_text labels.now (reverse trace.now)) }
{
    let numbering = numbering_of(alloc, trace)?;
    for (number, event) in trace.as_slice().iter().enumerate() {
        write_event(alloc, labels, &numbering, number, event, out)?;
    }
    Ok(())
}

/// The text of a run's trace: each event with its deeds and the letters that it sent, in order, and
/// the marks in order of lines. Letters are numbered from 1 in order of sending.
pub fn trace_text(alloc: Global, script: &Script, run: &RunRecord) -> Result<String, NoMemory>
    ensures { IfOk result (λ text. string_bytes text ≡ record_trace script.now run.now) }
{
    let mut text = String::new(alloc);
    write_events(alloc, &script.labels, &run.trace, &mut text)?;
    write_marks(&run.marks, &mut text)?;
    Ok(text)
}
