//! The stops of a run in words, each with the letters that led to it.
ghost use Rattle.std.specs.Prelude.{◌≡◌, ◌++◌, Some, OnOk, reverse, string_bytes};
ghost use Rattle.std.specs.List.{flat_map};
ghost use Rattle.cam_know.specs.declared.Reason.{Reason as AnyReason};
ghost use Rattle.cam_why.specs.Causes.{reason_in, stop_at, IsWhole};
ghost use Rattle.cam_explain.specs.Stops.{aborted_text, chain_text, crashed_text, event_part, link_text, news_text, one_text, orphan_text, stop_text, stopped_text, stops_from, why_text};

use crate::texts::{say_kind, say_line, say_name, say_number};
use cam_base::NoMemory;
use cam_event::{Note, RunRecord, Trace};
use cam_know::Reason;
use cam_names::Name;
use cam_scope::{NamedLetter, Scope, push_number};
use cam_why::{Link, Links, Why, WhyFault, chain};
use std::alloc::Global;

/// Appends that an action was aborted, itself or by an ancestor.
fn write_aborted(
    alloc: Global,
    scope: &Scope,
    ancestor: &Name,
    action: &Name,
    out: &mut String,
) -> Result<(), NoMemory>
    ensures { OnOk result (string_bytes out.new ≡ string_bytes out.old
        ++ aborted_text scope.now ancestor.now action.now) }
{
    if ancestor == action {
        return Ok(out.push_str("it was aborted")?);
    }
    say_name(
        alloc,
        &scope.names,
        "its ancestor ",
        ancestor,
        " was aborted",
        out,
    )?;
    Ok(())
}

/// Appends that an action depends on a node as it was before a restart.
fn write_crashed(node: u8, old: u32, new: u32, out: &mut String) -> Result<(), NoMemory>
    ensures { OnOk result (string_bytes out.new ≡ string_bytes out.old
        ++ crashed_text node old new) }
{
    say_number(out, "it depends on count ", old as u64, " of node ")?;
    say_number(out, "", node as u64, ", which restarted to count ")?;
    push_number(out, new as u64)?;
    Ok(())
}

/// Appends why an action is an orphan.
fn write_orphan(
    alloc: Global,
    scope: &Scope,
    action: &Name,
    reason: &Reason,
    out: &mut String,
) -> Result<(), NoMemory>
    ensures { OnOk result (string_bytes out.new ≡ string_bytes out.old
        ++ orphan_text scope.now action.now reason.now) }
{
    match reason {
        Reason::Abort(ancestor) => write_aborted(alloc, scope, ancestor, action, out),
        Reason::Crash { node, old, new } => write_crashed(*node, *old, *new, out),
    }
}

/// Appends where an event stands: `, event 6 (line 13)`.
fn write_event(scope: &Scope, event: usize, out: &mut String) -> Result<(), NoMemory>
    ensures { OnOk result (string_bytes out.new ≡ string_bytes out.old
        ++ event_part scope.now event) }
{
    say_number(out, ", event ", event as u64, "")?;
    match scope.events.get(event) {
        Some(named) => match named.line {
            Some(line) => say_line(out, line),
            None => Ok(()),
        },
        None => Ok(()),
    }
}

/// Appends that a letter took the news, by its number and the event that received it.
fn write_news(
    number: usize,
    to: u64,
    letter: &NamedLetter,
    out: &mut String,
) -> Result<(), NoMemory>
    ensures { OnOk result (string_bytes out.new ≡ string_bytes out.old
        ++ news_text number to letter.now) }
{
    say_number(out, "  letter ", number as u64, ", ")?;
    say_kind(letter.kind, ", took the news from node ", out)?;
    say_number(out, "", letter.from as u64, " to ")?;
    say_number(out, "", letter.to as u64, ", event ")?;
    say_number(out, "", to, "\n")?;
    Ok(())
}

/// Appends a letter of the chain.
fn write_link(scope: &Scope, link: &Link, out: &mut String) -> Result<(), NoMemory>
    ensures { OnOk result (string_bytes out.new ≡ string_bytes out.old
        ++ link_text scope.now link.now) }
{
    let number = scope.number_of(link.letter);
    match scope.letters.get(number.saturating_sub(1)) {
        Some(letter) => write_news(number, link.to, letter, out),
        None => Ok(()),
    }
}

/// Appends the letters of a chain.
fn write_links(scope: &Scope, links: &Links, out: &mut String) -> Result<(), NoMemory>
    ensures { OnOk result (string_bytes out.new ≡ string_bytes out.old
        ++ flat_map (link_text scope.now) links.now) }
{
    for link in links.as_slice() {
        write_link(scope, link, out)?;
    }
    Ok(())
}

/// Appends the cause of a stop, and the letters that led from there.
fn write_why(scope: &Scope, why: &Why, out: &mut String) -> Result<(), NoMemory>
    ensures { OnOk result (string_bytes out.new ≡ string_bytes out.old
        ++ why_text scope.now why.now.cause why.now.links) }
{
    out.push_str("  The cause")?;
    write_event(scope, why.cause as usize, out)?;
    out.push_str("\n")?;
    write_links(scope, &why.links, out)?;
    Ok(())
}

/// Appends why an event stopped an action, which it did for a reason.
fn write_chain(
    alloc: Global,
    scope: &Scope,
    trace: &Trace,
    event: usize,
    out: &mut String,
) -> Result<(), NoMemory>
    ensures { OnOk result ((reason : AnyReason) → IsWhole (reverse trace.now)
        → stop_at (reverse trace.now) event ≡ Some reason
        → string_bytes out.new ≡ string_bytes out.old
        ++ chain_text scope.now (reverse trace.now) event reason) }
{
    let Ok(number) = u32::try_from(event) else {
        return Ok(());
    };
    match chain(alloc, trace, number) {
        Ok(why) => {
            write_why(scope, &why, out)?;
            Ok(())
        }
        Err(WhyFault::NoSuchStop) => Ok(()),
        Err(WhyFault::NoMemory) => Err(NoMemory),
    }
}

/// Appends that an event stopped an action, without its cause.
fn write_stopped(
    alloc: Global,
    scope: &Scope,
    event: usize,
    node: u8,
    action: &Name,
    reason: &Reason,
    out: &mut String,
) -> Result<(), NoMemory>
    ensures { OnOk result (string_bytes out.new ≡ string_bytes out.old
        ++ stopped_text scope.now event node action.now reason.now) }
{
    say_name(alloc, &scope.names, "", action, " is stopped at node ", out)?;
    push_number(out, node as u64)?;
    write_event(scope, event, out)?;
    out.push_str(". It is an orphan: ")?;
    write_orphan(alloc, scope, action, reason, out)?;
    Ok(())
}

/// Appends a stop.
fn write_one(
    alloc: Global,
    scope: &Scope,
    trace: &Trace,
    event: usize,
    node: u8,
    action: &Name,
    reason: &Reason,
    out: &mut String,
) -> Result<(), NoMemory>
    ensures { OnOk result (IsWhole (reverse trace.now)
        → stop_at (reverse trace.now) event ≡ Some reason.now
        → string_bytes out.new ≡ string_bytes out.old
        ++ one_text scope.now (reverse trace.now) event node action.now reason.now) }
{
    write_stopped(alloc, scope, event, node, action, reason, out)?;
    out.push_str(".\n")?;
    write_chain(alloc, scope, trace, event, out)?;
    Ok(())
}

/// Appends a stop, if the note of an event tells of one.
fn write_stop(
    alloc: Global,
    scope: &Scope,
    trace: &Trace,
    event: usize,
    node: u8,
    note: &Note,
    out: &mut String,
) -> Result<(), NoMemory>
    ensures { OnOk result (IsWhole (reverse trace.now)
        → stop_at (reverse trace.now) event ≡ reason_in note.now
        → string_bytes out.new ≡ string_bytes out.old
        ++ stop_text scope.now (reverse trace.now) event node note.now) }
{
    match note {
        Note::Stopped(action, reason) => {
            write_one(alloc, scope, trace, event, node, action, reason, out)
        }
        _ => Ok(()),
    }
}

/// Appends the stops of a run, in order.
pub(crate) fn write_stops(
    alloc: Global,
    scope: &Scope,
    run: &RunRecord,
    out: &mut String,
) -> Result<(), NoMemory>
    ensures { OnOk result (IsWhole (reverse run.now.trace)
        → string_bytes out.new ≡ string_bytes out.old
        ++ stops_from scope.now (reverse run.now.trace) 0 run.now.trace) }
{
    for (number, event) in run.trace.as_slice().iter().enumerate() {
        write_stop(
            alloc,
            scope,
            &run.trace,
            number,
            event.node,
            &event.note,
            out,
        )?;
    }
    Ok(())
}
