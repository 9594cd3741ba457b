//! The text that tells why an action was stopped.
ghost use Rattle.std.specs.Prelude.{◌≡◌, ◌++◌, List, IfErr, IfOk, OnOk, length, reverse, string_bytes};
ghost use Rattle.std.specs.List.{flat_map};
ghost use Rattle.cam_event.specs.declared.Event.{Event};
ghost use Rattle.cam_why.specs.Causes.{IsWhole};
ghost use Rattle.cam_why.specs.Passes.{Refuses};
ghost use Rattle.cam_report.specs.Numbered.{IsNumbering, IsSmall};
ghost use Rattle.cam_report.specs.Whys.{IsWhyText, link_text, stop_line, why_text};

use crate::numbering::{Numbering, numbering_of};
use crate::stops::write_stop;
use cam_base::NoMemory;
use cam_event::{RunRecord, Trace};
use cam_why::{Link, Why, WhyFault, chain};
use std::alloc::Global;
use std::fmt::Write;

/// Appends the line of the event of this number, if it stopped an action.
#[tactic(auto, using(cam_why::proofs::Noting::event_by_number))]
fn write_stop_line(
    alloc: Global,
    trace: &Trace,
    event: usize,
    out: &mut String,
) -> Result<(), NoMemory>
    ensures { OnOk result (string_bytes out.new ≡ string_bytes out.old
        ++ stop_line (reverse trace.now) event) }
{
    match trace.get(event) {
        Some(stop) => write_stop(alloc, event, &stop.note, out),
        None => Ok(()),
    }
}

/// Appends a letter of a chain, by its number among those of so many events.
fn write_link(
    numbering: &Numbering,
    events: usize,
    link: &Link,
    out: &mut String,
) -> Result<(), NoMemory>
    requires { IsSmall numbering.now }
    ensures { OnOk result ((es : List Event)
        → IsNumbering (reverse es) numbering.now → events ≡ length es
        → string_bytes out.new ≡ string_bytes out.old ++ link_text (reverse es) link.now) }
{
    let letter = numbering.number(Some(link.letter), events);
    writeln!(out, "letter {letter} from {} to {}", link.from, link.to)?;
    Ok(())
}

/// Appends the letters of a chain, a line each.
fn write_links(
    numbering: &Numbering,
    events: usize,
    links: &[Link],
    out: &mut String,
) -> Result<(), NoMemory>
    requires { IsSmall numbering.now }
    ensures { OnOk result ((es : List Event)
        → IsNumbering (reverse es) numbering.now → events ≡ length es
        → string_bytes out.new ≡ string_bytes out.old
        ++ flat_map (link_text (reverse es)) links.now) }
{
    for link in links {
        write_link(numbering, events, link, out)?;
    }
    Ok(())
}

/// The text of an answer.
fn answer_text(alloc: Global, trace: &Trace, event: u32, why: &Why) -> Result<String, NoMemory>
    ensures { IfOk result (λ text.
        string_bytes text ≡ why_text (reverse trace.now) event why.now) }
{
    let numbering = numbering_of(alloc, trace)?;
    let mut text = String::new(alloc);
    write_stop_line(alloc, trace, event as usize, &mut text)?;
    writeln!(text, "cause {}", why.cause)?;
    write_links(&numbering, trace.len(), why.links.as_slice(), &mut text)?;
    Ok(text)
}

/// Why an event stopped an action: its line of the report, the event that was the cause, and a chain
/// of letters that led from there to the stop, each by its number in order of sending. No chain has
/// fewer letters. `NoSuchStop` comes exactly if the run has no such event or the event stopped no
/// action. This holds of each trace that is a run, also one in which nodes halt.
pub fn why_text(alloc: Global, run: &RunRecord, event: u32) -> Result<String, WhyFault>
    ensures text { IfOk result (λ text. IsWhole (reverse run.now.trace)
        → IsWhyText (reverse run.now.trace) event (string_bytes text)) }
    ensures fault { IfErr result (λ fault. IsWhole (reverse run.now.trace)
        → Refuses (reverse run.now.trace) event fault) }
{
    let why = chain(alloc, &run.trace, event)?;
    let text = answer_text(alloc, &run.trace, event, &why)?;
    Ok(text)
}
