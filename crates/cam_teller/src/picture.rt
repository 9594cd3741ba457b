//! The run as a picture.
use crate::told::{Status, Told};
use cam_base::NoMemory;
use cam_draw::{Highlight, draw_text};
use cam_event::{Deed, Note, RunRecord};
use cam_scope::{Names, Scope, push_number};
use cam_scope_args::Lit;
use cam_script::Script;
use cam_why::WhyFault;
use std::alloc::Global;

/// What is told where nothing can be lit as the words ask.
fn finding(text: String) -> Told {
    Told {
        text,
        status: Status::Finding,
    }
}

/// The run as a picture, in which this is lit. That the run has no such action or no such stop is a
/// finding.
pub(crate) fn drawn(
    alloc: Global,
    lit: Lit<'_>,
    file: &str,
    script: &Script,
    run: &RunRecord,
    scope: &Scope,
) -> Result<Told, NoMemory> {
    let Some(highlight) = highlight_of(lit, &scope.names) else {
        return Ok(finding(not_lit(alloc, lit, file, run, scope)?));
    };
    match draw_text(alloc, script, run, scope, &highlight) {
        Ok(text) => Ok(Told {
            text,
            status: Status::Fine,
        }),
        Err(WhyFault::NoSuchStop) => Ok(finding(not_lit(alloc, lit, file, run, scope)?)),
        Err(WhyFault::NoMemory) => Err(NoMemory),
    }
}

/// What is lit, by the names of the script; none where no action has the name, or where no event
/// can have the number.
fn highlight_of(lit: Lit<'_>, names: &Names) -> Option<Highlight> {
    match lit {
        Lit::All => Some(Highlight::Nothing),
        Lit::Action(word) => Some(Highlight::Action(names.action(word)?)),
        Lit::Stop(number) => match number.parse::<u32>() {
            Ok(event) => Some(Highlight::Stop(event)),
            Err(_) => None,
        },
    }
}

/// What was not found in the run, and what it has.
fn not_lit(
    alloc: Global,
    lit: Lit<'_>,
    file: &str,
    run: &RunRecord,
    scope: &Scope,
) -> Result<String, NoMemory> {
    let mut text = String::new(alloc);
    text.push_str(file)?;
    match lit {
        Lit::All => {}
        Lit::Action(word) => {
            text.push_str(": the run has no action ")?;
            text.push_str(word)?;
            text.push_str(".\n  Its actions:")?;
            list_actions(alloc, run, &scope.names, &mut text)?;
        }
        Lit::Stop(number) => {
            text.push_str(": event ")?;
            text.push_str(number)?;
            text.push_str(" stops no action.\n  The events that do:")?;
            list_stops(run, &mut text)?;
        }
    }
    if text.as_str().ends_with(":") {
        text.push_str(" none")?;
    }
    text.push_str(".\n")?;
    Ok(text)
}

/// Appends the actions that a run created, in order.
fn list_actions(
    alloc: Global,
    run: &RunRecord,
    names: &Names,
    text: &mut String,
) -> Result<(), NoMemory> {
    for event in run.trace.as_slice() {
        for deed in event.deeds.as_slice() {
            if let Deed::Create { action } = deed {
                text.push_str(" ")?;
                names.write_name(alloc, action, text)?;
            }
        }
    }
    Ok(())
}

/// Appends the numbers of the events that stopped an action.
fn list_stops(run: &RunRecord, text: &mut String) -> Result<(), NoMemory> {
    for (number, event) in run.trace.as_slice().iter().enumerate() {
        if let Note::Stopped(..) = &event.note {
            text.push_str(" ")?;
            push_number(text, number as u64)?;
        }
    }
    Ok(())
}
