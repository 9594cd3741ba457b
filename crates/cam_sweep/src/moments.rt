//! The moments of a run at which a fault may come: behind each line, and behind each event of a line
//! that makes several.
use cam_base::NoMemory;
use cam_event::{Deed, Event, Note, RunRecord};
use cam_names::Name;
use cam_scope::{NamedEvent, Scope, push_number};
use cam_script::{Act, Script};
use std::alloc::Global;

/// A moment of a run.
#[derive(Drop)]
pub(crate) struct Moment {
    /// The lines up to this number are done.
    pub(crate) line: u32,
    /// The events that the next line has made so far, written as lines of their own.
    pub(crate) unfolded: String,
    /// The number of the event before it, if it is behind one event alone.
    pub(crate) event: Option<usize>,
}

/// The moments of a run, in order.
pub(crate) type Moments = Vec<Moment>;

/// The action that made a request at an event.
fn asker(event: &Event) -> Option<Name> {
    if let Note::Stopped(action, _) = &event.note {
        return Some(*action);
    }
    for deed in event.deeds.as_slice() {
        match deed {
            Deed::Ask { action, .. } => return Some(*action),
            Deed::Call { action, .. } => return Some(*action),
            Deed::AskCommit { action, .. } => return Some(*action),
            Deed::AskAbort { action } => return Some(*action),
            _ => {}
        }
    }
    None
}

/// Appends the line that makes an event, and says whether there is one: a letter arrives, or a top
/// action with a body goes on.
fn write_event(
    alloc: Global,
    scope: &Scope,
    named: &NamedEvent,
    event: &Event,
    out: &mut String,
) -> Result<bool, NoMemory> {
    if let Some(letter) = named.received {
        out.push_str("deliver ")?;
        push_number(out, letter as u64)?;
        out.push_str("\n")?;
        return Ok(true);
    }
    match asker(event) {
        Some(action) if action.depth() == 1 && scope.is_started(&action) => {
            out.push_str("go ")?;
            scope.names.write_name(alloc, &action, out)?;
            out.push_str("\n")?;
            Ok(true)
        }
        _ => Ok(false),
    }
}

/// The place behind the events of a line, which begin at a place.
fn behind_line(scope: &Scope, from: usize, line: u32) -> usize {
    let mut behind = from;
    for named in scope.events.as_slice().iter().skip(from) {
        if named.line != Some(line) {
            break;
        }
        behind = behind.saturating_add(1);
    }
    behind
}

/// The moments behind the events of a line that makes several; none if one of them is that of no
/// line.
fn unfolded(
    alloc: Global,
    run: &RunRecord,
    scope: &Scope,
    line: u32,
    first: usize,
    behind: usize,
) -> Result<Option<Moments>, NoMemory> {
    let mut moments = Moments::new(alloc);
    let mut text = String::new(alloc);
    for number in first..behind {
        let (Some(named), Some(event)) = (scope.events.get(number), run.trace.get(number)) else {
            return Ok(None);
        };
        if !write_event(alloc, scope, named, event, &mut text)? {
            return Ok(None);
        }
        moments.push(Moment {
            line: line.saturating_sub(1),
            unfolded: String::from_str(alloc, text.as_str())?,
            event: Some(number),
        })?;
    }
    Ok(Some(moments))
}

/// The moment behind a line.
fn behind(alloc: Global, line: u32, first: usize, behind: usize) -> Moment {
    Moment {
        line,
        unfolded: String::new(alloc),
        event: if behind == first.saturating_add(1) {
            Some(first)
        } else {
            None
        },
    }
}

/// The moments of a run.
pub(crate) fn moments_of(
    alloc: Global,
    script: &Script,
    run: &RunRecord,
    scope: &Scope,
) -> Result<Moments, NoMemory> {
    let mut moments = Moments::new(alloc);
    let mut first = 0;
    for step in script.steps.as_slice() {
        let end = behind_line(scope, first, step.line);
        let several = match step.act {
            Act::Drain | Act::Play => unfolded(alloc, run, scope, step.line, first, end)?,
            _ => None,
        };
        match several {
            Some(mut inner) => moments.append(&mut inner)?,
            None => moments.push(behind(alloc, step.line, first, end))?,
        }
        first = end;
    }
    Ok(moments)
}
