//! What is said of the actions of a run.
use cam_base::NoMemory;
use cam_event::{Deed, Event, Note, RunRecord, Seen};
use cam_names::Name;
use cam_scope::{Names, Scope, object_text, push_number, write_answer, write_op};
use cam_script::{Labels, Script};
use cam_type::Op;
use std::alloc::Global;
use std::collections::{BTreeMap, BTreeSet};

/// What an action called last.
#[derive(Clone, Copy, Debug)]
struct Called {
    object: u8,
    op: Op,
}

/// What is known of the actions behind some events.
#[derive(Drop)]
struct Known {
    called: BTreeMap<Name, Called>,
    open: BTreeSet<Name>,
    stopped: BTreeSet<Name>,
}

/// Appends an action's word and what is said of it.
fn write_of(
    alloc: Global,
    names: &Names,
    action: &Name,
    said: &str,
    out: &mut String,
) -> Result<(), NoMemory> {
    names.write_name(alloc, action, out)?;
    Ok(out.push_str(said)?)
}

/// Appends what an action saw: `C saw 2 y read busy`.
fn write_saw(
    alloc: Global,
    names: &Names,
    labels: &Labels,
    known: &Known,
    action: &Name,
    number: u32,
    seen: &Seen,
    out: &mut String,
) -> Result<(), NoMemory> {
    write_of(alloc, names, action, " saw ", out)?;
    push_number(out, u64::from(number))?;
    out.push_str(" ")?;
    if let Some(called) = known.called.get(action) {
        out.push_str(object_text(labels, called.object))?;
        out.push_str(" ")?;
        write_op(&called.op, out)?;
        out.push_str(" ")?;
    }
    match seen {
        Seen::Done(answer) => write_answer(answer, out)?,
        Seen::Busy(_) => out.push_str("busy")?,
        Seen::Gone => out.push_str("gone")?,
    }
    Ok(out.push_str("\n")?)
}

impl Known {
    /// Before the first event.
    fn new(alloc: Global) -> Known {
        Known {
            called: BTreeMap::new(alloc),
            open: BTreeSet::new(alloc),
            stopped: BTreeSet::new(alloc),
        }
    }
}

/// Appends what a deed says of an action, and notes what later ones need.
fn take_deed(
    alloc: Global,
    script: &Script,
    names: &Names,
    known: &mut Known,
    deed: &Deed,
    out: &mut String,
) -> Result<(), NoMemory> {
    match deed {
        Deed::Create { action } => {
            known.open.insert(*action)?;
            Ok(())
        }
        Deed::Call {
            action,
            object,
            op,
            ..
        } => {
            let called = Called {
                object: *object,
                op: *op,
            };
            known.called.insert(*action, called)?;
            Ok(())
        }
        Deed::Got {
            action,
            number,
            seen,
        } => write_saw(
            alloc,
            names,
            &script.labels,
            known,
            action,
            *number,
            seen,
            out,
        ),
        Deed::Commit { action } => {
            known.open.remove(action);
            write_of(alloc, names, action, " committed\n", out)
        }
        Deed::Abort { action } => {
            known.open.remove(action);
            write_of(alloc, names, action, " aborted\n", out)
        }
        _ => Ok(()),
    }
}

/// Appends that an action was stopped, once.
fn take_note(
    alloc: Global,
    names: &Names,
    known: &mut Known,
    event: &Event,
    out: &mut String,
) -> Result<(), NoMemory> {
    if let Note::Stopped(action, _) = &event.note {
        if known.stopped.insert(*action)? {
            return write_of(alloc, names, action, " stopped\n", out);
        }
    }
    Ok(())
}

/// Appends what is said of the actions: what each saw, how it ended, whether it was stopped, and
/// which are open at the end.
pub(crate) fn write_facts_of_actions(
    alloc: Global,
    script: &Script,
    run: &RunRecord,
    scope: &Scope,
    out: &mut String,
) -> Result<(), NoMemory> {
    let mut known = Known::new(alloc);
    for event in run.trace.as_slice() {
        for deed in event.deeds.as_slice() {
            take_deed(alloc, script, &scope.names, &mut known, deed, out)?;
        }
        take_note(alloc, &scope.names, &mut known, event, out)?;
    }
    for action in &known.open {
        write_of(alloc, &scope.names, action, " open\n", out)?;
    }
    Ok(())
}
