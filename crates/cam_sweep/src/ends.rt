//! The end of a run in words: the values, the states of the top actions, the stops.
ghost use Rattle.cam_script.specs.Law.{IsScript};

use crate::judging::is_lawful;
use crate::variant::Variants;
use cam_base::NoMemory;
use cam_event::{Note, RunRecord, Trace};
use cam_names::Name;
use cam_report::{ActionState, Actions, deeds_of, gather, write_values};
use cam_scope::{Lines, Scope, push_number, scope_of, word};
use cam_script::{Act, Script, ScriptFault, parse};
use cam_whatif::record_of;
use std::alloc::Global;
use std::collections::BTreeMap;

/// Appends the values of the objects.
fn write_values_at_end(
    alloc: Global,
    script: &Script,
    run: &RunRecord,
    out: &mut String,
) -> Result<(), NoMemory> {
    let deeds = deeds_of(alloc, &run.trace)?;
    let mut lines = String::new(alloc);
    write_values(alloc, script, &deeds, &mut lines)?;
    out.push_str("  values:")?;
    let mut is_first = true;
    for line in lines.lines() {
        out.push_str(if is_first { " " } else { ", " })?;
        match line.strip_prefix("value ") {
            Some(value) => out.push_str(value)?,
            None => out.push_str(line)?,
        }
        is_first = false;
    }
    out.push_str("\n")?;
    Ok(())
}

/// Whether an event stopped this action.
fn is_stopped(trace: &Trace, action: &Name) -> bool {
    for event in trace.as_slice() {
        if let Note::Stopped(stopped, _) = &event.note {
            if stopped == action {
                return true;
            }
        }
    }
    false
}

/// What became of a top action.
#[derive(Clone, Copy, Debug)]
enum TopState {
    NotBegun,
    Stopped,
    Ended(ActionState),
}

impl TopState {
    /// Of the top action that a line made, if it made one.
    fn of(run: &RunRecord, actions: &Actions, top: Option<Name>) -> TopState {
        match top {
            None => TopState::NotBegun,
            Some(action) => {
                if is_stopped(&run.trace, &action) {
                    TopState::Stopped
                } else {
                    TopState::Ended(actions.state(&action))
                }
            }
        }
    }

    /// Its word.
    fn word(self) -> &'static str {
        match self {
            TopState::NotBegun => "not begun",
            TopState::Stopped => "stopped",
            TopState::Ended(state) => state.word(),
        }
    }
}

/// The states of the top actions, by their variables, in order of these.
fn states_of(
    alloc: Global,
    source: &Lines<'_>,
    script: &Script,
    run: &RunRecord,
    scope: &Scope,
) -> Result<BTreeMap<String, TopState>, NoMemory> {
    let deeds = deeds_of(alloc, &run.trace)?;
    let actions = gather(alloc, deeds.as_slice())?;
    let mut states = BTreeMap::new(alloc);
    for (place, step) in script.steps.as_slice().iter().enumerate() {
        if let Act::Begin { .. } | Act::Start { .. } = step.act {
            let top = scope.made(u32::try_from(place).unwrap_or(u32::MAX));
            let variable = String::from_utf8_lossy(alloc, word(source.line(step.line), 1))?;
            states.insert(variable, TopState::of(run, &actions, top))?;
        }
    }
    Ok(states)
}

/// Appends the states of the top actions.
fn write_states(states: &BTreeMap<String, TopState>, out: &mut String) -> Result<(), NoMemory> {
    out.push_str("  actions:")?;
    let mut is_first = true;
    for (variable, state) in states {
        out.push_str(if is_first { " " } else { ", " })?;
        out.push_str(variable.as_str())?;
        out.push_str(" ")?;
        out.push_str(state.word())?;
        is_first = false;
    }
    out.push_str("\n")?;
    Ok(())
}

/// Appends how many events stopped an action.
fn write_stops(trace: &Trace, out: &mut String) -> Result<(), NoMemory> {
    let mut stops = 0u64;
    for event in trace.as_slice() {
        if let Note::Stopped(..) = &event.note {
            stops = stops.saturating_add(1);
        }
    }
    if stops > 0 {
        out.push_str("  stops: ")?;
        push_number(out, stops)?;
        out.push_str("\n")?;
    }
    Ok(())
}

/// The end of a script's run.
fn end_of_script(alloc: Global, text: &[u8], script: &Script) -> Result<String, NoMemory>
    requires { IsScript script.now }
{
    let run = record_of(alloc, script)?;
    let source = Lines::of(alloc, text)?;
    let scope = scope_of(alloc, &source, script, &run)?;
    let mut end = String::new(alloc);
    write_values_at_end(alloc, script, &run, &mut end)?;
    write_states(&states_of(alloc, &source, script, &run, &scope)?, &mut end)?;
    write_stops(&run.trace, &mut end)?;
    if !is_lawful(alloc, script, &run)? {
        end.push_str(
            "  AGAINST WHAT IS PROVED: a witness is not legal, or the commits do not replay\n",
        )?;
    }
    Ok(end)
}

/// The end of the run of a text.
pub fn end_of(alloc: Global, text: &[u8]) -> Result<String, NoMemory> {
    match parse(alloc, text) {
        Ok(script) => end_of_script(alloc, text, &script),
        Err(ScriptFault::Bad { .. }) => Ok(String::from_str(alloc, "  the script is refused\n")?),
        Err(ScriptFault::NoMemory) => Err(NoMemory),
    }
}

/// The ends of the runs of these scripts, in order.
pub fn ends_of(alloc: Global, variants: &Variants) -> Result<Vec<String>, NoMemory> {
    let mut ends = Vec::new(alloc);
    for variant in variants.as_slice() {
        ends.push(end_of(alloc, &variant.text)?)?;
    }
    Ok(ends)
}
