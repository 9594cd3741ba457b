//! The view of an action, and a copy of an event.
ghost use Rattle.std.specs.Prelude.{◌≡◌, ◌∷◌, [], List, reverse, if◌then◌else◌, IfOk, OnOk};
ghost use Rattle.cam_names.specs.Names.{name_eq};
ghost use Rattle.cam_event.specs.declared.Deed.{Deed};
ghost use Rattle.cam_event.specs.History.{after};
ghost use Rattle.cam_event.specs.Pasts.{plain_all};
ghost use Rattle.cam_event.specs.Views.{step_of, view};
ghost use Rattle.cam_event.specs.Values.{HasValues, steps_in};

use crate::{Deed, Deeds, Event, Trace, View, ViewStep};
use cam_base::NoMemory;
use cam_names::Name;
use std::alloc::Global;
use std::collections::BTreeMap;

/// The actions that asked to commit, with their values.
type Values = BTreeMap<Name, i64>;

/// Keeps the value with which an action asks to commit.
fn note_value(values: &mut Values, deed: &Deed) -> Result<(), NoMemory>
    ensures { OnOk result ((L : List Deed) → HasValues L values.old
        → HasValues (deed.now ∷ L) values.new) }
{
    if let Deed::AskCommit { action, value } = deed {
        values.insert(*action, *value)?;
    }
    Ok(())
}

/// The step, if the deed is of the action itself.
fn own(name: &Name, action: &Name, step: ViewStep) -> Option<ViewStep>
    ensures { steps_in result ≡ (if name_eq name.now action.now then step ∷ [] else []) }
{
    if *name == *action { Some(step) } else { None }
}

/// The step that a deed adds to the view of an action, if it adds one.
fn step_of(values: &Values, name: &Name, deed: &Deed) -> Option<ViewStep>
    ensures { (L : List Deed) → HasValues L values.now
        → steps_in result ≡ step_of L deed.now name.now }
{
    match deed {
        Deed::Create { action } => own(name, action, ViewStep::Created),
        Deed::Ask { action, child } => own(name, action, ViewStep::Asked(*child)),
        Deed::Call {
            action,
            number,
            object,
            op,
            ..
        } => own(name, action, ViewStep::Called(*number, *object, *op)),
        Deed::Got {
            action,
            number,
            seen,
        } => own(name, action, ViewStep::Got(*number, *seen)),
        Deed::AskCommit { action, value } => own(name, action, ViewStep::CommitAsked(*value)),
        Deed::AskAbort { action } => own(name, action, ViewStep::AbortAsked),
        Deed::Commit { action } => {
            if !name.is_parent(action) {
                return None;
            }
            match values.get(action) {
                Some(value) => Some(ViewStep::Child(*action, Some(*value))),
                None => None,
            }
        }
        Deed::Abort { action } => {
            if !name.is_parent(action) {
                return None;
            }
            Some(ViewStep::Child(*action, None))
        }
        Deed::Perform { .. }
        | Deed::Bounce { .. }
        | Deed::Secure { .. }
        | Deed::Inform { .. }
        | Deed::Crash { .. } => None,
    }
}

/// Adds the steps that one more deed gives.
fn add_deed(steps: &mut View, values: &mut Values, name: &Name, deed: &Deed) -> Result<(), NoMemory>
    ensures { OnOk result ((L : List Deed) → HasValues L values.old → steps.old ≡ view L name.now
        → HasValues (deed.now ∷ L) values.new × (steps.new ≡ view (deed.now ∷ L) name.now)) }
{
    if let Some(step) = step_of(values, name, deed) {
        steps.push_copy(&step)?;
    }
    note_value(values, deed)
}

/// Adds the steps that the deeds of one more event give.
fn add_event(
    steps: &mut View,
    values: &mut Values,
    name: &Name,
    deeds: &Deeds,
) -> Result<(), NoMemory>
    ensures { OnOk result ((L : List Deed) → HasValues L values.old → steps.old ≡ view L name.now
        → HasValues (after L deeds.now) values.new
        × (steps.new ≡ view (after L deeds.now) name.now)) }
{
    for deed in deeds.as_slice() {
        add_deed(steps, values, name, deed)?;
    }
    Ok(())
}

/// The view of an action in a trace: what it has done and seen, in the order of the trace. The time is
/// linear in the trace, times the logarithm of how many actions asked to commit. It fails only if
/// memory runs out.
pub fn view(alloc: Global, trace: &Trace, name: &Name) -> Result<View, NoMemory>
    ensures exact { IfOk result (λ steps. steps ≡ view (plain_all (reverse trace.now)) name.now) }
{
    let mut steps = View::new(alloc);
    let mut values = Values::new(alloc);
    for event in trace.as_slice() {
        add_event(&mut steps, &mut values, name, &event.deeds)?;
    }
    Ok(steps)
}

/// An equal event. It fails only if memory runs out.
pub fn copy_event(event: &Event) -> Result<Event, NoMemory>
    ensures equal { IfOk result (λ copy. copy ≡ event.now) }
{
    Ok(Event {
        node: event.node,
        got: event.got,
        deeds: event.deeds.copy()?,
        sent: event.sent.copy()?,
        note: event.note,
    })
}
