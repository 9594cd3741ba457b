//! What the actions saw.
ghost use Rattle.std.specs.Prelude.{◌≡◌, ◌++◌, ◌∷◌, List, Some, OnOk, IfOk, reverse};
ghost use Rattle.std.specs.BTreeMap.{get};
ghost use Rattle.cam_names.specs.declared.name.Name.{Name as NameFields};
ghost use Rattle.cam_names.specs.Names.{name_cmp};
ghost use Rattle.cam_event.specs.declared.Deed.{Deed};
ghost use Rattle.cam_report.specs.Gathered.{child_step, step_gained, steps_for, view_in, TellsValues, TellsViews};

use cam_base::NoMemory;
use cam_event::{Deed, View, ViewStep};
use cam_names::Name;
use std::alloc::Global;
use std::collections::BTreeMap;

/// The value with which each action asked to commit.
type Values = BTreeMap<Name, i64>;

/// The view of each action that has one.
pub(crate) type Views = BTreeMap<Name, View>;

/// The step that a child's end gives to its parent's view.
fn child_step(child: &Name, value: Option<i64>) -> Option<(Name, ViewStep)>
    ensures { result ≡ child_step child.now value }
{
    match child.parent() {
        Some(parent) => Some((parent, ViewStep::Child(*child, value))),
        None => None,
    }
}

/// The step that a deed gives to a view, and whose view it is.
fn step_gained(deed: &Deed, values: &Values) -> Option<(Name, ViewStep)>
    ensures { result ≡ step_gained (get name_cmp values.now) deed.now }
{
    match deed {
        Deed::Create { action } => Some((*action, ViewStep::Created)),
        Deed::Ask { action, child } => Some((*action, ViewStep::Asked(*child))),
        Deed::Call {
            action,
            number,
            object,
            op,
            ..
        } => Some((*action, ViewStep::Called(*number, *object, *op))),
        Deed::Got {
            action,
            number,
            seen,
        } => Some((*action, ViewStep::Got(*number, *seen))),
        Deed::AskCommit { action, value } => Some((*action, ViewStep::CommitAsked(*value))),
        Deed::AskAbort { action } => Some((*action, ViewStep::AbortAsked)),
        Deed::Commit { action } => match values.get(action) {
            Some(value) => child_step(action, Some(*value)),
            None => None,
        },
        Deed::Abort { action } => child_step(action, None),
        _ => None,
    }
}

/// Adds a step at the end of an action's view.
fn add_step(
    alloc: Global,
    views: &mut Views,
    action: &Name,
    step: &ViewStep,
) -> Result<(), NoMemory>
    ensures { OnOk result ((a : NameFields)
        → view_in views.new a ≡ view_in views.old a
        ++ steps_for a (Some (action.now, step.now))) }
{
    let mut view = views.remove(action).unwrap_or(View::new(alloc));
    view.push_copy(step)?;
    views.insert(*action, view)?;
    Ok(())
}

/// Adds the step that a deed gives.
fn note_step(alloc: Global, views: &mut Views, values: &Values, deed: &Deed) -> Result<(), NoMemory>
    ensures { OnOk result ((a : NameFields)
        → view_in views.new a ≡ view_in views.old a
        ++ steps_for a (step_gained (get name_cmp values.now) deed.now)) }
{
    match step_gained(deed, values) {
        Some((action, step)) => add_step(alloc, views, &action, &step),
        None => Ok(()),
    }
}

/// Keeps the value of a request to commit.
fn note_value(values: &mut Values, deed: &Deed) -> Result<(), NoMemory>
    ensures { OnOk result ((L : List Deed) → TellsValues L values.old
        → TellsValues (deed.now ∷ L) values.new) }
{
    if let Deed::AskCommit { action, value } = deed {
        values.insert(*action, *value)?;
    }
    Ok(())
}

/// The views of all actions.
pub(crate) fn views_of(alloc: Global, deeds: &[Deed]) -> Result<Views, NoMemory>
    ensures { IfOk result (TellsViews (reverse deeds.now)) }
{
    let mut values = Values::new(alloc);
    let mut views = Views::new(alloc);
    for deed in deeds {
        note_step(alloc, &mut views, &values, deed)?;
        note_value(&mut values, deed)?;
    }
    Ok(views)
}

/// The steps of an action, in order.
pub(crate) fn steps_of<'a>(views: &'a Views, action: &Name) -> &'a [ViewStep]
    ensures { result.now ≡ view_in views.now action.now }
{
    match views.get(action) {
        Some(view) => view.as_slice(),
        None => &[],
    }
}
