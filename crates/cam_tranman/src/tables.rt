//! The tables of what is kept: of each action, and of each open call.
ghost use Rattle.std.specs.Prelude.{◌≡◌, ◌≤◌, if◌then◌else◌, Some, None};
ghost use Rattle.std.specs.HashMap.{get, spare};
ghost use Rattle.cam_names.specs.declared.name.Name.{Name as NameValue};
ghost use Rattle.cam_names.specs.Names.{name_eq, parent};
ghost use Rattle.cam_tranman.specs.Calls.{changed, parent_changed, as_ended, gaining, seeing};

use crate::OpenCall;
use crate::action::Action;
use cam_event::Seen;
use cam_names::{Deps, Name};
use std::collections::HashMap;

/// What is kept of an action, where it was created here.
pub(crate) fn kept_in(actions: &HashMap<Name, Action>, action: &Name) -> Option<Action>
    ensures { result ≡ get name_eq actions.now action.now }
{
    actions.get(action).copied()
}

/// Keeps this of an action. It was kept before, or there is room, so it takes no memory.
pub(crate) fn keep(actions: &mut HashMap<Name, Action>, action: &Name, kept: &Action)
    requires { get name_eq actions.old action.now ≡ None → 1 ≤ spare actions.old }
    ensures { (a : NameValue) → get name_eq actions.new a
        ≡ (if name_eq action.now a then Some kept.now else get name_eq actions.old a) }
{
    let _ = actions.insert(*action, *kept);
}

/// An action has ended, where it was created here.
pub(crate) fn end_in(actions: &mut HashMap<Name, Action>, action: &Name)
    ensures { (a : NameValue) → get name_eq actions.new a
        ≡ changed action.now as_ended (get name_eq actions.old) a }
{
    if let Some(kept) = kept_in(actions, action) {
        keep(actions, action, &kept.as_ended());
    }
}

/// An action sees this of its open call, where it was created here.
pub(crate) fn see_in(
    actions: &mut HashMap<Name, Action>,
    action: &Name,
    call: &OpenCall,
    seen: &Seen,
)
    ensures { (a : NameValue) → get name_eq actions.new a
        ≡ changed action.now (seeing seen.now call.now) (get name_eq actions.old) a }
{
    if let Some(kept) = kept_in(actions, action) {
        keep(actions, action, &kept.seeing(seen, call));
    }
}

/// The parent of a child depends on these besides, where it was created here.
pub(crate) fn parent_gains(actions: &mut HashMap<Name, Action>, child: &Name, deps: &Deps)
    ensures { (a : NameValue) → get name_eq actions.new a
        ≡ parent_changed (parent child.now) (gaining deps.now) (get name_eq actions.old) a }
{
    if let Some(parent) = child.parent() {
        gain_in(actions, &parent, deps);
    }
}

/// An action depends on these besides, where it was created here.
fn gain_in(actions: &mut HashMap<Name, Action>, action: &Name, deps: &Deps)
    ensures { (a : NameValue) → get name_eq actions.new a
        ≡ changed action.now (gaining deps.now) (get name_eq actions.old) a }
{
    if let Some(kept) = kept_in(actions, action) {
        keep(actions, action, &kept.gaining(deps));
    }
}

/// The open call of an action, if there is one.
pub(crate) fn call_in(calls: &HashMap<Name, OpenCall>, action: &Name) -> Option<OpenCall>
    ensures { result ≡ get name_eq calls.now action.now }
{
    calls.get(action).copied()
}

/// A call of an action is open. There is room, so it takes no memory.
pub(crate) fn open_call(calls: &mut HashMap<Name, OpenCall>, action: &Name, call: &OpenCall)
    requires { 1 ≤ spare calls.old }
    ensures { (a : NameValue) → get name_eq calls.new a
        ≡ (if name_eq action.now a then Some call.now else get name_eq calls.old a) }
{
    let _ = calls.insert(*action, *call);
}

/// No call of an action is open any longer.
pub(crate) fn close_call(calls: &mut HashMap<Name, OpenCall>, action: &Name)
    ensures { (a : NameValue) → get name_eq calls.new a
        ≡ (if name_eq action.now a then None else get name_eq calls.old a) }
{
    let _ = calls.remove(action);
}
