//! What is kept of each action, deed by deed.
ghost use Rattle.std.specs.Prelude.{◌≡◌, ◌∷◌, ◌+◌, List, IfOk, OnOk};
ghost use Rattle.cam_event.specs.declared.Deed.{Deed};
ghost use Rattle.cam_own.specs.Actions.{action_in, changed, Changes, KeepsActions};

use cam_base::NoMemory;
use cam_event::Deed;
use cam_names::Name;
use std::collections::HashMap;

/// What is kept of an action.
#[derive(Clone, Copy)]
pub(crate) struct Action {
    pub(crate) is_created: bool,
    pub(crate) asked_commit: bool,
    pub(crate) asked_abort: bool,
    pub(crate) asks: u64,
    pub(crate) calls: u64,
    pub(crate) open_call: Option<u32>,
}

/// Of an action that no deed has named.
const UNNAMED: Action = Action {
    is_created: false,
    asked_commit: false,
    asked_abort: false,
    asks: 0,
    calls: 0,
    open_call: None,
};

/// What one deed changes of it.
#[derive(Clone, Copy)]
pub(crate) enum Change {
    Created,
    AskedCommit,
    AskedAbort,
    /// It asked for one more child.
    ChildAsked,
    /// It made a call of this number.
    Called(u32),
    /// It got what came of its call.
    Got,
}

/// What is kept of each action, found by the hash of its name.
pub(crate) type Actions = HashMap<Name, Action>;

/// What is kept of an action.
pub(crate) fn action_in(actions: &Actions, name: &Name) -> Action
    ensures { result ≡ action_in actions.now name.now }
{
    match actions.get(name) {
        Some(action) => *action,
        None => UNNAMED,
    }
}

/// One more. No memory holds so many deeds that the number could wrap.
pub(crate) fn one_more(number: u64) -> Result<u64, NoMemory>
    ensures { IfOk result (λ more. more ≡ number + 1) }
{
    match number.checked_add(1) {
        Some(more) => Ok(more),
        None => Err(NoMemory),
    }
}

/// What is kept of the action after a change.
fn changed(kept: &Action, change: &Change) -> Result<Action, NoMemory>
    ensures { IfOk result (λ action. action ≡ changed change.now kept.now) }
{
    let mut action = *kept;
    match change {
        Change::Created => action.is_created = true,
        Change::AskedCommit => action.asked_commit = true,
        Change::AskedAbort => action.asked_abort = true,
        Change::ChildAsked => action.asks = one_more(kept.asks)?,
        Change::Called(number) => {
            action.calls = one_more(kept.calls)?;
            action.open_call = Some(*number);
        }
        Change::Got => action.open_call = None,
    }
    Ok(action)
}

/// Changes what is kept of an action.
fn make_change(actions: &mut Actions, name: &Name, change: &Change) -> Result<(), NoMemory>
    ensures { OnOk result (Changes change.now name.now actions.old actions.new) }
{
    let action = changed(&action_in(actions, name), change)?;
    actions.insert(*name, action)?;
    Ok(())
}

/// Keeps what one more deed says of actions.
pub(crate) fn note_action(actions: &mut Actions, deed: &Deed) -> Result<(), NoMemory>
    ensures { OnOk result ((L : List Deed) → KeepsActions L actions.old
        → KeepsActions (deed.now ∷ L) actions.new) }
{
    match deed {
        Deed::Create { action } => make_change(actions, action, &Change::Created),
        Deed::Ask { action, .. } => make_change(actions, action, &Change::ChildAsked),
        Deed::Call { action, number, .. } => make_change(actions, action, &Change::Called(*number)),
        Deed::Got { action, .. } => make_change(actions, action, &Change::Got),
        Deed::AskCommit { action, .. } => make_change(actions, action, &Change::AskedCommit),
        Deed::AskAbort { action } => make_change(actions, action, &Change::AskedAbort),
        _ => Ok(()),
    }
}
