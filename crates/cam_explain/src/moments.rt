//! What happened to an action.
ghost use Rattle.std.specs.Prelude.{◌≡◌};
ghost use Rattle.cam_explain.specs.Moments.{child_ended, of_parent, own, stopped};

use cam_base::Sequence;
use cam_event::{Deed, Note, Seen};
use cam_names::Name;
use cam_type::Op;

/// How an action ended.
#[derive(Clone, Copy, Debug, PartialEq, Eq)]
pub(crate) enum Outcome {
    Committed,
    Aborted,
}

/// What happens to an action.
#[derive(Clone, Copy, Debug, PartialEq, Eq)]
pub(crate) enum What {
    Created,
    Asked(Name),
    Called(u8, Op),
    Got(Seen),
    ChildEnded(Name, Outcome),
    CommitAsked(i64),
    AbortAsked,
    /// Its last call was performed for it.
    Performed,
    /// It was stopped at its home.
    Stopped,
}

/// What happened to an action, with the number of the event and the line in which it did.
#[derive(Clone, Copy, Debug, PartialEq, Eq)]
pub(crate) struct Moment {
    pub(crate) event: usize,
    pub(crate) line: u32,
    pub(crate) what: What,
}

/// What happened to an action, in order.
pub(crate) type Moments = Sequence<Moment>;

/// What a deed is to the action that does it, or that it is done for.
pub(crate) fn own(deed: &Deed) -> Option<(Name, What)>
    ensures { result ≡ own deed.now }
{
    match deed {
        Deed::Create { action } => Some((*action, What::Created)),
        Deed::Ask { action, child } => Some((*action, What::Asked(*child))),
        Deed::Call {
            action,
            object,
            op,
            ..
        } => Some((*action, What::Called(*object, *op))),
        Deed::Perform { action, .. } => Some((*action, What::Performed)),
        Deed::Got { action, seen, .. } => Some((*action, What::Got(*seen))),
        Deed::AskCommit { action, value } => Some((*action, What::CommitAsked(*value))),
        Deed::AskAbort { action } => Some((*action, What::AbortAsked)),
        _ => None,
    }
}

/// What the end of an action is to its parent.
fn child_ended(child: &Name, outcome: Outcome) -> Option<(Name, What)>
    ensures { result ≡ child_ended child.now outcome }
{
    match child.parent() {
        Some(parent) => Some((parent, What::ChildEnded(*child, outcome))),
        None => None,
    }
}

/// What a deed is to the parent of the action that it ends.
pub(crate) fn of_parent(deed: &Deed) -> Option<(Name, What)>
    ensures { result ≡ of_parent deed.now }
{
    match deed {
        Deed::Commit { action } => child_ended(action, Outcome::Committed),
        Deed::Abort { action } => child_ended(action, Outcome::Aborted),
        _ => None,
    }
}

/// The action that an event at a node stopped, if that is its home.
pub(crate) fn stopped(node: u8, note: &Note) -> Option<(Name, What)>
    ensures { result ≡ stopped node note.now }
{
    let Note::Stopped(action, _) = note else {
        return None;
    };
    let (home, _) = action.home();
    if home == node {
        Some((*action, What::Stopped))
    } else {
        None
    }
}
