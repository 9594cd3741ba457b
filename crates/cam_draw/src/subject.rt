//! The actions of events.
ghost use Rattle.std.specs.Prelude.{◌≡◌, IfOk, string_bytes};
ghost use Rattle.cam_draw.specs.Deeds.{action_word, doer, first_doer, subject};

use cam_base::NoMemory;
use cam_event::{Deed, Event, Note};
use cam_names::Name;
use cam_scope::Scope;
use std::alloc::Global;

/// The action of an event, by name: that of a note or else of a deed. Empty where the event has
/// none.
pub(crate) fn action_of(alloc: Global, scope: &Scope, event: &Event) -> Result<String, NoMemory>
    ensures { IfOk result (λ text. string_bytes text ≡ action_word scope.now.names event.now) }
{
    let mut word = String::new(alloc);
    if let Some(action) = subject(event) {
        scope.names.write_name(alloc, &action, &mut word)?;
    }
    Ok(word)
}

/// The action of an event.
fn subject(event: &Event) -> Option<Name>
    ensures { result ≡ subject event.now.note event.now.deeds }
{
    match &event.note {
        Note::Stopped(action, _) | Note::Preparing(action) => Some(*action),
        _ => subject_of(event.deeds.as_slice()),
    }
}

/// The action of the first deed that is of one.
fn subject_of(deeds: &[Deed]) -> Option<Name>
    ensures { result ≡ first_doer deeds.now }
{
    for deed in deeds {
        if let Some(action) = doer(deed) {
            return Some(action);
        }
    }
    None
}

/// The action of a deed. What a node hears is no deed of an action, nor is a restart.
fn doer(deed: &Deed) -> Option<Name>
    ensures { result ≡ doer deed.now }
{
    match deed {
        Deed::Create { action }
        | Deed::Ask { action, .. }
        | Deed::Call { action, .. }
        | Deed::Perform { action, .. }
        | Deed::Bounce { action, .. }
        | Deed::Got { action, .. }
        | Deed::AskCommit { action, .. }
        | Deed::AskAbort { action }
        | Deed::Commit { action }
        | Deed::Abort { action }
        | Deed::Secure { family: action, .. } => Some(*action),
        Deed::Inform { .. } | Deed::Crash { .. } => None,
    }
}
