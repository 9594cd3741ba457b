//! Why an arrival pauses: its deeds would give an action a step of its view at or after its quiesce
//! moment, or would abort one before it.
ghost use Rattle.std.specs.Prelude.{◌≡◌};
ghost use Rattle.cam_timed.specs.TimedRules.{steps_for, aborts_of, quiet_at, early_at, first_pause, pause_of};
ghost use Rattle.cam_timed.specs.Untils.{until_in};

use crate::Pause;
use crate::untils::{Untils, until_of};
use cam_event::{Deed, Deeds};
use cam_names::Name;

/// The action that a deed gives a step of its view.
fn steps_for(deed: &Deed) -> Option<Name>
    ensures { result ≡ steps_for deed.now }
{
    match deed {
        Deed::Create { action } => Some(*action),
        Deed::Got { action, .. } => Some(*action),
        Deed::Commit { action } => action.parent(),
        Deed::Abort { action } => action.parent(),
        _ => None,
    }
}

/// The action that a deed aborts.
fn aborts_of(deed: &Deed) -> Option<Name>
    ensures { result ≡ aborts_of deed.now }
{
    match deed {
        Deed::Abort { action } => Some(*action),
        _ => None,
    }
}

/// An action gets no step of its view at or after its quiesce moment.
fn quiet_at(untils: &Untils, now: u64, action: &Option<Name>) -> Option<Pause>
    ensures { result ≡ quiet_at (until_in untils.now) now action.now }
{
    match action {
        Some(action) if until_of(untils, action) <= now => Some(Pause::Quiet(*action)),
        _ => None,
    }
}

/// No action is aborted before its quiesce moment.
fn early_at(untils: &Untils, now: u64, action: &Option<Name>) -> Option<Pause>
    ensures { result ≡ early_at (until_in untils.now) now action.now }
{
    match action {
        Some(action) if now < until_of(untils, action) => Some(Pause::Early(*action)),
        _ => None,
    }
}

/// Why one deed of an arrival pauses it, if it does.
fn pause_at(untils: &Untils, now: u64, deed: &Deed) -> Option<Pause>
    ensures { result ≡ first_pause (quiet_at (until_in untils.now) now (steps_for deed.now))
        (early_at (until_in untils.now) now (aborts_of deed.now)) }
{
    match quiet_at(untils, now, &steps_for(deed)) {
        Some(pause) => Some(pause),
        None => early_at(untils, now, &aborts_of(deed)),
    }
}

/// Why the deeds of an arrival at this moment pause, if they do: the first reason counts.
pub(crate) fn pause_of(untils: &Untils, now: u64, deeds: &Deeds) -> Option<Pause>
    ensures { result ≡ pause_of (until_in untils.now) now deeds.now }
{
    for deed in deeds.as_slice() {
        if let Some(pause) = pause_at(untils, now, deed) {
            return Some(pause);
        }
    }
    None
}
