//! What stands against a request, a query or an expiry, if anything does.
ghost use Rattle.std.specs.Prelude.{◌≡◌, nat_le, length, IfOk};
ghost use Rattle.cam_event.specs.declared.LineRefusal.TheVariants as refusal_names;
ghost use Rattle.cam_event.specs.Refusals as refusals;
ghost use Rattle.cam_event.specs.Sights.{knows_outcome};

use crate::families::knows_outcome;
use crate::sighted::Sighted;
use cam_base::NoMemory;
use cam_event::{LineRefusal, Want};
use cam_names::Name;

/// Whether an action has ended, or is of an older incarnation.
fn has_ended<S: Sighted>(here: &S, action: &Name) -> Option<LineRefusal>
    requires { S.stands here.now }
    ensures { result ≡ refusals.has_ended (S.sight here.now) action.now }
{
    let (_node, count) = action.home();
    if here.ended(action) || count < here.count() {
        Some(LineRefusal::Ended)
    } else {
        None
    }
}

/// Whether it was not created.
fn is_not_open<S: Sighted>(here: &S, action: &Name) -> Option<LineRefusal>
    requires { S.stands here.now }
    ensures { result ≡ refusals.is_not_open (S.sight here.now) action.now }
{
    if here.created(action) {
        None
    } else {
        Some(LineRefusal::NotOpen)
    }
}

/// What stands against an ask besides.
fn against_ask<S: Sighted>(here: &S, action: &Name) -> Option<LineRefusal>
    requires { S.stands here.now }
    ensures { result ≡ refusals.first_of_two (refusals.has_call (S.sight here.now) action.now)
        (refusals.first_of_two (refusals.is_not_open (S.sight here.now) action.now)
        (refusals.where_so (nat_le 8 (length action.now)) refusal_names.TooDeep)) }
{
    if here.open_call(action).is_some() {
        return Some(LineRefusal::OpenCall);
    }
    if !here.created(action) {
        return Some(LineRefusal::NotOpen);
    }
    if action.depth() >= 8 {
        return Some(LineRefusal::TooDeep);
    }
    None
}

/// What stands against a call or a commit besides.
fn against_going_on<S: Sighted>(here: &S, action: &Name) -> Option<LineRefusal>
    requires { S.stands here.now }
    ensures { result ≡ refusals.first_of_two (refusals.has_call (S.sight here.now) action.now)
        (refusals.first_of_two (refusals.has_child (S.sight here.now) action.now)
        (refusals.is_not_open (S.sight here.now) action.now)) }
{
    if here.open_call(action).is_some() {
        return Some(LineRefusal::OpenCall);
    }
    if here.has_open_child(action) {
        return Some(LineRefusal::OpenChild);
    }
    is_not_open(here, action)
}

/// What stands against a request of an action, at its home.
pub fn refusal<S: Sighted>(here: &S, action: &Name, want: &Want) -> Option<LineRefusal>
    requires { S.stands here.now }
    ensures { result ≡ refusals.refusal (S.sight here.now) action.now want.now }
{
    if let Some(refusal) = has_ended(here, action) {
        return Some(refusal);
    }
    match want {
        Want::Ask(_) => against_ask(here, action),
        Want::Call(_, _) | Want::Commit(_) => against_going_on(here, action),
        Want::Abort => is_not_open(here, action),
        Want::GiveUp(child) => {
            if here.created(action) && here.is_open_child(action, child) {
                None
            } else {
                Some(LineRefusal::NotOpen)
            }
        }
    }
}

/// What stands against a query of a node after a family: the node knows how it ended, or has neither
/// secured it nor a live operation of it.
pub fn query_refusal<S: Sighted>(here: &S, family: &Name) -> Option<LineRefusal>
    requires { S.stands here.now }
    ensures { result ≡ refusals.query_refusal (S.sight here.now) family.now }
{
    if knows_outcome(here, family) || !(here.is_secured(family) || here.has_live_of(family)) {
        Some(LineRefusal::NothingToDo)
    } else {
        None
    }
}

/// What stands against the end of a top action at its home: it was not created there, or its outcome is
/// known.
pub fn end_refusal<S: Sighted>(here: &S, action: &Name) -> Option<LineRefusal>
    requires { S.stands here.now }
    ensures { result ≡ refusals.first_of_two (refusals.is_not_open (S.sight here.now) action.now)
        (refusals.where_so (knows_outcome (S.sight here.now) action.now)
        refusal_names.NothingToDo) }
{
    if !here.created(action) {
        return Some(LineRefusal::NotOpen);
    }
    if knows_outcome(here, action) {
        return Some(LineRefusal::NothingToDo);
    }
    None
}
