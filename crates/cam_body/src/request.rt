//! The next request.
ghost use Rattle.std.specs.Prelude.{◌≡◌, [], ◌∷◌};
ghost use Rattle.cam_body.specs.Work.{has_ended, next, body_at, child_body};

use crate::Next;
use crate::evaluation::{tries_of, want_of};
use crate::progress::progress_of;
use cam_event::{View, ViewStep, Want};
use cam_script::{BodyText, Statement};

/// What an action with this body does next, by its view alone.
///
/// It works at the statements in order, and tries each as often as the statement says. Where each try of one has failed, it asks to
/// abort. It waits while a call or a child is open, and is over once it has asked to commit or to abort, or has no statement left.
pub fn next_request(body: &BodyText, view: &View) -> Next
    ensures { result ≡ next body.now view.now }
{
    if has_ended(view) {
        return Next::Over;
    }
    let at = progress_of(view, 0);
    if at.is_open {
        return Next::Wait;
    }
    match body.get(at.done) {
        None => Next::Over,
        Some(statement) => {
            if at.failed >= tries_of(*statement) as usize {
                Next::Request(Want::Abort)
            } else {
                Next::Request(want_of(*statement, view))
            }
        }
    }
}

/// The body of the child for which the statement at work asks, as its place among the bodies; none if it asks for no child.
pub fn child_body(body: &BodyText, view: &View) -> Option<u8>
    ensures { result ≡ child_body body.now view.now }
{
    match body.get(progress_of(view, 0).done) {
        None => None,
        Some(statement) => body_of(*statement),
    }
}

/// The body of the child for which a statement asks.
fn body_of(statement: Statement) -> Option<u8>
    ensures { result ≡ body_at (statement ∷ []) }
{
    match statement {
        Statement::Child {
            tries: _,
            node: _,
            body,
        } => Some(body),
        _ => None,
    }
}

/// Whether the action has asked to commit or to abort.
fn has_ended(view: &View) -> bool
    ensures { result ≡ has_ended view.now }
{
    for step in view.as_slice() {
        match step {
            ViewStep::CommitAsked(_) => return true,
            ViewStep::AbortAsked => return true,
            _ => {}
        }
    }
    false
}
