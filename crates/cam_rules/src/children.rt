//! A child's start comes to its home; its finish or its quit comes to the home of its parent.
ghost use Rattle.std.specs.Prelude.{◌≡◌, IfOk};
ghost use Rattle.cam_event.specs.Rules.{start_comes, child_finishes, child_quits, decides_child};
ghost use Rattle.cam_event.specs.Sights.{is_present};
ghost use Rattle.cam_event.specs.Runs.{IsNode};
ghost use Rattle.cam_rules.specs.Untested.{untested};

use crate::did::Did;
use crate::requests::{aborts, commits};
use crate::sighted::Sighted;
use cam_base::NoMemory;
use cam_event::{Body, Deed, Note, SentList};
use cam_names::{Deps, Name};
use std::alloc::Global;

/// Whether the action's incarnation is the node's present one.
pub(crate) fn is_present<S: Sighted>(here: &S, action: &Name) -> bool
    requires { S.stands here.now }
    ensures { result ≡ is_present (S.sight here.now) action.now }
{
    let (_node, count) = action.home();
    count == here.count()
}

/// A child's start comes from a node. At another count the child is gone, and quits.
pub(crate) fn start_comes<S: Sighted>(
    alloc: Global,
    here: &S,
    from: u8,
    child: &Name,
    deps: &Deps,
) -> Result<Did, NoMemory>
    requires stands { S.stands here.now }
    requires from { IsNode from }
    ensures { IfOk result (λ did.
        did ≡ start_comes (untested (S.sight here.now)) from child.now deps.now) }
{
    if !is_present(here, child) {
        let body = Body::Quit { action: *child };
        return Did::answer(alloc, &Note::Missed, from, &body);
    }
    if here.created(child) {
        return Ok(Did::nothing_but(alloc, &Note::Again));
    }
    Did::one_deed(alloc, &Deed::Create { action: *child })
}

/// Whether a child is decided here: its parent runs here, and the child is open.
fn decides_child<S: Sighted>(here: &S, parent: &Name, child: &Name) -> bool
    requires { S.stands here.now }
    ensures { result ≡ decides_child (untested (S.sight here.now)) parent.now child.now }
{
    is_present(here, parent) && !here.ended(parent) && here.is_open_child(parent, child)
}

/// A child has finished: it commits.
pub(crate) fn child_finishes<S: Sighted>(
    alloc: Global,
    here: &S,
    parent: &Name,
    child: &Name,
    deps: &Deps,
) -> Result<Did, NoMemory>
    requires { S.stands here.now }
    ensures { IfOk result (λ did.
        did ≡ child_finishes (untested (S.sight here.now)) parent.now child.now deps.now) }
{
    if !decides_child(here, parent, child) {
        return Ok(Did::nothing_but(alloc, &Note::Late));
    }
    commits(alloc, here, child, SentList::new(alloc))
}

/// A child has quit: it aborts.
pub(crate) fn child_quits<S: Sighted>(
    alloc: Global,
    here: &S,
    parent: &Name,
    child: &Name,
) -> Result<Did, NoMemory>
    requires { S.stands here.now }
    ensures { IfOk result (λ did.
        did ≡ child_quits (untested (S.sight here.now)) parent.now child.now) }
{
    if !decides_child(here, parent, child) {
        return Ok(Did::nothing_but(alloc, &Note::Late));
    }
    aborts(alloc, here, child, SentList::new(alloc))
}
