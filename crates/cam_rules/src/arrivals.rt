//! A letter comes; a node sends one.
ghost use Rattle.std.specs.Prelude.{◌≡◌, IfOk};
ghost use Rattle.cam_names.specs.Names.{parent};
ghost use Rattle.cam_event.specs.Rules as rules;
ghost use Rattle.cam_event.specs.Runs.{IsNode};
ghost use Rattle.cam_rules.specs.Untested.{untested};

use crate::calls::{answer_comes, call_comes};
use crate::children::{child_finishes, child_quits, start_comes};
use crate::did::Did;
use crate::families::{prepare_comes, query_comes, top_finishes, top_quits, vote_comes};
use crate::homes::home_of;
use crate::sighted::Sighted;
use cam_base::NoMemory;
use cam_event::{Body, Note};
use cam_names::{Deps, Name};
use cam_type::Objects;
use std::alloc::Global;

/// An action has finished, with what it depends on.
fn finish_comes<S: Sighted>(
    alloc: Global,
    here: &S,
    action: &Name,
    deps: &Deps,
) -> Result<Did, NoMemory>
    requires { S.stands here.now }
    ensures { IfOk result (λ did. did
        ≡ rules.finish_comes (untested (S.sight here.now)) action.now (parent action.now) deps.now) }
{
    match action.parent() {
        Some(parent) => child_finishes(alloc, here, &parent, action, deps),
        None => top_finishes(alloc, here, action),
    }
}

/// An action has quit.
fn quit_comes<S: Sighted>(alloc: Global, here: &S, action: &Name) -> Result<Did, NoMemory>
    requires { S.stands here.now }
    ensures { IfOk result (λ did. did
        ≡ rules.quit_comes (untested (S.sight here.now)) action.now (parent action.now)) }
{
    match action.parent() {
        Some(parent) => child_quits(alloc, here, &parent, action),
        None => top_quits(alloc, here, action),
    }
}

/// A letter comes from a node.
pub fn arrive<S: Sighted>(
    alloc: Global,
    here: &S,
    objects: &Objects,
    from: u8,
    body: &Body,
) -> Result<Did, NoMemory>
    requires stands { S.stands here.now }
    requires from { IsNode from }
    ensures { IfOk result (λ did.
        did ≡ rules.arrives objects.now (untested (S.sight here.now)) from body.now) }
{
    match body {
        Body::Start { child, deps } => start_comes(alloc, here, from, child, deps),
        Body::Call {
            action,
            number,
            object,
            op,
            count,
            ..
        } => call_comes(alloc, here, objects, action, *number, *object, op, *count),
        Body::Answer {
            action,
            number,
            reply,
        } => answer_comes(alloc, here, objects, action, *number, reply),
        Body::Finish { action, deps, .. } => finish_comes(alloc, here, action, deps),
        Body::Quit { action } => quit_comes(alloc, here, action),
        Body::Prepare { family, count } => prepare_comes(alloc, here, family, *count),
        Body::Vote { family, count, yes } => { vote_comes(alloc, here, from, family, *count, *yes) }
        Body::Query { family } => query_comes(alloc, here, from, family),
        Body::News => Ok(Did::nothing_but(alloc, &Note::Plain)),
    }
}

/// A node tells another what it knows.
pub fn tell(alloc: Global, to: u8) -> Result<Did, NoMemory>
    requires { IsNode to }
    ensures { IfOk result (λ did. did ≡ rules.tells to) }
{
    Did::letter(alloc, to, &Body::News)
}

/// A node asks a family's home how the family ended.
pub fn query(alloc: Global, family: &Name) -> Result<Did, NoMemory>
    ensures { IfOk result (λ did. did ≡ rules.queries family.now) }
{
    Did::letter(alloc, home_of(family), &Body::Query { family: *family })
}
