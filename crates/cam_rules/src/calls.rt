//! A call comes to its site, and its answer to the action's home.
ghost use Rattle.std.specs.Prelude.{◌≡◌, ℕ, List, [], IfOk};
ghost use Rattle.std.specs.List.{list_any};
ghost use Rattle.cam_names.specs.Names.{ancestors};
ghost use Rattle.cam_event.specs.declared.Deed.TheVariants.{Got};
ghost use Rattle.cam_event.specs.Rules as rules;
ghost use Rattle.cam_event.specs.Rules.{call_comes, answer_comes, awaits};
ghost use Rattle.cam_rules.specs.Untested.{untested};

use crate::children::is_present;
use crate::did::Did;
use crate::homes::home_of;
use crate::sighted::Sighted;
use cam_base::NoMemory;
use cam_event::{Body, Deed, Note, Reply, Seen};
use cam_names::Name;
use cam_type::{Answer, Objects, Op, site_of};
use std::alloc::Global;

/// Whether the commit of an ancestor of the action is known.
fn is_over<S: Sighted>(here: &S, action: &Name) -> bool
    requires { S.stands here.now }
    ensures { result ≡ list_any (S.sight here.now).knows_commit (ancestors action.now) }
{
    match action.parent() {
        None => here.knows_commit(action),
        Some(parent) => here.knows_commit(action) || is_over(here, &parent),
    }
}

/// The reply to a call of an action.
fn reply(
    alloc: Global,
    note: &Note,
    action: &Name,
    number: u32,
    reply: &Reply,
) -> Result<Did, NoMemory>
    ensures { IfOk result (λ did.
        did ≡ rules.answers note.now (rules.reply_to action.now number reply.now)) }
{
    let body = Body::Answer {
        action: *action,
        number,
        reply: *reply,
    };
    Did::answer(alloc, note, home_of(action), &body)
}

/// It was performed, with this answer.
fn performed(alloc: Global, action: &Name, number: u32, answer: Answer) -> Result<Did, NoMemory>
    ensures { IfOk result (λ did. did ≡ rules.performed action.now number answer) }
{
    let deed = Deed::Perform {
        action: *action,
        number,
        answer,
    };
    let body = Body::Answer {
        action: *action,
        number,
        reply: Reply::Done(answer),
    };
    Did::deed_and_letter(alloc, &deed, home_of(action), &body)
}

/// It bounced off an operation with this lift. One past the top stands in nobody's way.
fn bounced(alloc: Global, action: &Name, number: u32, lift: &Option<Name>) -> Result<Did, NoMemory>
    ensures { IfOk result (λ did. did ≡ rules.bounced action.now number lift.now) }
{
    let Some(holder) = lift else {
        return Ok(Did::nothing_but(alloc, &Note::Plain));
    };
    let deed = Deed::Bounce {
        action: *action,
        number,
        holder: *holder,
    };
    let body = Body::Answer {
        action: *action,
        number,
        reply: Reply::Busy(*holder),
    };
    Did::deed_and_letter(alloc, &deed, home_of(action), &body)
}

/// A call comes to its site, addressed to the site at `count`.
pub(crate) fn call_comes<S: Sighted>(
    alloc: Global,
    here: &S,
    objects: &Objects,
    action: &Name,
    number: u32,
    object: u8,
    op: &Op,
    count: u32,
) -> Result<Did, NoMemory>
    requires { S.stands here.now }
    ensures { (counts : List ℕ) → IfOk result (λ did. did ≡ call_comes objects.now
        (untested (S.sight here.now)) action.now number object op.now count counts) }
{
    if count != here.count() {
        return reply(alloc, &Note::Missed, action, number, &Reply::Missed);
    }
    if is_over(here, action) {
        return Ok(Did::nothing_but(alloc, &Note::Ended));
    }
    if let Some(kept) = here.kept_reply(action, number) {
        return reply(alloc, &Note::Again, action, number, &kept);
    }
    match here.conflict(action, object, op) {
        Some(other) => bounced(alloc, action, number, &here.lift(&other.action)),
        None => {
            let answer = here.answer(objects, object, op)?;
            performed(alloc, action, number, answer)
        }
    }
}

/// Whether an action awaits the answer to its call of this number.
fn awaits<S: Sighted>(here: &S, action: &Name, number: u32) -> bool
    requires { S.stands here.now }
    ensures { result ≡ awaits (untested (S.sight here.now)) action.now number }
{
    is_present(here, action)
        && here.created(action)
        && !here.ended(action)
        && is_number(here.open_call(action), number)
}

/// Whether the number is this one.
fn is_number(call: Option<u32>, number: u32) -> bool
    ensures { result ≡ rules.is_number number call }
{
    match call {
        Some(open) => open == number,
        None => false,
    }
}

/// An action sees this of its call.
fn got(alloc: Global, action: &Name, number: u32, seen: &Seen) -> Result<Did, NoMemory>
    ensures { IfOk result (λ did.
        did ≡ rules.did (rules.one (Got action.now number seen.now)) []) }
{
    let deed = Deed::Got {
        action: *action,
        number,
        seen: *seen,
    };
    Did::one_deed(alloc, &deed)
}

/// What an action sees of a reply that it awaits.
fn got_reply(alloc: Global, action: &Name, number: u32, reply: &Reply) -> Result<Did, NoMemory>
    ensures { IfOk result (λ did. did ≡ rules.got_reply action.now number reply.now) }
{
    match reply {
        Reply::Done(answer) => got(alloc, action, number, &Seen::Done(*answer)),
        Reply::Busy(holder) => got(alloc, action, number, &Seen::Busy(*holder)),
        Reply::Missed | Reply::Refused => Ok(Did::nothing_but(alloc, &Note::Late)),
    }
}

/// The answer to a call comes to the action's home. Where the call's site has crashed since it was
/// addressed the call is gone.
pub(crate) fn answer_comes<S: Sighted>(
    alloc: Global,
    here: &S,
    objects: &Objects,
    action: &Name,
    number: u32,
    reply: &Reply,
) -> Result<Did, NoMemory>
    requires { S.stands here.now }
    ensures { IfOk result (λ did. did ≡ answer_comes objects.now
        (untested (S.sight here.now)) action.now number reply.now) }
{
    if !awaits(here, action, number) {
        return Ok(Did::nothing_but(alloc, &Note::Late));
    }
    let Some(call) = here.call(action, number) else {
        return Ok(Did::nothing_but(alloc, &Note::Late));
    };
    if call.count < here.known_count(site_of(objects, call.object)) {
        return got(alloc, action, number, &Seen::Gone);
    }
    got_reply(alloc, action, number, reply)
}
