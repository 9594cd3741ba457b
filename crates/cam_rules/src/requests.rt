//! What an action asks of its home, and the beginning of a top action.
ghost use Rattle.std.specs.Prelude.{◌≡◌, ◌≤◌, ◌<◌, ◌+◌, [], ◌∷◌, length, IfOk};
ghost use Rattle.cam_type.specs.Objects.{site_of};
ghost use Rattle.cam_event.specs.declared.Body.TheVariants as bodies;
ghost use Rattle.cam_event.specs.declared.Deed.TheVariants.{AskAbort, Inform};
ghost use Rattle.cam_event.specs.declared.Want.TheVariants as wants;
ghost use Rattle.cam_event.specs.Inputs.{decider};
ghost use Rattle.cam_event.specs.Rules as rules;
ghost use Rattle.cam_event.specs.Rules.{child_name};
ghost use Rattle.cam_event.specs.Runs.{IsNode};
ghost use Rattle.cam_rules.specs.Addressed.{AreAddressed};
ghost use Rattle.cam_rules.specs.Untested.{untested, HasPlace};

use crate::did::{Did, one};
use crate::homes::decider;
use crate::sighted::Sighted;
use cam_base::NoMemory;
use cam_event::{Body, Deed, Deeds, Note, SentList, Want};
use cam_names::{Name, Part};
use cam_type::{Objects, Op, site_of};
use std::alloc::Global;

/// The number of one more. No memory holds so many deeds that it could be greater than 1,000,000,000.
fn next_number(made: u64) -> Result<u32, NoMemory>
    ensures value { IfOk result (λ number. number ≡ made + 1) }
    ensures range { IfOk result (λ number. (1 ≤ number) × (number ≤ 1000000000)) }
{
    if made < 1_000_000_000 {
        Ok(made as u32 + 1)
    } else {
        Err(NoMemory)
    }
}

/// A top action is created.
pub fn begin<S: Sighted>(alloc: Global, here: &S) -> Result<Did, NoMemory>
    requires { S.stands here.now }
    ensures { IfOk result (λ did. did ≡ rules.begins (untested (S.sight here.now))) }
{
    let number = next_number(here.tops())?;
    let action = Name::top(Part {
        node: here.node(),
        count: here.count(),
        number,
    });
    Did::one_deed(alloc, &Deed::Create { action })
}

/// What an action asks of its home. The child or the call that it asks for has a place.
pub fn request<S: Sighted>(
    alloc: Global,
    here: &S,
    objects: &Objects,
    action: &Name,
    want: &Want,
) -> Result<Did, NoMemory>
    requires stands { S.stands here.now }
    requires place { HasPlace objects.now action.now want.now }
    ensures { IfOk result (λ did.
        did ≡ rules.request objects.now (untested (S.sight here.now)) action.now want.now) }
{
    match want {
        Want::Ask(node) => asks_child(alloc, here, action, *node),
        Want::Call(object, op) => makes_call(alloc, here, objects, action, *object, op),
        Want::Commit(value) => finishes(alloc, here, action, *value),
        Want::Abort => quits(alloc, action),
        Want::GiveUp(child) => aborts(alloc, here, child, SentList::new(alloc)),
    }
}

/// It asks for a child at a node.
fn asks_child<S: Sighted>(alloc: Global, here: &S, action: &Name, node: u8) -> Result<Did, NoMemory>
    requires stands { S.stands here.now }
    requires depth { length action.now < 8 }
    requires node { IsNode node }
    ensures { IfOk result (λ did. did ≡ rules.asks_child action.now
        (child_name (S.sight here.now) action.now node) node ((S.sight here.now).deps action.now)) }
{
    let number = next_number(here.asks(action))?;
    let child = action
        .child(Part {
            node,
            count: here.known_count(node),
            number,
        })
        .unwrap();
    let deed = Deed::Ask {
        action: *action,
        child,
    };
    let body = Body::Start {
        child,
        deps: here.deps(action),
    };
    Did::deed_and_letter(alloc, &deed, node, &body)
}

/// It calls an object.
fn makes_call<S: Sighted>(
    alloc: Global,
    here: &S,
    objects: &Objects,
    action: &Name,
    object: u8,
    op: &Op,
) -> Result<Did, NoMemory>
    requires stands { S.stands here.now }
    requires node { IsNode (site_of objects.now object) }
    ensures { IfOk result (λ did. did
        ≡ rules.wanted objects.now (untested (S.sight here.now)) action.now (wants.Call object op.now)) }
{
    let number = next_number(here.calls(action))?;
    let site = site_of(objects, object);
    let count = here.known_count(site);
    let deed = Deed::Call {
        action: *action,
        number,
        object,
        op: *op,
        count,
    };
    let body = Body::Call {
        action: *action,
        number,
        object,
        op: *op,
        count,
        deps: here.deps(action),
    };
    Did::deed_and_letter(alloc, &deed, site, &body)
}

/// It asks to commit.
fn finishes<S: Sighted>(alloc: Global, here: &S, action: &Name, value: i64) -> Result<Did, NoMemory>
    requires { S.stands here.now }
    ensures { IfOk result (λ did. did
        ≡ rules.wanted [] (untested (S.sight here.now)) action.now (wants.Commit value)) }
{
    let deed = Deed::AskCommit {
        action: *action,
        value,
    };
    let body = Body::Finish {
        action: *action,
        value,
        deps: here.deps(action),
    };
    Did::deed_and_letter(alloc, &deed, decider(action), &body)
}

/// It asks to abort.
fn quits(alloc: Global, action: &Name) -> Result<Did, NoMemory>
    ensures { IfOk result (λ did. did ≡ rules.did (rules.one (AskAbort action.now))
        (rules.one (rules.send (decider action.now) (bodies.Quit action.now)))) }
{
    let deed = Deed::AskAbort { action: *action };
    let body = Body::Quit { action: *action };
    Did::deed_and_letter(alloc, &deed, decider(action), &body)
}

/// An action is decided so, and its deciding node is informed of that at once.
fn decided<S: Sighted>(
    alloc: Global,
    here: &S,
    deed: &Deed,
    action: &Name,
    committed: bool,
) -> Result<Deeds, NoMemory>
    requires { S.stands here.now }
    ensures { IfOk result (λ deeds. deeds
        ≡ deed.now ∷ Inform (S.sight here.now).node action.now committed ∷ []) }
{
    let mut deeds = one(alloc, deed)?;
    let inform = Deed::Inform {
        site: here.node(),
        name: *action,
        committed,
    };
    deeds.push_copy(&inform)?;
    Ok(deeds)
}

/// An action aborts, and these letters go out.
pub(crate) fn aborts<S: Sighted>(
    alloc: Global,
    here: &S,
    action: &Name,
    sent: SentList,
) -> Result<Did, NoMemory>
    requires stands { S.stands here.now }
    requires nodes { AreAddressed sent }
    ensures { IfOk result (λ did. did
        ≡ rules.did (rules.aborts (untested (S.sight here.now)) action.now) sent) }
{
    let deeds = decided(alloc, here, &Deed::Abort { action: *action }, action, false)?;
    Ok(Did {
        deeds,
        sent,
        note: Note::Plain,
    })
}

/// An action commits, and these letters go out.
pub(crate) fn commits<S: Sighted>(
    alloc: Global,
    here: &S,
    action: &Name,
    sent: SentList,
) -> Result<Did, NoMemory>
    requires stands { S.stands here.now }
    requires nodes { AreAddressed sent }
    ensures { IfOk result (λ did. did
        ≡ rules.did (rules.commits (untested (S.sight here.now)) action.now) sent) }
{
    let deeds = decided(alloc, here, &Deed::Commit { action: *action }, action, true)?;
    Ok(Did {
        deeds,
        sent,
        note: Note::Plain,
    })
}
