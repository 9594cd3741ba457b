//! The event that was decided is noted in the tables of its node and of all nodes.
ghost use Rattle.std.specs.Prelude.{◌≡◌, ◌∷◌, ℕ, List, length, IfOk, OnOk};
ghost use Rattle.std.specs.List.{AllByRecursion};
ghost use Rattle.cam_type.specs.declared.ObjectDecl.{ObjectDecl};
ghost use Rattle.cam_event.specs.declared.Deed.{Deed as DeedValue};
ghost use Rattle.cam_event.specs.History.{after};
ghost use Rattle.cam_event.specs.Inputs.{mail_got};
ghost use Rattle.cam_event.specs.Runs.{IsNode};
ghost use Rattle.cam_event.specs.Sights.{Entry};
ghost use Rattle.cam_own.specs.Own.{KeepsOwn};
ghost use Rattle.cam_own.specs.Replies.{IsNoCrash};
ghost use Rattle.cam_own.specs.Informed.{aborts_of, commits_of};
ghost use Rattle.cam_own.specs.AllNodes.{KeepsAllNodes};
ghost use Rattle.cam_rules.specs.Addressed.{AreAddressed};
ghost use Rattle.cam_timed.specs.Machine.{KeepsNode, KeepsShared, id_of, mail_of, trace_of};
ghost use Rattle.cam_timed.specs.Moments.{events};
ghost use Rattle.cam_timed.specs.Turns.{KeepsFirst, taken};

use super::deciding::{Decided, id_of, mail_of};
use super::posting::{Sender, post};
use super::{Node, Shared, Turn};
use crate::TimedEvent;
use crate::untils::note_named;
use cam_base::NoMemory;
use cam_event::{Deeds, Event};
use cam_own::{AllNodes, Own};
use cam_rules::Did;
use cam_type::Objects;
use std::alloc::Global;

/// Notes deeds of a node, none of which is a crash.
pub(crate) fn note_all(
    alloc: Global,
    objects: &Objects,
    own: &mut Own,
    all_nodes: &mut AllNodes,
    deeds: &Deeds,
) -> Result<(), NoMemory>
    requires { AllByRecursion IsNoCrash deeds.now }
    ensures own { OnOk result ((s : ℕ) (L : List DeedValue) (E : List Entry)
        → KeepsOwn objects.now s L E own.old
        → KeepsOwn objects.now s (after L deeds.now) E own.new) }
    ensures all_nodes { OnOk result ((L : List DeedValue) → KeepsAllNodes objects.now L all_nodes.old
        → KeepsAllNodes objects.now (after L deeds.now) all_nodes.new) }
{
    for deed in deeds.as_slice() {
        own.note(alloc, objects, deed)?;
        all_nodes.note(alloc, objects, deed)?;
    }
    Ok(())
}

/// The sender of the letters of the next event.
fn sender_of(node: u8, kept: &Node, shared: &Shared) -> Sender
    ensures event { result.event ≡ length shared.now.trace }
    ensures node { result.node ≡ node }
    ensures moment { result.moment ≡ kept.now.moment }
    ensures commits { (objects : List ObjectDecl) (s : ℕ) (L : List DeedValue) (E : List Entry)
        → KeepsOwn objects s L E kept.now.own → result.commits ≡ length (commits_of L s) }
    ensures aborts { (objects : List ObjectDecl) (s : ℕ) (L : List DeedValue) (E : List Entry)
        → KeepsOwn objects s L E kept.now.own → result.aborts ≡ length (aborts_of L s) }
{
    let informed = kept.own.informed();
    Sender {
        event: shared.trace.len() as u64,
        node,
        moment: kept.moment,
        commits: informed.commits.len(),
        aborts: informed.aborts.len(),
    }
}

/// Notes the event that was decided, after the first Informs.
pub(crate) fn take_over(
    turn: &Turn,
    node: &mut Node,
    shared: &mut Shared,
    first: Deeds,
    decided: Decided,
) -> Result<(), NoMemory>
    requires node { IsNode turn.now.node }
    requires first { KeepsFirst turn.now.objects.now (trace_of shared.old) turn.now.node first
        node.old shared.old }
    requires mail { mail_of turn.now.letter.now
        ≡ mail_got (events (trace_of shared.old)) (id_of turn.now.letter.now) }
    requires first_calm { AllByRecursion IsNoCrash first }
    requires calm { AllByRecursion IsNoCrash decided.did.deeds }
    requires nodes { AreAddressed decided.did.sent }
    ensures node { OnOk result (KeepsNode turn.now.objects.now
        (taken turn.now.node turn.now.letter.now first decided ∷ trace_of shared.old)
        turn.now.node node.new) }
    ensures shared { OnOk result (KeepsShared turn.now.objects.now
        (taken turn.now.node turn.now.letter.now first decided ∷ trace_of shared.old)
        shared.new) }
    ensures trace { OnOk result (trace_of shared.new
        ≡ taken turn.now.node turn.now.letter.now first decided ∷ trace_of shared.old) }
{
    note_all(
        turn.alloc,
        turn.objects,
        &mut node.own,
        &mut shared.all_nodes,
        &decided.did.deeds,
    )?;
    node.own
        .note_event(turn.alloc, &mail_of(turn.letter), &decided.did.note)?;
    node.moment = decided.moment;
    let sender = sender_of(turn.node, node, shared);
    post(&mut shared.letters, &sender, decided.did.sent.as_slice())?;
    let event = event_of(turn, first, decided)?;
    note_named(&mut shared.untils, &event.event.deeds, event.until)?;
    shared.trace.push(event)
}

/// The event that was decided.
fn event_of(turn: &Turn, first: Deeds, decided: Decided) -> Result<TimedEvent, NoMemory>
    ensures { IfOk result (λ event. event
        ≡ taken turn.now.node turn.now.letter.now first decided) }
{
    let Decided {
        did,
        moment,
        until,
        pause,
    } = decided;
    let Did { deeds, sent, note } = did;
    let mut all = first;
    all.extend_from_slice(deeds.as_slice())?;
    Ok(TimedEvent {
        event: Event {
            node: turn.node,
            got: id_of(turn.letter),
            deeds: all,
            sent,
            note,
        },
        moment,
        until,
        pause,
    })
}
