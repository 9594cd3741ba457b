//! What an input makes at its node, after the first Informs: the rule's deeds, letters and note,
//! unless the event pauses; its moment, and the quiesce moment that it gives.
ghost use Rattle.std.specs.Prelude.{◌≡◌, List, max, IfOk};
ghost use Rattle.std.specs.List.{AllByRecursion};
ghost use Rattle.std.specs.Option.{option_map_or};
ghost use Rattle.cam_own.specs.Replies.{IsNoCrash};
ghost use Rattle.cam_rules.specs.Addressed.{AreAddressed};
ghost use Rattle.cam_timed.specs.declared.TimedEvent.{TimedEvent};
ghost use Rattle.cam_timed.specs.Here.{input_of};
ghost use Rattle.cam_timed.specs.Machine.{id_of, mail_of, trace_of};
ghost use Rattle.cam_timed.specs.TimedRules.{moment_by, paused, pause_by, timed_next, until_given};
ghost use Rattle.cam_timed.specs.Turns.{AreFirst, IsTurn, KeepsFirst, taken};
ghost use Rattle.cam_timed.specs.Untils.{TellsUntils, until_in};

use super::{Letter, Node, Shared, Turn};
use crate::Pause;
use crate::here::Here;
use crate::pausing::pause_of;
use crate::ruled::{NodeInput, made};
use crate::untils::{Untils, until_of};
use cam_base::NoMemory;
use cam_event::{Deeds, LetterId, Note, Want};
use cam_own::Mail;
use cam_rules::Did;
use std::alloc::Global;

/// What was decided: what the event has after its first Informs, the moment of its node at it, the
/// quiesce moment that it gives, and why it paused.
#[derive(Drop)]
pub(crate) struct Decided {
    pub(crate) did: Did,
    pub(crate) moment: u64,
    pub(crate) until: u64,
    pub(crate) pause: Option<Pause>,
}

/// The name of a letter that comes.
pub(crate) fn id_of(letter: &Option<Letter>) -> Option<LetterId>
    ensures { result ≡ id_of letter.now }
{
    match letter {
        Some(letter) => Some(letter.id),
        None => None,
    }
}

/// What a letter that comes says.
pub(crate) fn mail_of(letter: &Option<Letter>) -> Option<Mail>
    ensures { result ≡ mail_of letter.now }
{
    match letter {
        Some(letter) => Some(letter.mail),
        None => None,
    }
}

/// The moment of a node at the event: its own, or the letter's if that is greater, or the one of
/// a tick.
fn moment_by(input: &NodeInput, own: u64, letter: &Option<Letter>) -> u64
    ensures { (t : List TimedEvent) → result ≡ moment_by t (input_of input.now)
        (max own (option_map_or (λ l. l.moment) letter.now 0)) }
{
    let now = match letter {
        Some(letter) => own.max(letter.moment),
        None => own,
    };
    match input {
        NodeInput::Tick { moment, .. } => *moment,
        _ => now,
    }
}

/// The quiesce moment that an input gives: that of its line, of a child the smaller of that and its
/// parent's.
fn until_given(input: &NodeInput, untils: &Untils) -> u64
    ensures { (t : List TimedEvent) → TellsUntils t untils.now
        → result ≡ until_given t (input_of input.now) }
{
    match input {
        NodeInput::Begin { until, .. } => *until,
        NodeInput::Request {
            action,
            want: Want::Ask(_),
            until,
        } => (*until).min(until_of(untils, action)),
        _ => 0,
    }
}

/// Why an event pauses, if it does: an arrival alone may.
fn pause_by(input: &NodeInput, untils: &Untils, now: u64, deeds: &Deeds) -> Option<Pause>
    ensures { result ≡ pause_by (until_in untils.now) now (input_of input.now) deeds.now }
{
    match input {
        NodeInput::Letter { .. } => pause_of(untils, now, deeds),
        _ => None,
    }
}

/// A paused event has its first Informs alone.
fn paused(alloc: Global, pause: &Option<Pause>, did: Did) -> Did
    ensures { result ≡ paused pause.now did }
{
    match pause {
        Some(_) => Did::nothing_but(alloc, &Note::Plain),
        None => did,
    }
}

/// What an input makes at its node.
pub(crate) fn decide(
    turn: &Turn,
    node: &Node,
    shared: &Shared,
    first: &Deeds,
) -> Result<Decided, NoMemory>
    requires turn { IsTurn turn.now.objects.now (trace_of shared.now) turn.now.node turn.now.input.now
        turn.now.letter.now }
    requires first { AreFirst (trace_of shared.now) turn.now.node turn.now.input.now first.now }
    requires keeps { KeepsFirst turn.now.objects.now (trace_of shared.now) turn.now.node first.now
        node.now shared.now }
    ensures event { IfOk result (λ decided.
        taken turn.now.node turn.now.letter.now first.now decided
        ≡ timed_next turn.now.objects.now (trace_of shared.now) (input_of turn.now.input.now)) }
    ensures calm { IfOk result (λ decided. AllByRecursion IsNoCrash decided.did.deeds) }
    ensures nodes { IfOk result (λ decided. AreAddressed decided.did.sent) }
{
    let here = Here {
        alloc: turn.alloc,
        objects: turn.objects,
        node: turn.node,
        own: &node.own,
        all_nodes: &shared.all_nodes,
        trace: &shared.trace,
        first,
    };
    let did = made(&here, turn.input, &mail_of(turn.letter))?;
    let moment = moment_by(turn.input, node.moment, turn.letter);
    let pause = pause_by(turn.input, &shared.untils, moment, &did.deeds);
    Ok(Decided {
        did: paused(turn.alloc, &pause, did),
        moment,
        until: until_given(turn.input, &shared.untils),
        pause,
    })
}
