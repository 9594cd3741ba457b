//! What the rule of an input makes at a node in a run by time, by tables.
ghost use Rattle.std.specs.Prelude.{◌≡◌, reverse, IfOk};
ghost use Rattle.cam_timed.specs.Moments.{events};
ghost use Rattle.cam_timed.specs.Here.{ComesFromNode, HasPlaceHere, StandHere, input_of};
ghost use Rattle.cam_timed.specs.KeptSights.{kept_sight};
ghost use Rattle.cam_timed.specs.TimedRules.{timed_rule};

use crate::here::Here;
use cam_base::NoMemory;
use cam_event::{LetterId, Note, Want};
use cam_names::Name;
use cam_own::Mail;
use cam_rules::{Did, abort_family, arrive, begin, query, request, tell};

/// What a node is given: an input without time, with the quiesce moment that a begin or an ask
/// gives; a moment; the end of a top action.
#[derive(Clone, Copy)]
pub(crate) enum NodeInput {
    Begin {
        node: u8,
        until: u64,
    },
    Request {
        action: Name,
        want: Want,
        until: u64,
    },
    Letter {
        id: LetterId,
    },
    Tell {
        node: u8,
        to: u8,
    },
    Query {
        node: u8,
        family: Name,
    },
    Tick {
        node: u8,
        moment: u64,
    },
    Expire {
        action: Name,
    },
}

/// What the rule makes, if this letter came.
pub(crate) fn made(here: &Here, input: &NodeInput, mail: &Option<Mail>) -> Result<Did, NoMemory>
    requires stands { StandHere here.now.objects.now (events (reverse here.now.trace.now))
        here.now.node here.now.first.now here.now.own.now here.now.all_nodes.now }
    requires from { ComesFromNode mail.now }
    requires place { HasPlaceHere here.now.objects.now input.now }
    ensures { IfOk result (λ did. did ≡ timed_rule here.now.objects.now
        (kept_sight here.now.objects.now (events (reverse here.now.trace.now)) here.now.node
        here.now.first.now) mail.now (input_of input.now)) }
{
    match input {
        NodeInput::Begin { .. } => begin(here.alloc, here),
        NodeInput::Request { action, want, .. } => {
            request(here.alloc, here, here.objects, action, want)
        }
        NodeInput::Letter { .. } => match mail {
            Some(mail) => arrive(here.alloc, here, here.objects, mail.from, &mail.body),
            None => Ok(Did::nothing_but(here.alloc, &Note::Plain)),
        },
        NodeInput::Tell { to, .. } => tell(here.alloc, *to),
        NodeInput::Query { family, .. } => query(here.alloc, family),
        NodeInput::Tick { .. } => Ok(Did::nothing_but(here.alloc, &Note::Plain)),
        NodeInput::Expire { action } => abort_family(here.alloc, here, action),
    }
}
