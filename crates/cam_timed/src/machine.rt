//! The machine of runs by time: what it keeps of nodes, letters and the whole run in tables, and
//! the event that it makes of an input.
ghost use Rattle.std.specs.Prelude.{◌≡◌, ◌<◌, ◌∷◌, [], List, length, reverse, None, Some, IfOk, OnOk, slice_get};
ghost use Rattle.cam_type.specs.declared.ObjectDecl.{ObjectDecl};
ghost use Rattle.cam_event.specs.declared.LetterId.{LetterId as LetterIdFields};
ghost use Rattle.cam_event.specs.Inputs.{Receives};
ghost use Rattle.cam_event.specs.Runs.{IsNode};
ghost use Rattle.cam_timed.specs.declared.TimedEvent.{TimedEvent as TimedEventFields};
ghost use Rattle.cam_timed.specs.Here.{input_of};
ghost use Rattle.cam_timed.specs.Machine.{KeepsTimedRun, run_of};
ghost use Rattle.cam_timed.specs.TimedRules.{WithoutTime, timed_got_of, timed_next, timed_node_of};
ghost use Rattle.cam_timed.specs.TimedRunning.{letters};
ghost use Rattle.cam_timed.specs.TimedRuns.{TimedMayCome};
ghost use Rattle.cam_timed.specs.TimedScripts.{named_in, newest_deeds};
ghost use Rattle.cam_timed.specs.Turns.{AreFirst, IsTurn};

mod deciding;
mod hearing;
mod posting;
mod refusals;
mod stepping;
mod taking;

use crate::TimedTrace;
use crate::ruled::NodeInput;
use crate::untils::Untils;
use cam_base::{NoMemory, Sequence};
use cam_event::{Deed, Deeds, LetterId};
use cam_names::Name;
use cam_own::{AllNodes, Mail, Own, first_informs};
use cam_rules::home_of;
use cam_type::Objects;
use hearing::{Heard, hear, reach_in, unheard};
use std::alloc::Global;
use stepping::step;

/// What is kept of a node: the tables of its own deeds and events, and its moment.
#[derive(Drop)]
pub(crate) struct Node {
    pub(crate) own: Own,
    pub(crate) moment: u64,
}

/// A letter that was sent, the moment of its sender then, and of how many commits and aborts that
/// it brings the sender was informed then.
#[derive(Clone, Copy)]
pub(crate) struct Letter {
    pub(crate) id: LetterId,
    pub(crate) mail: Mail,
    pub(crate) moment: u64,
    pub(crate) commits: usize,
    pub(crate) aborts: usize,
}

/// What is kept of all nodes together: tables of their deeds, the quiesce moments, the letters in
/// order of their numbers, and the events.
#[derive(Drop)]
pub(crate) struct Shared {
    pub(crate) all_nodes: AllNodes,
    pub(crate) untils: Untils,
    pub(crate) letters: Sequence<Letter>,
    pub(crate) trace: TimedTrace,
}

/// A run by time under way: the eight nodes in order, up to where each has heard of what each other
/// was informed of, and what is kept of all.
#[derive(Drop)]
pub(crate) struct Machine {
    alloc: Global,
    nodes: Vec<Node>,
    heard: Heard,
    shared: Shared,
}

/// An input that is given to a node, with the letter that it hands over.
#[derive(Clone, Copy)]
pub(crate) struct Turn<'a> {
    pub(crate) alloc: Global,
    pub(crate) objects: &'a Objects,
    pub(crate) node: u8,
    pub(crate) input: &'a NodeInput,
    pub(crate) letter: &'a Option<Letter>,
}

impl Machine {
    /// Nothing has happened.
    pub(crate) fn new(alloc: Global) -> Result<Machine, NoMemory>
        ensures { IfOk result (λ machine. (objects : List ObjectDecl)
            → KeepsTimedRun objects [] machine) }
    {
        let mut nodes = Vec::new(alloc);
        for place in 0..8 {
            nodes.push(Node {
                own: Own::new(alloc, place + 1),
                moment: 0,
            })?;
        }
        Ok(Machine {
            alloc,
            nodes,
            heard: Heard::new(alloc),
            shared: Shared {
                all_nodes: AllNodes::new(alloc),
                untils: Untils::new(alloc),
                letters: Sequence::new(alloc),
                trace: TimedTrace::new(alloc),
            },
        })
    }

    /// Makes the event of an input that is no letter.
    pub(crate) fn step(&mut self, objects: &Objects, input: &NodeInput) -> Result<(), NoMemory>
        requires keeps { KeepsTimedRun objects.now (run_of self.old) self.old }
        requires may { TimedMayCome objects.now (run_of self.old) (input_of input.now) }
        requires line { timed_got_of (input_of input.now) ≡ None }
        ensures { OnOk result (KeepsTimedRun objects.now
            (timed_next objects.now (run_of self.old) (input_of input.now) ∷ run_of self.old)
            self.new) }
    {
        let none = None;
        let turn = Turn {
            alloc: self.alloc,
            objects,
            node: node_of(input),
            input,
            letter: &none,
        };
        self.take(&turn)
    }

    /// Makes the event of the arrival of the letter at this place, counted from 0.
    pub(crate) fn deliver(&mut self, objects: &Objects, place: usize) -> Result<(), NoMemory>
        requires keeps { KeepsTimedRun objects.now (run_of self.old) self.old }
        requires place { place < length (letters (run_of self.old)) }
        ensures { OnOk result ((letter : LetterIdFields)
            → slice_get (letters (run_of self.old)) place ≡ Some letter
            → KeepsTimedRun objects.now
            (timed_next objects.now (run_of self.old) (WithoutTime (Receives letter) 0) ∷ run_of self.old)
            self.new) }
    {
        let letter = self.shared.letters.as_slice()[place];
        let input = NodeInput::Letter { id: letter.id };
        let node = letter.mail.to;
        let comes = Some(letter);
        let turn = Turn {
            alloc: self.alloc,
            objects,
            node,
            input: &input,
            letter: &comes,
        };
        self.take(&turn)
    }

    /// A node takes a turn.
    fn take(&mut self, turn: &Turn) -> Result<(), NoMemory>
        requires keeps { KeepsTimedRun turn.now.objects.now (run_of self.old) self.old }
        requires turn { IsTurn turn.now.objects.now (run_of self.old) turn.now.node turn.now.input.now
            turn.now.letter.now }
        ensures { OnOk result (KeepsTimedRun turn.now.objects.now
            (timed_next turn.now.objects.now (run_of self.old) (input_of turn.now.input.now)
            ∷ run_of self.old) self.new) }
    {
        let first = self.first_informs(turn)?;
        let place = turn.node as usize - 1;
        step(turn, &mut self.nodes[place], &mut self.shared, first)?;
        hear(&mut self.heard, turn.node, turn.letter)
    }

    /// The first Informs of a turn: of the outcomes of which the letter's sender was informed when
    /// it sent the letter, and the node was not. It looks at those alone of which the node has not
    /// heard from that sender before.
    fn first_informs(&self, turn: &Turn) -> Result<Deeds, NoMemory>
        requires keeps { KeepsTimedRun turn.now.objects.now (run_of self.now) self.now }
        requires turn { IsTurn turn.now.objects.now (run_of self.now) turn.now.node turn.now.input.now
            turn.now.letter.now }
        ensures { IfOk result (AreFirst (run_of self.now) turn.now.node turn.now.input.now) }
    {
        let Some(letter) = turn.letter else {
            return Ok(Deeds::new(turn.alloc));
        };
        let from = letter.mail.from;
        let heard = reach_in(&self.heard, from, turn.node);
        let informed = self.nodes[from as usize - 1].own.informed();
        first_informs(
            turn.alloc,
            &self.nodes[turn.node as usize - 1].own,
            unheard(informed.aborts.as_slice(), heard.aborts, letter.aborts),
            unheard(informed.commits.as_slice(), heard.commits, letter.commits),
        )
    }

    /// How many letters were sent.
    pub(crate) fn letter_count(&self) -> usize
        ensures { (objects : List ObjectDecl) (t : List TimedEventFields)
            → KeepsTimedRun objects t self.now → result ≡ length (letters t) }
    {
        self.shared.letters.len()
    }

    /// The action that the newest event named first, if it did.
    pub(crate) fn named(&self) -> Option<Name>
        ensures { result ≡ named_in (newest_deeds (run_of self.now)) }
    {
        let deeds = &self.shared.trace.as_slice().last()?.event.deeds;
        match deeds.as_slice().first()? {
            Deed::Create { action } => Some(*action),
            Deed::Ask { child, .. } => Some(*child),
            _ => None,
        }
    }

    /// The events, the oldest first.
    pub(crate) fn into_trace(self) -> TimedTrace
        ensures { reverse result ≡ run_of self }
    {
        let Machine { shared, .. } = self;
        let Shared { trace, .. } = shared;
        trace
    }
}

/// The node of an input that is no letter.
fn node_of(input: &NodeInput) -> u8
    ensures value { (t : List TimedEventFields) → timed_got_of (input_of input.now) ≡ None
        → timed_node_of t (input_of input.now) ≡ result }
    ensures range { (objects : List ObjectDecl) (t : List TimedEventFields)
        → TimedMayCome objects t (input_of input.now) → timed_got_of (input_of input.now) ≡ None
        → IsNode result }
{
    match input {
        NodeInput::Begin { node, .. }
        | NodeInput::Tell { node, .. }
        | NodeInput::Query { node, .. }
        | NodeInput::Tick { node, .. } => *node,
        NodeInput::Request { action, .. } | NodeInput::Expire { action } => home_of(action),
        NodeInput::Letter { .. } => 0,
    }
}
