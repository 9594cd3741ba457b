//! The view of a run by names.
ghost use Rattle.std.specs.Prelude.{◌≡◌, IfOk, map};
ghost use Rattle.cam_scope.specs.Made.{is_started, made};
ghost use Rattle.cam_scope.specs.Numbers.{letter_number};

use crate::events::{NamedEvents, name_events};
use crate::letters::NamedLetters;
use crate::names::Names;
use crate::source::Lines;
use crate::walk::Walk;
use cam_base::{NoMemory, Sequence};
use cam_event::{LetterId, RunRecord};
use cam_names::Name;
use cam_script::Script;
use std::alloc::Global;
use std::collections::{BTreeMap, BTreeSet};

/// A run by names.
#[derive(Drop)]
pub struct Scope {
    /// The words of its actions.
    pub names: Names,
    /// Its events, in order.
    pub events: NamedEvents,
    /// Its letters, in order of sending.
    pub letters: NamedLetters,
    made: BTreeMap<u32, Name>,
    started: BTreeSet<Name>,
}

/// The view of a script's run by names. The source is the bytes from which the script was parsed.
pub fn scope_of(
    alloc: Global,
    source: &Lines<'_>,
    script: &Script,
    run: &RunRecord,
) -> Result<Scope, NoMemory>
    ensures events { IfOk result
        (λ scope. map (λ e. e.node) scope.events ≡ map (λ e. e.node) run.now.trace) }
{
    let mut walk = Walk::new(alloc, run)?;
    walk.take_all(run, source, &script.steps)?;
    let events = name_events(alloc, &run.trace, &walk.post, &walk.lines)?;
    let Walk {
        variables,
        post,
        made,
        started,
        ..
    } = walk;
    Ok(Scope {
        names: Names::of(alloc, variables, &run.trace)?,
        events,
        letters: Sequence::from_vec(post.into_letters()),
        made,
        started,
    })
}

impl Scope {
    /// The action that a step made, by the step's place in the script; none where its line was
    /// refused.
    pub fn made(&self, step: u32) -> Option<Name>
        ensures { result ≡ made self.now step }
    {
        self.made.get(&step).copied()
    }

    /// Whether a top action was begun by a `start` line, and so works at a body.
    pub fn is_started(&self, top: &Name) -> bool
        ensures { result ≡ is_started self.now top.now }
    {
        self.started.contains(top)
    }

    /// The number of a letter, from 1, in order of sending.
    pub fn number_of(&self, letter: LetterId) -> usize
        ensures { result ≡ letter_number self.now.events letter }
    {
        let event = usize::try_from(letter.event).unwrap_or(usize::MAX);
        match self.events.get(event) {
            Some(event) => event
                .sent_before
                .saturating_add(letter.place as usize)
                .saturating_add(1),
            None => 0,
        }
    }
}
