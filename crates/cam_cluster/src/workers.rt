//! The actions that work at a body: which body, what each has seen so far, what it does next by them, and which may still do something.
//!
//! A body that is given to an action is kept at once; `catch_up` then puts it into the table of names, and takes in the events that
//! are new, each once. The views of all actions are kept, so the one of a new worker needs nothing more. Who comes into the table plays
//! on until a round finds that it is over: an action that is over stays so.
ghost use Rattle.std.specs.Prelude.{◌≡◌, ◌≤◌, ◌<◌, IfOk, None, OnOk, Some, filter, length, option_and_then, reverse, slice_get, true, unwrap_or, vec_capacity, vec_len};
ghost use Rattle.std.specs.BTreeMap.{get};
ghost use Rattle.std.specs.List.{list_any};
ghost use Rattle.cam_names.specs.Names.{name_cmp};
ghost use Rattle.cam_runs.specs.HaltedPlaying.{given_body};
ghost use Rattle.cam_runs.specs.Playing.{body_number, in_order, is_stop_of};
ghost use Rattle.cam_runs.specs.Standing.{Standing, start};
ghost use Rattle.cam_cluster.specs.ActionViews.{OthersChangeNoView, ViewsGoOn};
ghost use Rattle.cam_cluster.specs.Over.{is_over};
ghost use Rattle.cam_cluster.specs.Workers.{AllWork, AreWorkers, HaveCaughtUp, IsGiven, IsIntention, plays_on};

use crate::room::{push_reserved, reserve_one};
use crate::views::ActionViews;
use cam_base::{NoMemory, Sequence};
use cam_body::{Next, child_body, next_request};
use cam_event::{Event, View};
use cam_names::Name;
use cam_script::{Bodies, BodyText};
use std::alloc::Global;
use std::collections::{BTreeMap, BTreeSet};

/// What an action does next by its body, and the body of the child for which it asks.
#[derive(Clone, Copy, Debug)]
pub(crate) struct Intention {
    pub(crate) next: Next,
    pub(crate) child: Option<u8>,
}

/// The actions that work at a body.
#[derive(Drop)]
pub(crate) struct Workers {
    alloc: Global,
    /// The bodies that were given, in order, each with its action.
    pub(crate) given: Vec<(Name, u8)>,
    /// How many of them are in the table.
    pub(crate) placed: usize,
    /// Which body an action works at.
    pub(crate) bodies: BTreeMap<Name, u8>,
    /// Which actions of the table play on: all others are over, and make no request any more.
    pub(crate) playing: BTreeSet<Name>,
    /// What the actions have seen in the first events.
    pub(crate) seen: ActionViews,
    /// How many events are taken in.
    pub(crate) events: usize,
}

impl Workers {
    /// No action works at a body, and no event is taken in. It takes no memory.
    pub(crate) fn new(alloc: Global) -> Workers
        ensures { AreWorkers start result }
    {
        Workers {
            alloc,
            given: Vec::new(alloc),
            placed: 0,
            bodies: BTreeMap::new(alloc),
            playing: BTreeSet::new(alloc),
            seen: ActionViews::new(alloc),
            events: 0,
        }
    }

    /// Makes room for one more body.
    pub(crate) fn reserve(&mut self) -> Result<(), NoMemory>
        ensures room { OnOk result (vec_len self.new.given < vec_capacity self.new.given) }
        ensures stay { (st : Standing) → AreWorkers st self.old → AreWorkers st self.new }
        ensures caught_up { (st : Standing) → HaveCaughtUp st self.old → HaveCaughtUp st self.new }
    {
        reserve_one(&mut self.given)
    }

    /// An action that has no body is given one. There has to be room.
    pub(crate) fn give(&mut self, name: &Name, body: u8)
        requires { vec_len self.old.given < vec_capacity self.old.given }
        ensures { (st : Standing) → AreWorkers st self.old
            → body_number st.running.bodies name.now ≡ None
            → AreWorkers (given_body (Some body) (Some name.now) st) self.new }
    {
        push_reserved(&mut self.given, &(*name, body));
    }

    /// Puts the bodies into the table that are not in it. Each of their actions plays on.
    fn place(&mut self) -> Result<(), NoMemory>
        ensures stay { (st : Standing) → AreWorkers st self.old → AreWorkers st self.new }
        ensures all { OnOk result ((st : Standing) → AreWorkers st self.old
            → self.new.placed ≡ length st.running.bodies) }
        ensures seen { (self.new.seen ≡ self.old.seen) × (self.new.events ≡ self.old.events) }
    {
        while self.placed < self.given.len() {
            let (name, body) = self.given[self.placed];
            self.playing.insert(name)?;
            self.bodies.insert(name, body)?;
            self.placed += 1;
        }
        Ok(())
    }

    /// Takes in the events that are not taken in. If memory runs out, none is taken in any more: the next `catch_up` takes in them
    /// all.
    fn take_in(&mut self, events: &[Event]) -> Result<(), NoMemory>
        requires { self.old.events ≤ length events.now }
        ensures stay { (st : Standing) → events.now ≡ reverse st.running.trace
            → AreWorkers st self.old → AreWorkers st self.new }
        ensures all { OnOk result (self.new.events ≡ length events.now) }
        ensures placed { OnOk result (self.new.placed ≡ self.old.placed) }
    {
        match self.seen.take_events(&events[self.events..]) {
            Ok(()) => {
                self.events = events.len();
                Ok(())
            }
            Err(fault) => {
                self.forget();
                Err(fault)
            }
        }
    }

    /// No event is taken in any more, and the table has no body: the next `catch_up` takes in them all, and each action plays on until it
    /// is found to be over again. It is for events of which one came to stand before others, as where a restart finds one that was taken.
    pub(crate) fn forget(&mut self)
        ensures given { (st : Standing) → IsGiven st.running.bodies self.old
            → AreWorkers st self.new }
    {
        self.placed = 0;
        self.bodies = BTreeMap::new(self.alloc);
        self.playing = BTreeSet::new(self.alloc);
        self.seen = ActionViews::new(self.alloc);
        self.events = 0;
    }

    /// Takes in what is new: the bodies that were given, and the events, each once. It costs the work that is new: look-ups by name
    /// for each deed and each body.
    pub(crate) fn catch_up(&mut self, events: &[Event]) -> Result<(), NoMemory>
        requires { self.old.events ≤ length events.now }
        ensures stay { (st : Standing) → events.now ≡ reverse st.running.trace
            → AreWorkers st self.old → AreWorkers st self.new }
        ensures caught_up { OnOk result ((st : Standing) → events.now ≡ reverse st.running.trace
            → AreWorkers st self.old → HaveCaughtUp st self.new) }
    {
        self.place()?;
        self.take_in(events)
    }

    /// The names of the actions that play on, in order: those that work at a body, but for some that are over.
    pub(crate) fn names(&self) -> Result<Sequence<Name>, NoMemory>
        ensures { IfOk result (λ names. (st : Standing) → HaveCaughtUp st self.now
            → names ≡ filter (plays_on self.now) (in_order st.running.bodies)) }
    {
        let mut names = Sequence::new(self.alloc);
        for name in self.playing.iter() {
            names.push_copy(name)?;
        }
        Ok(names)
    }

    /// An action that is over does not play on.
    pub(crate) fn pass_over(&mut self, name: &Name)
        ensures { (st : Standing) → AreWorkers st self.old
            → is_over st.running.trace name.now ≡ true → AreWorkers st self.new }
    {
        self.playing.remove(name);
    }

    /// Whether an event stopped an action at its home.
    pub(crate) fn was_stopped(&self, name: &Name) -> bool
        ensures { (st : Standing) → HaveCaughtUp st self.now
            → result ≡ list_any (is_stop_of name.now) st.running.trace }
    {
        self.seen.stopped.contains(name)
    }

    /// The body at which an action works; the idle one where it works at none.
    fn body_of<'a>(&self, name: &Name, bodies: &'a Bodies, idle: &'a BodyText) -> &'a BodyText
        ensures { result.now ≡ unwrap_or (option_and_then (λ n. slice_get bodies.now n)
            (get name_cmp self.now.bodies name.now)) idle.now }
    {
        match self.bodies.get(name) {
            Some(number) => match bodies.get(*number as usize) {
                Some(body) => body,
                None => idle,
            },
            None => idle,
        }
    }

    /// What an action does next by its body and its view, with the bodies of the script. An action without a body does nothing.
    pub(crate) fn intention(&self, name: &Name, bodies: &Bodies) -> Intention
        ensures { (st : Standing) → HaveCaughtUp st self.now
            → IsIntention bodies.now st name.now result }
    {
        let unseen = View::new(self.alloc);
        let idle = BodyText::new(self.alloc);
        let view = self.seen.view_of(name, &unseen);
        let body = self.body_of(name, bodies, &idle);
        Intention {
            next: next_request(body, view),
            child: child_body(body, view),
        }
    }
}

/// Workers that have caught up are in order of names, and each of them is an action with a body, with what it has seen.
fn all_work()
    ensures { AllWork }
{}

/// What an event adds to views: its steps after those before, and nothing to the view of an action that it does not concern.
fn views_go_on()
    ensures steps { ViewsGoOn }
    ensures others { OthersChangeNoView }
{}
