//! What a node knows and has noted.
//!
//! A step learns first, and its tests go by what is known then. So that it leaves the node as it was where it finds no memory later, a mark
//! says how much stands meanwhile; it is taken away when the event stands. What stands after a mark that was left is forgotten when the next
//! event begins: only a step after one that failed costs what is known.
ghost use Rattle.std.specs.Prelude.{◌≡◌, ◌≤◌, true, Some, length, take, IfOk, OnOk};
ghost use Rattle.std.specs.List.{list_any};
ghost use Rattle.cam_names.specs.Dependencies.{AreCounts};
ghost use Rattle.cam_know.specs.Known.{nothing, news, with_outcome};
ghost use Rattle.cam_event.specs.Loads.{no_places, noted_at, with_load};
ghost use Rattle.cam_comman.specs.Letters.{load_on, IsWithin};
ghost use Rattle.cam_commit.specs.Calls.{is_decided};
ghost use Rattle.cam_node.specs.Knowing.{standing, is_outcome_of, IsMark};
ghost use Rattle.cam_node.specs.Opened.{IsKnowledge};

use cam_base::{NoMemory, Sequence};
use cam_comman::{Places, arrive};
use cam_event::Letter;
use cam_know::{Know, Outcome};
use cam_names::Name;
use std::alloc::Global;
use std::marker::Model;

/// How much of what is known stands: the first outcomes, as many as this, and these counts.
#[derive(Clone, Copy)]
pub(crate) struct Mark {
    outcomes: usize,
    counts: [u32; 8],
}

/// What a node knows and has noted. Seen as what is known, what of it stands, and what is noted.
#[derive(Drop)]
pub(crate) struct Knowing {
    know: Know,
    /// None: all that is known stands.
    mark: Option<Mark>,
    places: Places,
}

impl Model for Knowing {
    ghost use Rattle.cam_node.specs.Knowing.{KnowingView, IsKnowing, standing};

    ghost Value = { KnowingView };

    ghost view = { λ k. record { known = k.know; stands = standing k.mark k.know; places = k.places } };

    ghost invariant = { λ k. IsKnowing k.mark k.know k.places };
}

/// What a letter brought: the outcomes that were not known, with all counts, and what is noted with it.
#[derive(Drop)]
pub(crate) struct Heard {
    pub(crate) news: Know,
    pub(crate) places: Places,
}

/// What stands of what is known.
fn first_of(alloc: Global, know: &Know, mark: &Mark) -> Result<Know, NoMemory>
    requires { IsMark (Some mark.now) know.now }
    ensures { IfOk result (λ first. first ≡ standing (Some mark.now) know.now) }
{
    let mut outcomes: Vec<Outcome> = Vec::new(alloc);
    outcomes.extend_from_slice(&know.outcomes()[..mark.outcomes])?;
    Know::of(alloc, Sequence::from_vec(outcomes), mark.counts)
}

/// Whether an outcome of an action, which is among these, is among the first of them.
fn stands_among(outcomes: &[Outcome], first: usize, name: &Name) -> bool
    requires first { first ≤ length outcomes.now }
    requires known { list_any (is_outcome_of name.now) outcomes.now ≡ true }
    ensures { result ≡ list_any (is_outcome_of name.now) (take first outcomes.now) }
{
    let (stand, behind) = outcomes.split_at(first);
    !tell_of(behind, name) || tell_of(stand, name)
}

/// Whether these outcomes tell how an action ended.
fn tell_of(outcomes: &[Outcome], name: &Name) -> bool
    ensures { result ≡ list_any (is_outcome_of name.now) outcomes.now }
{
    for outcome in outcomes {
        if is_of(outcome, name) {
            return true;
        }
    }
    false
}

/// Whether an outcome is that of an action.
fn is_of(outcome: &Outcome, name: &Name) -> bool
    ensures { result ≡ is_outcome_of name.now outcome.now }
{
    match outcome {
        Outcome::Aborted(ended) | Outcome::Committed(ended, _) => name == ended,
    }
}

impl Knowing {
    /// Nothing is known, and nothing noted.
    pub(crate) fn new(alloc: Global) -> Knowing
        ensures { result ≡ record { known = nothing; stands = nothing; places = no_places } }
    {
        Knowing {
            know: Know::new(alloc),
            mark: None,
            places: Places::new(),
        }
    }

    /// This is known, and all of it stands; nothing is noted.
    pub(crate) fn of(know: Know) -> Knowing
        ensures { result ≡ record { known = know; stands = know; places = no_places } }
    {
        Knowing {
            know,
            mark: None,
            places: Places::new(),
        }
    }

    /// Only for the proof: in what stands no outcome stands twice, and its counts are eight.
    pub(crate) fn is_knowledge(&self)
        ensures { IsKnowledge self.now.stands }
    {
        let _outcomes = self.know.outcomes();
        let _counts = self.know.counts();
    }

    /// How many outcomes stand.
    pub(crate) fn len(&self) -> u64
        ensures { result ≡ length self.now.stands.outcomes }
    {
        match self.mark {
            Some(mark) => mark.outcomes as u64,
            None => self.know.len(),
        }
    }

    /// The counts of what stands.
    pub(crate) fn counts(&self) -> [u32; 8]
        ensures value { result ≡ self.now.stands.counts }
        ensures range { AreCounts 1 result }
    {
        match self.mark {
            Some(mark) => mark.counts,
            None => self.know.counts(),
        }
    }

    /// What is known now.
    pub(crate) fn know(&self) -> &Know
        ensures { result.now ≡ self.now.known }
    {
        &self.know
    }

    /// Whether what stands tells how an action ended. It takes no memory, and costs a look-up, and what a step that failed has learnt; where
    /// that step has learnt an outcome of this very action, what stands is looked through.
    pub(crate) fn tells(&self, name: &Name) -> bool
        ensures { result ≡ is_decided self.now.stands name.now }
    {
        match self.mark {
            None => self.knows(name),
            Some(mark) => {
                self.knows(name) && stands_among(self.know.outcomes(), mark.outcomes, name)
            }
        }
    }

    /// Whether it is known how an action ended.
    fn knows(&self, name: &Name) -> bool
        ensures { result ≡ list_any (is_outcome_of name.now) self.now.known.outcomes }
    {
        self.know.is_committed(name) || self.know.is_aborted(name)
    }

    /// What is noted of the other nodes. No more is noted as acknowledged than the list has that stands.
    pub(crate) fn places(&self) -> &Places
        ensures value { result.now ≡ self.now.places }
        ensures within { IsWithin self.now.stands self.now.places }
    {
        &self.places
    }

    /// Forgets what does not stand. It costs nothing where all stands. What stands is the same, whether there was memory or not.
    pub(crate) fn settle(&mut self, alloc: Global) -> Result<(), NoMemory>
        ensures stands { self.new.stands ≡ self.old.stands }
        ensures places { self.new.places ≡ self.old.places }
        ensures ok { OnOk result (self.new.known ≡ self.old.stands) }
    {
        let Some(mark) = self.mark else {
            return Ok(());
        };
        self.know = first_of(alloc, &self.know, &mark)?;
        self.mark = None;
        Ok(())
    }

    /// A letter of a node, 1 to 8, comes, where all that is known stands. What it tells is known then, and stands when its event does.
    pub(crate) fn hear(&mut self, letter: &Letter) -> Result<Heard, NoMemory>
        requires from { (1 ≤ letter.now.from) × (letter.now.from ≤ 8) }
        requires settled { self.old.known ≡ self.old.stands }
        ensures stands { self.new.stands ≡ self.old.stands }
        ensures places { self.new.places ≡ self.old.places }
        ensures known { OnOk result (self.new.known ≡ with_load self.old.stands (load_on letter.now)) }
        ensures news { IfOk result (λ heard. heard.news ≡ news self.new.known self.old.stands) }
        ensures noted { IfOk result (λ heard. heard.places ≡ noted_at letter.now.to
            (length self.new.known.outcomes) self.old.places letter.now.from (load_on letter.now)) }
        ensures within { IfOk result (λ heard. IsWithin self.new.known heard.places) }
    {
        let mut places = self.places;
        self.mark = Some(self.whole());
        let news = arrive(&mut self.know, &mut places, letter)?;
        Ok(Heard { news, places })
    }

    /// The node decides this in the event that is planned. It is known then, and stands when the event does.
    pub(crate) fn decide(&mut self, outcome: &Outcome) -> Result<(), NoMemory>
        ensures stands { self.new.stands ≡ self.old.stands }
        ensures places { self.new.places ≡ self.old.places }
        ensures known { OnOk result (self.new.known ≡ with_outcome outcome.now self.old.known) }
    {
        if self.mark.is_none() {
            self.mark = Some(self.whole());
        }
        self.know.add(outcome)
    }

    /// The mark that says that all stands.
    fn whole(&self) -> Mark
        ensures all { standing (Some result) self.now.known ≡ self.now.known }
        ensures mark { IsMark (Some result) self.now.known }
    {
        Mark {
            outcomes: self.know.outcomes().len(),
            counts: self.know.counts(),
        }
    }

    /// All that is known stands, and this is noted. It takes no memory.
    pub(crate) fn stand(&mut self, places: &Places)
        requires { IsWithin self.old.known places.now }
        ensures { self.new ≡ record { known = self.old.known; stands = self.old.known; places = places.now } }
    {
        self.mark = None;
        self.places = *places;
    }
}
