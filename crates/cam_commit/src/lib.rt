//! Two-phase commit: the families that a node prepares as their home, with the votes for them, and
//! those that it has secured as a site.
//!
//! Each call is one rule: `vote` counts a vote, `asked` answers a home that prepares a family,
//! `query` answers a site that asks about one. What a family depends on is an argument of `vote`, since
//! the actions' layer keeps it. `reserve` makes all growth before a step; what follows takes no
//! memory. It keeps tables of hashes, so a call costs some look-ups and not what is kept.
//!
//! Its law: after each event of a node the families answer as the node's history does
//! (`one_more_event`, `one_more_call`, `one_more_step`), and after a restart too (`after_restart`).
//! It uses `cam_event` (histories and rules) and `cam_know` (knowledge).
#![tactic(auto)]

ghost use Rattle.std.specs.Prelude.{◌≡◌, ◌≤◌, false, IfOk, IsOk, OnOk};
ghost use Rattle.cam_commit.specs.Calls.{yes, answers, has_with, is_last, AreNone, IsEnded, IsNoted};
ghost use Rattle.cam_commit.specs.Calls.{AreSame, IsPrepared, IsSecured, IsVotedIn, voted_in, asked_of};
ghost use Rattle.cam_commit.specs.Calls.{queried_of};
ghost use Rattle.cam_commit.specs.Events.{families_of, AreRecovered};

mod laws;

use cam_base::NoMemory;
use cam_know::Know;
use cam_names::{Deps, Name};
use cam_type::Held;
pub use laws::{
    after_restart, calls_are_rules, kinds_of_steps, one_more_call, one_more_event, one_more_step,
};
use std::alloc::Global;
use std::collections::HashSet;

/// What a vote makes of its family at its home.
#[derive(Clone, Copy, Debug, PartialEq, Eq)]
pub enum Voted {
    /// Each node on which the family depends has voted yes: it commits.
    All,
    /// The vote was yes, and others are awaited.
    Some,
    /// The vote was no: the family aborts.
    No,
    /// The family is not preparing, or a vote has decided it.
    Late,
}

/// What a site answers a home that prepares a family.
#[derive(Clone, Copy, Debug, PartialEq, Eq)]
pub enum Asked {
    /// The site secures the family and votes yes.
    Secure,
    /// It has secured the family before, and votes yes again.
    AlreadyYes,
    /// It has crashed since the family's calls, and votes no.
    Refuse,
    /// It knows how the family ended.
    Late,
}

/// What a home answers a site that asks after a family.
#[derive(Clone, Copy, Debug, PartialEq, Eq)]
pub enum Queried {
    /// It tells how the family ended.
    Tell,
    /// It has crashed since the family began: the family aborts.
    Abort,
    /// The family is open.
    StillOpen,
}

/// A vote yes: of a node at a count, for a family.
#[derive(Clone, Copy, PartialEq, Eq, Hash)]
pub(crate) struct Yes {
    family: Name,
    node: u8,
    count: u32,
}

/// The families that a node is committing: those that it prepares, with their votes, and those that
/// it has secured.
#[derive(Drop)]
pub struct Families {
    preparing: HashSet<Name>,
    votes: HashSet<Yes>,
    secured: HashSet<Name>,
}

impl Families {
    /// No family is preparing, and none is secured.
    pub fn new(alloc: Global) -> Families
        ensures { AreNone (answers result) }
    {
        Families {
            preparing: HashSet::new(alloc),
            votes: HashSet::new(alloc),
            secured: HashSet::new(alloc),
        }
    }

    /// What a log recovered: these families are secured, and none is preparing.
    pub fn of(alloc: Global, held: &[Held]) -> Result<Families, NoMemory>
        ensures { IfOk result (λ families. AreRecovered (families_of held.now) (answers families)) }
    {
        let mut families = Families::new(alloc);
        for one in held {
            families.secured.insert(one.family)?;
        }
        Ok(families)
    }

    /// Makes room for one more of each: after it the next `prepare`, `vote` or `secured` takes no
    /// memory. What is answered stays the same.
    pub fn reserve(&mut self) -> Result<(), NoMemory>
        ensures same { AreSame (answers self.old) (answers self.new) }
        ensures ok { OnOk result (1 ≤ (answers self.new).room) }
        ensures succeeds { 1 ≤ (answers self.old).room → IsOk result }
    {
        self.preparing.reserve(1)?;
        self.votes.reserve(1)?;
        self.secured.reserve(1)?;
        Ok(())
    }

    /// Whether this node is preparing the family.
    pub fn is_preparing(&self, family: &Name) -> bool
        ensures { result ≡ (answers self.now).is_preparing family.now }
    {
        self.preparing.contains(family)
    }

    /// Its home begins to prepare a family, which is not preparing. There is room, so it takes no
    /// memory.
    pub fn prepare(&mut self, family: &Name)
        requires room { 1 ≤ (answers self.old).room }
        requires begins { (answers self.old).is_preparing family.now ≡ false }
        ensures { IsPrepared family.now (answers self.old) (answers self.new) }
    {
        let _ = self.preparing.insert(*family);
    }

    /// A site has secured a family. There is room, so it takes no memory.
    pub fn secured(&mut self, family: &Name)
        requires { 1 ≤ (answers self.old).room }
        ensures { IsSecured family.now (answers self.old) (answers self.new) }
    {
        let _ = self.secured.insert(*family);
    }

    /// Whether this site has secured the family.
    pub fn is_secured(&self, family: &Name) -> bool
        ensures { result ≡ (answers self.now).is_secured family.now }
    {
        self.secured.contains(family)
    }

    /// What a vote of a node at a count will make of a family, which depends on `deps`. It takes no memory.
    pub fn weigh(&self, family: &Name, node: u8, count: u32, agrees: bool, deps: &Deps) -> Voted
        ensures { result ≡ voted_in self.now (yes family.now node count) agrees deps.now }
    {
        let vote = Yes {
            family: *family,
            node,
            count,
        };
        if !self.is_preparing(family) {
            Voted::Late
        } else if !agrees {
            Voted::No
        } else if self.is_last(&vote, deps) {
            Voted::All
        } else {
            Voted::Some
        }
    }

    /// A node at a count votes for a family, which depends on `deps`. There is room, so it takes no
    /// memory.
    pub fn vote(&mut self, family: &Name, node: u8, count: u32, agrees: bool, deps: &Deps) -> Voted
        requires { 1 ≤ (answers self.old).room }
        ensures value { result ≡ voted_in self.old (yes family.now node count) agrees deps.now }
        ensures new { IsVotedIn (yes family.now node count) agrees result self.old self.new }
    {
        let voted = self.weigh(family, node, count, agrees, deps);
        let vote = Yes {
            family: *family,
            node,
            count,
        };
        match voted {
            Voted::Late => {}
            Voted::No => self.end(family),
            Voted::Some => self.note(&vote),
            Voted::All => {
                self.note(&vote);
                self.end(family);
            }
        }
        voted
    }

    /// A vote yes is noted. There is room, so it takes no memory.
    fn note(&mut self, vote: &Yes)
        requires { 1 ≤ (answers self.old).room }
        ensures { IsNoted vote.now (answers self.old) (answers self.new) }
    {
        let _ = self.votes.insert(*vote);
    }

    /// A family is preparing no longer.
    fn end(&mut self, family: &Name)
        ensures { IsEnded family.now (answers self.old) (answers self.new) }
    {
        let _ = self.preparing.remove(family);
    }

    /// Each node on which the family of a vote yes depends has voted yes at its count, this vote with them.
    fn is_last(&self, vote: &Yes, deps: &Deps) -> bool
        ensures { result ≡ is_last (answers self.now) vote.now deps.now }
    {
        let counts = deps.counts();
        for node in 1..9 {
            let count = counts[node as usize - 1];
            if count != 0 && !self.has_with(vote, node, count) {
                return false;
            }
        }
        true
    }

    /// Whether a node at a count has voted yes for the family of a vote yes, this vote with the others.
    fn has_with(&self, vote: &Yes, node: u8, count: u32) -> bool
        ensures { result ≡ has_with (answers self.now) vote.now node count }
    {
        let other = Yes {
            family: vote.family,
            node,
            count,
        };
        *vote == other || self.votes.contains(&other)
    }

    /// A home asks this site to secure a family for its count `count`, where the site is at the
    /// count `present`. Takes no memory.
    pub fn asked(&self, family: &Name, count: u32, present: u32, know: &Know) -> Asked
        ensures { result ≡ asked_of know.now (answers self.now) family.now count present }
    {
        if know.is_committed(family) || know.is_aborted(family) {
            Asked::Late
        } else if self.secured.contains(family) {
            Asked::AlreadyYes
        } else if count != present {
            Asked::Refuse
        } else {
            Asked::Secure
        }
    }

    /// A site asks after a family, where this node, its home, is at the count `present`. Takes no
    /// memory.
    pub fn query(&self, family: &Name, present: u32, know: &Know) -> Queried
        ensures { result ≡ queried_of know.now family.now present }
    {
        let (_node, count) = family.home();
        if know.is_committed(family) || know.is_aborted(family) {
            Queried::Tell
        } else if count < present {
            Queried::Abort
        } else {
            Queried::StillOpen
        }
    }
}
