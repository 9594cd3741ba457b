//! *Vote arrives*: a node votes for a family at its home. Where the home is of another count, knows
//! how the family ended or is not preparing it, that is late. The first vote no aborts the family,
//! the last yes commits it, and News goes to each other node on which it depends. Another yes is
//! counted.
ghost use Rattle.std.specs.Prelude.{◌≡◌, ◌≤◌, List, IfOk};
ghost use Rattle.cam_type.specs.declared.ObjectDecl.{ObjectDecl};
ghost use Rattle.cam_event.specs.declared.Body.TheVariants as bodies;
ghost use Rattle.cam_commit.specs.Calls.{yes, voted_by};
ghost use Rattle.cam_node.specs.Calls.{answers, AreSame};
ghost use Rattle.cam_node.specs.Planned.{MayBeAdded};
ghost use Rattle.cam_node.specs.Plans.{IsPlanFor};
ghost use Rattle.cam_node.specs.Standing.{counting, MayStand};
ghost use Rattle.cam_node.specs.Voting.{is_over, HasCounted};

use crate::did::{Did, Doing};
use crate::plan::{Change, Plan};
use crate::state::Core;
use crate::to_others::news_to;
use cam_base::NoMemory;
use cam_commit::Voted;
use cam_event::{Letter, LetterId, Note};
use cam_know::Outcome;
use cam_names::{Deps, Name};

/// A vote of a node at a count for a family, which depends on these.
#[derive(Clone, Copy)]
pub(crate) struct Vote {
    pub(crate) family: Name,
    pub(crate) node: u8,
    pub(crate) count: u32,
    pub(crate) yes: bool,
    pub(crate) deps: Deps,
}

impl Core {
    /// A letter Vote of a node, 1 to 8, comes: the event that may stand. It fails where memory runs
    /// out. What is answered stays the same until the event stands.
    pub(crate) fn vote_comes(
        &mut self,
        id: &LetterId,
        letter: &Letter,
        family: &Name,
        count: u32,
        yes: bool,
    ) -> Result<Plan, NoMemory>
        requires from { (1 ≤ letter.now.from) × (letter.now.from ≤ 8) }
        requires body { letter.now.body ≡ bodies.Vote family.now count yes }
        ensures same { AreSame (answers self.old) (answers self.new) }
        ensures plan { (objects : List ObjectDecl) → IfOk result (λ plan.
            IsPlanFor objects id.now letter.now self.old self.new plan) }
        ensures may { IfOk result (λ plan. MayStand plan self.new) }
        ensures adds { IfOk result (λ plan. MayBeAdded plan.adds) }
    {
        let learnt = self.receive(letter)?;
        if self.is_over(family) {
            return self.planned(id, learnt, Doing::nothing_but(self.alloc, &Note::Late));
        }
        let vote = Vote {
            family: *family,
            node: letter.from,
            count,
            yes,
            deps: self.deps_of(family),
        };
        match self.weigh(&vote) {
            Voted::Late => self.planned(id, learnt, Doing::nothing_but(self.alloc, &Note::Late)),
            Voted::Some => {
                self.families.reserve()?;
                self.planned(id, learnt, self.counts(&vote))
            }
            Voted::No => {
                let sent = news_to(self.alloc, self.number, &vote.deps)?;
                let outcome = Outcome::Aborted(*family);
                self.decides(id, learnt, &outcome, sent, &Note::Plain)
            }
            Voted::All => {
                let sent = news_to(self.alloc, self.number, &vote.deps)?;
                let outcome = Outcome::Committed(*family, vote.deps);
                self.decides(id, learnt, &outcome, sent, &Note::Plain)
            }
        }
    }

    /// Whether a family is of another count than the present one, its outcome is known with the
    /// letter, or it is no top action.
    fn is_over(&self, family: &Name) -> bool
        ensures { result ≡ is_over self.now.count self.now.knowing.known family.now }
    {
        self.is_closed(family) || family.depth() != 1
    }

    /// What a vote makes of its family.
    fn weigh(&self, vote: &Vote) -> Voted
        ensures { result ≡ voted_by (answers self.now).families
            (yes vote.now.family vote.now.node vote.now.count) vote.now.yes vote.now.deps }
    {
        self.families
            .weigh(&vote.family, vote.node, vote.count, vote.yes, &vote.deps)
    }

    /// A vote yes is counted.
    fn counts(&self, vote: &Vote) -> Doing
        ensures { result ≡ counting vote.now }
    {
        Doing {
            did: Did::nothing_but(self.alloc, &Note::Voted),
            change: Change::Voted(*vote),
            adds: None,
        }
    }

    /// A vote is counted, for which there is room.
    pub(crate) fn vote_stands(&mut self, vote: &Vote)
        requires { 1 ≤ (answers self.old).families.room }
        ensures { HasCounted (yes vote.now.family vote.now.node vote.now.count) vote.now.yes
            vote.now.deps (answers self.old) (answers self.new) }
    {
        self.families
            .vote(&vote.family, vote.node, vote.count, vote.yes, &vote.deps);
    }
}
