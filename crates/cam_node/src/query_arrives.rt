//! *Query arrives*: a site asks a family's home how the family ended. Where the home knows that, it
//! tells it by a letter News. A family of an older count than the present one is gone with it, so
//! the home aborts it, and tells that. One of the present count is open: that is late.
ghost use Rattle.std.specs.Prelude.{◌≡◌, ◌≤◌, List, IfOk};
ghost use Rattle.cam_type.specs.declared.ObjectDecl.{ObjectDecl};
ghost use Rattle.cam_event.specs.declared.Body.TheVariants as bodies;
ghost use Rattle.cam_event.specs.Rules.{send, one as single};
ghost use Rattle.cam_node.specs.Calls.{answers, AreSame, AreToNodes};
ghost use Rattle.cam_node.specs.Planned.{MayBeAdded};
ghost use Rattle.cam_node.specs.Plans.{IsPlanFor};
ghost use Rattle.cam_node.specs.Standing.{MayStand};
ghost use Rattle.cam_node.specs.Queried.{queried_after};

use crate::did::{Did, Doing};
use crate::plan::Plan;
use crate::room::one;
use crate::state::Core;
use cam_base::NoMemory;
use cam_commit::Queried;
use cam_event::{Body, Deeds, Letter, LetterId, Note, Sent, SentList};
use cam_know::Outcome;
use cam_names::Name;
use std::alloc::Global;

impl Core {
    /// A letter Query of a node, 1 to 8, comes: the event that may stand. It fails where memory
    /// runs out. What is answered stays the same until the event stands.
    pub(crate) fn query_comes(
        &mut self,
        id: &LetterId,
        letter: &Letter,
        family: &Name,
    ) -> Result<Plan, NoMemory>
        requires from { (1 ≤ letter.now.from) × (letter.now.from ≤ 8) }
        requires body { letter.now.body ≡ bodies.Query family.now }
        ensures same { AreSame (answers self.old) (answers self.new) }
        ensures plan { (objects : List ObjectDecl) → IfOk result (λ plan.
            IsPlanFor objects id.now letter.now self.old self.new plan) }
        ensures may { IfOk result (λ plan. MayStand plan self.new) }
        ensures adds { IfOk result (λ plan. MayBeAdded plan.adds) }
    {
        let learnt = self.receive(letter)?;
        match self.queried(family) {
            Queried::Tell => {
                let sent = news_back(self.alloc, letter.from)?;
                let did = Did {
                    deeds: Deeds::new(self.alloc),
                    sent,
                    note: Note::Plain,
                };
                self.planned(id, learnt, Doing::just(did))
            }
            Queried::Abort => {
                let sent = news_back(self.alloc, letter.from)?;
                let abort = Outcome::Aborted(*family);
                self.decides(id, learnt, &abort, sent, &Note::Plain)
            }
            Queried::StillOpen => {
                self.planned(id, learnt, Doing::nothing_but(self.alloc, &Note::Late))
            }
        }
    }

    /// What the families answer a query.
    fn queried(&self, family: &Name) -> Queried
        ensures { result ≡ queried_after self.now.knowing.known family.now self.now.count }
    {
        if family.depth() != 1 {
            return Queried::StillOpen;
        }
        self.families.query(family, self.count, self.knowing.know())
    }
}

/// News to the node that asked.
fn news_back(alloc: Global, to: u8) -> Result<SentList, NoMemory>
    requires { (1 ≤ to) × (to ≤ 8) }
    ensures exactly { IfOk result (λ sent. sent ≡ single (send to bodies.News)) }
    ensures nodes { IfOk result (λ sent. AreToNodes sent) }
{
    let news = Sent {
        to,
        body: Body::News,
    };
    one(alloc, &news)
}
