//! *Answer arrives*: an action gets what it sees of its open call. An answer that is not awaited is
//! late, and an action that is an orphan by what it depends on is stopped. Where the count of the
//! call's site has risen since it was addressed, the call is gone; else the action sees that it was
//! done or is busy, and nothing of one that was missed or refused.
ghost use Rattle.std.specs.Prelude.{◌≡◌, ◌≤◌, List, None, IfOk};
ghost use Rattle.cam_type.specs.declared.ObjectDecl.{ObjectDecl};
ghost use Rattle.cam_event.specs.declared.Body.TheVariants as bodies;
ghost use Rattle.cam_node.specs.Calls.{answers, AreSame, AreToNodes};
ghost use Rattle.cam_node.specs.Plans.{IsPlanFor};
ghost use Rattle.cam_node.specs.Standing.{after_answer, HaveActed, MayStand};
ghost use Rattle.cam_node.specs.Answered.{answered_by, seen_by};

use crate::did::{Did, Doing};
use crate::plan::{Change, Plan};
use crate::state::Core;
use cam_base::NoMemory;
use cam_event::{Body, Deed, Letter, LetterId, Note, Reply};
use cam_names::Name;
use cam_orphan::orphan;
use cam_tranman::Taken;

impl Core {
    /// A letter Answer of a node, 1 to 8, comes: the event that may stand. It fails where memory
    /// runs out. What is answered stays the same until the event stands.
    pub(crate) fn answer_comes(
        &mut self,
        id: &LetterId,
        letter: &Letter,
        action: &Name,
        number: u32,
        reply: &Reply,
    ) -> Result<Plan, NoMemory>
        requires from { (1 ≤ letter.now.from) × (letter.now.from ≤ 8) }
        requires body { letter.now.body ≡ bodies.Answer action.now number reply.now }
        ensures same { AreSame (answers self.old) (answers self.new) }
        ensures plan { (objects : List ObjectDecl) → IfOk result (λ plan.
            IsPlanFor objects id.now letter.now self.old self.new plan) }
        ensures may { IfOk result (λ plan. MayStand plan self.new) }
        ensures adds { IfOk result (λ plan. plan.adds ≡ None) }
    {
        let learnt = self.receive(letter)?;
        let doing = self.answered(action, number, reply)?;
        self.planned(id, learnt, doing)
    }

    /// What the home of an action does when an answer to its call of this number comes.
    fn answered(&self, action: &Name, number: u32, reply: &Reply) -> Result<Doing, NoMemory>
        ensures { IfOk result (λ doing.
            doing ≡ answered_by (answers self.now).actions self.now.knowing.known
            action.now number reply.now) }
    {
        if !self.actions.awaits(action, number) {
            return Ok(Doing::nothing_but(self.alloc, &Note::Late));
        }
        match orphan(self.knowing.know(), action, &self.deps_of(action)) {
            Some(reason) => {
                let note = Note::Stopped(*action, reason);
                Ok(Doing::nothing_but(self.alloc, &note))
            }
            None => self.sees(action, number, reply),
        }
    }

    /// What an action sees of an answer that it awaits.
    fn sees(&self, action: &Name, number: u32, reply: &Reply) -> Result<Doing, NoMemory>
        ensures { IfOk result (λ doing.
            doing ≡ seen_by (answers self.now).actions self.now.knowing.known
            action.now number reply.now ((answers self.now).actions.call action.now)) }
    {
        let Some(call) = self.actions.open_call(action) else {
            return Ok(Doing::nothing_but(self.alloc, &Note::Late));
        };
        let known = self.knowing.know().count(call.site);
        match self.actions.taken(action, number, reply, known) {
            Taken::Got(seen) => {
                let deed = Deed::Got {
                    action: *action,
                    number,
                    seen,
                };
                Ok(Doing {
                    did: Did::one_deed(self.alloc, &deed)?,
                    change: Change::Answered {
                        action: *action,
                        number,
                        reply: *reply,
                        known,
                    },
                    adds: None,
                })
            }
            Taken::Late => Ok(Doing::nothing_but(self.alloc, &Note::Late)),
        }
    }

    /// An action gets what it sees of an answer, where the count of the call's site is known as
    /// `known`.
    pub(crate) fn answer_stands(&mut self, action: &Name, number: u32, reply: &Reply, known: u32)
        ensures { HaveActed
            (after_answer action.now number reply.now known (answers self.old).actions)
            (answers self.old) (answers self.new) }
    {
        self.actions.answer(action, number, reply, known);
    }
}
