//! *Start arrives*: a child is created at its home; it depends on what its parent did when it asked
//! for it, and on its home. One that is not of the home's present count is missed: a letter Quit
//! goes back. One that was created before is there again, and an orphan is stopped.
ghost use Rattle.std.specs.Prelude.{◌≡◌, ◌≤◌, List, None, length, IfOk};
ghost use Rattle.cam_type.specs.declared.ObjectDecl.{ObjectDecl};
ghost use Rattle.cam_event.specs.declared.Body.TheVariants as bodies;
ghost use Rattle.cam_tranman.specs.Calls.{after_start};
ghost use Rattle.cam_node.specs.Calls.{answers, AreSame, AreToNodes};
ghost use Rattle.cam_node.specs.Plans.{IsPlanFor};
ghost use Rattle.cam_node.specs.Standing.{HaveActed, MayStand, MayStart};
ghost use Rattle.cam_node.specs.Started.{created_or, started_by};

use crate::did::{Did, Doing};
use crate::plan::{Change, Plan};
use crate::state::Core;
use cam_base::NoMemory;
use cam_event::{Body, Deed, Letter, LetterId, Note};
use cam_names::{Deps, Name};
use cam_orphan::orphan_at_home;

impl Core {
    /// A letter Start of a node, 1 to 8, comes: the event that may stand. It fails where memory
    /// runs out. What is answered stays the same until the event stands.
    pub(crate) fn start_comes(
        &mut self,
        id: &LetterId,
        letter: &Letter,
        child: &Name,
        deps: &Deps,
    ) -> Result<Plan, NoMemory>
        requires from { (1 ≤ letter.now.from) × (letter.now.from ≤ 8) }
        requires body { letter.now.body ≡ bodies.Start child.now deps.now }
        ensures same { AreSame (answers self.old) (answers self.new) }
        ensures plan { (objects : List ObjectDecl) → IfOk result (λ plan.
            IsPlanFor objects id.now letter.now self.old self.new plan) }
        ensures may { IfOk result (λ plan. MayStand plan self.new) }
        ensures adds { IfOk result (λ plan. plan.adds ≡ None) }
    {
        let learnt = self.receive(letter)?;
        let doing = self.started(letter.from, child, deps)?;
        self.actions.reserve()?;
        self.planned(id, learnt, doing)
    }

    /// What the home of a child does when its start comes from a node, 1 to 8.
    fn started(&self, from: u8, child: &Name, deps: &Deps) -> Result<Doing, NoMemory>
        requires { (1 ≤ from) × (from ≤ 8) }
        ensures does { IfOk result (λ doing.
            doing ≡ started_by (answers self.now).actions self.now.knowing.known
            from child.now deps.now) }
        ensures nodes { IfOk result (λ doing. AreToNodes doing.did.sent) }
        ensures eight { length deps.now ≡ 8 }
    {
        // Only for the proof: these are eight counts.
        let _counts = deps.counts();
        if !self.actions.may_start(child) {
            let body = Body::Quit { action: *child };
            let did = Did::answer(self.alloc, &Note::Missed, from, &body)?;
            return Ok(Doing::just(did));
        }
        if self.actions.created(child) {
            return Ok(Doing::nothing_but(self.alloc, &Note::Again));
        }
        match orphan_at_home(self.knowing.know(), child, deps) {
            Some(reason) => {
                let note = Note::Stopped(*child, reason);
                Ok(Doing::nothing_but(self.alloc, &note))
            }
            None => self.creates(child, deps),
        }
    }

    /// A child is created.
    fn creates(&self, child: &Name, deps: &Deps) -> Result<Doing, NoMemory>
        ensures { IfOk result (λ doing. doing ≡ created_or child.now deps.now None) }
    {
        let did = Did::one_deed(self.alloc, &Deed::Create { action: *child })?;
        Ok(Doing {
            did,
            change: Change::Started {
                child: *child,
                deps: *deps,
            },
            adds: None,
        })
    }

    /// A child is created here, for which there is room.
    pub(crate) fn start_stands(&mut self, child: &Name, deps: &Deps)
        requires { MayStart child.now (answers self.old).actions }
        ensures { HaveActed (after_start child.now deps.now (answers self.old).actions)
            (answers self.old) (answers self.new) }
    {
        match self.actions.start(child, deps) {
            Ok(_) => {}
            // there is room
            Err(_) => unreachable!(),
        }
    }
}
