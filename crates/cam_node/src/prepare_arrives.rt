//! *Prepare arrives*: a site is asked to secure a family at a count. Where it knows how the family ended that is late. Where it has secured the
//! family before it votes yes again. At another count than its present one it has missed the family's calls, and votes no. Else it secures the
//! family, and votes yes: the entry of the event has what is live of the family.
ghost use Rattle.std.specs.Prelude.{◌≡◌, ◌≤◌, List, length, IfOk};
ghost use Rattle.cam_type.specs.declared.ObjectDecl.{ObjectDecl};
ghost use Rattle.cam_event.specs.declared.Body.TheVariants as bodies;
ghost use Rattle.cam_event.specs.Rules.{answers as only_answers, vote};
ghost use Rattle.cam_locks.specs.Calls.{held, left_by};
ghost use Rattle.cam_node.specs.Calls.{answers, AreSame, AreToNodes};
ghost use Rattle.cam_node.specs.Plans.{IsPlanFor};
ghost use Rattle.cam_node.specs.Standing.{HaveSecured, MayStand, just};
ghost use Rattle.cam_node.specs.Planned.{MayBeAdded};
ghost use Rattle.cam_node.specs.Prepared.{asked_does, asked_for, secures, MayBeWritten};

use crate::did::{Did, Doing};
use crate::homes::home_of;
use crate::plan::{Change, Plan};
use crate::room::one;
use crate::state::Core;
use cam_base::NoMemory;
use cam_commit::Asked;
use cam_event::{Body, Deed, Letter, LetterId, Note, Sent};
use cam_know::Know;
use cam_names::Name;
use cam_recman::Record;

impl Core {
    /// A letter Prepare of a node, 1 to 8, comes: the event that may stand. It fails if memory runs out. What is answered stays the same
    /// until the event stands.
    pub(crate) fn prepare_comes(
        &mut self,
        id: &LetterId,
        letter: &Letter,
        family: &Name,
        count: u32,
    ) -> Result<Plan, NoMemory>
        requires from { (1 ≤ letter.now.from) × (letter.now.from ≤ 8) }
        requires body { letter.now.body ≡ bodies.Prepare family.now count }
        requires few { length (answers self.old).server.table.site.objects ≤ 64 }
        ensures same { AreSame (answers self.old) (answers self.new) }
        ensures plan { (objects : List ObjectDecl) → IfOk result (λ plan.
            IsPlanFor objects id.now letter.now self.old self.new plan) }
        ensures may { IfOk result (λ plan. MayStand plan self.new) }
        ensures adds { IfOk result (λ plan. MayBeAdded plan.adds) }
    {
        let learnt = self.receive(letter)?;
        self.families.reserve()?;
        let asked = self.asked(family, count);
        let doing = self.asked_does(&asked, family, count, &learnt.heard.news)?;
        self.planned(id, learnt, doing)
    }

    /// What the families answer a prepare.
    fn asked(&self, family: &Name, count: u32) -> Asked
        ensures { result ≡ asked_for self.now.knowing.known (answers self.now).families
            family.now count self.now.count }
    {
        if family.depth() != 1 {
            return Asked::Late;
        }
        self.families
            .asked(family, count, self.count, self.knowing.know())
    }

    /// What a site does by its answer to a prepare, where it is informed of these outcomes first.
    fn asked_does(
        &self,
        asked: &Asked,
        family: &Name,
        count: u32,
        news: &Know,
    ) -> Result<Doing, NoMemory>
        ensures does { IfOk result (λ doing. doing ≡ asked_does self.now.number
            (held (left_by news.now (answers self.now).server.table.site) family.now count) asked.now) }
        ensures nodes { IfOk result (λ doing. AreToNodes doing.did.sent) }
        ensures writable { IfOk result (λ doing. MayBeWritten family.now count
            (answers self.now).server.table.site.objects doing.adds) }
    {
        match asked {
            Asked::Late => Ok(Doing::nothing_but(self.alloc, &Note::Late)),
            Asked::AlreadyYes => self.votes(&Note::Again, family, count, true),
            Asked::Refuse => self.votes(&Note::Missed, family, count, false),
            Asked::Secure => self.secures(family, count, news),
        }
    }

    /// It votes, and nothing else.
    fn votes(&self, note: &Note, family: &Name, count: u32, yes: bool) -> Result<Doing, NoMemory>
        ensures does { IfOk result (λ doing.
            doing ≡ just (only_answers note.now (vote family.now count yes))) }
        ensures nodes { IfOk result (λ doing. AreToNodes doing.did.sent) }
    {
        let body = Body::Vote {
            family: *family,
            count,
            yes,
        };
        let did = Did::answer(self.alloc, note, home_of(family), &body)?;
        Ok(Doing::just(did))
    }

    /// It secures the family, and votes yes.
    fn secures(&self, family: &Name, count: u32, news: &Know) -> Result<Doing, NoMemory>
        ensures does { IfOk result (λ doing. doing ≡ secures self.now.number
            (held (left_by news.now (answers self.now).server.table.site) family.now count)) }
        ensures nodes { IfOk result (λ doing. AreToNodes doing.did.sent) }
        ensures writable { IfOk result (λ doing. MayBeWritten family.now count
            (answers self.now).server.table.site.objects doing.adds) }
    {
        let held = self.server.table().secure_after(news, family, count)?;
        let deed = Deed::Secure {
            family: *family,
            site: self.number,
            count,
        };
        let body = Body::Vote {
            family: *family,
            count,
            yes: true,
        };
        let to = home_of(family);
        Ok(Doing {
            did: Did {
                deeds: one(self.alloc, &deed)?,
                sent: one(self.alloc, &Sent { to, body })?,
                note: Note::Plain,
            },
            change: Change::Secured(*family),
            adds: Some(Record::Secure(held)),
        })
    }

    /// The site has secured a family, for which there is room.
    pub(crate) fn secure_stands(&mut self, family: &Name)
        requires { 1 ≤ (answers self.old).families.room }
        ensures { HaveSecured family.now (answers self.old) (answers self.new) }
    {
        self.families.secured(family);
    }
}
