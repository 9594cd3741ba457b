//! *Call arrives*: a call comes to its site. Addressed to another count it is missed. Where the
//! commit of an ancestor is known it has ended. One that was answered before is answered again.
//! That of an orphan is refused. Else it bounces off the first live operation that conflicts, or is
//! performed. But for one that has ended a reply goes to the action's home.
ghost use Rattle.std.specs.Prelude.{◌≡◌, ◌≤◌, List, None, IfOk, OnErr};
ghost use Rattle.cam_type.specs.declared.ObjectDecl.{ObjectDecl};
ghost use Rattle.cam_type.specs.Objects.{start_of};
ghost use Rattle.cam_type.specs.Table.{kind_of};
ghost use Rattle.cam_locks.specs.Moss.{value};
ghost use Rattle.cam_locks.specs.Site.{fits_here};
ghost use Rattle.cam_event.specs.Rules as rules;
ghost use Rattle.cam_event.specs.declared.Body.TheVariants as bodies;
ghost use Rattle.cam_server.specs.declared.Performed.{Performed as PerformedValue};
ghost use Rattle.cam_server.specs.Steps.{did_performed};
ghost use Rattle.cam_node.specs.Ahead.{MayBeForgotten};
ghost use Rattle.cam_node.specs.Calls.{answers, AreSame, AreToNodes};
ghost use Rattle.cam_node.specs.Holdings.{held_then, site_with, HoldsThen};
ghost use Rattle.cam_node.specs.Plans.{IsPlanFor};
ghost use Rattle.cam_node.specs.Standing.{MayStand};
ghost use Rattle.cam_node.specs.Served.{asked_of, IsCallOn, MayBeServed, IsDone};

use crate::did::{Did, Doing};
use crate::homes::home_of;
use crate::knowing::Heard;
use crate::plan::{Change, Plan};
use crate::state::Core;
use cam_base::NoMemory;
use cam_event::{Body, Deed, Letter, LetterId, Note, Reply};
use cam_names::{Deps, Name};
use cam_server::Performed;
use cam_type::{DataType, Op};
use std::alloc::Global;

/// A call as its letter names it.
#[derive(Clone, Copy, Debug)]
pub(crate) struct Called {
    pub(crate) action: Name,
    pub(crate) number: u32,
    pub(crate) object: u8,
    pub(crate) op: Op,
    /// The count at which the site was addressed.
    pub(crate) count: u32,
    /// What the action depended on.
    pub(crate) deps: Deps,
}

impl Called {
    /// The letter that answers it.
    fn answered(&self, reply: &Reply) -> Body
        ensures { result ≡ bodies.Answer self.now.action self.now.number reply.now }
    {
        Body::Answer {
            action: self.action,
            number: self.number,
            reply: *reply,
        }
    }
}

impl Core {
    /// A letter Call of a node, 1 to 8, comes: the event that may stand. The object stands here and
    /// fits the op, the next index at the site is at most 999,999,999, and the handed-in server is
    /// of the object's kind. It fails if memory runs out, and what is answered is then the same.
    /// Where the event does not come to stand what went ahead has to be taken back (`forgotten`).
    pub(crate) fn call_comes<T: DataType>(
        &mut self,
        id: &LetterId,
        letter: &Letter,
        call: &Called,
        server: &mut T,
    ) -> Result<Plan, NoMemory>
        requires from { (1 ≤ letter.now.from) × (letter.now.from ≤ 8) }
        requires call { IsCallOn letter.now (asked_of call.now) }
        requires may { MayBeServed (asked_of call.now) (T.kind server.old)
            (answers self.old).server }
        ensures err { OnErr result (AreSame (answers self.old) (answers self.new)) }
        ensures forgotten { IfOk result (λ plan.
            MayBeForgotten (answers self.old) (answers self.new) plan.change) }
        ensures know { (answers self.new).know ≡ (answers self.old).know }
        ensures number { self.new.number ≡ self.old.number }
        ensures plan { (objects : List ObjectDecl) → IfOk result (λ plan.
            IsPlanFor objects id.now letter.now self.old self.new plan) }
        ensures may { IfOk result (λ plan. MayStand plan self.new) }
        ensures adds { IfOk result (λ plan. plan.adds ≡ None) }
        // Where the event stands the server holds the value of the object, if the call is performed.
        ensures held { IfOk result (λ plan. HoldsThen call.now.object plan self.new.knowing.known
            (answers self.new) (T.held server.old) (T.held server.new)) }
        ensures kind_stays { T.kind server.new ≡ T.kind server.old }
    {
        let learnt = self.receive(letter)?;
        if self.server.is_apart(&learnt.heard.news) {
            return self.call_goes_ahead(id, learnt, call, server);
        }
        let doing = self.serve(call, &learnt.heard, server)?;
        self.planned(id, learnt, doing)
    }

    /// What a site does with a call, where a letter brought this. Where the lock table decides it
    /// does so in a copy of the site's server that was informed of the news.
    fn serve<T: DataType>(
        &self,
        call: &Called,
        heard: &Heard,
        server: &mut T,
    ) -> Result<Doing, NoMemory>
        requires { MayBeServed (asked_of call.now) (T.kind server.old) (answers self.now).server }
        ensures done { IfOk result (λ doing. (done : PerformedValue) × IsDone heard.now.news
            self.now.knowing.known (asked_of call.now) (answers self.now).server doing done) }
        ensures nodes { IfOk result (λ doing. AreToNodes doing.did.sent) }
        ensures held { IfOk result (λ doing. T.held server.new ≡ held_then doing.did.deeds
            (value (site_with doing.change (answers self.now).server) call.now.object)
            (T.held server.old)) }
        ensures kind_stays { T.kind server.new ≡ T.kind server.old }
    {
        let know = self.knowing.know();
        let tested = self
            .server
            .tested(know, &call.action, call.number, call.count, &call.deps);
        match tested {
            Some(done) => Ok(Doing::just(did_performed(self.alloc, call, &done)?)),
            None => {
                let mut informed = self.server.copy()?;
                informed.reserve(heard.news.len())?;
                informed.informed(&heard.news);
                let done = informed.perform(
                    know,
                    &call.action,
                    call.number,
                    call.object,
                    &call.op,
                    call.count,
                    &call.deps,
                    server,
                )?;
                Ok(Doing {
                    did: did_performed(self.alloc, call, &done)?,
                    change: Change::Served(informed),
                    adds: None,
                })
            }
        }
    }
}

/// What a site does by what came of a call.
pub(crate) fn did_performed(alloc: Global, call: &Called, done: &Performed) -> Result<Did, NoMemory>
    ensures did { IfOk result (λ did. did ≡ did_performed (asked_of call.now) done.now) }
    ensures nodes { IfOk result (λ did. AreToNodes did.sent) }
{
    let home = home_of(&call.action);
    match done {
        Performed::Missed => {
            let body = call.answered(&Reply::Missed);
            Did::answer(alloc, &Note::Missed, home, &body)
        }
        Performed::Ended => Ok(Did::nothing_but(alloc, &Note::Ended)),
        Performed::Again(reply) => {
            let body = call.answered(reply);
            Did::answer(alloc, &Note::Again, home, &body)
        }
        Performed::Orphan(reason) => {
            let body = call.answered(&Reply::Refused);
            Did::answer(alloc, &Note::Stopped(call.action, *reason), home, &body)
        }
        Performed::Busy(holder) => {
            let deed = Deed::Bounce {
                action: call.action,
                number: call.number,
                holder: *holder,
            };
            let body = call.answered(&Reply::Busy(*holder));
            Did::deed_and_letter(alloc, &deed, home, &body)
        }
        Performed::Done(answer) => {
            let deed = Deed::Perform {
                action: call.action,
                number: call.number,
                answer: *answer,
            };
            let body = call.answered(&Reply::Done(*answer));
            Did::deed_and_letter(alloc, &deed, home, &body)
        }
    }
}
