//! A call that goes ahead of the news that came with it. Where these speak of no family with live
//! operations at the site, the site itself does with the call what it answers, before it is
//! informed of them: all is as if it had been informed first, and no copy is made. Where memory
//! runs out after it, or the event's entry is not taken, what was done with the call is taken
//! back.
ghost use Rattle.std.specs.Prelude.{◌≡◌, IfOk, OnErr};
ghost use Rattle.cam_comman.specs.Letters.{IsWithin};
ghost use Rattle.cam_locks.specs.Moss.{value};
ghost use Rattle.cam_server.specs.Calls.{AreSame as ServeSame};
ghost use Rattle.cam_node.specs.Ahead.{HasGoneAhead, IsAheadPlan, IsForgotten, IsTakenBack};
ghost use Rattle.cam_node.specs.Ahead.{ahead_of};
ghost use Rattle.cam_node.specs.Calls.{answers};
ghost use Rattle.cam_node.specs.Holdings.{held_ahead};
ghost use Rattle.cam_node.specs.Served.{asked_of, MayBeServed};

use crate::call_arrives::{Called, did_performed};
use crate::did::Doing;
use crate::learning::Learnt;
use crate::plan::{Change, Plan};
use crate::state::Core;
use cam_base::NoMemory;
use cam_event::LetterId;
use cam_names::Name;
use cam_server::Performed;
use cam_type::DataType;

/// A call that went ahead: whose it is, which of the action's calls, and what came of it.
#[derive(Clone, Copy, Debug)]
pub(crate) struct Ahead {
    pub(crate) action: Name,
    pub(crate) number: u32,
    pub(crate) done: Performed,
}

impl Core {
    /// The plan of a call that the site serves at once, where the letter brought this. Where memory
    /// runs out what is answered is the same.
    pub(crate) fn call_goes_ahead<T: DataType>(
        &mut self,
        id: &LetterId,
        learnt: Learnt,
        call: &Called,
        server: &mut T,
    ) -> Result<Plan, NoMemory>
        requires within { IsWithin self.old.knowing.known learnt.heard.places }
        requires may { MayBeServed (asked_of call.now) (T.kind server.old)
            (answers self.old).server }
        ensures ahead { IfOk result (λ plan.
            HasGoneAhead self.old self.new id.now learnt (asked_of call.now) plan) }
        ensures held { IfOk result (λ plan. T.held server.new ≡ held_ahead plan.change
            (value (answers self.new).server.table.site call.now.object) (T.held server.old)) }
        ensures err { OnErr result (ServeSame (answers self.old).server (answers self.new).server) }
        ensures err_rest { OnErr result
            (answers self.new ≡ record (answers self.old) { server = (answers self.new).server }) }
        ensures know { (answers self.new).know ≡ (answers self.old).know }
        ensures number { self.new.number ≡ self.old.number }
        ensures kind_stays { T.kind server.new ≡ T.kind server.old }
    {
        let done = self.server.perform(
            self.knowing.know(),
            &call.action,
            call.number,
            call.object,
            &call.op,
            call.count,
            &call.deps,
            server,
        )?;
        match self.gone_ahead(id, learnt, call, &done) {
            Ok(plan) => Ok(plan),
            Err(fault) => {
                self.server.take_back(&call.action, call.number, &done);
                Err(fault)
            }
        }
    }

    /// The plan of a call of which this came already.
    fn gone_ahead(
        &self,
        id: &LetterId,
        learnt: Learnt,
        call: &Called,
        done: &Performed,
    ) -> Result<Plan, NoMemory>
        requires { IsWithin self.now.knowing.known learnt.heard.places }
        ensures { IfOk result (λ plan.
            IsAheadPlan self.now id.now learnt (asked_of call.now) done.now plan) }
    {
        let did = did_performed(self.alloc, call, done)?;
        let ahead = Ahead {
            action: call.action,
            number: call.number,
            done: *done,
        };
        let doing = Doing {
            did,
            change: Change::WentAhead(ahead),
            adds: None,
        };
        self.planned(id, learnt, doing)
    }

    /// An event that was planned does not come to stand: where a call went ahead for it, what was
    /// done with that is taken back. It takes no memory.
    pub(crate) fn forget(&mut self, ahead: &Option<Ahead>)
        ensures forgotten { IsForgotten ahead.now (answers self.old) (answers self.new) }
        ensures number { self.new.number ≡ self.old.number }
    {
        if let Some(ahead) = ahead {
            self.take_back(ahead);
        }
    }

    /// What was done with a call that went ahead is taken back.
    fn take_back(&mut self, ahead: &Ahead)
        ensures back { IsTakenBack ahead.now (answers self.old) (answers self.new) }
        ensures number { self.new.number ≡ self.old.number }
    {
        self.server
            .take_back(&ahead.action, ahead.number, &ahead.done);
    }
}

impl Change {
    /// The call that went ahead, where one did.
    pub(crate) fn ahead(&self) -> Option<Ahead>
        ensures { result ≡ ahead_of self.now }
    {
        match self {
            Change::WentAhead(ahead) => Some(*ahead),
            _ => None,
        }
    }
}
