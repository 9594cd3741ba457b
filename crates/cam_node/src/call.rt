//! *Call*: an action calls an object. It goes under the next number of the action's calls, to the
//! node of the object, at the known count of that node. A letter Call with what the action depends
//! on goes to the node.
ghost use Rattle.std.specs.Prelude.{◌≡◌, ◌<◌, List, [], None, IfOk, OnErr};
ghost use Rattle.cam_type.specs.declared.ObjectDecl.{ObjectDecl};
ghost use Rattle.cam_type.specs.Objects.{site_of};
ghost use Rattle.cam_event.specs.Rules.{makes_call};
ghost use Rattle.cam_event.specs.ByPast.{event_of};
ghost use Rattle.cam_event.specs.declared.Want.TheVariants as wants;
ghost use Rattle.cam_event.specs.Inputs.{Requests};
ghost use Rattle.cam_event.specs.Loads.{no_load};
ghost use Rattle.cam_event.specs.Runs.{IsNode};
ghost use Rattle.cam_tranman.specs.Actions.{calls};
ghost use Rattle.cam_tranman.specs.Calls.{IsFree};
ghost use Rattle.cam_node.specs.Calls.{answers, letters_of, AreSame};
ghost use Rattle.cam_node.specs.Halting.{IsStepThrough};

use crate::Stepped;
use crate::room::one;
use crate::state::Core;
use cam_base::NoMemory;
use cam_event::{Body, Deed, Note, Sent};
use cam_names::{Deps, Name};
use cam_tranman::OpenCall;
use cam_type::Op;

impl Core {
    /// An action whose home is this node calls an object, which stands at one of the eight nodes.
    /// Nothing stands against the request, and it has made fewer than 1,000,000,000 calls. It fails
    /// if memory runs out, and is then as it was.
    pub(crate) fn call(&mut self, action: &Name, object: u8, op: &Op) -> Result<Stepped, NoMemory>
        requires site { IsNode (site_of (answers self.old).server.table.site.objects object) }
        requires free { IsFree (answers self.old).actions action.now (wants.Call object op.now) }
        requires few { calls (answers self.old).actions action.now < 1000000000 }
        ensures step { (objects : List ObjectDecl) → IfOk result (λ stepped. IsStepThrough objects
            (answers self.old) (answers self.new)
            (Requests (record { action = action.now; want = wants.Call object op.now }))
            None no_load stepped.event) }
        ensures letters { IfOk result (λ stepped.
            stepped.letters ≡ letters_of (answers self.new) stepped.event.sent) }
        ensures err { OnErr result (AreSame (answers self.old) (answers self.new)) }
        ensures server { (answers self.new).server ≡ (answers self.old).server }
    {
        self.settle()?;
        match self.orphan_at_home(action) {
            Some(reason) => Ok(self.stopped(action, &reason)),
            None => {
                let site = self.server.table().site_of(object);
                let count = self.knowing.know().count(site);
                let call = OpenCall {
                    number: self.actions.calls(action) + 1,
                    object,
                    op: *op,
                    site,
                    count,
                };
                let deps = self.deps_of(action);
                let stepped = self.makes_call(action, &call, &deps)?;
                self.actions.call(action, object, op, site, count)?;
                Ok(stepped)
            }
        }
    }

    /// The event in which an action, which depends on these, makes a call.
    fn makes_call(&self, action: &Name, call: &OpenCall, deps: &Deps) -> Result<Stepped, NoMemory>
        requires settled { self.now.knowing.known ≡ self.now.knowing.stands }
        ensures event { IfOk result (λ stepped. stepped.event
            ≡ event_of self.now.number None []
            (makes_call action.now call.now.number call.now.object
            call.now.op call.now.site call.now.count deps.now)) }
        ensures letters { IfOk result (λ stepped.
            stepped.letters ≡ letters_of (answers self.now) stepped.event.sent) }
    {
        let body = Body::Call {
            action: *action,
            number: call.number,
            object: call.object,
            op: call.op,
            count: call.count,
            deps: *deps,
        };
        let deed = Deed::Call {
            action: *action,
            number: call.number,
            object: call.object,
            op: call.op,
            count: call.count,
        };
        let deeds = one(self.alloc, &deed)?;
        let sent = one(
            self.alloc,
            &Sent {
                to: call.site,
                body,
            },
        )?;
        let stepped = self.own_event(deeds, sent, Note::Plain)?;
        Ok(stepped)
    }
}
