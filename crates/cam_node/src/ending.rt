//! *Ask to commit* and *ask to abort*: an action has ended. A letter, Finish with its value and what it depends on, or Quit, goes to the node
//! that decides it: of a child its parent's home, of a top action its own.
ghost use Rattle.std.specs.Prelude.{◌≡◌, ◌≤◌, List, [], None, IfOk, OnErr};
ghost use Rattle.cam_type.specs.declared.ObjectDecl.{ObjectDecl};
ghost use Rattle.cam_event.specs.declared.Want.TheVariants as wants;
ghost use Rattle.cam_event.specs.Inputs.{Requests, decider};
ghost use Rattle.cam_event.specs.ByPast.{event_of};
ghost use Rattle.cam_event.specs.Loads.{no_load};
ghost use Rattle.cam_event.specs.Rules.{did, send, one as single};
ghost use Rattle.cam_tranman.specs.Calls.{IsFree};
ghost use Rattle.cam_node.specs.Calls.{answers, letters_of, AreSame};
ghost use Rattle.cam_node.specs.Halting.{IsStepThrough};

use crate::Stepped;
use crate::homes::decider;
use crate::room::one;
use crate::state::Core;
use cam_base::NoMemory;
use cam_event::{Body, Deed, Note, Sent};
use cam_names::Name;

impl Core {
    /// An action whose home is this node asks to commit with a value. Nothing stands against the request. It fails if memory runs out, and
    /// is then as it was.
    pub(crate) fn commit(&mut self, action: &Name, value: i64) -> Result<Stepped, NoMemory>
        requires { IsFree (answers self.old).actions action.now (wants.Commit value) }
        ensures step { (objects : List ObjectDecl) → IfOk result (λ stepped. IsStepThrough objects
            (answers self.old) (answers self.new)
            (Requests (record { action = action.now; want = wants.Commit value })) None no_load stepped.event) }
        ensures letters { IfOk result (λ stepped.
            stepped.letters ≡ letters_of (answers self.new) stepped.event.sent) }
        ensures err { OnErr result (AreSame (answers self.old) (answers self.new)) }
        ensures server { (answers self.new).server ≡ (answers self.old).server }
    {
        self.settle()?;
        match self.orphan_at_home(action) {
            Some(reason) => Ok(self.stopped(action, &reason)),
            None => {
                let deps = self.deps_of(action);
                let body = Body::Finish {
                    action: *action,
                    value,
                    deps,
                };
                let deed = Deed::AskCommit {
                    action: *action,
                    value,
                };
                let stepped = self.ended(action, &deed, &body)?;
                self.actions.finish(action, value);
                Ok(stepped)
            }
        }
    }

    /// An action whose home is this node asks to abort. Nothing stands against the request. It fails if memory runs out, and is then as it
    /// was.
    pub(crate) fn abort(&mut self, action: &Name) -> Result<Stepped, NoMemory>
        requires { IsFree (answers self.old).actions action.now wants.Abort }
        ensures step { (objects : List ObjectDecl) → IfOk result (λ stepped. IsStepThrough objects
            (answers self.old) (answers self.new)
            (Requests (record { action = action.now; want = wants.Abort })) None no_load stepped.event) }
        ensures letters { IfOk result (λ stepped.
            stepped.letters ≡ letters_of (answers self.new) stepped.event.sent) }
        ensures err { OnErr result (AreSame (answers self.old) (answers self.new)) }
        ensures server { (answers self.new).server ≡ (answers self.old).server }
    {
        self.settle()?;
        match self.orphan_at_home(action) {
            Some(reason) => Ok(self.stopped(action, &reason)),
            None => {
                let deed = Deed::AskAbort { action: *action };
                let body = Body::Quit { action: *action };
                let stepped = self.ended(action, &deed, &body)?;
                self.actions.quit(action);
                Ok(stepped)
            }
        }
    }

    /// The event of an action that has ended: this deed, and this letter to the node that decides it.
    fn ended(&self, action: &Name, deed: &Deed, body: &Body) -> Result<Stepped, NoMemory>
        requires settled { self.now.knowing.known ≡ self.now.knowing.stands }
        ensures event { IfOk result (λ stepped. stepped.event
            ≡ event_of self.now.number None [] (did (single deed.now) (single (send (decider action.now) body.now)))) }
        ensures letters { IfOk result (λ stepped.
            stepped.letters ≡ letters_of (answers self.now) stepped.event.sent) }
    {
        let deeds = one(self.alloc, deed)?;
        let sent = one(
            self.alloc,
            &Sent {
                to: decider(action),
                body: *body,
            },
        )?;
        self.own_event(deeds, sent, Note::Plain)
    }
}
