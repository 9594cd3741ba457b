//! *Ask*: an action asks for a child at a node. The child's name is its parent's with one part more: the node, the known count of the node,
//! and 1 plus the number of children for which the parent has asked before. A letter Start with what the parent depends on goes to the node.
ghost use Rattle.std.specs.Prelude.{◌≡◌, ◌≤◌, ◌<◌, List, [], None, IfOk, OnErr};
ghost use Rattle.cam_type.specs.declared.ObjectDecl.{ObjectDecl};
ghost use Rattle.cam_event.specs.Rules.{asks_child};
ghost use Rattle.cam_event.specs.ByPast.{event_of};
ghost use Rattle.cam_event.specs.declared.Want.TheVariants as wants;
ghost use Rattle.cam_event.specs.Inputs.{Requests};
ghost use Rattle.cam_event.specs.Loads.{no_load};
ghost use Rattle.cam_tranman.specs.Actions.{asks};
ghost use Rattle.cam_tranman.specs.Calls.{IsFree, next_child};
ghost use Rattle.cam_node.specs.Calls.{answers, letters_of, AreSame};
ghost use Rattle.cam_node.specs.Halting.{IsStepThrough};

use crate::Stepped;
use crate::room::one;
use crate::state::Core;
use cam_base::NoMemory;
use cam_event::{Body, Deed, Note, Sent};
use cam_names::{Deps, Name, Part};

impl Core {
    /// An action whose home is this node asks for a child at a node, 1 to 8. Nothing stands against the request, and it has asked for fewer
    /// than 1,000,000,000. It fails if memory runs out, and is then as it was.
    pub(crate) fn ask(&mut self, action: &Name, node: u8) -> Result<Stepped, NoMemory>
        requires node { (1 ≤ node) × (node ≤ 8) }
        requires free { IsFree (answers self.old).actions action.now (wants.Ask node) }
        requires few { asks (answers self.old).actions action.now < 1000000000 }
        ensures step { (objects : List ObjectDecl) → IfOk result (λ stepped. IsStepThrough objects
            (answers self.old) (answers self.new)
            (Requests (record { action = action.now; want = wants.Ask node })) None no_load stepped.event) }
        ensures letters { IfOk result (λ stepped.
            stepped.letters ≡ letters_of (answers self.new) stepped.event.sent) }
        ensures err { OnErr result (AreSame (answers self.old) (answers self.new)) }
        ensures server { (answers self.new).server ≡ (answers self.old).server }
    {
        self.settle()?;
        match self.orphan_at_home(action) {
            Some(reason) => Ok(self.stopped(action, &reason)),
            None => {
                let count = self.knowing.know().count(node);
                let child = self.next_child(action, node, count);
                let deps = self.deps_of(action);
                let stepped = self.asks_child(action, &child, node, &deps)?;
                self.actions.ask(action, node, count)?;
                Ok(stepped)
            }
        }
    }

    /// The event in which an action, which depends on these, asks for a child at a node, 1 to 8.
    fn asks_child(
        &self,
        action: &Name,
        child: &Name,
        node: u8,
        deps: &Deps,
    ) -> Result<Stepped, NoMemory>
        requires settled { self.now.knowing.known ≡ self.now.knowing.stands }
        requires node { (1 ≤ node) × (node ≤ 8) }
        ensures event { IfOk result (λ stepped. stepped.event
            ≡ event_of self.now.number None [] (asks_child action.now child.now node deps.now)) }
        ensures letters { IfOk result (λ stepped.
            stepped.letters ≡ letters_of (answers self.now) stepped.event.sent) }
    {
        let body = Body::Start {
            child: *child,
            deps: *deps,
        };
        let deed = Deed::Ask {
            action: *action,
            child: *child,
        };
        let deeds = one(self.alloc, &deed)?;
        let sent = one(self.alloc, &Sent { to: node, body })?;
        let stepped = self.own_event(deeds, sent, Note::Plain)?;
        Ok(stepped)
    }

    /// The name of the next child of an action, at a node and a count of it.
    fn next_child(&self, action: &Name, node: u8, count: u32) -> Name
        requires node { (1 ≤ node) × (node ≤ 8) }
        requires count { (1 ≤ count) × (count ≤ 1000000000) }
        requires free { IsFree (answers self.now).actions action.now (wants.Ask node) }
        requires few { asks (answers self.now).actions action.now < 1000000000 }
        ensures { result ≡ next_child (answers self.now).actions action.now node count }
    {
        let number = self.actions.asks(action) + 1;
        action
            .child(Part {
                node,
                count,
                number,
            })
            .unwrap()
    }
}
