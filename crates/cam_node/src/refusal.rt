//! Why an input is refused. A halted node takes none. A query has nothing to ask if the node knows
//! how the family ended, or has neither secured the family nor a live operation of it. A node has
//! nothing to tell itself.
ghost use Rattle.std.specs.Prelude.{◌≡◌, ◌||◌, List, IsFalse, None};
ghost use Rattle.cam_type.specs.declared.ObjectDecl.{ObjectDecl};
ghost use Rattle.cam_event.specs.Refusals.{tell_refusal};
ghost use Rattle.cam_locks.specs.Calls.{has_family};
ghost use Rattle.cam_tranman.specs.Calls.{refusal_by};
ghost use Rattle.cam_node.specs.Calls.{answers};
ghost use Rattle.cam_node.specs.Halting.{IsQueryRefusal, IsRefusal};
ghost use Rattle.cam_node.specs.Refused.{refusal_of, refused_by, IsNotRefused, IsRefusalOf};
ghost use Rattle.cam_node.specs.Refused.{query_refusal_by};

use crate::Input;
use crate::node::Node;
use crate::state::Core;
use cam_ckpt::CheckpointLog;
use cam_event::{LineRefusal, Request};
use cam_names::Name;

impl Core {
    /// Why a request of an action is refused, if it is: the first test of the rule that holds. It
    /// takes no memory.
    pub(crate) fn refusal(&self, request: &Request) -> Option<LineRefusal>
        ensures rule { (objects : List ObjectDecl)
            → IsRefusal objects (answers self.now) request.now.action request.now.want result }
        ensures value { result
            ≡ refusal_by (answers self.now).actions request.now.action request.now.want }
    {
        self.actions.refusal(request)
    }

    /// Why an input is refused, if it is, of a node that is not halted. It takes no memory.
    fn stands_against(&self, input: &Input) -> Option<LineRefusal>
        ensures value { result ≡ refused_by (answers self.now) input.now }
        ensures rule { (objects : List ObjectDecl)
            → IsRefusalOf objects (answers self.now) input.now result }
    {
        match input {
            Input::Request(request) => self.refusal(request),
            Input::Tell(to) => self.tell_refusal(*to),
            Input::Query(family) => self.query_refusal(family),
            Input::Begin | Input::Letter(_, _) => None,
        }
    }

    /// Why telling a node what is known is refused, if it is.
    fn tell_refusal(&self, to: u8) -> Option<LineRefusal>
        ensures { result ≡ tell_refusal (answers self.now).number to }
    {
        if to == self.number {
            Some(LineRefusal::NothingToDo)
        } else {
            None
        }
    }

    /// Why asking the home of a family how the family ended is refused, if it is. It takes no memory.
    pub(crate) fn query_refusal(&self, family: &Name) -> Option<LineRefusal>
        ensures rule { (objects : List ObjectDecl)
            → IsQueryRefusal objects (answers self.now) family.now result }
        ensures value { result ≡ query_refusal_by (answers self.now) family.now }
    {
        if self.knowing.tells(family) {
            return Some(LineRefusal::NothingToDo);
        }
        if self.has_something_of(family) {
            None
        } else {
            Some(LineRefusal::NothingToDo)
        }
    }

    /// Whether the node takes part in a family: it has secured it, or has a live operation of it.
    fn has_something_of(&self, family: &Name) -> bool
        ensures { result ≡ ((answers self.now).families.is_secured family.now
            || has_family (answers self.now).server.table.site family.now) }
    {
        self.families.is_secured(family) || self.server.table().has_family(family)
    }
}

impl<L: CheckpointLog> Node<L> {
    /// Why an input cannot be taken now. Nothing is taken by a halted node. Of a node that is not
    /// halted it is, for a request, the first test of the rule that holds; a letter and a begin are
    /// never refused. It takes no memory.
    pub fn refusal(&self, input: &Input) -> Option<LineRefusal>
        ensures exactly { result
            ≡ refusal_of self.now.log.halted (answers self.now.core) input.now }
        // By the history it is the refusal of the rules, for a request if the node is the action's home.
        ensures rule { IsFalse self.now.log.halted → (objects : List ObjectDecl)
            → IsRefusalOf objects (answers self.now.core) input.now result }
        ensures runs { result ≡ None → IsFalse self.now.log.halted }
        ensures free { result ≡ None → IsNotRefused (answers self.now.core) input.now }
    {
        if self.log.is_halted() {
            Some(LineRefusal::Halted)
        } else {
            self.core.stands_against(input)
        }
    }
}
