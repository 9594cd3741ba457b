//! Whether a node may get an input now.
ghost use Rattle.std.specs.Prelude.{◌≡◌, ◌↔◌, IsTrue, IsFalse};
ghost use Rattle.cam_event.specs.Runs.{IsNode, IsWant};
ghost use Rattle.cam_node.specs.Calls.{answers};
ghost use Rattle.cam_node.specs.MayStep.{HasFewObjects, HasIndex, HasNumber, MayAsk, MayCome};
ghost use Rattle.cam_node.specs.MayStep.{MayBePutNow, MayStep, objects_of};
ghost use Rattle.cam_type.specs.Objects.{is_fit};

use crate::Input;
use crate::homes::home_of;
use crate::node::Node;
use crate::state::Core;
use cam_ckpt::CheckpointLog;
use cam_event::{Body, Letter, Request, Want};
use cam_type::{Op, fits};

impl<L: CheckpointLog> Node<L> {
    /// Whether [`Node::step`] takes an input that [`Node::refusal`] allows. Numbers must be left. For
    /// a request, the node must be the home of its action, and the op of a call must fit its object.
    /// A letter must be for this node, and for a Prepare at most 64 objects may be declared. The node
    /// is not halted. It takes no memory.
    ///
    /// It does not say whether a restart takes the index that a call gets: a restart takes none above
    /// 499,999,999.
    pub fn may_step(&self, input: &Input) -> bool
        requires running { IsFalse self.now.log.halted }
        ensures may { IsTrue result ↔ MayStep (answers self.now.core) input.now }
        // If nothing refuses it, the clauses of a step speak of it.
        ensures put { IsTrue result → MayBePutNow (answers self.now.core) input.now }
    {
        self.core.may_step(input)
    }
}

impl Core {
    /// Whether the node may get an input in this regard.
    fn may_step(&self, input: &Input) -> bool
        ensures { IsTrue result ↔ MayStep (answers self.now) input.now }
    {
        match input {
            Input::Begin => self.actions.tops() < 1_000_000_000,
            Input::Request(request) => self.may_ask(request),
            Input::Letter(_, letter) => self.may_come(letter),
            Input::Tell(to) => is_node(*to),
            Input::Query(_) => true,
        }
    }

    /// Whether the node may get a request.
    fn may_ask(&self, request: &Request) -> bool
        ensures { IsTrue result ↔ MayAsk (answers self.now) request.now.action request.now.want }
    {
        home_of(&request.action) == self.number
            && self.is_want(&request.want)
            && self.has_number(request)
    }

    /// Whether a child is asked for at one of the eight nodes, and a call is on an object of one of
    /// them, which its op fits.
    fn is_want(&self, want: &Want) -> bool
        ensures { IsTrue result ↔ IsWant (objects_of (answers self.now)) want.now }
    {
        match want {
            Want::Ask(node) => is_node(*node),
            Want::Call(object, op) => {
                self.fits(*object, op) && is_node(self.server.table().site_of(*object))
            }
            Want::Commit(_) | Want::Abort | Want::GiveUp(_) => true,
        }
    }

    /// Whether what a request makes has a number left.
    fn has_number(&self, request: &Request) -> bool
        ensures { IsTrue result ↔ HasNumber (answers self.now) request.now.action request.now.want }
    {
        match &request.want {
            Want::Ask(_) => self.actions.asks(&request.action) < 1_000_000_000,
            Want::Call(_, _) => self.actions.calls(&request.action) < 1_000_000_000,
            Want::Commit(_) | Want::Abort | Want::GiveUp(_) => true,
        }
    }

    /// Whether an object is declared and its op fits it.
    pub(crate) fn fits(&self, object: u8, op: &Op) -> bool
        ensures { result ≡ is_fit (objects_of (answers self.now)) object op.now }
    {
        let table = self.server.table();
        (object as usize) < table.object_count() && fits(table.kind(object), op)
    }

    /// Whether a letter may come to the node.
    fn may_come(&self, letter: &Letter) -> bool
        ensures { IsTrue result ↔ MayCome (answers self.now) letter.now }
    {
        is_node(letter.from)
            && self.has_index(&letter.body)
            && self.has_few_objects(&letter.body)
            && self.is_letter(letter)
    }

    /// Whether a call that comes has an index left.
    fn has_index(&self, body: &Body) -> bool
        ensures { IsTrue result ↔ HasIndex (answers self.now) body.now }
    {
        match body {
            Body::Call { .. } => self.server.table().next_index() <= 999_999_999,
            _ => true,
        }
    }

    /// Whether what a letter asks for can be logged.
    fn has_few_objects(&self, body: &Body) -> bool
        ensures { IsTrue result ↔ HasFewObjects (answers self.now) body.now }
    {
        match body {
            Body::Prepare { .. } => self.server.table().object_count() <= 64,
            _ => true,
        }
    }
}

/// Whether it is one of the eight nodes.
fn is_node(node: u8) -> bool
    ensures { IsTrue result ↔ IsNode node }
{
    1 <= node && node <= 8
}
