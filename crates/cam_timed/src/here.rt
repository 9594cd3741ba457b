//! What a node goes by at an event of a run by time, asked of tables.
ghost use Rattle.std.specs.Prelude.{reverse};
ghost use Rattle.cam_timed.specs.Moments.{events};
ghost use Rattle.cam_timed.specs.KeptSights.{kept_sight};
ghost use Rattle.cam_timed.specs.Here.{StandHere};

use crate::TimedTrace;
use cam_base::NoMemory;
use cam_event::{Deeds, Operation, Reply};
use cam_names::{Deps, Name};
use cam_own::{AllNodes, Own, answer, conflict};
use cam_rules::{Asked, Sighted};
use cam_type::{Answer, Objects, Op};
use std::alloc::Global;

/// A node at an event, after the first Informs: the tables of its own deeds and of all deeds,
/// which have these Informs too, and the events before.
#[derive(Clone, Copy)]
pub(crate) struct Here<'a> {
    pub(crate) alloc: Global,
    pub(crate) objects: &'a Objects,
    pub(crate) node: u8,
    pub(crate) own: &'a Own,
    pub(crate) all_nodes: &'a AllNodes,
    pub(crate) trace: &'a TimedTrace,
    pub(crate) first: &'a Deeds,
}

impl<'a> Sighted for Here<'a> {
    ghost sight = { λ h. kept_sight h.objects.now (events (reverse h.trace.now)) h.node h.first.now };

    ghost stands = { λ h. StandHere h.objects.now (events (reverse h.trace.now)) h.node h.first.now
        h.own.now h.all_nodes.now };

    fn node(&self) -> u8 {
        self.node
    }

    fn count(&self) -> u32 {
        1
    }

    fn known_count(&self, _node: u8) -> u32 {
        1
    }

    fn tops(&self) -> u64 {
        self.own.tops(self.node, 1)
    }

    fn created(&self, action: &Name) -> bool {
        self.own.created(action)
    }

    fn ended(&self, action: &Name) -> bool {
        self.own.ended(action)
    }

    fn asks(&self, action: &Name) -> u64 {
        self.own.asks(action)
    }

    fn calls(&self, action: &Name) -> u64 {
        self.own.calls(action)
    }

    fn open_call(&self, action: &Name) -> Option<u32> {
        self.own.open_call(action)
    }

    fn call(&self, action: &Name, number: u32) -> Option<Asked> {
        match self.own.call(action, number) {
            Some(call) => Some(Asked {
                object: call.object,
                op: call.op,
                count: call.count,
            }),
            None => None,
        }
    }

    fn has_open_child(&self, action: &Name) -> bool {
        self.own.has_open_child(action)
    }

    fn is_open_child(&self, action: &Name, child: &Name) -> bool {
        self.own.is_open_child(action, child)
    }

    fn kept_reply(&self, action: &Name, number: u32) -> Option<Reply> {
        self.own.kept_reply(action, number)
    }

    fn is_secured(&self, family: &Name) -> bool {
        self.own.is_secured(family)
    }

    fn lift(&self, action: &Name) -> Option<Name> {
        self.own.lift(action)
    }

    fn has_live_of(&self, family: &Name) -> bool {
        self.all_nodes.has_live_of(self.objects, self.node, family)
    }

    fn conflict(&self, action: &Name, object: u8, op: &Op) -> Option<Operation> {
        let live = self.all_nodes.live_on(self.objects, self.node, object);
        conflict(self.own, live, action, object, op)
    }

    fn answer(&self, objects: &Objects, object: u8, op: &Op) -> Result<Answer, NoMemory> {
        let live = self.all_nodes.live_on(self.objects, self.node, object);
        answer(objects, live, object, op)
    }

    fn knows_abort(&self, action: &Name) -> bool {
        self.own.has_abort(action)
    }

    fn knows_commit(&self, action: &Name) -> bool {
        self.own.has_commit(action)
    }

    fn deps(&self, action: &Name) -> Deps {
        self.all_nodes.nodes(action)
    }

    fn is_preparing(&self, family: &Name) -> bool {
        self.own.is_preparing(family)
    }

    fn has_vote(&self, family: &Name, node: u8, count: u32) -> bool {
        self.own.has_vote(family, node, count)
    }
}
