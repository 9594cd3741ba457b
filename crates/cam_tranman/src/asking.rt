//! What is asked of the actions, and the tests that a rule makes first. Nothing of it takes memory.
ghost use Rattle.std.specs.Prelude.{◌≡◌, ◌≤◌, eqb, nat_lt, not, ◌&&◌, ◌||◌, [], ◌∷◌, OnOk, IsOk};
ghost use Rattle.std.specs.Prelude.{option_map};
ghost use Rattle.cam_names.specs.Names.{home_node, home_count};
ghost use Rattle.cam_event.specs.Rules.{is_number};
ghost use Rattle.cam_tranman.specs.Tables.{answers};
ghost use Rattle.cam_tranman.specs.Actions.{created, ended, asks, calls, open_call};
ghost use Rattle.cam_tranman.specs.Calls.{AreSame, none_run, in_turn, has_call, has_child};
ghost use Rattle.cam_tranman.specs.Calls.{is_not_open, has_not_open, is_too_deep, refusal_by};
ghost use Rattle.cam_tranman.specs.Calls.{awaits_by, decides_by, taken_by};

use crate::children::Children;
use crate::homed::Homed;
use crate::steps::taken_at;
use crate::tables::{call_in, kept_in};
use crate::{OpenCall, Taken};
use cam_base::NoMemory;
use cam_event::{LineRefusal, Reply, Request, Want};
use cam_names::{Deps, Name};
use std::alloc::Global;
use std::collections::HashMap;

impl Homed {
    /// No action runs at this node, 1 to 8, at its count, 1 to 1,000,000,000.
    pub fn new(alloc: Global, node: u8, count: u32) -> Homed
        requires node { (1 ≤ node) × (node ≤ 8) }
        requires count { (1 ≤ count) × (count ≤ 1000000000) }
        ensures { AreSame (none_run node count) (answers result) }
    {
        Homed {
            node,
            count,
            tops: 0,
            actions: HashMap::new(alloc),
            calls: HashMap::new(alloc),
            children: Children::new(alloc),
        }
    }

    /// Makes room for one more of each: after it the next call takes no memory. What is answered
    /// stays the same.
    pub fn reserve(&mut self) -> Result<(), NoMemory>
        ensures same { AreSame (answers self.old) (answers self.new) }
        ensures ok { OnOk result (1 ≤ (answers self.new).room) }
        ensures succeeds { 1 ≤ (answers self.old).room → IsOk result }
    {
        self.actions.reserve(1)?;
        self.calls.reserve(1)?;
        self.children.reserve()
    }

    /// What stands against a request, if anything does. The caller is the action's home.
    pub fn refusal(&self, request: &Request) -> Option<LineRefusal>
        ensures { result ≡ refusal_by (answers self.now) request.now.action request.now.want }
    {
        let action = &request.action;
        if self.has_ended(action) {
            return Some(LineRefusal::Ended);
        }
        match request.want {
            Want::Ask(_) => self.refusal_to_ask(action),
            Want::Call(_, _) | Want::Commit(_) => self.refusal_to_go_on(action),
            Want::Abort => self.not_open(action),
            Want::GiveUp(child) => self.refusal_to_give_up(action, &child),
        }
    }

    /// What an action depends on. None if it was not created here.
    pub fn deps(&self, action: &Name) -> Option<Deps>
        ensures { result ≡ option_map (λ kept. kept.deps) ((answers self.now).action action.now) }
    {
        let kept = kept_in(&self.actions, action)?;
        Some(kept.deps)
    }

    /// How many top actions were begun.
    pub fn tops(&self) -> u32
        ensures { result ≡ (answers self.now).tops }
    {
        self.tops
    }

    /// How many children an action has asked for.
    pub fn asks(&self, action: &Name) -> u32
        ensures { result ≡ asks (answers self.now) action.now }
    {
        match kept_in(&self.actions, action) {
            Some(kept) => kept.asks,
            None => 0,
        }
    }

    /// How many calls an action has made.
    pub fn calls(&self, action: &Name) -> u32
        ensures { result ≡ calls (answers self.now) action.now }
    {
        match kept_in(&self.actions, action) {
            Some(kept) => kept.calls,
            None => 0,
        }
    }

    /// The call of an action that is not answered, if there is one.
    pub fn open_call(&self, action: &Name) -> Option<OpenCall>
        ensures { result ≡ (answers self.now).call action.now }
    {
        call_in(&self.calls, action)
    }

    /// Whether an action was created here.
    pub fn created(&self, action: &Name) -> bool
        ensures { result ≡ created (answers self.now) action.now }
    {
        kept_in(&self.actions, action).is_some()
    }

    /// Whether the answer to this call of an action is awaited: the action runs here and has not
    /// ended, and its open call has this number.
    pub fn awaits(&self, action: &Name, number: u32) -> bool
        ensures { result ≡ awaits_by (answers self.now) action.now number }
    {
        self.goes_on(action) && self.created(action) && self.has_open(action, number)
    }

    /// Whether a child may be started here: this node is its home, at the present count.
    pub fn may_start(&self, child: &Name) -> bool
        ensures { result ≡ (eqb (home_node child.now) (answers self.now).node
            && eqb (home_count child.now) (answers self.now).count) }
    {
        let (node, count) = child.home();
        node == self.node && count == self.count
    }

    /// What the answer to a call of an action makes of it, where the count of the call's site is
    /// known as `known`: what [`Homed::answer`] will say of it.
    pub fn taken(&self, action: &Name, number: u32, reply: &Reply, known: u32) -> Taken
        ensures { result ≡ taken_by (answers self.now) action.now number reply.now known }
    {
        if !self.awaits(action, number) {
            return Taken::Late;
        }
        match call_in(&self.calls, action) {
            Some(call) => taken_at(&call, reply, known),
            None => Taken::Late,
        }
    }

    /// Whether a child is to be decided: its parent runs here and has not ended, and the child is
    /// open.
    pub fn decides(&self, child: &Name) -> bool
        ensures { result ≡ decides_by (answers self.now) child.now }
    {
        match child.parent() {
            Some(parent) => self.goes_on(&parent) && self.children.contains(child),
            None => false,
        }
    }
}

impl Homed {
    fn ended(&self, action: &Name) -> bool
        ensures { result ≡ ended (answers self.now) action.now }
    {
        match kept_in(&self.actions, action) {
            Some(kept) => kept.ended,
            None => false,
        }
    }

    /// It has asked to commit or abort, or its home has crashed since it was named.
    fn has_ended(&self, action: &Name) -> bool
        ensures { result ≡ (ended (answers self.now) action.now
            || nat_lt (home_count action.now) (answers self.now).count) }
    {
        let (_node, count) = action.home();
        self.ended(action) || count < self.count
    }

    /// It is of the present incarnation, and has not ended.
    fn goes_on(&self, action: &Name) -> bool
        ensures { result ≡ (eqb (home_count action.now) (answers self.now).count
            && not (ended (answers self.now) action.now)) }
    {
        let (_node, count) = action.home();
        count == self.count && !self.ended(action)
    }

    /// Its open call has this number.
    fn has_open(&self, action: &Name, number: u32) -> bool
        ensures { result ≡ is_number number (open_call (answers self.now) action.now) }
    {
        match call_in(&self.calls, action) {
            Some(call) => call.number == number,
            None => false,
        }
    }

    fn not_open(&self, action: &Name) -> Option<LineRefusal>
        ensures { result ≡ is_not_open (answers self.now) action.now }
    {
        if self.created(action) {
            None
        } else {
            Some(LineRefusal::NotOpen)
        }
    }

    fn refusal_to_ask(&self, action: &Name) -> Option<LineRefusal>
        ensures { result ≡ in_turn (has_call (answers self.now) action.now
            ∷ is_not_open (answers self.now) action.now ∷ is_too_deep action.now ∷ []) }
    {
        if self.open_call(action).is_some() {
            return Some(LineRefusal::OpenCall);
        }
        if !self.created(action) {
            return Some(LineRefusal::NotOpen);
        }
        if action.depth() >= 8 {
            return Some(LineRefusal::TooDeep);
        }
        None
    }

    fn refusal_to_go_on(&self, action: &Name) -> Option<LineRefusal>
        ensures { result ≡ in_turn (has_call (answers self.now) action.now
            ∷ has_child (answers self.now) action.now ∷ is_not_open (answers self.now) action.now
            ∷ []) }
    {
        if self.open_call(action).is_some() {
            return Some(LineRefusal::OpenCall);
        }
        if self.children.has_any(action) {
            return Some(LineRefusal::OpenChild);
        }
        self.not_open(action)
    }

    fn refusal_to_give_up(&self, action: &Name, child: &Name) -> Option<LineRefusal>
        ensures { result ≡ has_not_open (answers self.now) action.now child.now }
    {
        if self.created(action) && action.is_parent(child) && self.children.contains(child) {
            None
        } else {
            Some(LineRefusal::NotOpen)
        }
    }
}
