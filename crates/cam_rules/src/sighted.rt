//! What a rule asks of a node at an event.
ghost use Rattle.std.specs.Prelude.{◌≡◌, ◌≤◌, [], find, unwrap_or, IfOk};
ghost use Rattle.std.specs.List.{list_any};
ghost use Rattle.cam_names.specs.Dependencies.{has_pair};
ghost use Rattle.cam_names.specs.Names as names;
ghost use Rattle.cam_names.specs.Names.{name_eq};
ghost use Rattle.cam_type.specs.Table.{answer_of};
ghost use Rattle.cam_event.specs.History as history;
ghost use Rattle.cam_event.specs.Live.{start_of, replay};
ghost use Rattle.cam_event.specs.Rules as rules;
ghost use Rattle.cam_event.specs.Sights as sights;
ghost use Rattle.cam_event.specs.Sights.{Sight, present};
ghost use Rattle.cam_rules.specs.Untested.{addressed};

use cam_base::NoMemory;
use cam_event::{Operation, Reply};
use cam_names::{Deps, Name};
use cam_type::{Answer, Objects, Op};

/// What a call asked, and the count at which the object's node was addressed.
#[derive(Clone, Copy, Debug)]
pub struct Asked {
    pub object: u8,
    pub op: Op,
    pub count: u32,
}

/// What a rule asks of a node at an event: each method answers by what the node goes by, its sight.
pub trait Sighted {
    /// What the node goes by.
    ghost sight: { Self → Sight };

    /// What is kept stands for it.
    ghost stands: { Self → Type 0 };

    /// The node.
    fn node(&self) -> u8
        requires { stands self.now }
        ensures value { result ≡ (sight self.now).node }
        ensures range { (1 ≤ result) × (result ≤ 8) };

    /// Its count.
    fn count(&self) -> u32
        requires { stands self.now }
        ensures value { result ≡ present (sight self.now) }
        ensures range { (1 ≤ result) × (result ≤ 1000000000) };

    /// The count of a node as it is known.
    fn known_count(&self, node: u8) -> u32
        requires { stands self.now }
        ensures value { result ≡ (sight self.now).known_count node }
        ensures range { (1 ≤ result) × (result ≤ 1000000000) };

    /// How many top actions were begun here at the present count.
    fn tops(&self) -> u64
        requires { stands self.now }
        ensures { result ≡ history.tops (sight self.now).deeds (sight self.now).node
            (present (sight self.now)) };

    /// Whether an action was created here.
    fn created(&self, action: &Name) -> bool
        requires { stands self.now }
        ensures { result ≡ history.created (sight self.now).deeds action.now };

    /// Whether it has asked to commit or to abort.
    fn ended(&self, action: &Name) -> bool
        requires { stands self.now }
        ensures { result ≡ history.ended (sight self.now).deeds action.now };

    /// How many children it has asked for.
    fn asks(&self, action: &Name) -> u64
        requires { stands self.now }
        ensures { result ≡ history.asks (sight self.now).deeds action.now };

    /// How many calls it has made.
    fn calls(&self, action: &Name) -> u64
        requires { stands self.now }
        ensures { result ≡ history.calls (sight self.now).deeds action.now };

    /// The number of its open call.
    fn open_call(&self, action: &Name) -> Option<u32>
        requires { stands self.now }
        ensures { result ≡ history.open_call (sight self.now).deeds action.now };

    /// What its call of this number asked.
    fn call(&self, action: &Name, number: u32) -> Option<Asked>
        requires { stands self.now }
        ensures { addressed result
            ≡ history.call_of (sight self.now).deeds action.now number };

    /// Whether a child of it is open.
    fn has_open_child(&self, action: &Name) -> bool
        requires { stands self.now }
        ensures { result ≡ history.has_open_child (sight self.now).deeds action.now };

    /// Whether this child of it is open.
    fn is_open_child(&self, action: &Name, child: &Name) -> bool
        requires { stands self.now }
        ensures { result ≡ history.is_open_child (sight self.now).deeds action.now child.now };

    /// The reply that a call was given at the present count.
    fn kept_reply(&self, action: &Name, number: u32) -> Option<Reply>
        requires { stands self.now }
        ensures { result ≡ sights.kept_reply (sight self.now).deeds action.now number };

    /// Whether a family is secured here.
    fn is_secured(&self, family: &Name) -> bool
        requires { stands self.now }
        ensures { result ≡ history.secured_at (sight self.now).deeds family.now
            (sight self.now).node };

    /// The lift of an action at this site.
    fn lift(&self, action: &Name) -> Option<Name>
        requires { stands self.now }
        ensures { result ≡ rules.lift_here (sight self.now) action.now };

    /// Whether a live operation here is of the family.
    fn has_live_of(&self, family: &Name) -> bool
        requires { stands self.now }
        ensures { result ≡ list_any (λ o. name_eq family.now (names.family o.action))
            (sight self.now).live };

    /// The first live operation on the object that conflicts with an op of an action.
    fn conflict(&self, action: &Name, object: u8, op: &Op) -> Option<Operation>
        requires { stands self.now }
        ensures { result ≡ find (rules.is_conflict_here (sight self.now) action.now op.now)
            (rules.on_object object (sight self.now).live) };

    /// What an op answers at the value of the object that the live operations leave. Memory may run
    /// out.
    fn answer(&self, objects: &Objects, object: u8, op: &Op) -> Result<Answer, NoMemory>
        requires { stands self.now }
        ensures { IfOk result (λ answer. answer
            ≡ answer_of (replay (start_of objects.now object)
            (rules.on_object object (sight self.now).live)) op.now) };

    /// Whether the abort of an action is known.
    fn knows_abort(&self, action: &Name) -> bool
        requires { stands self.now }
        ensures { result ≡ (sight self.now).knows_abort action.now };

    /// Whether its commit is known.
    fn knows_commit(&self, action: &Name) -> bool
        requires { stands self.now }
        ensures { result ≡ (sight self.now).knows_commit action.now };

    /// What an action depends on.
    fn deps(&self, action: &Name) -> Deps
        requires { stands self.now }
        ensures { result ≡ (sight self.now).deps action.now };

    /// Whether a family is preparing here.
    fn is_preparing(&self, family: &Name) -> bool
        requires { stands self.now }
        ensures { result ≡ sights.is_preparing (sight self.now) family.now };

    /// Whether a node at a count has voted yes for a family that is preparing.
    fn has_vote(&self, family: &Name, node: u8, count: u32) -> bool
        requires { stands self.now }
        ensures { result ≡ has_pair (unwrap_or (sights.votes (sight self.now).events family.now) [])
            node count };
}
