//! What is kept of the deeds of all nodes together: calls, live operations, and what actions depend on.
ghost use Rattle.std.specs.Prelude.{◌≡◌, ◌≤◌, ◌∷◌, [], ℕ, List, filter, find, eqb, ◌&&◌, IfOk, OnOk};
ghost use Rattle.std.specs.List.{list_any};
ghost use Rattle.cam_names.specs.Names as names;
ghost use Rattle.cam_names.specs.Names.{name_eq};
ghost use Rattle.cam_type.specs.Moss.{conflicts};
ghost use Rattle.cam_type.specs.Table.{answer_of};
ghost use Rattle.cam_type.specs.declared.ObjectDecl.{ObjectDecl};
ghost use Rattle.cam_event.specs.declared.Deed.{Deed as DeedValue};
ghost use Rattle.cam_event.specs.Gained.{deps};
ghost use Rattle.cam_event.specs.Live.{live_at, lift, start_of, replay};
ghost use Rattle.cam_event.specs.Sights.{Entry};
ghost use Rattle.cam_own.specs.Depending.{nodes_of};
ghost use Rattle.cam_own.specs.Own.{KeepsOwn};
ghost use Rattle.cam_own.specs.Replies.{IsNoCrash};
ghost use Rattle.cam_own.specs.AllNodes.{KeepsAllNodes};

use crate::depending::{Depending, nodes_in, note_gain};
use crate::live::{Live, has_live_of, note_live};
use crate::own::Own;
use cam_base::NoMemory;
use cam_event::{Deed, Operation};
use cam_live::{Ledger, Operations, value_after};
use cam_names::{Deps, Name};
use cam_type::{Answer, Objects, Op, apply, compatible, mode_of, site_of};
use std::alloc::Global;

/// What is kept of the deeds of all nodes.
#[derive(Drop)]
pub struct AllNodes {
    ledger: Ledger,
    depending: Depending,
    live: Live,
    /// The operations on an object that has none.
    none: Operations,
}

impl AllNodes {
    /// Nothing has happened.
    pub fn new(alloc: Global) -> AllNodes
        ensures { (objects : List ObjectDecl) → KeepsAllNodes objects [] result }
    {
        AllNodes {
            ledger: Ledger::new(alloc),
            depending: Depending::new(alloc),
            live: Live::new(alloc),
            none: Operations::new(alloc),
        }
    }

    /// Takes one more deed, which is no crash.
    pub fn note(&mut self, alloc: Global, objects: &Objects, deed: &Deed) -> Result<(), NoMemory>
        requires { IsNoCrash deed.now }
        ensures { OnOk result ((L : List DeedValue) → KeepsAllNodes objects.now L self.old
            → KeepsAllNodes objects.now (deed.now ∷ L) self.new) }
    {
        note_gain(&mut self.depending, objects, &self.ledger, deed)?;
        note_live(&mut self.live, alloc, objects, &self.ledger, deed)?;
        self.ledger.note(objects, deed)
    }

    /// The nodes on which an action depends, each at count 1.
    pub fn nodes(&self, action: &Name) -> Deps
        ensures { (objects : List ObjectDecl) (L : List DeedValue) → KeepsAllNodes objects L self.now
            → result ≡ nodes_of (deps objects L action.now) }
    {
        // A name has a part.
        prove!(action.depth() > 0);
        nodes_in(&self.depending, action)
    }

    /// The live operations on an object of a site: none if the object is elsewhere.
    pub fn live_on(&self, objects: &Objects, site: u8, object: u8) -> &Operations
        requires { 1 ≤ site }
        ensures { (L : List DeedValue) → KeepsAllNodes objects.now L self.now
            → result.now ≡ filter (λ o. eqb o.object object) (live_at objects.now L site) }
    {
        if site_of(objects, object) != site {
            return &self.none;
        }
        match self.live.get(&(object as usize)) {
            Some(operations) => operations,
            None => &self.none,
        }
    }

    /// Whether an operation of the family is live at a site.
    pub fn has_live_of(&self, objects: &Objects, site: u8, family: &Name) -> bool
        requires { 1 ≤ site }
        ensures { (L : List DeedValue) → KeepsAllNodes objects.now L self.now
            → result ≡ list_any (λ o. name_eq family.now (names.family o.action))
            (live_at objects.now L site) }
    {
        has_live_of(&self.live, objects, site, family)
    }
}

/// Whether an operation with this lift conflicts with an op of an action.
fn conflicts(action: &Name, op: &Op, lift: &Option<Name>, done: &Op) -> bool
    ensures { result ≡ conflicts action.now op.now lift.now done.now }
{
    match lift {
        None => false,
        Some(lift) => !lift.is_ancestor(action) && !compatible(mode_of(done), mode_of(op)),
    }
}

/// Whether an operation is on the object and conflicts with an op of an action, by its lift at a node.
fn is_conflict(own: &Own, action: &Name, object: u8, op: &Op, operation: &Operation) -> bool
    ensures { (objects : List ObjectDecl) (s : ℕ) (L : List DeedValue) (E : List Entry)
        → KeepsOwn objects s L E own.now
        → result ≡ (eqb operation.now.object object
        && conflicts action.now op.now (lift L s operation.now.action) operation.now.op) }
{
    operation.object == object && conflicts(action, op, &own.lift(&operation.action), &operation.op)
}

/// The first of the operations on the object that conflicts with an op of an action, by their lifts at a
/// node.
pub fn conflict(
    own: &Own,
    operations: &Operations,
    action: &Name,
    object: u8,
    op: &Op,
) -> Option<Operation>
    ensures { (objects : List ObjectDecl) (s : ℕ) (L : List DeedValue) (E : List Entry)
        → KeepsOwn objects s L E own.now
        → result ≡ find (λ o. conflicts action.now op.now (lift L s o.action) o.op)
        (filter (λ o. eqb o.object object) operations.now) }
{
    for operation in operations.as_slice() {
        if is_conflict(own, action, object, op, operation) {
            return Some(*operation);
        }
    }
    None
}

/// What an op answers at the value of an object that these operations leave.
pub fn answer(
    objects: &Objects,
    operations: &Operations,
    object: u8,
    op: &Op,
) -> Result<Answer, NoMemory>
    ensures { IfOk result (λ answer. answer ≡ answer_of
        (replay (start_of objects.now object) (filter (λ o. eqb o.object object) operations.now))
        op.now) }
{
    let mut state = value_after(objects, object as usize, operations)?;
    apply(&mut state, op)
}
