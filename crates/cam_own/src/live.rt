//! The live operations of each object, in the order in which they were performed, deed by deed.
ghost use Rattle.std.specs.Prelude.{◌≡◌, ◌≤◌, ◌∷◌, ◌++◌, [], false, eqb, ℕ, List, IfOk, OnOk};
ghost use Rattle.std.specs.List.{list_any};
ghost use Rattle.cam_names.specs.Names as names;
ghost use Rattle.cam_names.specs.Names.{ancestors, name_eq};
ghost use Rattle.cam_type.specs.declared.ObjectDecl.{ObjectDecl};
ghost use Rattle.cam_type.specs.Objects.{site_of};
ghost use Rattle.cam_event.specs.declared.Deed.{Deed as DeedValue};
ghost use Rattle.cam_event.specs.declared.Deed.TheVariants.{Inform, Perform};
ghost use Rattle.cam_event.specs.History.{informed};
ghost use Rattle.cam_event.specs.Live.{live_at};
ghost use Rattle.cam_live.specs.Ledger.{Keeps};
ghost use Rattle.cam_own.specs.Live.{KeepsLive, Puts, operations_in, without_below};
ghost use Rattle.cam_own.specs.Replies.{IsNoCrash};

use cam_base::NoMemory;
use cam_event::{Deed, Operation};
use cam_live::{Ledger, Operations};
use cam_names::Name;
use cam_type::{Answer, Objects, site_of};
use std::alloc::Global;
use std::collections::HashMap;

/// The live operations of each object, found by its place.
pub(crate) type Live = HashMap<usize, Operations>;

/// Takes out the live operations of an object.
fn take_out(live: &mut Live, alloc: Global, object: usize) -> Operations
    ensures value { result ≡ operations_in live.old object }
    ensures others { (x : ℕ) → eqb object x ≡ false
        → operations_in live.new x ≡ operations_in live.old x }
{
    match live.remove(&object) {
        Some(operations) => operations,
        None => Operations::new(alloc),
    }
}

/// Whether the site was informed of the abort of an ancestor of the action.
fn is_lost(ledger: &Ledger, site: u8, action: &Name) -> bool
    ensures { (objects : List ObjectDecl) (L : List DeedValue) → Keeps objects L ledger.now
        → result ≡ list_any (λ u. informed L site u false) (ancestors action.now) }
{
    match action.parent() {
        None => ledger.has_abort(site, action),
        Some(parent) => ledger.has_abort(site, action) || is_lost(ledger, site, &parent),
    }
}

/// One more operation of an object is live.
fn add(live: &mut Live, alloc: Global, operation: &Operation) -> Result<(), NoMemory>
    ensures { OnOk result (Puts operation.now.object
        (operations_in live.old operation.now.object ++ operation.now ∷ []) live.old live.new) }
{
    let object = operation.object as usize;
    let mut operations = take_out(live, alloc, object);
    operations.push_copy(operation)?;
    live.insert(object, operations)?;
    Ok(())
}

/// An operation is performed: it is live, unless its site was informed of the abort of an ancestor.
fn note_perform(
    live: &mut Live,
    alloc: Global,
    objects: &Objects,
    ledger: &Ledger,
    action: &Name,
    number: u32,
    answer: Answer,
) -> Result<(), NoMemory>
    ensures { OnOk result ((L : List DeedValue) → Keeps objects.now L ledger.now
        → KeepsLive objects.now L live.old
        → KeepsLive objects.now (Perform action.now number answer ∷ L) live.new) }
{
    let Some(call) = ledger.call(action, number) else {
        return Ok(());
    };
    if is_lost(ledger, site_of(objects, call.object), action) {
        return Ok(());
    }
    let operation = Operation {
        action: *action,
        number,
        object: call.object,
        op: call.op,
        answer,
    };
    add(live, alloc, &operation)
}

/// The operations but for those of an action and of all below it.
fn without_below(
    alloc: Global,
    operations: &Operations,
    name: &Name,
) -> Result<Operations, NoMemory>
    ensures { IfOk result (λ left. left ≡ without_below name.now operations.now) }
{
    let mut left = Operations::new(alloc);
    for operation in operations.as_slice() {
        if !name.is_ancestor(&operation.action) {
            left.push_copy(operation)?;
        }
    }
    Ok(left)
}

/// Whether one of the operations is of the action or of one below it.
fn any_below(operations: &Operations, name: &Name) -> bool
    ensures { result ≡ list_any (λ o. names.is_ancestor name.now o.action) operations.now }
{
    for operation in operations.as_slice() {
        if name.is_ancestor(&operation.action) {
            return true;
        }
    }
    false
}

/// Whether an operation of the action or of one below it is live at an object.
fn has_below(live: &Live, object: usize, name: &Name) -> bool
    ensures { result ≡ list_any (λ o. names.is_ancestor name.now o.action)
        (operations_in live.now object) }
{
    match live.get(&object) {
        Some(operations) => any_below(operations, name),
        None => false,
    }
}

/// Drops the operations of an action and of all below it at an object: if there is none the
/// table stays.
fn drop_at(live: &mut Live, alloc: Global, object: usize, name: &Name) -> Result<(), NoMemory>
    ensures { OnOk result (Puts object
        (without_below name.now (operations_in live.old object)) live.old live.new) }
{
    if !has_below(live, object, name) {
        return Ok(());
    }
    let operations = take_out(live, alloc, object);
    let left = without_below(alloc, &operations, name)?;
    live.insert(object, left)?;
    Ok(())
}

/// The node of the object at a place, or 0 if none is declared there.
fn site_at(objects: &Objects, place: usize) -> u8
    ensures { result ≡ site_of objects.now place }
{
    match objects.get(place) {
        Some(declared) => declared.node,
        None => 0,
    }
}

/// A site is informed of an abort: the operations of the action and of all below it are dropped at
/// each of its objects.
fn note_abort(
    live: &mut Live,
    alloc: Global,
    objects: &Objects,
    site: u8,
    name: &Name,
) -> Result<(), NoMemory>
    ensures { OnOk result ((L : List DeedValue) → KeepsLive objects.now L live.old
        → KeepsLive objects.now (Inform site name.now false ∷ L) live.new) }
{
    for place in 0..objects.len() {
        if site_at(objects, place) == site {
            drop_at(live, alloc, place, name)?;
        }
    }
    Ok(())
}

/// A site is informed of an outcome: a commit leaves all live.
fn note_inform(
    live: &mut Live,
    alloc: Global,
    objects: &Objects,
    site: u8,
    name: &Name,
    committed: bool,
) -> Result<(), NoMemory>
    ensures { OnOk result ((L : List DeedValue) → KeepsLive objects.now L live.old
        → KeepsLive objects.now (Inform site name.now committed ∷ L) live.new) }
{
    if committed {
        return Ok(());
    }
    note_abort(live, alloc, objects, site, name)
}

/// Keeps what one more deed says of live operations.
pub(crate) fn note_live(
    live: &mut Live,
    alloc: Global,
    objects: &Objects,
    ledger: &Ledger,
    deed: &Deed,
) -> Result<(), NoMemory>
    requires { IsNoCrash deed.now }
    ensures { OnOk result ((L : List DeedValue) → Keeps objects.now L ledger.now
        → KeepsLive objects.now L live.old → KeepsLive objects.now (deed.now ∷ L) live.new) }
{
    match deed {
        Deed::Perform {
            action,
            number,
            answer,
        } => note_perform(live, alloc, objects, ledger, action, *number, *answer),
        Deed::Inform {
            site,
            name,
            committed,
        } => note_inform(live, alloc, objects, *site, name, *committed),
        _ => Ok(()),
    }
}

/// Whether one of the operations is of the family.
fn has_family(operations: &Operations, family: &Name) -> bool
    ensures { result ≡ list_any (λ o. name_eq family.now (names.family o.action)) operations.now }
{
    for operation in operations.as_slice() {
        if *family == operation.action.family() {
            return true;
        }
    }
    false
}

/// Whether an operation of the family is live at an object.
fn has_family_at(live: &Live, object: usize, family: &Name) -> bool
    ensures { result ≡ list_any (λ o. name_eq family.now (names.family o.action))
        (operations_in live.now object) }
{
    match live.get(&object) {
        Some(operations) => has_family(operations, family),
        None => false,
    }
}

/// Whether an operation of the family is live at a site.
pub(crate) fn has_live_of(live: &Live, objects: &Objects, site: u8, family: &Name) -> bool
    requires { 1 ≤ site }
    ensures { (L : List DeedValue) → KeepsLive objects.now L live.now
        → result ≡ list_any (λ o. name_eq family.now (names.family o.action))
        (live_at objects.now L site) }
{
    for place in 0..objects.len() {
        if site_at(objects, place) == site && has_family_at(live, place, family) {
            return true;
        }
    }
    false
}
