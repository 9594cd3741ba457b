//! The operations that were performed, and which of them are live.
ghost use Rattle.std.specs.Prelude.{◌≡◌, ◌∷◌, List, IfOk, OnOk, OnErr};
ghost use Rattle.cam_event.specs.declared.Deed.{Deed};
ghost use Rattle.cam_event.specs.declared.Deed.TheVariants.{Perform};
ghost use Rattle.cam_live.specs.Counted.{performed, stands, is_live, live_of};
ghost use Rattle.cam_live.specs.Settled.{is_handed_up, past_top_of};
ghost use Rattle.cam_live.specs.Tables.{Tells};

use crate::tables::{Tables, count_of, has_ancestor, lift};
use cam_base::{NoMemory, Sequence};
use cam_event::Operation;
use cam_names::Name;
use cam_type::{Answer, Objects, site_of};
use std::alloc::Global;

/// Operations, in the order in which they were performed.
pub type Operations = Sequence<Operation>;

/// A performed operation, with the count of its site at that time.
#[derive(Clone, Copy)]
pub(crate) struct Performed {
    operation: Operation,
    count: u64,
}

/// Performed operations, in the order in which they were performed.
pub(crate) type PerformedList = Sequence<Performed>;

/// Adds an operation, where its call was made.
pub(crate) fn perform(
    objects: &Objects,
    tables: &Tables,
    list: &mut PerformedList,
    action: &Name,
    number: u32,
    answer: Answer,
) -> Result<(), NoMemory>
    ensures noted { OnOk result ((L : List Deed) → Tells L tables.now
        → list.old ≡ performed objects.now L
        → list.new ≡ performed objects.now (Perform action.now number answer ∷ L)) }
    ensures failed { OnErr result (list.new ≡ list.old) }
{
    if let Some(asked) = tables.calls.get(&(*action, number)) {
        let operation = Operation {
            action: *action,
            number,
            object: asked.object,
            op: asked.op,
            answer,
        };
        let count = count_of(&tables.counts, site_of(objects, asked.object));
        list.push_copy(&Performed { operation, count })?;
    }
    Ok(())
}

/// Whether no crash has removed the operation.
fn stands(objects: &Objects, tables: &Tables, performed: &Performed) -> bool
    ensures { (L : List Deed) → Tells L tables.now → result ≡ stands objects.now L performed.now }
{
    let operation = &performed.operation;
    let site = site_of(objects, operation.object);
    if performed.count == count_of(&tables.counts, site) {
        return true;
    }
    match tables.secured.get(&(site, operation.action.family())) {
        Some(first) => *first <= performed.count,
        None => false,
    }
}

/// Whether the operation is live.
fn is_live(objects: &Objects, tables: &Tables, performed: &Performed) -> bool
    ensures { (L : List Deed) → Tells L tables.now → result ≡ is_live objects.now L performed.now }
{
    let site = site_of(objects, performed.operation.object);
    stands(objects, tables, performed)
        && !has_ancestor(&tables.aborted, site, &performed.operation.action)
}

/// Those of the performed operations that are live.
pub(crate) fn live_of(
    alloc: Global,
    objects: &Objects,
    tables: &Tables,
    list: &PerformedList,
) -> Result<Operations, NoMemory>
    ensures { IfOk result (λ operations. (L : List Deed) → Tells L tables.now
        → operations ≡ live_of objects.now L list.now) }
{
    let mut operations = Operations::new(alloc);
    for performed in list.as_slice() {
        if is_live(objects, tables, performed) {
            operations.push_copy(&performed.operation)?;
        }
    }
    Ok(operations)
}

/// Whether the operation is handed up past the top.
fn is_past_top(objects: &Objects, tables: &Tables, operation: &Operation) -> bool
    ensures { (L : List Deed) → Tells L tables.now
        → result ≡ is_handed_up objects.now L operation.now }
{
    let site = site_of(objects, operation.object);
    lift(&tables.committed, site, &operation.action).is_none()
}

/// Those of the operations that are handed up past the top.
pub(crate) fn past_top_of(
    alloc: Global,
    objects: &Objects,
    tables: &Tables,
    operations: &Operations,
) -> Result<Operations, NoMemory>
    ensures { IfOk result (λ settled. (L : List Deed) → Tells L tables.now
        → settled ≡ past_top_of objects.now L operations.now) }
{
    let mut settled = Operations::new(alloc);
    for operation in operations.as_slice() {
        if is_past_top(objects, tables, operation) {
            settled.push_copy(operation)?;
        }
    }
    Ok(settled)
}
