//! What a restart reads off the held operations and the known outcomes.
ghost use Rattle.std.specs.Prelude.{◌≡◌, ◌+◌, ◌≤◌, ◌++◌, max, OnOk, IfOk, flat_map, map};
ghost use Rattle.cam_know.specs.Known.{committed_name, aborted_name};
ghost use Rattle.cam_locks.specs.Names.{once, TakesIn};
ghost use Rattle.cam_locks.specs.Restored.{of_family, ops_of, in_order, next_of, all_held, EachOnce, InRange};

use crate::names::Names;
use crate::{LiveOp, LiveOps};
use cam_base::NoMemory;
use cam_know::{Know, Outcome};
use cam_names::Name;
use cam_type::{Held, HeldOp};
use std::alloc::Global;

/// The operations of each held family whose abort is not known.
pub(crate) fn kept_operations(
    alloc: Global,
    held: &[Held],
    know: &Know,
) -> Result<LiveOps, NoMemory>
    ensures { IfOk result (λ kept. kept ≡ flat_map (ops_of know.now) held.now) }
{
    let mut kept = LiveOps::new(alloc);
    for family in held {
        keep_family(&mut kept, family, know)?;
    }
    Ok(kept)
}

/// Adds the operations of a held family, unless its abort is known.
fn keep_family(kept: &mut LiveOps, family: &Held, know: &Know) -> Result<(), NoMemory>
    ensures { OnOk result (kept.new ≡ kept.old ++ ops_of know.now family.now) }
{
    if know.is_aborted(&family.family) {
        return Ok(());
    }
    add_family(kept, &family.family, family.ops.as_slice())
}

/// Adds held operations, with their family as their action.
fn add_family(kept: &mut LiveOps, family: &Name, ops: &[HeldOp]) -> Result<(), NoMemory>
    ensures { OnOk result (kept.new ≡ kept.old ++ map (of_family family.now) ops.now) }
{
    for op in ops {
        kept.push_copy(&of_family(family, op))?;
    }
    Ok(())
}

/// A held operation, with its family as its action.
fn of_family(family: &Name, op: &HeldOp) -> LiveOp
    ensures { result ≡ of_family family.now op.now }
{
    LiveOp {
        index: op.index,
        action: *family,
        object: op.object,
        op: op.op,
    }
}

/// The operations in order of their indices, of which each stands once.
pub(crate) fn in_order(alloc: Global, operations: &[LiveOp]) -> Result<Vec<LiveOp>, NoMemory>
    requires { EachOnce operations.now }
    ensures { IfOk result (λ ordered. ordered.items ≡ in_order operations.now) }
{
    let mut ordered = Vec::new(alloc);
    ordered.extend_from_slice(operations)?;
    ordered.sort_unstable_by_key(|operation| operation.index);
    Ok(ordered)
}

/// The actions whose commit is among the outcomes.
pub(crate) fn committed_names(alloc: Global, outcomes: &[Outcome]) -> Result<Names, NoMemory>
    ensures { IfOk result (λ names. names.names ≡ once (flat_map committed_name outcomes.now)) }
{
    let mut names = Names::new(alloc);
    for outcome in outcomes {
        add_if_committed(&mut names, outcome)?;
    }
    Ok(names)
}

/// Adds the action of which the outcome is a commit.
fn add_if_committed(names: &mut Names, outcome: &Outcome) -> Result<(), NoMemory>
    ensures { OnOk result (TakesIn (committed_name outcome.now) names.old.names names.new.names) }
{
    match outcome {
        Outcome::Committed(name, _) => names.add(name),
        _ => Ok(()),
    }
}

/// The actions whose abort is among the outcomes.
pub(crate) fn aborted_names(alloc: Global, outcomes: &[Outcome]) -> Result<Names, NoMemory>
    ensures { IfOk result (λ names. names.names ≡ once (flat_map aborted_name outcomes.now)) }
{
    let mut names = Names::new(alloc);
    for outcome in outcomes {
        add_if_aborted(&mut names, outcome)?;
    }
    Ok(names)
}

/// Adds the action of which the outcome is an abort.
fn add_if_aborted(names: &mut Names, outcome: &Outcome) -> Result<(), NoMemory>
    ensures { OnOk result (TakesIn (aborted_name outcome.now) names.old.names names.new.names) }
{
    match outcome {
        Outcome::Aborted(name) => names.add(name),
        _ => Ok(()),
    }
}

/// One above the greatest index of the held operations, and 0 if there is none.
pub(crate) fn next_of(held: &[Held]) -> u32
    requires { InRange (all_held held.now) }
    ensures value { result ≡ next_of (all_held held.now) }
    ensures range { result ≤ 1000000000 }
{
    let mut next = 0;
    for family in held {
        next = next_over(family.ops.as_slice(), next);
    }
    next
}

/// The greater of a number and one above the greatest index of these operations.
fn next_over(ops: &[HeldOp], first: u32) -> u32
    requires ops { InRange ops.now }
    requires first { first ≤ 1000000000 }
    ensures value { result ≡ max first (next_of ops.now) }
    ensures range { result ≤ 1000000000 }
{
    let mut next = first;
    for op in ops {
        next = next.max(after(op));
    }
    next
}

/// The index after that of an operation.
fn after(op: &HeldOp) -> u32
    requires { op.now.index ≤ 999999999 }
    ensures value { result ≡ op.now.index + 1 }
    ensures range { result ≤ 1000000000 }
{
    op.index + 1
}
