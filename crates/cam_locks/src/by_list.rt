//! What the definitions say, read off the list of live operations: for objects of which nothing else is kept.
ghost use Rattle.std.specs.Prelude.{◌≡◌, true, not, filter, find, map, option_and_then, IfOk, OnOk};
ghost use Rattle.std.specs.List.{list_any};
ghost use Rattle.cam_type.specs.Objects.{start_of};
ghost use Rattle.cam_type.specs.Table.{kind_of, fits, state_after, answer_of};
ghost use Rattle.cam_locks.specs.Moss.{value_of, settled_of, is_settled_on, conflicts_on, holder_of, lift_in};
ghost use Rattle.cam_locks.specs.Calls.{is_of, held_op, is_dropped_by};

use crate::leaders::is_in_the_way;
use crate::names::Names;
use crate::operations::{is_of, replay};
use crate::{LiveOp, LiveOps};
use cam_base::NoMemory;
use cam_know::Know;
use cam_names::Name;
use cam_type::{
    Answer, DataType, HeldOp, HeldOps, Objects, Op, State, compatible, mode_of, start_of,
};
use std::alloc::Global;

/// Who stands in the way of an operation: the lift of the first live one that conflicts.
pub(crate) fn holder(live: &[LiveOp], committed: &Names, asked: &LiveOp) -> Option<Name>
    ensures { result ≡ holder_of committed.now.names live.now
        asked.now.action asked.now.object asked.now.op }
{
    lift_of(committed, &first_conflict(live, committed, asked))
}

/// The lift of an operation, if there is one.
pub(crate) fn lift_of(committed: &Names, operation: &Option<LiveOp>) -> Option<Name>
    ensures { result ≡ option_and_then (λ o. lift_in committed.now.names o.action) operation.now }
{
    match operation {
        Some(operation) => committed.lift(&operation.action),
        None => None,
    }
}

/// The first live operation that conflicts.
fn first_conflict(live: &[LiveOp], committed: &Names, asked: &LiveOp) -> Option<LiveOp>
    ensures { result ≡ find (conflicts_on committed.now.names
        asked.now.action asked.now.object asked.now.op) live.now }
{
    for operation in live {
        if is_conflict(committed, asked, operation) {
            return Some(*operation);
        }
    }
    None
}

/// Whether a live operation conflicts with one that is asked.
fn is_conflict(committed: &Names, asked: &LiveOp, operation: &LiveOp) -> bool
    ensures { result ≡ conflicts_on committed.now.names
        asked.now.action asked.now.object asked.now.op operation.now }
{
    operation.object == asked.object
        && is_in_the_way(&asked.action, &committed.lift(&operation.action))
        && !compatible(mode_of(&operation.op), mode_of(&asked.op))
}

/// The value that an operation on the object meets.
pub(crate) fn value(
    alloc: Global,
    live: &[LiveOp],
    objects: &Objects,
    object: u8,
) -> Result<State, NoMemory>
    ensures { IfOk result (λ state. state ≡ value_of objects.now live.now object) }
{
    let mut operations = LiveOps::new(alloc);
    for operation in live {
        if operation.object == object {
            operations.push_copy(operation)?;
        }
    }
    replay(start_of(objects, object as usize)?, operations.as_slice())
}

/// Has a server do an operation in the value that it meets.
pub(crate) fn serve<T: DataType>(
    live: &[LiveOp],
    objects: &Objects,
    operation: &LiveOp,
    server: &mut T,
    alloc: Global,
) -> Result<Answer, NoMemory>
    requires kind { T.kind server.old ≡ kind_of (start_of objects.now operation.now.object) }
    requires fits { fits (kind_of (start_of objects.now operation.now.object)) operation.now.op
        ≡ true }
    ensures kind_stays { T.kind server.new ≡ T.kind server.old }
    ensures after { OnOk result (T.held server.new
        ≡ state_after (value_of objects.now live.now operation.now.object) operation.now.op) }
    ensures answer { IfOk result (λ answer. answer
        ≡ answer_of (value_of objects.now live.now operation.now.object) operation.now.op) }
{
    let state = value(alloc, live, objects, operation.object)?;
    server.load(&state)?;
    server.apply(&operation.op)
}

/// The value of the object that is handed up past the top.
pub(crate) fn settled(
    alloc: Global,
    live: &[LiveOp],
    committed: &Names,
    objects: &Objects,
    object: u8,
) -> Result<State, NoMemory>
    ensures { IfOk result (λ state. state
        ≡ settled_of objects.now committed.now.names live.now object) }
{
    let mut operations = LiveOps::new(alloc);
    for operation in live {
        if is_settled(committed, object, operation) {
            operations.push_copy(operation)?;
        }
    }
    replay(start_of(objects, object as usize)?, operations.as_slice())
}

/// Whether an operation is on the object and handed up past the top.
fn is_settled(committed: &Names, object: u8, operation: &LiveOp) -> bool
    ensures { result ≡ is_settled_on committed.now.names object operation.now }
{
    operation.object == object && committed.lift(&operation.action).is_none()
}

/// The operations of which the abort of no ancestor is among these outcomes.
pub(crate) fn left(alloc: Global, live: &[LiveOp], news: &Know) -> Result<LiveOps, NoMemory>
    ensures { IfOk result (λ left. left
        ≡ filter (λ o. not (is_dropped_by news.now o)) live.now) }
{
    let mut left = LiveOps::new(alloc);
    for operation in live {
        if !is_dropped_by(news, operation) {
            left.push_copy(operation)?;
        }
    }
    Ok(left)
}

/// Whether the abort of an ancestor of the operation is among these outcomes.
fn is_dropped_by(news: &Know, operation: &LiveOp) -> bool
    ensures { result ≡ is_dropped_by news.now operation.now }
{
    news.aborted_by(&operation.action).is_some()
}

/// The operations of a family, as they are held.
pub(crate) fn held(alloc: Global, live: &[LiveOp], family: &Name) -> Result<HeldOps, NoMemory>
    ensures { IfOk result (λ ops. ops ≡ map held_op (filter (is_of family.now) live.now)) }
{
    let mut ops = HeldOps::new(alloc);
    for operation in live {
        if is_of(family, operation) {
            ops.push(held_op(operation))?;
        }
    }
    Ok(ops)
}

/// The operation as it is held.
fn held_op(operation: &LiveOp) -> HeldOp
    ensures { result ≡ held_op operation.now }
{
    HeldOp {
        index: operation.index,
        object: operation.object,
        op: operation.op,
    }
}

/// Whether an operation of the family is among them.
pub(crate) fn has_family(live: &[LiveOp], family: &Name) -> bool
    ensures { result ≡ list_any (is_of family.now) live.now }
{
    for operation in live {
        if is_of(family, operation) {
            return true;
        }
    }
    false
}
