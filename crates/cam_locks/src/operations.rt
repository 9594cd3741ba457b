//! Objects of a node and operations on them, as a site looks them up.
ghost use Rattle.std.specs.Prelude.{◌≡◌, IfOk};
ghost use Rattle.cam_type.specs.Table.{kind_of};
ghost use Rattle.cam_locks.specs.Site.{is_here, fits_here};
ghost use Rattle.cam_type.specs.Objects.{start_of};
ghost use Rattle.cam_locks.specs.Moss.{replay};
ghost use Rattle.cam_locks.specs.Calls.{is_of};

use crate::LiveOp;
use cam_base::NoMemory;
use cam_names::Name;
use cam_type::{Kind, Objects, Op, State, apply, is_fit};
use std::alloc::Global;

/// An equal list of declarations.
pub(crate) fn copy_objects(alloc: Global, objects: &Objects) -> Result<Objects, NoMemory>
    ensures { IfOk result (λ copy. copy ≡ objects.now) }
{
    let mut copy = Objects::new(alloc);
    for declared in objects.as_slice() {
        copy.push(declared.copy()?)?;
    }
    Ok(copy)
}

/// Whether the object stands at the node.
pub(crate) fn is_here(objects: &Objects, node: u8, object: u8) -> bool
    ensures { result ≡ is_here objects.now node object }
{
    match objects.get(object as usize) {
        Some(declared) => declared.node == node,
        None => false,
    }
}

/// Whether the object stands at the node and the op fits it.
pub(crate) fn fits_here(objects: &Objects, node: u8, object: u8, op: &Op) -> bool
    ensures { result ≡ fits_here objects.now node object op.now }
{
    is_here(objects, node, object) && is_fit(objects, object, op)
}

/// The kind of an object.
pub(crate) fn kind_of(objects: &Objects, object: u8) -> Kind
    ensures { result ≡ kind_of (start_of objects.now object) }
{
    match objects.get(object as usize) {
        Some(declared) => declared.start.kind(),
        None => Kind::Register,
    }
}

/// The state after these operations, in their order.
pub(crate) fn replay(state: State, operations: &[LiveOp]) -> Result<State, NoMemory>
    ensures { IfOk result (λ after. after ≡ replay state operations.now) }
{
    let mut state = state;
    for operation in operations {
        apply(&mut state, &operation.op)?;
    }
    Ok(state)
}

/// Whether the operation is of the family.
pub(crate) fn is_of(family: &Name, operation: &LiveOp) -> bool
    ensures { result ≡ is_of family.now operation.now }
{
    *family == operation.action.family()
}
