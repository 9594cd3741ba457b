//! Whether a restart takes what is held.
ghost use Rattle.std.specs.Prelude.{◌≡◌, ◌&&◌, ◌↔◌, nat_le, IsTrue, IfOk};
ghost use Rattle.cam_locks.specs.Site.{fits_here};
ghost use Rattle.cam_locks.specs.Restored.{all_held, MayBeHeld, CanRestore};

use crate::operations::fits_here;
use cam_base::NoMemory;
use cam_type::{Held, HeldList, HeldOp, HeldOps, Objects};
use std::alloc::Global;
use std::collections::HashSet;

/// Whether these can be restored at the node: each operation is on an object of the node and fits it, and each index is in its range and
/// stands once.
pub fn may_restore(
    alloc: Global,
    objects: &Objects,
    node: u8,
    held: &HeldList,
) -> Result<bool, NoMemory>
    ensures { IfOk result (λ may. IsTrue may ↔ CanRestore objects.now node held.now) }
{
    let ops = all_held(alloc, held.as_slice())?;
    may_be_held(alloc, objects, node, ops.as_slice())
}

/// The operations of all of these, one after another.
fn all_held(alloc: Global, held: &[Held]) -> Result<HeldOps, NoMemory>
    ensures { IfOk result (λ ops. ops ≡ all_held held.now) }
{
    let mut ops = HeldOps::new(alloc);
    for one in held {
        ops.extend_from_slice(one.ops.as_slice())?;
    }
    Ok(ops)
}

/// Whether these operations can be held at the node.
fn may_be_held(alloc: Global, objects: &Objects, node: u8, ops: &[HeldOp]) -> Result<bool, NoMemory>
    ensures { IfOk result (λ may. IsTrue may ↔ MayBeHeld objects.now node ops.now) }
{
    let mut indices = HashSet::new(alloc);
    for op in ops {
        if !is_right(objects, node, op) {
            return Ok(false);
        }
        if !indices.insert(op.index)? {
            return Ok(false);
        }
    }
    Ok(true)
}

/// Whether an operation is on an object of the node and fits it, under an index in its range.
fn is_right(objects: &Objects, node: u8, op: &HeldOp) -> bool
    ensures { result ≡ (fits_here objects.now node op.now.object op.now.op
        && nat_le op.now.index 999999999) }
{
    fits_here(objects, node, op.object, &op.op) && op.index <= 999_999_999
}
