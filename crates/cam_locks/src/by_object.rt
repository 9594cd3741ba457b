//! The locks of all objects, each at the place of its object.
ghost use Rattle.std.specs.Prelude.{◌≡◌, ◌<◌, true, false, List, map, get_or, vec_len, IfOk, OnOk, OnErr};
ghost use Rattle.cam_type.specs.declared.ObjectDecl.{ObjectDecl as ObjectDeclValue};
ghost use Rattle.cam_type.specs.Table.{kind_of, fits};
ghost use Rattle.cam_locks.specs.Site.{IndicesRise};
ghost use Rattle.cam_locks.specs.Moss.{holder_of};
ghost use Rattle.cam_locks.specs.Holding.{fresh, leaders_of, LocksView, AllLocks};
ghost use Rattle.cam_locks.specs.Sums.{is_counter};
ghost use Rattle.cam_locks.specs.Changes.{standing, first_over, EachTo, TidiedTo, DoneTo, SpoiledAt};
ghost use Rattle.cam_locks.specs.Served.{IsServed};
ghost use Rattle.cam_locks.specs.Fresh.{IsFresh};

use crate::live::Live;
use crate::locks::Locks;
use crate::names::Names;
use crate::{LiveOp, by_list};
use cam_base::NoMemory;
use cam_names::Name;
use cam_type::{Answer, DataType, Objects};
use std::alloc::Global;

/// What is kept of objects without operations.
pub(crate) fn for_objects(alloc: Global, objects: &Objects) -> Result<Vec<Locks>, NoMemory>
    ensures { IfOk result (λ locks. locks.items ≡ map (λ d. fresh d.start) objects.now) }
{
    let mut locks = Vec::new(alloc);
    for declared in objects.as_slice() {
        locks.push(Locks::new(alloc, declared.start.copy()?))?;
    }
    Ok(locks)
}

/// Whether what is kept of the object can be gone by.
pub(crate) fn is_kept(locks: &Vec<Locks>, object: u8) -> bool
    ensures { result ≡ true → IsFresh locks.now.items object }
{
    match locks.get(object as usize) {
        Some(one) => !one.is_stale(),
        None => false,
    }
}

/// Whether the value of the object that is handed up can be told by its versions: it can be gone by, and is no counter.
pub(crate) fn is_versioned(locks: &Vec<Locks>, object: u8) -> bool
    ensures fresh { result ≡ true → IsFresh locks.now.items object }
    ensures kind { (l : LocksView) → result ≡ true
        → is_counter (get_or locks.now.items object l).start ≡ false }
{
    match locks.get(object as usize) {
        Some(one) => !one.is_stale() && !one.is_counter(),
        None => false,
    }
}

/// Who stands in the way of an operation.
pub(crate) fn holder(
    locks: &mut Vec<Locks>,
    asked: &LiveOp,
    live: &Live,
    committed: &Names,
) -> Option<Name>
    requires { IsFresh locks.old.items asked.now.object }
    ensures tidied { EachTo (TidiedTo committed.now.names live.now.ops)
        locks.old.items locks.new.items }
    ensures value { (objects : List ObjectDeclValue)
        → IndicesRise 0 live.now.ops live.now.next
        → AllLocks objects committed.now.names live.now.ops live.now.next locks.old.items
        → result ≡ holder_of committed.now.names live.now.ops
        asked.now.action asked.now.object asked.now.op }
{
    let first = first_conflict(locks, asked, live, committed);
    by_list::lift_of(committed, &first)
}

/// The first live operation that stands in the way of an operation.
fn first_conflict(
    locks: &mut Vec<Locks>,
    asked: &LiveOp,
    live: &Live,
    committed: &Names,
) -> Option<LiveOp>
    requires { asked.now.object < vec_len locks.old }
    ensures tidied { EachTo (TidiedTo committed.now.names live.now.ops)
        locks.old.items locks.new.items }
    ensures value { (l : LocksView) → result ≡ first_over (λ m.
        standing committed.now.names live.now.ops asked.now.action asked.now.op m
        (leaders_of (get_or locks.new.items asked.now.object l) m)) }
{
    locks[asked.object as usize].first_conflict(live, committed, &asked.action, &asked.op)
}

/// Has a server do an operation in whose way no one stands.
pub(crate) fn perform<T: DataType>(
    locks: &mut Vec<Locks>,
    operation: &LiveOp,
    live: &Live,
    committed: &Names,
    server: &mut T,
) -> Result<Answer, NoMemory>
    requires within { operation.now.object < vec_len locks.old }
    requires kind { (l : LocksView) → T.kind server.old
        ≡ kind_of (get_or locks.old.items operation.now.object l).start }
    requires fits { (l : LocksView)
        → fits (kind_of (get_or locks.old.items operation.now.object l).start) operation.now.op
        ≡ true }
    ensures kind_stays { T.kind server.new ≡ T.kind server.old }
    ensures served { (l : LocksView) → OnOk result (IsServed committed.now.names live.now.ops
        operation.now (T.held server.new) (get_or locks.old.items operation.now.object l)) }
    ensures done { IfOk result (λ answer. EachTo
        (DoneTo committed.now.names live.now.ops operation.now answer)
        locks.old.items locks.new.items) }
    ensures err { OnErr result (EachTo (TidiedTo committed.now.names live.now.ops)
        locks.old.items locks.new.items) }
{
    locks[operation.object as usize].perform(operation, live, committed, server)
}

/// Keeps nothing of an object from now on.
pub(crate) fn spoil_at(locks: &mut Vec<Locks>, object: u8)
    ensures { EachTo (SpoiledAt object) locks.old.items locks.new.items }
{
    let at = object as usize;
    if at < locks.len() {
        locks[at].spoil();
    }
}

/// The same.
pub(crate) fn copy(locks: &Vec<Locks>) -> Result<Vec<Locks>, NoMemory>
    ensures { IfOk result (λ copy. copy.items ≡ locks.now.items) }
{
    let mut copies = Vec::new(*locks.allocator());
    for one in locks.as_slice() {
        copies.push(one.copy()?)?;
    }
    Ok(copies)
}
