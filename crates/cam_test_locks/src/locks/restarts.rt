//! What a restart keeps.

use super::steps::Step::{Abort, Busy, Commit, Copy, Counter, Done, Register, Secured};
use super::steps::{Step, play, table_after};
use super::{COUNTER, QUEUE, REGISTER, objects};
use crate::check::same;
use cam_base::NoMemory;
use cam_know::{Know, Outcome};
use cam_locks::{LockTable, may_restore};
use cam_names::{Deps, Name};
use cam_type::{Answer, Held, HeldList, HeldOp, HeldOps, Objects, Op};
use std::alloc::Global;
use std::test::Fail;

/// What a restart keeps of three families that wrote the register, of which the first aborted, the second is undecided,
/// and the third committed.
const RESTARTED: [Step<'static>; 4] = [
    Register(3),
    Secured("1.1.1", 0),
    Busy("1.1.3", REGISTER, Op::Read, "1.1.2"),
    Done("1.1.2", REGISTER, Op::Read, Answer::Value(5)),
];

/// Two families that both wrote the register, and of which nothing is known, stand in each other's way.
const TWO_WRITERS: [Step<'static>; 10] = [
    Busy("1.1.1", REGISTER, Op::Read, "1.1.2"),
    Busy("1.1.2", REGISTER, Op::Read, "1.1.1"),
    Busy("1.1.3", REGISTER, Op::Read, "1.1.2"),
    Copy,
    Abort("1.1.2"),
    Done("1.1.1", REGISTER, Op::Read, Answer::Value(4)),
    Register(0),
    Commit("1.1.1"),
    Register(4),
    Done("1.1.3", REGISTER, Op::Swap(6), Answer::Value(4)),
];

/// Two families work.
const WORK: [Step<'static>; 4] = [
    Done("1.1.1", REGISTER, Op::Read, Answer::Value(0)),
    Done("1.1.2", QUEUE, Op::Put(6), Answer::Ok),
    Done("1.1.1/1.1.1", REGISTER, Op::Write(5), Answer::Ok),
    Commit("1.1.1/1.1.1"),
];

/// They go on.
const MORE_WORK: [Step<'static>; 9] = [
    Busy("1.1.2", REGISTER, Op::Read, "1.1.1"),
    Done("1.1.1", REGISTER, Op::Swap(7), Answer::Value(5)),
    Busy("1.1.1", QUEUE, Op::Take, "1.1.2"),
    Register(0),
    Secured("1.1.1", 3),
    Secured("1.1.2", 1),
    Done("1.1.2", QUEUE, Op::Take, Answer::Value(6)),
    Commit("1.1.1"),
    Register(7),
];

/// Three families add to the counter.
const ADDS: [Step<'static>; 4] = [
    Done("1.1.1/1.1.1", COUNTER, Op::Add(5), Answer::Ok),
    Done("1.1.3", COUNTER, Op::Add(100), Answer::Ok),
    Done("1.1.2", COUNTER, Op::Add(7), Answer::Ok),
    Commit("1.1.1/1.1.1"),
];

/// The first and the second were secured, and what the third added is gone.
const SECURED_ADDS: [Step<'static>; 11] = [
    Secured("1.1.3", 0),
    Counter(10),
    Busy("1.1.1", COUNTER, Op::Read, "1.1.2"),
    Done("1.1.1/1.1.2", COUNTER, Op::Add(1), Answer::Ok),
    Commit("1.1.2"),
    Counter(17),
    Done("1.1.1/1.1.2", COUNTER, Op::Read, Answer::Value(23)),
    Busy("1.1.3", COUNTER, Op::Read, "1.1.1"),
    Abort("1.1.1"),
    Counter(17),
    Done("1.1.3", COUNTER, Op::Read, Answer::Value(17)),
];

/// The write of a value to the register, under an index.
fn write(index: u32, value: i64) -> HeldOp {
    HeldOp {
        index,
        object: REGISTER,
        op: Op::Write(value),
    }
}

/// What is held of a family that did one operation.
fn held_family(alloc: Global, family: &Name, done: &HeldOp) -> Result<Held, NoMemory> {
    let mut ops = HeldOps::new(alloc);
    ops.push_copy(done)?;
    Ok(Held {
        family: *family,
        count: 1,
        ops,
    })
}

/// What is held of families that did one operation each.
fn held_of(alloc: Global, families: &[(&str, HeldOp)]) -> Result<HeldList, Fail> {
    let mut held = HeldList::new(alloc);
    for (family, done) in families {
        let family = Name::parse(family)?;
        held.push(held_family(alloc, &family, done)?)?;
    }
    Ok(held)
}

/// What is known where the first of three families aborted, the second is undecided, and the third committed.
fn two_outcomes(alloc: Global) -> Result<Know, Fail> {
    let aborted = Name::parse("1.1.1")?;
    let committed = Name::parse("1.1.3")?;
    let mut know = Know::new(alloc);
    know.add(&Outcome::Aborted(aborted))?;
    know.add(&Outcome::Committed(committed, Deps::none()))?;
    Ok(know)
}

/// The table of these objects after a restart with these families, of which this is known.
fn restored_with(
    alloc: Global,
    objects: &Objects,
    held: &HeldList,
    know: &Know,
) -> Result<LockTable, Fail> {
    if !may_restore(alloc, objects, 1, held)? {
        return Err(Fail::new("cannot be restored"));
    }
    Ok(LockTable::restore(alloc, objects, 1, held, know)?)
}

/// The table after a restart with these families, of which this is known.
fn restored(alloc: Global, held: &HeldList, know: &Know) -> Result<LockTable, Fail> {
    let objects = objects(alloc)?;
    restored_with(alloc, &objects, held, know)
}

/// What is held of three families that wrote the register.
fn three_writers(alloc: Global) -> Result<HeldList, Fail> {
    let writes = [
        ("1.1.1", write(9, 9)),
        ("1.1.2", write(5, 5)),
        ("1.1.3", write(3, 3)),
    ];
    held_of(alloc, &writes)
}

/// The table after a restart of three families that wrote the register, of two of which the outcome is known.
fn table_after_a_restart(alloc: Global) -> Result<LockTable, Fail> {
    let know = two_outcomes(alloc)?;
    let held = three_writers(alloc)?;
    restored(alloc, &held, &know)
}

#[test]
fn a_restart_keeps_what_was_secured_and_not_aborted(rt: HostRuntime) -> Result<(), Fail> {
    let mut table = table_after_a_restart(rt.alloc())?;
    same(&rt, table.next_index(), 10);
    play(rt.alloc(), &mut table, "restarted", &RESTARTED)
}

/// The table after a restart with these families, of which nothing is known.
fn restored_unknown(alloc: Global, held: &HeldList) -> Result<LockTable, Fail> {
    let know = Know::new(alloc);
    restored(alloc, held, &know)
}

/// Plays a scene after a restart with these families, of which nothing is known.
fn play_restored(
    alloc: Global,
    held: &HeldList,
    name: &str,
    scene: &[Step<'_>],
) -> Result<(), Fail> {
    let mut table = restored_unknown(alloc, held)?;
    play(alloc, &mut table, name, scene)
}

#[test]
fn two_restored_writers_stand_in_each_others_way(rt: HostRuntime) -> Result<(), Fail> {
    let writes = [("1.1.1", write(4, 4)), ("1.1.2", write(2, 2))];
    let held = held_of(rt.alloc(), &writes)?;
    play_restored(rt.alloc(), &held, "two writers", &TWO_WRITERS)
}

/// Adds what is secured of a family.
fn secure(table: &LockTable, held: &mut HeldList, family: &str) -> Result<(), Fail> {
    let family = Name::parse(family)?;
    let one = table.secure(&family, 1)?;
    held.push(one)?;
    Ok(())
}

/// What is secured of two families.
fn secured(alloc: Global, table: &LockTable) -> Result<HeldList, Fail> {
    let mut held = HeldList::new(alloc);
    secure(table, &mut held, "1.1.2")?;
    secure(table, &mut held, "1.1.1")?;
    Ok(held)
}

/// What is secured of two families before they go on.
fn secured_before_more_work(alloc: Global, table: &mut LockTable) -> Result<HeldList, Fail> {
    let held = secured(alloc, table)?;
    play(alloc, table, "more work", &MORE_WORK)?;
    Ok(held)
}

/// What is secured of two families that work and then go on, between both.
fn secured_at_work(alloc: Global) -> Result<HeldList, Fail> {
    let mut table = table_after(alloc, "work", &WORK)?;
    secured_before_more_work(alloc, &mut table)
}

#[test]
fn what_is_secured_and_restored_answers_as_before(rt: HostRuntime) -> Result<(), Fail> {
    let held = secured_at_work(rt.alloc())?;
    play_restored(rt.alloc(), &held, "more work, restored", &MORE_WORK)
}

/// What is secured of two of three families that add.
fn secured_adds(alloc: Global) -> Result<HeldList, Fail> {
    let table = table_after(alloc, "adds", &ADDS)?;
    secured(alloc, &table)
}

#[test]
fn adds_that_were_secured_are_added_after_a_restart(rt: HostRuntime) -> Result<(), Fail> {
    let held = secured_adds(rt.alloc())?;
    play_restored(rt.alloc(), &held, "secured adds", &SECURED_ADDS)
}

/// Whether these families can be restored at a node.
fn may_restore_at(alloc: Global, node: u8, held: &HeldList) -> Result<bool, NoMemory> {
    let objects = objects(alloc)?;
    may_restore(alloc, &objects, node, held)
}

/// Whether two families can be restored at a node: one wrote the register under the index 3, and this is what the other
/// did.
fn may_be_restored(alloc: Global, node: u8, second: &HeldOp) -> Result<bool, Fail> {
    let held = held_of(alloc, &[("1.1.1", write(3, 1)), ("1.1.2", *second)])?;
    Ok(may_restore_at(alloc, node, &held)?)
}

/// What the other did, and whether both can be restored at node 1.
const SECONDS: [(u32, u8, Op, bool); 8] = [
    (4, REGISTER, Op::Read, true),
    (999_999_999, QUEUE, Op::Put(1), true),
    (3, QUEUE, Op::Put(1), false),
    (1_000_000_000, REGISTER, Op::Read, false),
    (4, REGISTER, Op::Put(1), false),
    (4, 3, Op::Read, false),
    (4, COUNTER, Op::Add(1), true),
    (4, COUNTER, Op::Write(1), false),
];

#[test]
fn only_what_fits_under_indices_of_its_own_can_be_restored(rt: HostRuntime) -> Result<(), Fail> {
    for (index, object, op, may) in SECONDS {
        let second = HeldOp { index, object, op };
        let told = may_be_restored(rt.alloc(), 1, &second)?;
        same(&rt, (1, second, told), (1, second, may));
        let told = may_be_restored(rt.alloc(), 2, &second)?;
        same(&rt, (2, second, told), (2, second, false));
    }
    Ok(())
}
