//! Scenes with a lock table, whose answers are worked out by hand.

use super::steps::Step::{Abort, Asked, Busy, Commit, Copy, Counter, Done, Register, Secured};
use super::steps::{Step, table_after};
use super::{COUNTER, QUEUE, REGISTER};
use cam_type::{Answer, Op};
use std::alloc::Global;
use std::test::Fail;

/// Holders stand in the way, commits hand up, and aborts drop.
const HAND_UP: [Step<'static>; 19] = [
    Done("1.1.1", REGISTER, Op::Read, Answer::Value(0)),
    Done("1.1.2", REGISTER, Op::Read, Answer::Value(0)),
    Busy("1.1.1/1.1.1", REGISTER, Op::Write(5), "1.1.2"),
    Abort("1.1.2"),
    Done("1.1.1/1.1.1", REGISTER, Op::Write(5), Answer::Ok),
    Busy("1.1.1/1.1.2", REGISTER, Op::Read, "1.1.1/1.1.1"),
    Commit("1.1.1/1.1.1"),
    Done("1.1.1/1.1.2", REGISTER, Op::Swap(6), Answer::Value(5)),
    Abort("1.1.1/1.1.2"),
    Done("1.1.1", REGISTER, Op::Read, Answer::Value(5)),
    Busy("1.1.2", REGISTER, Op::Read, "1.1.1"),
    Secured("1.1.1", 3),
    Register(0),
    Commit("1.1.1"),
    Register(5),
    Done("1.1.2", REGISTER, Op::Read, Answer::Value(5)),
    Done("1.1.1", QUEUE, Op::Put(7), Answer::Ok),
    Done("1.1.2", QUEUE, Op::Take, Answer::Value(7)),
    Secured("1.1.1/1.1.1", 0),
];

/// A commit hands locks up to the parent, and no further.
const ONE_LEVEL: [Step<'static>; 9] = [
    Done("1.1.1/1.1.1/1.1.1", REGISTER, Op::Write(5), Answer::Ok),
    Commit("1.1.1/1.1.1/1.1.1"),
    Busy("1.1.1/1.1.2", REGISTER, Op::Read, "1.1.1/1.1.1"),
    Busy("1.1.1", REGISTER, Op::Read, "1.1.1/1.1.1"),
    Done("1.1.1/1.1.1/1.1.2", REGISTER, Op::Read, Answer::Value(5)),
    Commit("1.1.1/1.1.1"),
    Busy("1.1.1/1.1.2", REGISTER, Op::Write(6), "1.1.1/1.1.1/1.1.2"),
    Done("1.1.1/1.1.2", REGISTER, Op::Read, Answer::Value(5)),
    Register(0),
];

/// A writer keeps readers out until it ends.
const WRITER: [Step<'static>; 10] = [
    Done("1.1.1", REGISTER, Op::Write(4), Answer::Ok),
    Busy("1.1.2", REGISTER, Op::Read, "1.1.1"),
    Done("1.1.1/1.1.1", REGISTER, Op::Read, Answer::Value(4)),
    Copy,
    Commit("1.1.1/1.1.1"),
    Busy("1.1.2", REGISTER, Op::Read, "1.1.1"),
    Commit("1.1.1"),
    Done("1.1.2", REGISTER, Op::Read, Answer::Value(4)),
    Busy("1.1.3", REGISTER, Op::Write(1), "1.1.2"),
    Secured("1.1.2", 1),
];

/// A child commits before its parent.
const CHILD_FIRST: [Step<'static>; 11] = [
    Done("1.1.1", REGISTER, Op::Write(1), Answer::Ok),
    Done("1.1.1/1.1.1", REGISTER, Op::Swap(2), Answer::Value(1)),
    Busy("1.1.1/1.1.2", REGISTER, Op::Read, "1.1.1/1.1.1"),
    Commit("1.1.1/1.1.1"),
    Done("1.1.1/1.1.2", REGISTER, Op::Read, Answer::Value(2)),
    Busy("1.1.2", REGISTER, Op::Read, "1.1.1"),
    Register(0),
    Commit("1.1.1"),
    Register(2),
    Done("1.1.2", REGISTER, Op::Read, Answer::Value(2)),
    Busy("1.1.2", REGISTER, Op::Write(3), "1.1.1/1.1.2"),
];

/// A parent commits before its child.
const PARENT_FIRST: [Step<'static>; 8] = [
    Done("1.1.1", REGISTER, Op::Write(1), Answer::Ok),
    Done("1.1.1/1.1.1", REGISTER, Op::Swap(2), Answer::Value(1)),
    Commit("1.1.1"),
    Register(1),
    Busy("1.1.2", REGISTER, Op::Read, "1.1.1/1.1.1"),
    Commit("1.1.1/1.1.1"),
    Register(2),
    Done("1.1.2", REGISTER, Op::Read, Answer::Value(2)),
];

/// A child aborts, and then its parent commits; a parent aborts, and then its child commits.
const ABORTS: [Step<'static>; 13] = [
    Done("1.1.1", REGISTER, Op::Write(1), Answer::Ok),
    Done("1.1.1/1.1.1", REGISTER, Op::Swap(2), Answer::Value(1)),
    Abort("1.1.1/1.1.1"),
    Done("1.1.1", REGISTER, Op::Read, Answer::Value(1)),
    Commit("1.1.1"),
    Register(1),
    Done("1.1.2", REGISTER, Op::Write(3), Answer::Ok),
    Done("1.1.2/1.1.1", REGISTER, Op::Swap(4), Answer::Value(3)),
    Abort("1.1.2"),
    Secured("1.1.2", 0),
    Commit("1.1.2/1.1.1"),
    Register(1),
    Done("1.1.3", REGISTER, Op::Swap(5), Answer::Value(1)),
];

/// Both outcomes of an action come in, in either order.
const BOTH_OUTCOMES: [Step<'static>; 12] = [
    Done("1.1.1", REGISTER, Op::Write(3), Answer::Ok),
    Commit("1.1.1"),
    Register(3),
    Abort("1.1.1"),
    Register(0),
    Secured("1.1.1", 0),
    Done("1.1.2", REGISTER, Op::Read, Answer::Value(0)),
    Abort("1.1.3"),
    Commit("1.1.3"),
    Busy("1.1.3", REGISTER, Op::Write(8), "1.1.2"),
    Done("1.1.3", QUEUE, Op::Put(7), Answer::Ok),
    Done("1.1.2", QUEUE, Op::Take, Answer::Value(7)),
];

/// Two families add to the counter, and one of them in a child that aborts; the sum wraps.
const ADDERS: [Step<'static>; 19] = [
    Done("1.1.1", COUNTER, Op::Add(5), Answer::Ok),
    Done("1.1.2", COUNTER, Op::Add(7), Answer::Ok),
    Busy("1.1.1", COUNTER, Op::Read, "1.1.2"),
    Counter(10),
    Done("1.1.1/1.1.1", COUNTER, Op::Add(i64::MAX), Answer::Ok),
    Commit("1.1.2"),
    Counter(17),
    Busy("1.1.1", COUNTER, Op::Read, "1.1.1/1.1.1"),
    Busy("1.1.3", COUNTER, Op::Read, "1.1.1"),
    Done(
        "1.1.1/1.1.1",
        COUNTER,
        Op::Read,
        Answer::Value(i64::MIN + 21),
    ),
    Busy("1.1.3", COUNTER, Op::Add(1), "1.1.1/1.1.1"),
    Abort("1.1.1/1.1.1"),
    Done("1.1.1", COUNTER, Op::Read, Answer::Value(22)),
    Counter(17),
    Commit("1.1.1"),
    Counter(22),
    Done("1.1.3", COUNTER, Op::Add(1), Answer::Ok),
    Copy,
    Done("1.1.3", COUNTER, Op::Read, Answer::Value(23)),
];

/// Siblings add side by side, and the first read that may be done meets both adds.
const SIBLINGS: [Step<'static>; 14] = [
    Done("1.1.1/1.1.1", COUNTER, Op::Add(5), Answer::Ok),
    Done("1.1.1/1.1.2", COUNTER, Op::Add(7), Answer::Ok),
    Busy("1.1.1/1.1.2", COUNTER, Op::Read, "1.1.1/1.1.1"),
    Busy("1.1.1", COUNTER, Op::Read, "1.1.1/1.1.1"),
    Commit("1.1.1/1.1.1"),
    Busy("1.1.1", COUNTER, Op::Read, "1.1.1/1.1.2"),
    Done("1.1.1/1.1.2", COUNTER, Op::Read, Answer::Value(22)),
    Busy("1.1.1/1.1.3", COUNTER, Op::Add(1), "1.1.1/1.1.2"),
    Commit("1.1.1/1.1.2"),
    Done("1.1.1", COUNTER, Op::Read, Answer::Value(22)),
    Busy("1.1.2", COUNTER, Op::Add(1), "1.1.1"),
    Counter(10),
    Commit("1.1.1"),
    Counter(22),
];

/// What a child adds is handed up twice and then taken back with the action that had it; of another action both
/// outcomes come in.
const TAKEN_BACK: [Step<'static>; 15] = [
    Done("1.1.1", COUNTER, Op::Add(1), Answer::Ok),
    Done("1.1.1/1.1.1", COUNTER, Op::Add(2), Answer::Ok),
    Done("1.1.1/1.1.1/1.1.1", COUNTER, Op::Add(4), Answer::Ok),
    Commit("1.1.1/1.1.1/1.1.1"),
    Done("1.1.1/1.1.1", COUNTER, Op::Read, Answer::Value(17)),
    Abort("1.1.1/1.1.1"),
    Done("1.1.1", COUNTER, Op::Read, Answer::Value(11)),
    Commit("1.1.1"),
    Counter(11),
    Done("1.1.2", COUNTER, Op::Add(100), Answer::Ok),
    Commit("1.1.2"),
    Counter(111),
    Abort("1.1.2"),
    Counter(11),
    Done("1.1.3", COUNTER, Op::Read, Answer::Value(11)),
];

/// A refused operation is asked of no server, and one that is granted once, whatever its object's kind and however
/// much stands before it.
const ASKED_ONCE: [Step<'static>; 17] = [
    Done("1.1.1", REGISTER, Op::Write(5), Answer::Ok),
    Asked(1),
    Busy("1.1.2", REGISTER, Op::Write(6), "1.1.1"),
    Busy("1.1.2", REGISTER, Op::Read, "1.1.1"),
    Asked(1),
    Done("1.1.1/1.1.1", REGISTER, Op::Swap(7), Answer::Value(5)),
    Busy("1.1.1", REGISTER, Op::Read, "1.1.1/1.1.1"),
    Asked(2),
    Done("1.1.1", COUNTER, Op::Add(3), Answer::Ok),
    Done("1.1.1", COUNTER, Op::Add(4), Answer::Ok),
    Busy("1.1.2", COUNTER, Op::Read, "1.1.1"),
    Asked(4),
    Done("1.1.1", COUNTER, Op::Read, Answer::Value(17)),
    Done("1.1.1", QUEUE, Op::Put(1), Answer::Ok),
    Done("1.1.1", QUEUE, Op::Take, Answer::Value(1)),
    Busy("1.1.2", QUEUE, Op::Size, "1.1.1"),
    Asked(7),
];

/// Plays a scene with a new table.
fn play_anew(alloc: Global, name: &str, scene: &[Step<'_>]) -> Result<(), Fail> {
    table_after(alloc, name, scene)?;
    Ok(())
}

#[test]
fn holders_stand_in_the_way_and_commits_hand_up(rt: HostRuntime) -> Result<(), Fail> {
    play_anew(rt.alloc(), "hand up", &HAND_UP)?;
    play_anew(rt.alloc(), "one level", &ONE_LEVEL)?;
    play_anew(rt.alloc(), "writer", &WRITER)
}

#[test]
fn outcomes_of_parents_and_children_come_in_any_order(rt: HostRuntime) -> Result<(), Fail> {
    play_anew(rt.alloc(), "child first", &CHILD_FIRST)?;
    play_anew(rt.alloc(), "parent first", &PARENT_FIRST)?;
    play_anew(rt.alloc(), "aborts", &ABORTS)?;
    play_anew(rt.alloc(), "both outcomes", &BOTH_OUTCOMES)
}

#[test]
fn adders_stand_in_the_way_of_readers_alone(rt: HostRuntime) -> Result<(), Fail> {
    play_anew(rt.alloc(), "adders", &ADDERS)?;
    play_anew(rt.alloc(), "siblings", &SIBLINGS)?;
    play_anew(rt.alloc(), "taken back", &TAKEN_BACK)
}

#[test]
fn only_what_is_granted_is_asked_of_a_server(rt: HostRuntime) -> Result<(), Fail> {
    play_anew(rt.alloc(), "asked once", &ASKED_ONCE)
}
