//! `cam_serial`: serial lists in the order of commits, and what does not replay.
mod found;

use crate::check::same;
use cam_base::NoMemory;
use cam_event::{Deed, Operation};
use cam_names::Name;
use cam_plain::DeedKind;
use cam_samples::{
    abort, ask, ask_commit, call, commit, counter, create, deeds_of, got_done, inform, perform,
    registers, secure, without,
};
use cam_serial::{SerialList, replays};
use cam_type::{Answer, Op};
use found::{ALL_IS_MET, Found, Wanted, illegal};
use std::alloc::Global;
use std::process::Abort;
use std::test::Fail;

// Each action has at most one call, which is its first, and each site and home is at its first count.

/// A write that commits, and a read of what it wrote.
fn a_read_after_a_write(writer: Name, reader: Name) -> [Deed; 12] {
    [
        create(writer),
        create(reader),
        call(writer, 1, 0, Op::Write(5)),
        perform(writer, 1, Answer::Ok),
        got_done(writer, 1, Answer::Ok),
        ask_commit(writer, 0),
        secure(writer, 1),
        commit(writer),
        inform(1, writer, true),
        call(reader, 1, 0, Op::Read),
        perform(reader, 1, Answer::Value(5)),
        got_done(reader, 1, Answer::Value(5)),
    ]
}

/// The names of two top actions, of which the second commits first, and of the two children of the first.
#[derive(Clone, Copy)]
struct Names {
    first: Name,
    second: Name,
    kept: Name,
    lost: Name,
}

impl Names {
    /// All are at home at node 1.
    fn new() -> Result<Names, Fail> {
        Ok(Names {
            first: Name::parse("1.1.1")?,
            second: Name::parse("1.1.2")?,
            kept: Name::parse("1.1.1/1.1.1")?,
            lost: Name::parse("1.1.1/1.1.2")?,
        })
    }
}

/// Two top actions that commit in the other order than they began. The first has two children: one writes at node 1 and commits, and one
/// writes at node 2, which never hears that it aborted.
fn overtaken(names: Names) -> [Deed; 26] {
    let Names {
        first,
        second,
        kept,
        lost,
    } = names;
    [
        create(first),
        create(second),
        ask(first, kept),
        create(kept),
        call(kept, 1, 0, Op::Write(5)),
        perform(kept, 1, Answer::Ok),
        got_done(kept, 1, Answer::Ok),
        ask_commit(kept, 0),
        commit(kept),
        ask(first, lost),
        create(lost),
        call(lost, 1, 1, Op::Write(6)),
        perform(lost, 1, Answer::Ok),
        got_done(lost, 1, Answer::Ok),
        abort(lost),
        call(second, 1, 2, Op::Write(7)),
        perform(second, 1, Answer::Ok),
        got_done(second, 1, Answer::Ok),
        ask_commit(second, 0),
        secure(second, 1),
        commit(second),
        inform(1, kept, true),
        ask_commit(first, 0),
        secure(first, 1),
        commit(first),
        inform(1, first, true),
    ]
}

/// Two families add to one counter, and commit in the other order than they added. A third reads.
fn added_by_two(first: Name, second: Name, reader: Name) -> [Deed; 20] {
    [
        create(first),
        create(second),
        call(first, 1, 0, Op::Add(5)),
        call(second, 1, 0, Op::Add(7)),
        perform(first, 1, Answer::Ok),
        perform(second, 1, Answer::Ok),
        got_done(first, 1, Answer::Ok),
        got_done(second, 1, Answer::Ok),
        ask_commit(second, 0),
        secure(second, 1),
        commit(second),
        inform(1, second, true),
        ask_commit(first, 0),
        secure(first, 1),
        commit(first),
        inform(1, first, true),
        create(reader),
        call(reader, 1, 0, Op::Read),
        perform(reader, 1, Answer::Value(22)),
        got_done(reader, 1, Answer::Value(22)),
    ]
}

/// What is found of deeds over one register but the one at a place.
fn found_without(
    alloc: Global,
    deeds: &[Deed],
    left_out: usize,
    lists: &[Wanted],
) -> Result<Found, NoMemory> {
    let objects = registers(alloc, &[1])?;
    let deeds = without(alloc, deeds, left_out)?;
    Found::of(alloc, &deeds, &objects, lists)
}

/// The whole list, and the same without the inform or the secure, which is not legal.
#[test]
fn a_read_comes_after_the_write(rt: HostRuntime) -> Result<(), Fail> {
    let writer = Name::parse("1.1.1")?;
    let reader = Name::parse("1.1.2")?;
    let deeds = a_read_after_a_write(writer, reader);
    let calls = [(writer, Answer::Ok), (reader, Answer::Value(5))];
    let lists = [
        Wanted::new(None, &calls[..1]),
        Wanted::new(Some(&reader), &calls),
    ];
    for (left_out, wanted) in [
        (12, ALL_IS_MET),
        (8, illegal(9, DeedKind::Perform)),
        (6, illegal(6, DeedKind::Commit)),
    ] {
        let found = found_without(rt.alloc(), &deeds, left_out, &lists)?;
        same(&rt, (left_out, found), (left_out, wanted));
    }
    Ok(())
}

/// What is found of deeds over registers at the nodes 1, 2 and 1, where two names have one list.
fn found_of_both(
    alloc: Global,
    deeds: &[Deed],
    one: Option<&Name>,
    other: Option<&Name>,
    calls: &[(Name, Answer)],
) -> Result<Found, NoMemory> {
    let lists = [Wanted::new(one, calls), Wanted::new(other, calls)];
    let objects = registers(alloc, &[1, 2, 1])?;
    let deeds = deeds_of(alloc, deeds)?;
    Found::of(alloc, &deeds, &objects, &lists)
}

/// The deeds are legal, and each of the two names has this list.
fn check_both(
    rt: &impl Abort,
    alloc: Global,
    deeds: &[Deed],
    one: Option<&Name>,
    other: Option<&Name>,
    calls: &[(Name, Answer)],
) -> Result<(), Fail> {
    let found = found_of_both(alloc, deeds, one, other, calls)?;
    same(
        rt,
        (deeds.len(), calls.len(), found),
        (deeds.len(), calls.len(), ALL_IS_MET),
    );
    Ok(())
}

#[test]
fn top_actions_come_in_order_of_their_commits(rt: HostRuntime) -> Result<(), Fail> {
    let names = Names::new()?;
    let Names {
        first,
        second,
        kept,
        lost,
    } = names;
    let deeds = overtaken(names);
    let whole = [(second, Answer::Ok), (kept, Answer::Ok), (lost, Answer::Ok)];
    for (deeds, one, other, calls) in [
        (&deeds[..24], None, Some(&second), &whole[..1]),
        (&deeds[..24], Some(&first), Some(&kept), &whole[..2]),
        (&deeds[..24], Some(&lost), Some(&lost), &whole[..3]),
        (&deeds[..], None, Some(&lost), &whole[..2]),
    ] {
        check_both(&rt, rt.alloc(), deeds, one, other, calls)?;
    }
    Ok(())
}

/// What is found of deeds over a counter that begins with 10.
fn found_over_counter(alloc: Global, deeds: &[Deed], lists: &[Wanted]) -> Result<Found, NoMemory> {
    let objects = counter(alloc, 1, 10)?;
    let deeds = deeds_of(alloc, deeds)?;
    Found::of(alloc, &deeds, &objects, lists)
}

#[test]
fn adders_come_in_order_of_their_commits(rt: HostRuntime) -> Result<(), Fail> {
    let first = Name::parse("1.1.1")?;
    let second = Name::parse("1.1.2")?;
    let reader = Name::parse("1.1.3")?;
    let calls = [
        (second, Answer::Ok),
        (first, Answer::Ok),
        (reader, Answer::Value(22)),
    ];
    let lists = [
        Wanted::new(None, &calls[..2]),
        Wanted::new(Some(&reader), &calls),
    ];
    let deeds = added_by_two(first, second, reader);
    let found = found_over_counter(rt.alloc(), &deeds, &lists)?;
    same(&rt, found, ALL_IS_MET);
    Ok(())
}

/// The serial list of calls of a register with these answers, each the first of the action.
fn list_of(alloc: Global, action: Name, calls: &[(Op, Answer)]) -> Result<SerialList, NoMemory> {
    let mut list = SerialList::new(alloc);
    for (op, answer) in calls {
        list.push_copy(&Operation {
            action,
            number: 1,
            object: 0,
            op: *op,
            answer: *answer,
        })?;
    }
    Ok(list)
}

/// Whether calls of a register with these answers, in this order, replay.
fn replay(alloc: Global, calls: &[(Op, Answer)]) -> Result<bool, Fail> {
    let list = list_of(alloc, Name::parse("1.1.1")?, calls)?;
    let objects = registers(alloc, &[1])?;
    Ok(replays(alloc, &list, &objects)?)
}

#[test]
fn a_wrong_answer_does_not_replay(rt: HostRuntime) -> Result<(), Fail> {
    let calls = [
        (Op::Swap(5), Answer::Value(0)),
        (Op::Read, Answer::Value(5)),
        (Op::Read, Answer::Value(0)),
    ];
    for (calls, right) in [
        (&calls[..1], true),
        (&calls[..2], true),
        (&calls[..], false),
    ] {
        let found = replay(rt.alloc(), calls)?;
        same(&rt, (calls.len(), found), (calls.len(), right));
    }
    Ok(())
}
