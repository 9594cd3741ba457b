//! `cam_plain`: what each deed needs of those before it, and values handed up past the top; random lists, beside the definition.

mod before;
mod histories;
mod lines;
mod next;
mod standing;

use crate::check::same;
use cam_base::NoMemory;
use cam_event::{Deed, Deeds, Seen};
use cam_names::Name;
use cam_plain::{CheckFault, DeedKind, check, site_value};
use cam_samples::{
    abort, ask, ask_abort, ask_commit, bounce, call, call_at_count, commit, counter, crash, create,
    deeds_of, got, got_done, inform, perform, registers, secure, without,
};
use cam_type::{Answer, Objects, Op, State};
use std::alloc::Global;
use std::test::Fail;

/// What the child of a family wrote is secured, outlives a crash of its site, and is read once the site knows that the family committed.
/// Another child and another family abort.
fn a_secured_write(
    family: Name,
    writer: Name,
    late: Name,
    reader: Name,
    third: Name,
) -> [Deed; 25] {
    [
        create(family),
        ask(family, writer),
        create(writer),
        call(writer, 1, 0, Op::Write(3)),
        perform(writer, 1, Answer::Ok),
        got_done(writer, 1, Answer::Ok),
        ask_commit(writer, 7),
        commit(writer),
        inform(1, writer, true),
        ask(family, late),
        abort(late),
        ask_commit(family, 7),
        secure(family, 1),
        secure(family, 2),
        crash(1),
        commit(family),
        create(reader),
        call_at_count(reader, 1, 0, Op::Read, 2),
        bounce(reader, 1, family),
        got(reader, 1, Seen::Busy(family)),
        inform(1, family, true),
        call_at_count(reader, 2, 0, Op::Read, 2),
        perform(reader, 2, Answer::Value(3)),
        create(third),
        ask_abort(third),
    ]
}

/// The list without the deed at each place: which deed is at fault then, and its kind; or that it is legal.
const FAULTS: [Option<(u64, DeedKind)>; 25] = [
    Some((0, DeedKind::Ask)),
    Some((1, DeedKind::Create)),
    Some((2, DeedKind::Call)),
    Some((3, DeedKind::Perform)),
    Some((4, DeedKind::Got)),
    Some((5, DeedKind::AskCommit)),
    Some((6, DeedKind::Commit)),
    Some((7, DeedKind::Inform)),
    Some((11, DeedKind::Secure)),
    Some((9, DeedKind::Abort)),
    Some((10, DeedKind::AskCommit)),
    Some((11, DeedKind::Secure)),
    Some((14, DeedKind::Commit)),
    Some((14, DeedKind::Commit)),
    Some((16, DeedKind::Call)),
    Some((19, DeedKind::Inform)),
    Some((16, DeedKind::Call)),
    Some((17, DeedKind::Bounce)),
    Some((18, DeedKind::Got)),
    Some((20, DeedKind::Call)),
    Some((21, DeedKind::Perform)),
    Some((21, DeedKind::Perform)),
    None,
    Some((23, DeedKind::AskAbort)),
    None,
];

/// What the check answers where the deed at this place, of this kind, is at fault; or where none is.
fn expected(fault: &Option<(u64, DeedKind)>) -> Result<(), CheckFault> {
    match fault {
        Some((at, cause)) => Err(CheckFault::Illegal {
            at: *at,
            cause: *cause,
        }),
        None => Ok(()),
    }
}

/// The deeds of `a_secured_write`, of actions at node 2 and a child at node 1.
fn secured_write() -> Result<[Deed; 25], Fail> {
    Ok(a_secured_write(
        Name::parse("2.1.1")?,
        Name::parse("2.1.1/2.1.1")?,
        Name::parse("2.1.1/1.1.2")?,
        Name::parse("2.1.2")?,
        Name::parse("2.1.3")?,
    ))
}

/// Whether these deeds are legal.
fn check_deeds(alloc: Global, deeds: &[Deed], objects: &Objects) -> Result<(), CheckFault> {
    check(alloc, &deeds_of(alloc, deeds)?, objects)
}

/// Whether these deeds are legal without the one at a place.
fn check_without(
    alloc: Global,
    deeds: &[Deed],
    left_out: usize,
    objects: &Objects,
) -> Result<(), CheckFault> {
    check(alloc, &without(alloc, deeds, left_out)?, objects)
}

/// The value of the first object that is handed up past the top after these deeds.
fn value_after(alloc: Global, deeds: &[Deed], objects: &Objects) -> Result<State, NoMemory> {
    site_value(alloc, &deeds_of(alloc, deeds)?, objects, 0)
}

#[test]
fn each_deed_needs_what_came_before(rt: HostRuntime) -> Result<(), Fail> {
    let alloc = rt.alloc();
    let deeds = secured_write()?;
    let objects = registers(alloc, &[1])?;
    same(&rt, check_deeds(alloc, &deeds, &objects), Ok(()));
    for (left_out, fault) in FAULTS.iter().enumerate() {
        let found = check_without(alloc, &deeds, left_out, &objects);
        same(&rt, (left_out, found), (left_out, expected(fault)));
    }
    Ok(())
}

/// The value of a register that is handed up past the top after these deeds.
fn register_after(alloc: Global, deeds: &[Deed]) -> Result<State, NoMemory> {
    let objects = registers(alloc, &[1])?;
    value_after(alloc, deeds, &objects)
}

/// Before the site knows that the family committed, and after.
#[test]
fn a_value_is_handed_up_where_its_site_knows_of_the_commit(rt: HostRuntime) -> Result<(), Fail> {
    let deeds = secured_write()?;
    for (deeds, value) in [(&deeds[..20], 0), (&deeds[..], 3)] {
        let state = register_after(rt.alloc(), deeds)?;
        same(
            &rt,
            (deeds.len(), &state),
            (deeds.len(), &State::Register(value)),
        );
    }
    Ok(())
}

/// Two families add to one counter side by side. One reads before the other has committed, which is refused, and then again.
fn two_adders(one: Name, other: Name) -> [Deed; 17] {
    [
        create(one),
        create(other),
        call(one, 1, 0, Op::Add(5)),
        call(other, 1, 0, Op::Add(7)),
        perform(one, 1, Answer::Ok),
        perform(other, 1, Answer::Ok),
        got_done(one, 1, Answer::Ok),
        got_done(other, 1, Answer::Ok),
        call(one, 2, 0, Op::Read),
        bounce(one, 2, other),
        got(one, 2, Seen::Busy(other)),
        ask_commit(other, 7),
        secure(other, 1),
        commit(other),
        inform(1, other, true),
        call(one, 3, 0, Op::Read),
        perform(one, 3, Answer::Value(22)),
    ]
}

/// Whether these deeds are legal over a counter that begins with 10.
fn check_over_counter(alloc: Global, deeds: &[Deed]) -> Result<(), CheckFault> {
    let objects = counter(alloc, 1, 10)?;
    check_deeds(alloc, deeds, &objects)
}

/// The value of that counter that is handed up past the top after these deeds.
fn counter_after(alloc: Global, deeds: &[Deed]) -> Result<State, NoMemory> {
    let objects = counter(alloc, 1, 10)?;
    value_after(alloc, deeds, &objects)
}

#[test]
fn adders_stand_in_the_way_of_readers_alone(rt: HostRuntime) -> Result<(), Fail> {
    let one = Name::parse("1.1.1")?;
    let deeds = two_adders(one, Name::parse("1.1.2")?);
    same(&rt, check_over_counter(rt.alloc(), &deeds), Ok(()));
    let state = counter_after(rt.alloc(), &deeds)?;
    same(&rt, &state, &State::Counter(17));
    Ok(())
}

/// The deeds of two adders until the early read, which is performed here.
fn read_early(alloc: Global, one: Name, other: Name) -> Result<Deeds, NoMemory> {
    let deeds = two_adders(one, other);
    let mut early = deeds_of(alloc, &deeds[..9])?;
    early.push_copy(&perform(one, 2, Answer::Value(22)))?;
    Ok(early)
}

/// Whether they are legal.
fn check_read_early(alloc: Global, one: Name, other: Name) -> Result<(), CheckFault> {
    let early = read_early(alloc, one, other)?;
    check_over_counter(alloc, early.as_slice())
}

#[test]
fn a_reader_waits_for_an_adder(rt: HostRuntime) -> Result<(), Fail> {
    let one = Name::parse("1.1.1")?;
    let other = Name::parse("1.1.2")?;
    let found = check_read_early(rt.alloc(), one, other);
    same(&rt, found, expected(&Some((9, DeedKind::Perform))));
    Ok(())
}

/// A fault tells the number of the line, as the rules count them.
#[test]
fn a_fault_tells_the_deed_and_its_line(rt: HostRuntime) -> Result<(), Fail> {
    let fault = CheckFault::Illegal {
        at: 9,
        cause: DeedKind::Perform,
    };
    let text = format!(in rt.alloc(); "{fault}")?;
    same(&rt, text.as_str(), "the deed at 9 does not meet line 4");
    let ends = (DeedKind::Create.number(), DeedKind::Inform.number());
    same(&rt, ends, (1, 12));
    Ok(())
}
