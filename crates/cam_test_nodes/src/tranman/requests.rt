//! What stands against a request.
use super::{asked, begun, called, quits, refused, started};
use crate::check::{holds, same};
use cam_event::{LineRefusal, Want};
use cam_names::{Deps, Name, NameFault};
use cam_tranman::{Homed, Started};
use cam_type::Op;
use std::process::Abort;
use std::test::Fail;

/// A request, and what stands against it.
type Row = (Want, Option<LineRefusal>);

const ASK: Want = Want::Ask(1);

const READ: Want = Want::Call(0, Op::Read);

const COMMIT: Want = Want::Commit(0);

const ABORT: Want = Want::Abort;

/// The first of these requests of an action against which something else stands, and what.
fn first_other(homed: &Homed, action: &Name, rows: &[Row]) -> Option<(Name, Row)> {
    for (want, wanted) in rows {
        let got = refused(homed, action, want);
        if got != *wanted {
            return Some((*action, (*want, got)));
        }
    }
    None
}

/// The top actions of node 3 at its count 2, and the child that one of them asks for.
#[derive(Clone, Copy)]
struct Named {
    free: Name,
    calling: Name,
    parent: Name,
    ended: Name,
    child: Name,
}

/// Their names.
fn four_actions() -> Result<Named, NameFault> {
    Ok(Named {
        free: Name::parse("3.2.1")?,
        calling: Name::parse("3.2.2")?,
        parent: Name::parse("3.2.3")?,
        ended: Name::parse("3.2.4")?,
        child: Name::parse("3.2.3/1.1.1")?,
    })
}

/// The four begin: one does no more, one calls, one asks for a child, and one ends.
fn begin_all(rt: &impl Abort, homed: &mut Homed, named: &Named) {
    for name in &[named.free, named.calling, named.parent, named.ended] {
        same(rt, begun(homed), Some(*name));
    }
    same(rt, called(homed, &named.calling), Some(1));
    same(rt, asked(homed, &named.parent, 1), Some(named.child));
    holds(rt, quits(homed, &named.ended));
}

fn check_free(rt: &impl Abort, homed: &Homed, named: &Named) {
    let rows = [
        (ASK, None),
        (READ, None),
        (COMMIT, None),
        (ABORT, None),
        (Want::GiveUp(named.child), Some(LineRefusal::NotOpen)),
    ];
    same(rt, first_other(homed, &named.free, &rows), None);
}

fn check_calling(rt: &impl Abort, homed: &Homed, named: &Named) {
    let rows = [
        (ASK, Some(LineRefusal::OpenCall)),
        (READ, Some(LineRefusal::OpenCall)),
        (COMMIT, Some(LineRefusal::OpenCall)),
        (ABORT, None),
    ];
    same(rt, first_other(homed, &named.calling, &rows), None);
}

fn check_parent(rt: &impl Abort, homed: &Homed, named: &Named) {
    let rows = [
        (ASK, None),
        (READ, Some(LineRefusal::OpenChild)),
        (COMMIT, Some(LineRefusal::OpenChild)),
        (ABORT, None),
        (Want::GiveUp(named.child), None),
    ];
    same(rt, first_other(homed, &named.parent, &rows), None);
}

/// Each of these requests of an action is refused so.
fn check_refused(
    rt: &impl Abort,
    homed: &Homed,
    action: &Name,
    wants: &[Want],
    refusal: LineRefusal,
) {
    for want in wants {
        let got = refused(homed, action, want);
        same(rt, (*want, got), (*want, Some(refusal)));
    }
}

fn check_ended(rt: &impl Abort, homed: &Homed, named: &Named) {
    let wants = [ASK, READ, COMMIT, ABORT, Want::GiveUp(named.child)];
    check_refused(rt, homed, &named.ended, &wants, LineRefusal::Ended);
}

/// The tests of a request in their order: each, for an action that calls, one with an open child, and one that has ended.
#[test]
fn the_first_test_that_holds_refuses(rt: HostRuntime) -> Result<(), Fail> {
    let named = four_actions()?;
    let mut homed = Homed::new(rt.alloc(), 3, 2);
    begin_all(&rt, &mut homed, &named);
    check_free(&rt, &homed, &named);
    check_calling(&rt, &homed, &named);
    check_parent(&rt, &homed, &named);
    check_ended(&rt, &homed, &named);
    Ok(())
}

/// The same for an action of an older count, and for one that was not created.
#[test]
fn an_action_that_is_not_here_is_refused(rt: HostRuntime) -> Result<(), Fail> {
    let named = four_actions()?;
    let older = Name::parse("3.1.1")?;
    let unknown = Name::parse("3.2.5")?;
    let mut homed = Homed::new(rt.alloc(), 3, 2);
    begin_all(&rt, &mut homed, &named);
    check_refused(&rt, &homed, &older, &[ASK, ABORT], LineRefusal::Ended);
    let wants = [ASK, READ, COMMIT, ABORT, Want::GiveUp(named.child)];
    check_refused(&rt, &homed, &unknown, &wants, LineRefusal::NotOpen);
    Ok(())
}

/// The two with something open end as well.
fn end_others(rt: &impl Abort, homed: &mut Homed, named: &Named) {
    let calling = quits(homed, &named.calling);
    let parent = quits(homed, &named.parent);
    same(rt, (calling, parent), (true, true));
}

/// What stands against their requests now.
fn check_others_ended(rt: &impl Abort, homed: &Homed, named: &Named) {
    let calling = refused(homed, &named.calling, &READ);
    same(rt, calling, Some(LineRefusal::Ended));
    let wants = [COMMIT, Want::GiveUp(named.child)];
    check_refused(rt, homed, &named.parent, &wants, LineRefusal::Ended);
}

/// Whoever has ended is refused as such, whatever is open.
#[test]
fn whoever_has_ended_is_refused_as_such(rt: HostRuntime) -> Result<(), Fail> {
    let named = four_actions()?;
    let mut homed = Homed::new(rt.alloc(), 3, 2);
    begin_all(&rt, &mut homed, &named);
    end_others(&rt, &mut homed, &named);
    check_others_ended(&rt, &homed, &named);
    Ok(())
}

/// *Ask*: an action whose name has eight parts asks for no child, and may end.
#[test]
fn a_name_has_eight_parts_at_most(rt: HostRuntime) -> Result<(), Fail> {
    let deep = Name::parse("1.1.1/1.1.1/1.1.1/1.1.1/1.1.1/1.1.1/1.1.1/3.2.1")?;
    let rows = [
        (ASK, Some(LineRefusal::TooDeep)),
        (READ, None),
        (COMMIT, None),
    ];
    same(&rt, deep.home(), (3, 2));
    let mut homed = Homed::new(rt.alloc(), 3, 2);
    same(
        &rt,
        started(&mut homed, &deep, &Deps::none())?,
        Some(Started::New),
    );
    same(&rt, first_other(&homed, &deep, &rows), None);
    Ok(())
}
