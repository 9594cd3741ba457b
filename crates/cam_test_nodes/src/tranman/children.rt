//! How children are asked for, decided and started.
use super::{asked, begun, quits, refused, started};
use crate::check::{holds, same};
use cam_event::{LineRefusal, Request, Want};
use cam_names::{Deps, Name, NameFault};
use cam_tranman::{Homed, Started};
use std::process::Abort;
use std::test::Fail;

/// A top action of node 1 at its count 2, and its three children.
#[derive(Clone, Copy)]
struct Family {
    top: Name,
    first: Name,
    second: Name,
    third: Name,
}

/// Their names.
fn three_children() -> Result<Family, NameFault> {
    Ok(Family {
        top: Name::parse("1.2.1")?,
        first: Name::parse("1.2.1/1.1.1")?,
        second: Name::parse("1.2.1/1.1.2")?,
        third: Name::parse("1.2.1/1.1.3")?,
    })
}

/// The top action begins, and asks for its children.
fn begin_all(rt: &impl Abort, homed: &mut Homed, family: &Family) {
    same(rt, begun(homed), Some(family.top));
    for child in &[family.first, family.second, family.third] {
        same(rt, asked(homed, &family.top, 1), Some(*child));
    }
}

/// Whether the child was to be decided. Then it commits, and depends on these, or it aborts.
fn decided(homed: &mut Homed, child: &Name, commit: &Option<Deps>) -> bool {
    let decides = homed.decides(child);
    if decides {
        homed.decide(child, commit);
    }
    decides
}

/// Whether nothing stood against it that the action gives up the child. Then it has.
fn gives_up(homed: &mut Homed, action: &Name, child: &Name) -> bool {
    let request = Request {
        action: *action,
        want: Want::GiveUp(*child),
    };
    if homed.refusal(&request).is_some() {
        return false;
    }
    homed.give_up(action, child);
    true
}

/// Whether nothing stood against the action's commit with the value 9. Then it has asked for that.
fn finishes(homed: &mut Homed, action: &Name) -> bool {
    let request = Request {
        action: *action,
        want: Want::Commit(9),
    };
    if homed.refusal(&request).is_some() {
        return false;
    }
    homed.finish(action, 9);
    true
}

/// The child is decided so, and not again. Then its parent depends on these.
fn decide_once(
    rt: &impl Abort,
    homed: &mut Homed,
    family: &Family,
    child: &Name,
    commit: &Option<Deps>,
    deps: &Deps,
) {
    let was_decided = decided(homed, child, commit);
    let is_decided_again = homed.decides(child);
    let depends_on = homed.deps(&family.top);
    let wanted = (true, false, Some(*deps));
    same(rt, (was_decided, is_decided_again, depends_on), wanted);
}

/// The third child is given up, and not again.
fn give_up_once(rt: &impl Abort, homed: &mut Homed, family: &Family) {
    let again = Want::GiveUp(family.third);
    let is_given_up = gives_up(homed, &family.top, &family.third);
    let is_decided = homed.decides(&family.third);
    let refusal = refused(homed, &family.top, &again);
    let wanted = (true, false, Some(LineRefusal::NotOpen));
    same(rt, (is_given_up, is_decided, refusal), wanted);
}

/// *A child finishes*, *A child quits* and *Give up a child*. A top action asks for three children: one aborts, one commits, one is given up.
/// Then nothing stands against its commit.
#[test]
fn children_are_decided_once(rt: HostRuntime) -> Result<(), Fail> {
    let family = three_children()?;
    let home = Deps::none().with(1, 2);
    let more = Deps::none().with(3, 5);
    let both = home.with(3, 5);
    let mut homed = Homed::new(rt.alloc(), 1, 2);
    begin_all(&rt, &mut homed, &family);
    decide_once(&rt, &mut homed, &family, &family.first, &None, &home);
    decide_once(&rt, &mut homed, &family, &family.second, &Some(more), &both);
    give_up_once(&rt, &mut homed, &family);
    let has_finished = finishes(&mut homed, &family.top);
    let refusal = refused(&homed, &family.top, &Want::Commit(9));
    same(
        &rt,
        (has_finished, refusal),
        (true, Some(LineRefusal::Ended)),
    );
    Ok(())
}

/// The top action begins, and asks for a child at its node and then for one at node 5.
fn ask_for_two(rt: &impl Abort, homed: &mut Homed, top: &Name, here: &Name, there: &Name) {
    same(rt, begun(homed), Some(*top));
    same(rt, asked(homed, top, 1), Some(*here));
    same(rt, asked(homed, top, 5), Some(*there));
}

/// *Ask*, and test *late* of *A child finishes*. Children are numbered in the order in which they were asked for, whatever their nodes. They are
/// decided while their parent goes on: no child of an action that has ended is.
#[test]
fn a_child_is_decided_while_its_parent_goes_on(rt: HostRuntime) -> Result<(), Fail> {
    let top = Name::parse("1.2.1")?;
    let here = Name::parse("1.2.1/1.1.1")?;
    let there = Name::parse("1.2.1/5.1.2")?;
    let mut homed = Homed::new(rt.alloc(), 1, 2);
    ask_for_two(&rt, &mut homed, &top, &here, &there);
    same(
        &rt,
        (homed.decides(&here), homed.decides(&there)),
        (true, true),
    );
    holds(&rt, quits(&mut homed, &top));
    same(
        &rt,
        (homed.decides(&here), homed.decides(&there)),
        (false, false),
    );
    Ok(())
}

/// None of these is to be decided.
fn check_none_decided(rt: &impl Abort, homed: &Homed, names: &[Name]) {
    for name in names {
        same(rt, (*name, homed.decides(name)), (*name, false));
    }
}

/// *A child finishes*, test *late*. Neither the child of an action of an older count is decided, nor that of an action that was not created, nor
/// a top action.
#[test]
fn no_child_of_an_action_that_is_not_here_is_decided(rt: HostRuntime) -> Result<(), Fail> {
    let top = Name::parse("1.2.1")?;
    let here = Name::parse("1.2.1/1.1.1")?;
    let there = Name::parse("1.2.1/5.1.2")?;
    let older = Name::parse("1.1.1/5.1.1")?;
    let unknown = Name::parse("1.2.2/5.1.1")?;
    let mut homed = Homed::new(rt.alloc(), 1, 2);
    ask_for_two(&rt, &mut homed, &top, &here, &there);
    check_none_decided(&rt, &homed, &[older, unknown, top]);
    Ok(())
}

/// The child, which is not there, starts once. No top action begins by that.
fn start_once(rt: &impl Abort, homed: &mut Homed, child: &Name, deps: &Deps) -> Result<(), Fail> {
    same(rt, homed.deps(child), None);
    homed.reserve()?;
    same(rt, started(homed, child, deps)?, Some(Started::New));
    same(
        rt,
        started(homed, child, &Deps::none())?,
        Some(Started::Known),
    );
    same(rt, homed.tops(), 0);
    Ok(())
}

/// *A start arrives*. A child starts once at its home, with what its parent depended on and the home. Room that is made is used by the next call.
#[test]
fn a_child_starts_once(rt: HostRuntime) -> Result<(), Fail> {
    let child = Name::parse("1.2.1/3.5.1")?;
    let deps = Deps::none().with(1, 2).with(2, 4);
    let with_home = deps.with(3, 5);
    same(&rt, child.home(), (3, 5));
    let mut homed = Homed::new(rt.alloc(), 3, 5);
    start_once(&rt, &mut homed, &child, &deps)?;
    same(&rt, homed.deps(&child), Some(with_home));
    Ok(())
}
