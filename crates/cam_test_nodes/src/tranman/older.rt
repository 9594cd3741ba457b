//! What comes to a home for actions that it does not run: of an older count of its own, of another node, or not known.
use super::{begun, called, started};
use crate::check::same;
use cam_event::{Reply, Seen};
use cam_names::{Deps, Name};
use cam_tranman::{Homed, Started, Taken};
use cam_type::Answer;
use std::alloc::Global;
use std::process::Abort;
use std::test::Fail;

/// Whether the child of this name may start at node 3 and its count 5.
fn may_start(alloc: Global, child: &str) -> Result<bool, Fail> {
    let child = Name::parse(child)?;
    let homed = Homed::new(alloc, 3, 5);
    Ok(homed.may_start(&child))
}

/// *A start arrives*, test *missed*: the last count in the child's name is not the present one, older or newer, or another node is its home.
/// The count of its parent is another matter.
#[test]
fn a_child_of_another_count_may_not_start(rt: HostRuntime) -> Result<(), Fail> {
    for (child, wanted) in [
        ("1.2.1/3.5.1", true),
        ("1.2.1/3.4.1", false),
        ("1.2.1/3.6.1", false),
        ("1.2.1/4.5.1", false),
        ("3.4.1/3.5.1", true),
    ] {
        let got = may_start(rt.alloc(), child)?;
        same(&rt, (child, got), (child, wanted));
    }
    Ok(())
}

/// The child starts once. Then it may start, and is known.
fn start_again(rt: &impl Abort, homed: &mut Homed, child: &Name) -> Result<(), Fail> {
    let deps = Deps::none().with(1, 2);
    let more = Deps::none().with(1, 2).with(2, 4);
    let was_there = homed.created(child);
    let first = started(homed, child, &deps)?;
    same(rt, (was_there, first), (false, Some(Started::New)));
    same(
        rt,
        (homed.created(child), homed.may_start(child)),
        (true, true),
    );
    same(rt, started(homed, child, &more)?, Some(Started::Known));
    Ok(())
}

/// *A start arrives*, test *again*: a child that is there already may start, and nothing comes of it.
#[test]
fn a_child_that_is_there_starts_no_more(rt: HostRuntime) -> Result<(), Fail> {
    let child = Name::parse("1.2.1/3.5.1")?;
    let with_home = Deps::none().with(1, 2).with(3, 5);
    same(&rt, child.home(), (3, 5));
    let mut homed = Homed::new(rt.alloc(), 3, 5);
    start_again(&rt, &mut homed, &child)?;
    same(&rt, homed.deps(&child), Some(with_home));
    Ok(())
}

/// An answer to the first call of an action is late, whatever the count of its site. The action does not await it.
fn check_late(rt: &impl Abort, homed: &mut Homed, action: &Name) {
    let zero = Reply::Done(Answer::Value(0));
    let told = homed.taken(action, 1, &zero, 7);
    let at_count = homed.answer(action, 1, &zero, 7);
    let after_crash = homed.answer(action, 1, &zero, 8);
    let late = (Taken::Late, Taken::Late, Taken::Late);
    same(rt, (told, at_count, after_crash), late);
    same(rt, homed.awaits(action, 1), false);
}

/// *An answer arrives*, test *late*: the count of the action is not the present one. Before the restart the action had the call of this number
/// open, and so has now the first top action of the present count.
#[test]
fn the_answer_to_an_action_of_an_older_count_is_late(rt: HostRuntime) -> Result<(), Fail> {
    let older = Name::parse("1.1.1")?;
    let present = Name::parse("1.2.1")?;
    let zero = Reply::Done(Answer::Value(0));
    let seen = Taken::Got(Seen::Done(Answer::Value(0)));
    let mut homed = Homed::new(rt.alloc(), 1, 2);
    same(&rt, begun(&mut homed), Some(present));
    same(&rt, called(&mut homed, &present), Some(1));
    check_late(&rt, &mut homed, &older);
    same(&rt, homed.awaits(&present, 1), true);
    same(&rt, homed.answer(&present, 1, &zero, 7), seen);
    Ok(())
}

/// *An answer arrives*, test *late*: the action was not created, with or without a top action of its count.
#[test]
fn the_answer_to_an_action_that_is_not_known_is_late(rt: HostRuntime) -> Result<(), Fail> {
    let unknown = Name::parse("1.2.2")?;
    let zero = Reply::Done(Answer::Value(0));
    let mut homed = Homed::new(rt.alloc(), 1, 2);
    let before = homed.answer(&unknown, 1, &zero, 7);
    let begins = begun(&mut homed).is_some();
    same(&rt, (before, begins), (Taken::Late, true));
    let done = homed.answer(&unknown, 1, &zero, 7);
    let missed = homed.answer(&unknown, 1, &Reply::Missed, 8);
    same(&rt, (done, missed), (Taken::Late, Taken::Late));
    same(
        &rt,
        (homed.created(&unknown), homed.deps(&unknown)),
        (false, None),
    );
    Ok(())
}
