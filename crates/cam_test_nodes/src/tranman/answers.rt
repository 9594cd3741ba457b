//! What is seen of an answer.
use super::{begun, called, quits};
use crate::check::{holds, same};
use cam_event::{Reply, Seen};
use cam_names::{Deps, Name};
use cam_tranman::{Homed, Taken};
use cam_type::Answer;
use std::alloc::Global;
use std::process::Abort;
use std::test::Fail;

/// What comes of an answer to a call, whether the call is still awaited, and what its action depends on.
type Answered = (Taken, bool, Option<Deps>);

/// What a top action of node 1 at its count 2 depends on before it has seen an answer.
fn home() -> Deps {
    Deps::none().with(1, 2)
}

/// What it depends on after it has seen one, of the site's count 7.
fn home_and_site() -> Deps {
    Deps::none().with(1, 2).with(4, 7)
}

/// What comes of this answer to the first call of a top action, at site 4 and its count 7, where the site's count is known so.
fn answered(rt: &impl Abort, alloc: Global, reply: &Reply, known: u32) -> Result<Answered, Fail> {
    let top = Name::parse("1.2.1")?;
    let mut homed = Homed::new(alloc, 1, 2);
    call_first(rt, &mut homed, &top);
    let taken = homed.answer(&top, 1, reply, known);
    Ok((taken, homed.awaits(&top, 1), homed.deps(&top)))
}

/// The top action begins and makes its first call. What answers it before the call, and what answers another call, is late.
fn call_first(rt: &impl Abort, homed: &mut Homed, top: &Name) {
    let done = Reply::Done(Answer::Value(6));
    same(rt, begun(homed), Some(*top));
    let before = homed.answer(top, 1, &done, 8);
    let number = called(homed, top);
    let other = homed.answer(top, 2, &done, 8);
    same(
        rt,
        (before, number, other),
        (Taken::Late, Some(1), Taken::Late),
    );
    holds(rt, homed.awaits(top, 1));
}

/// *An answer arrives*, the tests after the orphan test. The site's count is known as that at which it was addressed.
#[test]
fn what_is_seen_of_an_answer(rt: HostRuntime) -> Result<(), Fail> {
    let holder = Name::parse("2.1.1")?;
    let done = Reply::Done(Answer::Value(6));
    let value = Taken::Got(Seen::Done(Answer::Value(6)));
    let busy = Reply::Busy(holder);
    let held = Taken::Got(Seen::Busy(holder));
    let of_done = answered(&rt, rt.alloc(), &done, 7)?;
    same(&rt, of_done, (value, false, Some(home_and_site())));
    let of_busy = answered(&rt, rt.alloc(), &busy, 7)?;
    same(&rt, of_busy, (held, false, Some(home())));
    for reply in [Reply::Missed, Reply::Refused] {
        let got = answered(&rt, rt.alloc(), &reply, 7)?;
        let wanted = (Taken::Late, true, Some(home()));
        same(&rt, (reply, got), (reply, wanted));
    }
    Ok(())
}

/// *An answer arrives*, where the site's count is known as 8, after a crash: whatever the reply, the answer is gone.
#[test]
fn every_answer_is_gone_after_a_crash(rt: HostRuntime) -> Result<(), Fail> {
    let done = Reply::Done(Answer::Value(6));
    let busy = Reply::Busy(Name::parse("2.1.1")?);
    for reply in [done, busy, Reply::Missed, Reply::Refused] {
        let got = answered(&rt, rt.alloc(), &reply, 8)?;
        let wanted = (Taken::Got(Seen::Gone), false, Some(home()));
        same(&rt, (reply, got), (reply, wanted));
    }
    Ok(())
}

/// The top action begins, and its first call is answered. Then it makes its second.
fn call_twice(rt: &impl Abort, homed: &mut Homed, top: &Name) {
    let busy = Reply::Busy(*top);
    let seen = Taken::Got(Seen::Busy(*top));
    same(rt, begun(homed), Some(*top));
    same(rt, called(homed, top), Some(1));
    same(rt, homed.answer(top, 1, &busy, 7), seen);
    same(rt, called(homed, top), Some(2));
}

/// *An answer arrives*, test *late*. The answer to an earlier call, and to a call of an action that has ended, is late.
#[test]
fn only_the_open_call_is_answered(rt: HostRuntime) -> Result<(), Fail> {
    let top = Name::parse("1.2.1")?;
    let done = Reply::Done(Answer::Value(6));
    let mut homed = Homed::new(rt.alloc(), 1, 2);
    call_twice(&rt, &mut homed, &top);
    let earlier = homed.answer(&top, 1, &done, 7);
    let is_open = homed.awaits(&top, 2);
    let has_quit = quits(&mut homed, &top);
    let ended = homed.answer(&top, 2, &done, 7);
    same(&rt, (earlier, is_open), (Taken::Late, true));
    same(&rt, (has_quit, ended), (true, Taken::Late));
    Ok(())
}
