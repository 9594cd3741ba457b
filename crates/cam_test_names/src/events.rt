//! The nine events of a trace: views, and copies.
use crate::check::same;
use cam_base::NoMemory;
use cam_event::{
    Body, Deed, Event, LetterId, Note, Reply, Seen, Sent, Trace, ViewStep, copy_event, view,
};
use cam_names::{Deps, Name};
use cam_samples::{bounce, call, create, deeds_of, got, perform, sent_of};
use cam_type::{Answer, Op};
use std::alloc::Global;
use std::process::Abort;
use std::test::Fail;

fn asks(action: Name, number: u32, op: Op) -> Option<Body> {
    Some(Body::Call {
        action,
        number,
        object: 0,
        op,
        count: 1,
        deps: Deps::none(),
    })
}

fn answers(action: Name, reply: Reply) -> Option<Body> {
    Some(Body::Answer {
        action,
        number: 1,
        reply,
    })
}

/// Two actions of node 1 that call one register of it: the first writes 5 and reads, the second finds
/// it held. Each event has the event whose letter it received, its deed and what it sent.
fn rows(a: Name, b: Name) -> [(Option<u64>, Deed, Option<Body>); 9] {
    let write = Op::Write(5);
    let done = Reply::Done(Answer::Ok);
    [
        (None, create(a), None),
        (None, create(b), None),
        (None, call(a, 1, 0, write), asks(a, 1, write)),
        (Some(2), perform(a, 1, Answer::Ok), answers(a, done)),
        (Some(3), got(a, 1, Seen::Done(Answer::Ok)), None),
        (None, call(b, 1, 0, Op::Read), asks(b, 1, Op::Read)),
        (Some(5), bounce(b, 1, a), answers(b, Reply::Busy(a))),
        (Some(6), got(b, 1, Seen::Busy(a)), None),
        (None, call(a, 2, 0, Op::Read), asks(a, 2, Op::Read)),
    ]
}

fn trace(alloc: Global, a: Name, b: Name) -> Result<Trace, NoMemory> {
    let mut trace = Trace::new(alloc);
    for (sender, deed, body) in rows(a, b) {
        let sent = match body {
            Some(body) => sent_of(alloc, &[Sent { to: 1, body }])?,
            None => sent_of(alloc, &[])?,
        };
        trace.push(Event {
            node: 1,
            got: sender.map(|event| LetterId { event, place: 0 }),
            deeds: deeds_of(alloc, &[deed])?,
            sent,
            note: Note::Plain,
        })?;
    }
    Ok(trace)
}

/// Fails the test where the view of an action has other steps than these.
fn check_view(
    rt: &impl Abort,
    alloc: Global,
    trace: &Trace,
    action: &Name,
    steps: &[ViewStep],
) -> Result<(), Fail> {
    let seen = view(alloc, trace, action)?;
    same(rt, seen.as_slice(), steps);
    Ok(())
}

#[test]
fn a_view_has_what_the_action_did_and_saw(rt: HostRuntime) -> Result<(), Fail> {
    let alloc = rt.alloc();
    let a = Name::parse("1.1.1")?;
    let b = Name::parse("1.1.2")?;
    let other = Name::parse("1.1.3")?;
    let first = [
        ViewStep::Created,
        ViewStep::Called(1, 0, Op::Write(5)),
        ViewStep::Got(1, Seen::Done(Answer::Ok)),
        ViewStep::Called(2, 0, Op::Read),
    ];
    let second = [
        ViewStep::Created,
        ViewStep::Called(1, 0, Op::Read),
        ViewStep::Got(1, Seen::Busy(a)),
    ];
    let trace = trace(alloc, a, b)?;
    check_view(&rt, alloc, &trace, &a, &first)?;
    check_view(&rt, alloc, &trace, &b, &second)?;
    check_view(&rt, alloc, &trace, &other, &[])
}

/// Fails the test where the copy of an event is not equal to it.
fn check_copy(rt: &impl Abort, event: &Event) -> Result<(), Fail> {
    let copy = copy_event(event)?;
    same(rt, &copy, event);
    Ok(())
}

#[test]
fn a_copy_is_an_equal_event(rt: HostRuntime) -> Result<(), Fail> {
    let alloc = rt.alloc();
    let trace = trace(alloc, Name::parse("1.1.1")?, Name::parse("1.1.2")?)?;
    same(&rt, trace.len(), 9);
    for event in trace.as_slice() {
        check_copy(&rt, event)?;
    }
    Ok(())
}
