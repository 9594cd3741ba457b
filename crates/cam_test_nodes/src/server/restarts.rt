//! What a site answers after a restart of its own, and after one of a node that the caller has visited.
use super::site::{Call, Step, addressed, called, crash_orphan, first_other};
use crate::check::same;
use cam_event::Reply;
use cam_know::Outcome;
use cam_names::{Deps, Name};
use cam_server::Performed;
use cam_type::{Answer, Op};
use std::test::Fail;

/// *A call arrives*, test *again*: a call that was performed or bounced since the last crash gets its reply once more. After a crash there is
/// no such reply: the calls are served anew.
#[test]
fn kept_replies_are_gone_after_a_restart(rt: HostRuntime) -> Result<(), Fail> {
    let a = Name::parse("1.1.1")?;
    let b = Name::parse("1.1.2")?;
    let steps = [
        called(&a, 1, Op::Write(5), Performed::Done(Answer::Ok)),
        called(&b, 1, Op::Read, Performed::Busy(a)),
        called(&b, 1, Op::Read, Performed::Again(Reply::Busy(a))),
        Step::Crashed(2),
        addressed(&b, 1, Op::Read, 2, Performed::Done(Answer::Value(0))),
        addressed(&a, 1, Op::Write(5), 2, Performed::Busy(b)),
    ];
    same(&rt, first_other(rt.alloc(), 2, 0, &steps)?, None);
    Ok(())
}

/// *A call arrives*, test *missed*: the site restarts between its yes for a family and the outcome. A call that was addressed before misses,
/// the lock of a read that was secured is back, and it goes when the commit is told.
#[test]
fn read_locks_come_back_after_a_restart(rt: HostRuntime) -> Result<(), Fail> {
    let a = Name::parse("1.1.1")?;
    let b = Name::parse("1.1.2")?;
    let steps = [
        called(&a, 1, Op::Read, Performed::Done(Answer::Value(0))),
        Step::Secured(a),
        Step::Crashed(2),
        called(&b, 1, Op::Write(8), Performed::Missed),
        addressed(&b, 2, Op::Write(8), 2, Performed::Busy(a)),
        Step::Told(Outcome::Committed(a, Deps::none().with(1, 1).with(2, 1))),
        addressed(&b, 3, Op::Write(8), 2, Performed::Done(Answer::Ok)),
    ];
    same(&rt, first_other(rt.alloc(), 2, 0, &steps)?, None);
    Ok(())
}

/// A read of an action that has visited these nodes at these counts.
fn visiting(action: &Name, number: u32, visited: &Deps, answer: Performed) -> Step {
    let call = Call {
        action: *action,
        number,
        op: Op::Read,
        count: 1,
        visited: *visited,
    };
    Step::Called(call, answer)
}

/// *The orphan test*, of crashes: a pair that the action itself has visited is below the known count of its node. The least such node is named.
#[test]
fn what_was_visited_makes_an_orphan(rt: HostRuntime) -> Result<(), Fail> {
    let a = Name::parse("1.1.1")?;
    let zero = Answer::Value(0);
    let older = Deps::none().with(1, 1).with(2, 1).with(4, 5);
    let newer = Deps::none().with(1, 1).with(2, 1).with(4, 6);
    let second = crash_orphan(2, 1, 2);
    let fourth = crash_orphan(4, 5, 6);
    let steps = [
        visiting(&a, 1, &older, Performed::Done(zero)),
        Step::Restarted(4, 6),
        visiting(&a, 1, &older, Performed::Again(Reply::Done(zero))),
        visiting(&a, 2, &older, fourth),
        visiting(&a, 2, &newer, Performed::Done(zero)),
        Step::Restarted(2, 2),
        visiting(&a, 3, &older, second),
        visiting(&a, 3, &newer, second),
    ];
    same(&rt, first_other(rt.alloc(), 3, 0, &steps)?, None);
    Ok(())
}
