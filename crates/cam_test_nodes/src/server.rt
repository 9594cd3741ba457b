//! What a site answers the calls that come to it, and what it is told of: each answer once, in the order of the tests.
mod restarts;
mod site;

use crate::check::same;
use cam_event::Reply;
use cam_know::{Outcome, Reason};
use cam_names::{Deps, Name};
use cam_server::Performed;
use cam_type::{Answer, Op};
use site::{Step, addressed, called, crash_orphan, first_other};
use std::test::Fail;

/// *A call arrives*, tests *busy* and *again*. Two top actions and a register: the second finds it busy, and so does its repeat when the first has committed.
#[test]
fn a_repeat_stays_busy_after_the_holder_has_ended(rt: HostRuntime) -> Result<(), Fail> {
    let a = Name::parse("1.1.1")?;
    let b = Name::parse("1.1.2")?;
    let seven = Performed::Done(Answer::Value(7));
    let steps = [
        called(&a, 1, Op::Write(7), Performed::Done(Answer::Ok)),
        called(&b, 1, Op::Read, Performed::Busy(a)),
        Step::Decided(Outcome::Committed(a, Deps::none().with(1, 1))),
        called(&b, 1, Op::Read, Performed::Again(Reply::Busy(a))),
        called(&b, 2, Op::Read, seven),
        called(&a, 1, Op::Write(7), Performed::Ended),
        addressed(&a, 1, Op::Write(7), 2, Performed::Missed),
    ];
    same(&rt, first_other(rt.alloc(), 1, 0, &steps)?, None);
    Ok(())
}

/// *A call arrives*, test *busy*, after an Inform. A child hands its lock to its parent by its commit, so that its sibling reads what it wrote.
#[test]
fn a_sibling_reads_once_the_site_has_heard(rt: HostRuntime) -> Result<(), Fail> {
    let a = Name::parse("1.1.1/1.1.1")?;
    let b = Name::parse("1.1.1/2.1.2")?;
    let steps = [
        called(&a, 1, Op::Write(4), Performed::Done(Answer::Ok)),
        called(&b, 1, Op::Read, Performed::Busy(a)),
        Step::Told(Outcome::Committed(a, Deps::none().with(1, 1).with(3, 1))),
        called(&b, 2, Op::Read, Performed::Done(Answer::Value(4))),
    ];
    same(&rt, first_other(rt.alloc(), 3, 0, &steps)?, None);
    Ok(())
}

/// *A call arrives*, test *again*. One call delivered three times is performed once.
#[test]
fn a_call_is_performed_once(rt: HostRuntime) -> Result<(), Fail> {
    let a = Name::parse("1.1.1")?;
    let again = Performed::Again(Reply::Done(Answer::Ok));
    let steps = [
        called(&a, 1, Op::Put(9), Performed::Done(Answer::Ok)),
        called(&a, 1, Op::Put(9), again),
        Step::Copied,
        called(&a, 1, Op::Put(9), again),
        called(&a, 2, Op::Size, Performed::Done(Answer::Value(1))),
    ];
    same(&rt, first_other(rt.alloc(), 2, 0, &steps)?, None);
    Ok(())
}

/// *A call arrives*, test *ended*, before *orphan*. A late call of an aborted child whose parent has committed has ended, and is no orphan.
#[test]
fn a_late_call_of_a_committed_family_has_ended(rt: HostRuntime) -> Result<(), Fail> {
    let p = Name::parse("1.1.1")?;
    let c = Name::parse("1.1.1/1.1.1")?;
    let steps = [
        called(&p, 1, Op::Write(6), Performed::Done(Answer::Ok)),
        Step::Told(Outcome::Aborted(c)),
        Step::Told(Outcome::Committed(p, Deps::none().with(1, 1).with(2, 1))),
        called(&c, 1, Op::Write(5), Performed::Ended),
    ];
    same(&rt, first_other(rt.alloc(), 2, 0, &steps)?, None);
    Ok(())
}

/// A child writes and is aborted, and then calls again while another action holds the lock.
fn orphaned_by_abort(child: &Name, other: &Name) -> [Step; 6] {
    let done = Performed::Done(Answer::Ok);
    let again = Performed::Again(Reply::Done(Answer::Ok));
    let orphan = Performed::Orphan(Reason::Abort(*child));
    [
        called(child, 1, Op::Write(5), done),
        called(other, 1, Op::Read, Performed::Busy(*child)),
        Step::Told(Outcome::Aborted(*child)),
        called(child, 1, Op::Write(5), again),
        called(other, 2, Op::Swap(2), Performed::Done(Answer::Value(1))),
        called(child, 2, Op::Read, orphan),
    ]
}

/// *A call arrives*, test *orphan*, by the action's own abort. The abort drops what was written. A repeat comes before the orphan test, and
/// this before the lock in the way.
#[test]
fn an_orphan_by_an_abort_is_refused(rt: HostRuntime) -> Result<(), Fail> {
    let child = Name::parse("1.1.1/4.1.1")?;
    let other = Name::parse("1.1.2")?;
    let steps = orphaned_by_abort(&child, &other);
    same(&rt, first_other(rt.alloc(), 3, 1, &steps)?, None);
    Ok(())
}

/// A child of node 4 writes and is aborted, which makes no orphan of its siblings. A second child of its parent commits, which has visited
/// node 4, and a third calls before and after that node restarts, while another action holds the lock.
fn orphaned_by_crash(first: &Name, second: &Name, third: &Name, other: &Name) -> [Step; 9] {
    let visited = Deps::none().with(1, 1).with(4, 1);
    [
        called(first, 1, Op::Write(5), Performed::Done(Answer::Ok)),
        Step::Told(Outcome::Aborted(*first)),
        called(other, 1, Op::Swap(2), Performed::Done(Answer::Value(1))),
        called(third, 1, Op::Read, Performed::Busy(*other)),
        Step::Told(Outcome::Committed(*second, visited)),
        called(third, 2, Op::Read, Performed::Busy(*other)),
        Step::Restarted(4, 2),
        called(third, 3, Op::Read, crash_orphan(4, 1, 2)),
        called(other, 2, Op::Read, Performed::Done(Answer::Value(2))),
    ]
}

/// *A call arrives*, test *orphan*, before the lock in the way: by what a sibling that committed had visited.
#[test]
fn an_orphan_by_a_crash_is_refused(rt: HostRuntime) -> Result<(), Fail> {
    let first = Name::parse("1.1.1/4.1.1")?;
    let second = Name::parse("1.1.1/1.1.2")?;
    let third = Name::parse("1.1.1/1.1.3")?;
    let other = Name::parse("1.1.2")?;
    let steps = orphaned_by_crash(&first, &second, &third, &other);
    same(&rt, first_other(rt.alloc(), 3, 1, &steps)?, None);
    Ok(())
}
