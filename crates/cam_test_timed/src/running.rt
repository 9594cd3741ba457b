//! `timed`: the run of a script, from its bytes to the bytes of its report.
use crate::check::same;
use cam_timed::{parse_timed, timed, timed_text};
use std::alloc::Global;
use std::test::Fail;

/// The report of the run of a script.
fn report(alloc: Global, script: &str) -> Result<String, Fail> {
    let script = parse_timed(alloc, script.as_bytes())?;
    let run = timed(alloc, &script)?;
    Ok(timed_text(alloc, &script, &run)?)
}

/// A child is given up at its quiesce moment and not before; its answer, which comes then, is
/// quiet.
#[test]
fn a_quiet_answer_is_no_step(rt: HostRuntime) -> Result<(), Fail> {
    let script =
        "nodes 2\nobject x 2 register 1\nbegin P 1 100\nask P C 2 50\ndrain\ncall C x write 4\ndrain\ngiveup P C\ntick 1 50\ngiveup P C\ncall C x read\ntell 1 2\ndrain\nabort C\n";
    same(
        &rt,
        report(rt.alloc(), script)?.as_str(),
        "action 1.1.1 open\n  created\n  asked 1.1.1/2.1.1\n  child 1.1.1/2.1.1 aborted\naction 1.1.1/2.1.1 aborted\n  created\n  called 1 x write 4\n  got 1 ok\n  called 2 x read\nquiet 12 1.1.1/2.1.1 50 50\nrefused 8 L11 0 50\nrefused 14 L10 50 50\nvalue x 1\n",
    );
    Ok(())
}

/// A top action expires once, from its quiesce moment on, and a moment does not come twice.
#[test]
fn a_top_action_expires(rt: HostRuntime) -> Result<(), Fail> {
    let script = "nodes 1\nbegin A 1 5\ntick 1 5\nexpire A\nexpire A\ntick 1 5\n";
    same(
        &rt,
        report(rt.alloc(), script)?.as_str(),
        "action 1.1.1 aborted\n  created\nrefused 5 L9\nrefused 6 L9\n",
    );
    Ok(())
}

/// The abort of a grandchild travels with a finish and a prepare: what it wrote is dropped before
/// its family is secured, and another top action may write.
#[test]
fn aborts_travel_with_finish_and_prepare(rt: HostRuntime) -> Result<(), Fail> {
    let script =
        "nodes 3\nobject x 3 register 0\nobject y 3 register 0\nbegin F 1 100\nask F B 2 90\ndrain\nask B D 2 10\ndrain\ncall D x write 1\ndrain\ntick 2 10\ngiveup B D\ncall B y write 2\ndrain\ncommit B 0\ndrain\ncommit F 0\ndrain\nbegin G 1 200\ncall G x write 5\ndrain\n";
    same(
        &rt,
        report(rt.alloc(), script)?.as_str(),
        "action 1.1.1 committed\n  created\n  asked 1.1.1/2.1.1\n  child 1.1.1/2.1.1 committed 0\n  commit 0\naction 1.1.1/2.1.1 committed\n  created\n  asked 1.1.1/2.1.1/2.1.1\n  child 1.1.1/2.1.1/2.1.1 aborted\n  called 1 y write 2\n  got 1 ok\n  commit 0\naction 1.1.1/2.1.1/2.1.1 aborted\n  created\n  called 1 x write 1\n  got 1 ok\naction 1.1.2 open\n  created\n  called 1 x write 5\n  got 1 ok\nvalue x 0\nvalue y 2\n",
    );
    Ok(())
}

/// A letter that is lost is not delivered; one that was delivered may be delivered again; and one
/// that was not sent cannot be either.
#[test]
fn letters_are_lost_and_delivered_again(rt: HostRuntime) -> Result<(), Fail> {
    let script =
        "nodes 2\nbegin P 1 100\nask P C 2 50\nask P D 2 50\nlose 1\ndeliver 1\nlose 1\ndeliver 2\ndeliver 2\ndeliver 9\ndrain\ncommit C 0\n";
    same(
        &rt,
        report(rt.alloc(), script)?.as_str(),
        "action 1.1.1 open\n  created\n  asked 1.1.1/2.1.1\n  asked 1.1.1/2.1.2\naction 1.1.1/2.1.2 open\n  created\nrefused 6 L2\nrefused 7 L2\nrefused 10 L2\nrefused 12 L7\n",
    );
    Ok(())
}

/// A top action expires whose add stands beside that of another on the same counter: its add is
/// dropped, and the other's stays, as one who reads then sees.
#[test]
fn an_abort_leaves_the_operations_of_others(rt: HostRuntime) -> Result<(), Fail> {
    let script =
        "nodes 2\nobject x 2 counter 0\nbegin A 1 5\nbegin B 1 100\nbegin C 1 100\ncall A x add 1\ndrain\ncall B x add 2\ndrain\ncommit B 0\ndrain\ntick 1 5\nexpire A\ndrain\ncall C x read\ndrain\n";
    same(
        &rt,
        report(rt.alloc(), script)?.as_str(),
        "action 1.1.1 aborted\n  created\n  called 1 x add 1\n  got 1 ok\naction 1.1.2 committed\n  created\n  called 1 x add 2\n  got 1 ok\n  commit 0\naction 1.1.3 open\n  created\n  called 1 x read\n  got 1 value 2\nvalue x 2\n",
    );
    Ok(())
}
