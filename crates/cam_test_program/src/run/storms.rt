//! Storms: what is told of a calm one and of a rough one, and of one over a disk that fails.

use super::failing::disks;
use super::{Answer, answer_over, answer_to, check_answer, check_command, source, words};
use crate::check::same;
use std::alloc::Global;
use std::sync::Wait;
use std::test::Fail;
use std::thread::Threads;

/// Four top actions, each of which asks for one child. Whatever the threads do, each child writes its number to the register of its own node and
/// commits, and so does its top action: nobody is in anybody's way, and nothing is lost.
const CALM: &str = "action 1.1.1 committed
  created
  asked 1.1.1/2.1.1
  child 1.1.1/2.1.1 committed 0
  commit 0
action 1.1.1/2.1.1 committed
  created
  called 1 r1 write 1
  got 1 ok
  commit 0
action 2.1.1 committed
  created
  asked 2.1.1/3.1.1
  child 2.1.1/3.1.1 committed 0
  commit 0
action 2.1.1/3.1.1 committed
  created
  called 1 r2 write 2
  got 1 ok
  commit 0
action 3.1.1 committed
  created
  asked 3.1.1/4.1.1
  child 3.1.1/4.1.1 committed 0
  commit 0
action 3.1.1/4.1.1 committed
  created
  called 1 r3 write 3
  got 1 ok
  commit 0
action 4.1.1 committed
  created
  asked 4.1.1/1.1.1
  child 4.1.1/1.1.1 committed 0
  commit 0
action 4.1.1/1.1.1 committed
  created
  called 1 r4 write 4
  got 1 ok
  commit 0
value r1 1
value r2 2
value r3 3
value r4 4
";

/// With one thread a node or with several, and from each seed, since a calm storm draws nothing.
#[test]
fn a_calm_storm_has_one_report(rt: HostRuntime) -> Result<(), Fail> {
    check_command(&rt, rt.alloc(), "storm 1 4 1 calm", "", 0, CALM)?;
    check_command(&rt, rt.alloc(), "storm 1 4 2 calm", "", 0, CALM)?;
    check_command(&rt, rt.alloc(), "storm 7 4 4 calm", "", 0, CALM)
}

/// What the report of a storm tells of: its top actions and its registers.
#[derive(Clone, Copy, Debug, PartialEq, Eq)]
struct Told {
    tops: u32,
    registers: u32,
}

/// Counts the lines of a report on top actions, whose names have one part, and on registers.
fn told_of(report: &str) -> Told {
    let mut told = Told {
        tops: 0,
        registers: 0,
    };
    for line in report.split('\n') {
        if line.starts_with("action ") && !line.contains('/') {
            told.tops = told.tops.wrapping_add(1);
        }
        if line.starts_with("value r") {
            told.registers = told.registers.wrapping_add(1);
        }
    }
    told
}

/// Which report a rough storm has the threads decide; it tells of each top action.
#[test]
fn a_rough_storm_tells_of_all_its_top_actions(rt: HostRuntime) -> Result<(), Fail> {
    let answer = answer_to(&rt, rt.alloc(), "storm 1 16 4 rough", "")?;
    let report = str::from_utf8(answer.text.as_slice()).map_err(|_| "a report is no text")?;
    let all = Told {
        tops: 16,
        registers: 4,
    };
    same(&rt, (answer.status, told_of(report)), (0, all));
    Ok(())
}

/// The answer to a calm storm over disks of which the second fails by itself once it has done so many calls.
fn answer_over_failing(
    rt: &(impl Threads + Wait + Sync),
    alloc: Global,
    calls: u32,
) -> Result<Answer, Fail> {
    let storm = words(alloc, "storm 1 4 2 calm")?;
    let mut nothing = source(alloc, "", &[])?;
    let mut disks = disks(alloc, calls, u32::MAX, 0)?;
    answer_over(rt, alloc, &storm, &mut nothing, &mut disks)
}

/// The disk of node 2 fails at each of its first calls in turn, while it is formatted and while the storm is on. How often it is called in all
/// the threads decide; it has to keep at least one vote and one commit, each by four calls.
#[test]
fn a_disk_that_fails_in_a_storm(rt: HostRuntime) -> Result<(), Fail> {
    for calls in 0..8u32 {
        let answer = answer_over_failing(&rt, rt.alloc(), calls)?;
        check_answer(&rt, "a disk fails", &answer, 6, "disk fault 2\n".as_bytes());
    }
    let answer = answer_over_failing(&rt, rt.alloc(), u32::MAX)?;
    check_answer(&rt, "no disk fails", &answer, 0, CALM.as_bytes());
    Ok(())
}
