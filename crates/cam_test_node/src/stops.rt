//! A disk that stops at each device call of an append and of a restart. An append takes four calls. A restart reads in three, and replaces
//! its list in seven, of which the sixth lets the new list count. The restart that comes to its end tells what the log has of the event at
//! which the node halted, and how many restarts that failed had reached the log: `found.rt` has more of that.
use crate::driven::check_rows;
use std::alloc::Global;
use std::test::Fail;

/// The first call of an append fails: the event is lost.
const FIRST: &str = "stop 0 | stopped
from 2 aborted 2.1.1 news | disk fault, halted
begin | refused Halted
clear | cleared
restart | plain, crash 1
told 2 | to 2 count 2 have 0 place 0 knows 1 2 news";

#[test]
fn an_append_is_lost_at_the_first_call(rt: HostRuntime) -> Result<(), Fail> {
    check_rows(rt.alloc(), FIRST)
}

/// The second call of an append fails: the event is lost.
const SECOND: &str = "stop 1 | stopped
from 2 aborted 2.1.1 news | disk fault, halted
begin | refused Halted
clear | cleared
restart | plain, crash 1
told 2 | to 2 count 2 have 0 place 0 knows 1 2 news";

#[test]
fn an_append_is_lost_at_the_second_call(rt: HostRuntime) -> Result<(), Fail> {
    check_rows(rt.alloc(), SECOND)
}

/// The third call of an append fails: the event is lost.
const THIRD: &str = "stop 2 | stopped
from 2 aborted 2.1.1 news | disk fault, halted
begin | refused Halted
clear | cleared
restart | plain, crash 1
told 2 | to 2 count 2 have 0 place 0 knows 1 2 news";

#[test]
fn an_append_is_lost_at_the_third_call(rt: HostRuntime) -> Result<(), Fail> {
    check_rows(rt.alloc(), THIRD)
}

/// The fourth call of an append fails, which comes after the entry: the event was taken, and a restart finds it.
const FOURTH: &str = "stop 3 | stopped
from 2 aborted 2.1.1 news | disk fault, halted
begin | refused Halted
clear | cleared
restart | plain, crash 1; found plain, inform 1 2.1.1 aborted
told 2 | to 2 count 2 have 0 place 1 aborted 2.1.1 knows 1 2 news";

#[test]
fn an_append_is_taken_at_the_fourth_call(rt: HostRuntime) -> Result<(), Fail> {
    check_rows(rt.alloc(), FOURTH)
}

/// Four calls do for an append: nothing fails.
const WHOLE: &str = "stop 4 | stopped
from 2 aborted 2.1.1 news | plain, inform 1 2.1.1 aborted
clear | cleared
restart | plain, crash 1
told 2 | to 2 count 2 have 0 place 1 aborted 2.1.1 knows 1 2 news";

#[test]
fn an_append_takes_four_calls(rt: HostRuntime) -> Result<(), Fail> {
    check_rows(rt.alloc(), WHOLE)
}

/// The entry of a Secure is not in the log: the family is not secured, and the same Prepare misses after a restart.
const LOST: &str = "stop 2 | stopped
from 2 prepare 2.1.1 1 | disk fault, halted
clear | cleared
restart | plain, crash 1
from 2 prepare 2.1.1 1 | missed, to 2 vote 2.1.1 1 no";

#[test]
fn a_secure_is_lost(rt: HostRuntime) -> Result<(), Fail> {
    check_rows(rt.alloc(), LOST)
}

/// The entry of a Secure is in the log, though its append failed: the family is secured, and votes yes after a restart.
const TAKEN: &str = "stop 3 | stopped
from 2 prepare 2.1.1 1 | disk fault, halted
clear | cleared
restart | plain, crash 1; found plain, secure 2.1.1 1 1
from 2 prepare 2.1.1 1 | again, to 2 vote 2.1.1 1 yes";

#[test]
fn a_secure_is_taken(rt: HostRuntime) -> Result<(), Fail> {
    check_rows(rt.alloc(), TAKEN)
}

/// An event without an entry touches no disk.
const SILENT: &str = "stop 0 | stopped
begin | plain, create 1.1.1
tell 2 | plain, to 2 news
from 2 news | plain
from 2 aborted 2.1.1 news | disk fault, halted";

#[test]
fn a_step_without_an_entry_is_not_stopped(rt: HostRuntime) -> Result<(), Fail> {
    check_rows(rt.alloc(), SILENT)
}

/// Fails where a restart whose disk does so many calls does not come to the first of these rows, or what follows it to the others. One more restart
/// follows, and what the node tells then: its count says whether the first restart was done.
fn check_restart(alloc: Global, calls: u32, rows: &str) -> Result<(), Fail> {
    let table = format!(in alloc; "stop {calls} | stopped\n{rows}")?;
    check_rows(alloc, &table)
}

const LOST_RESTART: &str = "restart | disk fault, halted
clear | cleared
restart | plain, crash 1
told 2 | to 2 count 2 have 0 place 0 knows 1 2 news";

/// The new list does not count before the ninth call.
#[test]
fn a_restart_is_lost_at_its_first_nine_calls(rt: HostRuntime) -> Result<(), Fail> {
    for calls in 0..9 {
        check_restart(rt.alloc(), calls, LOST_RESTART)?;
    }
    Ok(())
}

const TAKEN_RESTART: &str = "restart | disk fault, halted
clear | cleared
restart | plain, crash 1; restarts before 1
told 2 | to 2 count 3 have 0 place 0 knows 1 3 news";

/// The tenth call fails, and the new list counts all the same.
#[test]
fn a_restart_is_taken_at_its_tenth_call(rt: HostRuntime) -> Result<(), Fail> {
    check_restart(rt.alloc(), 9, TAKEN_RESTART)
}

const WHOLE_RESTART: &str = "restart | plain, crash 1
clear | cleared
restart | plain, crash 1
told 2 | to 2 count 3 have 0 place 0 knows 1 3 news";

#[test]
fn a_restart_takes_ten_calls(rt: HostRuntime) -> Result<(), Fail> {
    check_restart(rt.alloc(), 10, WHOLE_RESTART)
}
