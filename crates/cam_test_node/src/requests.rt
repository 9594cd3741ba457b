//! What a node's own requests come to.
use crate::driven::check_rows;
use std::test::Fail;

/// Each request, and those of the next count after a restart.
const REQUESTS: &str = "begin | plain, create 1.1.1
ask 1.1.1 2 | plain, ask 1.1.1/2.1.1, to 2 start 1.1.1/2.1.1 deps 1:1
ask 1.1.1 2 | plain, ask 1.1.1/2.1.2, to 2 start 1.1.1/2.1.2 deps 1:1
ask 1.1.1 1 | plain, ask 1.1.1/1.1.3, to 1 start 1.1.1/1.1.3 deps 1:1
begin | plain, create 1.1.2
call 1.1.2 1 add 3 | plain, call 1.1.2 1 1 add 3 at 1, to 2 call 1.1.2 1 1 add 3 at 1 deps 1:1
abort 1.1.2 | plain, ask abort 1.1.2, to 1 quit 1.1.2
begin | plain, create 1.1.3
call 1.1.3 0 read | plain, call 1.1.3 1 0 read at 1, to 1 call 1.1.3 1 0 read at 1 deps 1:1
begin | plain, create 1.1.4
commit 1.1.4 7 | plain, ask commit 1.1.4 7, to 1 finish 1.1.4 7 deps 1:1
tell 2 | plain, to 2 news
restart | plain, crash 1
begin | plain, create 1.2.1
ask 1.2.1 1 | plain, ask 1.2.1/1.2.1, to 1 start 1.2.1/1.2.1 deps 1:2";

#[test]
fn each_request_comes_to_its_event(rt: HostRuntime) -> Result<(), Fail> {
    check_rows(rt.alloc(), REQUESTS)
}

/// *The orphan test* before a request: by an abort that is known, and by the restart of a node on which it stands.
const ORPHANS: &str = "begin | plain, create 1.1.1
begin | plain, create 1.1.2
from 2 aborted 1.1.1 news | plain, inform 1 1.1.1 aborted
ask 1.1.1 2 | stopped 1.1.1 abort 1.1.1
call 1.1.1 1 add 3 | stopped 1.1.1 abort 1.1.1
commit 1.1.1 0 | stopped 1.1.1 abort 1.1.1
abort 1.1.1 | stopped 1.1.1 abort 1.1.1
call 1.1.2 1 add 3 | plain, call 1.1.2 1 1 add 3 at 1, to 2 call 1.1.2 1 1 add 3 at 1 deps 1:1
from 2 answer 1.1.2 1 ok | plain, got 1.1.2 1 ok
from 2 knows 2 2 news | plain
ask 1.1.2 1 | stopped 1.1.2 crash 2 1 2
commit 1.1.2 0 | stopped 1.1.2 crash 2 1 2";

#[test]
fn an_orphan_is_stopped_at_each_request(rt: HostRuntime) -> Result<(), Fail> {
    check_rows(rt.alloc(), ORPHANS)
}

/// *Give up a child*: it aborts, and does not finish any more.
const GIVEN_UP: &str = "begin | plain, create 1.1.1
ask 1.1.1 2 | plain, ask 1.1.1/2.1.1, to 2 start 1.1.1/2.1.1 deps 1:1
ask 1.1.1 2 | plain, ask 1.1.1/2.1.2, to 2 start 1.1.1/2.1.2 deps 1:1
giveup 1.1.1 1.1.1/2.1.1 | plain, abort 1.1.1/2.1.1, inform 1 1.1.1/2.1.1 aborted
from 2 finish 1.1.1/2.1.1 9 deps 1:1 2:1 | late
from 2 aborted 1.1.1 news | plain, inform 1 1.1.1 aborted
giveup 1.1.1 1.1.1/2.1.2 | stopped 1.1.1 abort 1.1.1";

#[test]
fn a_child_is_given_up(rt: HostRuntime) -> Result<(), Fail> {
    check_rows(rt.alloc(), GIVEN_UP)
}

/// Line refusals: of an action that has ended, of one that was not created, of one of another home, of telling itself, and of asking for a family of which it has nothing.
const REFUSED: &str = "begin | plain, create 1.1.1
begin | plain, create 1.1.2
abort 1.1.2 | plain, ask abort 1.1.2, to 1 quit 1.1.2
ask 1.1.2 2 | refused Ended
ask 1.1.3 2 | refused NotOpen
ask 2.1.1 2 | refused NotOpen
tell 1 | refused NothingToDo
query 1.1.1 | refused NothingToDo
ask 1.1.1 2 | plain, ask 1.1.1/2.1.1, to 2 start 1.1.1/2.1.1 deps 1:1
commit 1.1.1 0 | refused OpenChild";

#[test]
fn what_stands_against_an_input(rt: HostRuntime) -> Result<(), Fail> {
    check_rows(rt.alloc(), REFUSED)
}
