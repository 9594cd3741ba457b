//! What the letters of children, the answers to calls, and news come to, by the tests of each rule in their order.
use crate::driven::check_rows;
use std::test::Fail;

/// *A start arrives*: a child of another count is missed; one that is there is known; an orphan, by an abort and by a crash, is stopped.
const STARTS: &str = "from 2 start 2.1.1/1.2.1 deps 2:1 | missed, to 2 quit 2.1.1/1.2.1
from 2 start 2.1.1/1.1.1 deps 2:1 | plain, create 2.1.1/1.1.1
from 2 start 2.1.1/1.1.1 deps 2:1 | again
ask 2.1.1/1.1.1 3 | plain, ask 2.1.1/1.1.1/3.1.1, to 3 start 2.1.1/1.1.1/3.1.1 deps 1:1 2:1
from 2 aborted 2.1.2 start 2.1.2/1.1.1 deps 2:1 | stopped 2.1.2/1.1.1 abort 2.1.2, inform 1 2.1.2 aborted
from 2 knows 2 2 start 2.1.3/1.1.1 deps 2:1 | stopped 2.1.3/1.1.1 crash 2 1 2
from 2 start 2.1.1/1.1.1 deps 2:1 | again";

#[test]
fn starts(rt: HostRuntime) -> Result<(), Fail> {
    check_rows(rt.alloc(), STARTS)
}

/// *An answer arrives*: late, stopped, gone, and what is seen of the reply. The last action has visited nothing of node 2.
const ANSWERS: &str = "from 2 answer 1.1.1 1 ok | late
begin | plain, create 1.1.1
from 2 answer 1.1.1 1 ok | late
call 1.1.1 1 add 3 | plain, call 1.1.1 1 1 add 3 at 1, to 2 call 1.1.1 1 1 add 3 at 1 deps 1:1
from 2 answer 1.1.1 2 ok | late
from 2 answer 1.1.1 1 missed | late
from 2 answer 1.1.1 1 refused | late
from 2 answer 1.1.1 1 busy 1.1.2 | plain, got 1.1.1 1 busy 1.1.2
from 2 answer 1.1.1 1 busy 1.1.2 | late
call 1.1.1 1 read | plain, call 1.1.1 2 1 read at 1, to 2 call 1.1.1 2 1 read at 1 deps 1:1
from 2 answer 1.1.1 2 value 3 | plain, got 1.1.1 2 value 3
call 1.1.1 1 add 3 | plain, call 1.1.1 3 1 add 3 at 1, to 2 call 1.1.1 3 1 add 3 at 1 deps 1:1 2:1
begin | plain, create 1.1.2
call 1.1.2 1 add 3 | plain, call 1.1.2 1 1 add 3 at 1, to 2 call 1.1.2 1 1 add 3 at 1 deps 1:1
from 2 knows 2 2 answer 1.1.2 1 ok | plain, got 1.1.2 1 gone
from 2 answer 1.1.1 3 ok | stopped 1.1.1 crash 2 1 2
call 1.1.2 1 add 3 | plain, call 1.1.2 2 1 add 3 at 2, to 2 call 1.1.2 2 1 add 3 at 2 deps 1:1";

#[test]
fn answers(rt: HostRuntime) -> Result<(), Fail> {
    check_rows(rt.alloc(), ANSWERS)
}

/// *A child finishes* and *A child quits*: late, the parent stopped, the child stopped and aborted, and the decision.
const CHILDREN: &str = "from 2 finish 1.1.1/2.1.1 9 deps 1:1 2:1 | late
begin | plain, create 1.1.1
from 2 quit 1.1.1/2.1.1 | late
ask 1.1.1 2 | plain, ask 1.1.1/2.1.1, to 2 start 1.1.1/2.1.1 deps 1:1
ask 1.1.1 2 | plain, ask 1.1.1/2.1.2, to 2 start 1.1.1/2.1.2 deps 1:1
from 2 finish 1.1.1/2.1.1 9 deps 1:1 2:1 | plain, commit 1.1.1/2.1.1, inform 1 1.1.1/2.1.1 committed
from 2 finish 1.1.1/2.1.1 9 deps 1:1 2:1 | late
from 2 quit 1.1.1/2.1.2 | plain, abort 1.1.1/2.1.2, inform 1 1.1.1/2.1.2 aborted
from 2 quit 1.1.1/2.1.2 | late
begin | plain, create 1.1.2
ask 1.1.2 2 | plain, ask 1.1.2/2.1.1, to 2 start 1.1.2/2.1.1 deps 1:1
from 2 knows 2 2 finish 1.1.2/2.1.1 9 deps 1:1 2:1 | stopped 1.1.2/2.1.1 crash 2 1 2, abort 1.1.2/2.1.1, inform 1 1.1.2/2.1.1 aborted
ask 1.1.2 2 | plain, ask 1.1.2/2.2.2, to 2 start 1.1.2/2.2.2 deps 1:1
from 2 aborted 1.1.2 finish 1.1.2/2.2.2 9 deps 1:1 | stopped 1.1.2 abort 1.1.2, inform 1 1.1.2 aborted
from 2 quit 1.1.2/2.2.2 | stopped 1.1.2 abort 1.1.2";

#[test]
fn children_finish_and_quit(rt: HostRuntime) -> Result<(), Fail> {
    check_rows(rt.alloc(), CHILDREN)
}

/// *News arrives*: it is learnt once, and outlives a restart.
const NEWS: &str = "from 2 news | plain
from 2 aborted 2.1.1 news | plain, inform 1 2.1.1 aborted
from 2 aborted 2.1.1 news | plain
from 2 committed 2.1.2 news | plain, inform 1 2.1.2 committed
from 2 committed 2.1.2 news | plain
restart | plain, crash 1
from 2 aborted 2.1.1 news | plain
from 2 committed 2.1.2 news | plain
from 2 start 2.1.1/1.2.1 deps 2:1 | stopped 2.1.1/1.2.1 abort 2.1.1";

#[test]
fn news_is_learnt_once(rt: HostRuntime) -> Result<(), Fail> {
    check_rows(rt.alloc(), NEWS)
}
