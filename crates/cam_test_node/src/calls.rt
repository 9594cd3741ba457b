//! What a call that comes to its site comes to, by the tests of its rule in their order.
use crate::driven::check_rows;
use std::test::Fail;

/// *A call arrives*: missed, performed, again, bounced, stopped, ended.
const ANSWERS: &str =
    "from 2 call 2.1.1 1 0 write 7 at 2 deps 2:1 | missed, to 2 answer 2.1.1 1 missed
from 2 call 2.1.1 1 0 write 7 at 1 deps 2:1 | plain, perform 2.1.1 1 ok, to 2 answer 2.1.1 1 ok
from 2 call 2.1.1 1 0 write 7 at 1 deps 2:1 | again, to 2 answer 2.1.1 1 ok
from 2 call 2.1.2 1 0 read at 1 deps 2:1 | plain, bounce 2.1.2 1 2.1.1, to 2 answer 2.1.2 1 busy 2.1.1
from 2 call 2.1.2 1 0 read at 1 deps 2:1 | again, to 2 answer 2.1.2 1 busy 2.1.1
from 2 aborted 2.1.1 call 2.1.1 2 0 read at 1 deps 2:1 | stopped 2.1.1 abort 2.1.1, inform 1 2.1.1 aborted, to 2 answer 2.1.1 2 refused
from 2 call 2.1.2 2 0 read at 1 deps 2:1 | plain, perform 2.1.2 2 value 5, to 2 answer 2.1.2 2 value 5
from 2 committed 2.1.2 call 2.1.2 3 0 read at 1 deps 2:1 | ended, inform 1 2.1.2 committed
from 2 knows 2 2 call 2.1.1 3 0 read at 1 deps 2:1 | stopped 2.1.1 abort 2.1.1, to 2 answer 2.1.1 3 refused";

#[test]
fn each_answer_to_a_call(rt: HostRuntime) -> Result<(), Fail> {
    check_rows(rt.alloc(), ANSWERS)
}

/// The abort that the letter of a call tells drops what was in its way. The node may ask for the family that then has the lock; a restart
/// drops what was not secured, and the replies that were given: a call of the same number is served anew.
const NEWS: &str =
    "from 2 call 2.1.1 1 0 write 8 at 1 deps 2:1 | plain, perform 2.1.1 1 ok, to 2 answer 2.1.1 1 ok
from 2 aborted 2.1.1 call 2.1.2 1 0 swap 9 at 1 deps 2:1 | plain, inform 1 2.1.1 aborted, perform 2.1.2 1 value 5, to 2 answer 2.1.2 1 value 5
query 2.1.2 | plain, to 2 query 2.1.2
from 2 call 2.1.3 1 0 read at 1 deps 2:1 | plain, bounce 2.1.3 1 2.1.2, to 2 answer 2.1.3 1 busy 2.1.2
from 2 knows 2 2 call 2.1.3 2 0 read at 1 deps 2:1 | stopped 2.1.3 crash 2 1 2, to 2 answer 2.1.3 2 refused
restart | plain, crash 1
from 2 call 2.1.2 1 0 read at 1 deps 2:1 | missed, to 2 answer 2.1.2 1 missed
from 2 knows 2 2 call 2.2.1 1 0 read at 2 deps 2:2 | plain, perform 2.2.1 1 value 5, to 2 answer 2.2.1 1 value 5";

#[test]
fn a_call_tells_of_what_was_in_its_way(rt: HostRuntime) -> Result<(), Fail> {
    check_rows(rt.alloc(), NEWS)
}

/// A call of the same number as one that bounced, and as one that was performed, is served anew after a restart.
const REPLIES: &str =
    "from 2 call 2.1.1 1 0 write 7 at 1 deps 2:1 | plain, perform 2.1.1 1 ok, to 2 answer 2.1.1 1 ok
from 2 call 2.1.2 1 0 read at 1 deps 2:1 | plain, bounce 2.1.2 1 2.1.1, to 2 answer 2.1.2 1 busy 2.1.1
restart | plain, crash 1
from 2 call 2.1.2 1 0 read at 2 deps 2:1 | plain, perform 2.1.2 1 value 5, to 2 answer 2.1.2 1 value 5
from 2 call 2.1.1 1 0 write 7 at 2 deps 2:1 | plain, bounce 2.1.1 1 2.1.2, to 2 answer 2.1.1 1 busy 2.1.2";

#[test]
fn kept_replies_are_gone_after_a_restart(rt: HostRuntime) -> Result<(), Fail> {
    check_rows(rt.alloc(), REPLIES)
}
