//! What a restart finds of the halt before it: the event at which the node halted, where its log has it, and how many restarts that failed had
//! reached the log. Of an event the log has its Informs, decisions, Secures and Crash, and no letter.
use crate::driven::check_rows;
use std::test::Fail;

/// Of a call that told of an abort the Inform is found; what was performed, and its answer, are gone.
const INFORMED: &str =
    "from 2 call 2.1.1 1 0 write 8 at 1 deps 2:1 | plain, perform 2.1.1 1 ok, to 2 answer 2.1.1 1 ok
stop 3 | stopped
from 2 aborted 2.1.1 call 2.1.2 1 0 swap 9 at 1 deps 2:1 | disk fault, halted
clear | cleared
restart | plain, crash 1; found plain, inform 1 2.1.1 aborted
from 2 call 2.1.2 1 0 read at 2 deps 2:1 | plain, perform 2.1.2 1 value 5, to 2 answer 2.1.2 1 value 5";

#[test]
fn a_call_is_found_by_what_its_letter_brought(rt: HostRuntime) -> Result<(), Fail> {
    check_rows(rt.alloc(), INFORMED)
}

/// A letter that brought a count alone: an event without a deed is found, by the count.
const COUNTED: &str = "stop 3 | stopped
from 2 knows 2 2 news | disk fault, halted
clear | cleared
restart | plain, crash 1; found plain
told 3 | to 3 count 2 have 0 place 0 knows 1 2 knows 2 2 news";

#[test]
fn an_event_without_a_deed_is_found_by_its_count(rt: HostRuntime) -> Result<(), Fail> {
    check_rows(rt.alloc(), COUNTED)
}

/// The same letter, whose entry was lost: its count is not known.
const UNCOUNTED: &str = "stop 2 | stopped
from 2 knows 2 2 news | disk fault, halted
clear | cleared
restart | plain, crash 1
told 3 | to 3 count 2 have 0 place 0 knows 1 2 news";

#[test]
fn an_event_without_a_deed_is_lost(rt: HostRuntime) -> Result<(), Fail> {
    check_rows(rt.alloc(), UNCOUNTED)
}

/// The home of a family committed it by the last vote, and finds that it did.
const DECIDED: &str = "begin | plain, create 1.1.1
commit 1.1.1 9 | plain, ask commit 1.1.1 9, to 1 finish 1.1.1 9 deps 1:1
from 1 finish 1.1.1 9 deps 1:1 | preparing 1.1.1, to 1 prepare 1.1.1 1
stop 3 | stopped
from 1 vote 1.1.1 1 yes | disk fault, halted
clear | cleared
restart | plain, crash 1; found plain, commit 1.1.1, inform 1 1.1.1 committed
told 2 | to 2 count 2 have 0 place 1 committed 1.1.1 deps 1:1 knows 1 2 news";

#[test]
fn a_decision_is_found(rt: HostRuntime) -> Result<(), Fail> {
    check_rows(rt.alloc(), DECIDED)
}

/// The entry of the last vote was lost: the family is not decided, and its home aborts it when it is asked.
const UNDECIDED: &str = "begin | plain, create 1.1.1
commit 1.1.1 9 | plain, ask commit 1.1.1 9, to 1 finish 1.1.1 9 deps 1:1
from 1 finish 1.1.1 9 deps 1:1 | preparing 1.1.1, to 1 prepare 1.1.1 1
stop 2 | stopped
from 1 vote 1.1.1 1 yes | disk fault, halted
clear | cleared
restart | plain, crash 1
from 2 query 1.1.1 | plain, abort 1.1.1, inform 1 1.1.1 aborted, to 2 news";

#[test]
fn a_decision_is_lost(rt: HostRuntime) -> Result<(), Fail> {
    check_rows(rt.alloc(), UNDECIDED)
}

/// Three restarts fail before one comes to its end: at their tenth call the first and the third, and these have reached the log. The event is
/// found after them, and once.
const FAILED: &str = "stop 3 | stopped
from 2 aborted 2.1.1 news | disk fault, halted
stop 9 | stopped
restart | disk fault, halted
stop 8 | stopped
restart | disk fault, halted
stop 9 | stopped
restart | disk fault, halted
clear | cleared
restart | plain, crash 1; found plain, inform 1 2.1.1 aborted; restarts before 2
told 2 | to 2 count 4 have 0 place 1 aborted 2.1.1 knows 1 4 news
restart | plain, crash 1";

#[test]
fn an_event_is_found_after_restarts_that_failed(rt: HostRuntime) -> Result<(), Fail> {
    check_rows(rt.alloc(), FAILED)
}

/// The same of an event that was lost.
const LOST: &str = "stop 2 | stopped
from 2 aborted 2.1.1 news | disk fault, halted
stop 9 | stopped
restart | disk fault, halted
stop 8 | stopped
restart | disk fault, halted
stop 9 | stopped
restart | disk fault, halted
clear | cleared
restart | plain, crash 1; restarts before 2
told 2 | to 2 count 4 have 0 place 0 knows 1 4 news
restart | plain, crash 1";

#[test]
fn no_event_is_found_after_restarts_that_failed(rt: HostRuntime) -> Result<(), Fail> {
    check_rows(rt.alloc(), LOST)
}
