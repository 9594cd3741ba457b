//! Families in commit: a site is asked to secure one, a home is asked how one ended, and a top action ends by votes, by its abort or without them.
use crate::driven::check_rows;
use std::test::Fail;

/// *A prepare arrives*: what was secured holds its lock over a restart, and votes yes again; what was not votes no at the next count.
const SECURED: &str =
    "from 2 call 2.1.1 1 0 write 7 at 1 deps 2:1 | plain, perform 2.1.1 1 ok, to 2 answer 2.1.1 1 ok
from 2 prepare 2.1.1 1 | plain, secure 2.1.1 1 1, to 2 vote 2.1.1 1 yes
from 2 prepare 2.1.1 1 | again, to 2 vote 2.1.1 1 yes
restart | plain, crash 1
from 2 prepare 2.1.1 1 | again, to 2 vote 2.1.1 1 yes
from 2 prepare 2.1.2 1 | missed, to 2 vote 2.1.2 1 no
query 2.1.1 | plain, to 2 query 2.1.1
from 2 call 2.1.2 1 0 read at 2 deps 2:1 | plain, bounce 2.1.2 1 2.1.1, to 2 answer 2.1.2 1 busy 2.1.1
from 2 committed 2.1.1 news | plain, inform 1 2.1.1 committed
from 2 prepare 2.1.1 1 | late
from 2 call 2.1.2 2 0 read at 2 deps 2:1 | plain, perform 2.1.2 2 value 7, to 2 answer 2.1.2 2 value 7";

#[test]
fn a_site_secures_a_family(rt: HostRuntime) -> Result<(), Fail> {
    check_rows(rt.alloc(), SECURED)
}

/// *A query arrives*: a family is open until its home has restarted, and aborts then.
const ASKED: &str = "begin | plain, create 1.1.1
from 2 query 1.1.1 | late
restart | plain, crash 1
from 2 query 1.1.1 | plain, abort 1.1.1, inform 1 1.1.1 aborted, to 2 news
from 2 query 1.1.1 | plain, to 2 news";

#[test]
fn a_home_tells_how_a_family_ended(rt: HostRuntime) -> Result<(), Fail> {
    check_rows(rt.alloc(), ASKED)
}

/// *A top action finishes* and *A vote arrives*: a family commits by the last yes, and aborts by the first no.
const VOTED: &str = "begin | plain, create 1.1.1
ask 1.1.1 2 | plain, ask 1.1.1/2.1.1, to 2 start 1.1.1/2.1.1 deps 1:1
from 2 finish 1.1.1/2.1.1 9 deps 1:1 2:1 | plain, commit 1.1.1/2.1.1, inform 1 1.1.1/2.1.1 committed
commit 1.1.1 9 | plain, ask commit 1.1.1 9, to 1 finish 1.1.1 9 deps 1:1 2:1
from 1 vote 1.1.1 1 yes | late
from 1 finish 1.1.1 9 deps 1:1 2:1 | preparing 1.1.1, to 1 prepare 1.1.1 1, to 2 prepare 1.1.1 1
from 1 finish 1.1.1 9 deps 1:1 2:1 | late
from 1 vote 1.1.1 1 yes | voted
from 1 vote 1.1.1 1 yes | voted
from 2 vote 1.1.1 1 yes | plain, commit 1.1.1, inform 1 1.1.1 committed, to 2 news
from 2 vote 1.1.1 1 yes | late
begin | plain, create 1.1.2
commit 1.1.2 9 | plain, ask commit 1.1.2 9, to 1 finish 1.1.2 9 deps 1:1
from 1 finish 1.1.2 9 deps 1:1 | preparing 1.1.2, to 1 prepare 1.1.2 1
from 1 vote 1.1.2 1 no | plain, abort 1.1.2, inform 1 1.1.2 aborted
from 1 vote 1.1.2 1 yes | late";

#[test]
fn top_actions_finish_and_are_voted_on(rt: HostRuntime) -> Result<(), Fail> {
    check_rows(rt.alloc(), VOTED)
}

/// *A top action quits*, and finishes as an orphan: it asks for its abort, what it stood on is lost, and its home restarts.
const UNVOTED: &str = "begin | plain, create 1.1.1
ask 1.1.1 2 | plain, ask 1.1.1/2.1.1, to 2 start 1.1.1/2.1.1 deps 1:1
from 2 finish 1.1.1/2.1.1 9 deps 1:1 2:1 | plain, commit 1.1.1/2.1.1, inform 1 1.1.1/2.1.1 committed
abort 1.1.1 | plain, ask abort 1.1.1, to 1 quit 1.1.1
from 1 quit 1.1.1 | plain, abort 1.1.1, inform 1 1.1.1 aborted, to 2 news
from 1 quit 1.1.1 | late
begin | plain, create 1.1.2
ask 1.1.2 2 | plain, ask 1.1.2/2.1.1, to 2 start 1.1.2/2.1.1 deps 1:1
from 2 finish 1.1.2/2.1.1 9 deps 1:1 2:1 | plain, commit 1.1.2/2.1.1, inform 1 1.1.2/2.1.1 committed
commit 1.1.2 9 | plain, ask commit 1.1.2 9, to 1 finish 1.1.2 9 deps 1:1 2:1
from 2 knows 2 2 news | plain
from 1 finish 1.1.2 9 deps 1:1 2:1 | stopped 1.1.2 crash 2 1 2, abort 1.1.2, inform 1 1.1.2 aborted, to 2 news
begin | plain, create 1.1.3
restart | plain, crash 1
from 1 finish 1.1.3 9 deps 1:1 | late
from 1 quit 1.1.3 | late
from 1 vote 1.1.3 1 yes | late";

#[test]
fn top_actions_end_without_a_vote(rt: HostRuntime) -> Result<(), Fail> {
    check_rows(rt.alloc(), UNVOTED)
}
