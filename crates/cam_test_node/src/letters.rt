//! What a node's letters carry.
use crate::driven::check_rows;
use std::test::Fail;

/// The outcomes in the order of the Informs, but for those that its receiver has acknowledged; all counts; and the places.
const CARRIED: &str =
    "from 2 committed 2.1.8 aborted 2.1.9 aborted 2.1.3 knows 4 6 have 2 place 5 news | plain, inform 1 2.1.3 aborted, inform 1 2.1.9 aborted, inform 1 2.1.8 committed
told 2 | to 2 count 1 have 5 place 3 committed 2.1.8 deps 2:1 knows 4 6 news
told 3 | to 3 count 1 have 0 place 3 aborted 2.1.3 aborted 2.1.9 committed 2.1.8 deps 2:1 knows 4 6 news";

#[test]
fn a_letter_carries_what_is_not_acknowledged(rt: HostRuntime) -> Result<(), Fail> {
    check_rows(rt.alloc(), CARRIED)
}

/// After a restart its list is whole, and nothing counts as acknowledged.
const FORGOTTEN: &str = "from 2 aborted 2.1.3 have 1 place 1 news | plain, inform 1 2.1.3 aborted
told 2 | to 2 count 1 have 1 place 1 news
restart | plain, crash 1
told 2 | to 2 count 2 have 0 place 1 aborted 2.1.3 knows 1 2 news";

#[test]
fn a_restart_forgets_what_is_acknowledged(rt: HostRuntime) -> Result<(), Fail> {
    check_rows(rt.alloc(), FORGOTTEN)
}
