//! Inputs that may not be put to the node.
use crate::driven::check_rows;
use std::test::Fail;

/// A call whose op does not fit its object, one on an object that is not declared, and a child and a Tell for a node that there is not.
const OWN: &str = "begin | plain, create 1.1.1
call 1.1.1 0 add 3 | may not be put to a node
call 1.1.1 1 swap 3 | may not be put to a node
call 1.1.1 2 read | may not be put to a node
ask 1.1.1 9 | may not be put to a node
tell 9 | may not be put to a node
call 1.1.1 1 add 3 | plain, call 1.1.1 1 1 add 3 at 1, to 2 call 1.1.1 1 1 add 3 at 1 deps 1:1";

#[test]
fn a_call_fits_its_object(rt: HostRuntime) -> Result<(), Fail> {
    check_rows(rt.alloc(), OWN)
}

/// A letter Call that does not fit its object, or whose object stands elsewhere; letters that by their bodies are for another home; the start of a
/// top action, and the prepare and the query of a child; a letter that speaks of a count which it does not tell; and letters of no node.
const LETTERS: &str = "from 2 call 2.1.1 1 0 add 3 at 1 deps 2:1 | may not be put to a node
from 2 call 2.1.1 1 1 add 3 at 1 deps 2:1 | may not be put to a node
from 2 start 1.1.1/2.1.1 deps 1:1 | may not be put to a node
from 2 answer 2.1.1 1 ok | may not be put to a node
from 2 finish 2.1.1/1.1.1 9 deps 2:1 | may not be put to a node
from 2 quit 2.1.1 | may not be put to a node
from 2 vote 2.1.1 1 yes | may not be put to a node
from 2 query 2.1.1 | may not be put to a node
from 2 start 1.1.1 deps 1:1 | may not be put to a node
from 2 prepare 2.1.1/1.1.1 1 | may not be put to a node
from 2 query 1.1.1/1.1.1 | may not be put to a node
from 2 call 2.1.1 1 0 read at 1 deps 2:2 | may not be put to a node
from 0 news | may not be put to a node
from 9 news | may not be put to a node
from 2 call 2.1.1 1 0 read at 1 deps 2:1 | plain, perform 2.1.1 1 value 5, to 2 answer 2.1.1 1 value 5";

#[test]
fn a_letter_is_for_its_node(rt: HostRuntime) -> Result<(), Fail> {
    check_rows(rt.alloc(), LETTERS)
}
