//! The run of a script in columns and as a log of ShiViz, byte for byte.
use crate::check::same;
use crate::scripts::COMMIT;
use cam_scope_args::Question;
use cam_teller::{Status, tell};
use std::test::Fail;

const COLUMNS: &str = "event line  node 1                node 2
    0    3  * create T            |
    1    4  * T calls x write 5   |
            | 1 call > 2          |
    2    5  |                     * > 1 call
            |                     | perform for T: ok
            |                     | 2 answer > 1
    3    5  * > 2 answer          |
            | T got ok            |
    4    6  * T asks to commit 7  |
            | 3 finish > 1        |
    5    8  * > 3 finish          |
            | prepare T           |
            | 4 prepare > 1       |
            | 5 prepare > 2       |
    6    8  * > 4 prepare         |
            | secure T            |
            | 6 vote yes > 1      |
    7    8  |                     * > 5 prepare
            |                     | secure T
            |                     | 7 vote yes > 1
    8    8  * > 6 vote yes        |
            | voted               |
    9    8  * > 7 vote yes        |
            | commit T            |
            | hears commit T      |
            | 8 news > 2          |
   10    8  |                     * > 8 news
            |                     | hears commit T
";

#[test]
fn each_event_stands_in_the_lane_of_its_node(rt: HostRuntime) -> Result<(), Fail> {
    let told = tell(rt.alloc(), Question::Columns, "T", COMMIT.as_bytes())?;
    same(&rt, told.text.as_str(), COLUMNS);
    same(&rt, told.status, Status::Fine);
    Ok(())
}

const LOG: &str = "(?<host>\\S*) (?<clock>{.*})\\n(?<event>.*)

node1 {\"node1\":1}
0 create T
node1 {\"node1\":2}
1 T calls x write 5
node2 {\"node1\":2, \"node2\":1}
2 perform for T: ok
node1 {\"node1\":3, \"node2\":1}
3 T got ok
node1 {\"node1\":4, \"node2\":1}
4 T asks to commit 7
node1 {\"node1\":5, \"node2\":1}
5 prepare T
node1 {\"node1\":6, \"node2\":1}
6 secure T
node2 {\"node1\":5, \"node2\":2}
7 secure T
node1 {\"node1\":7, \"node2\":1}
8 voted
node1 {\"node1\":8, \"node2\":2}
9 commit T; hears commit T
node2 {\"node1\":8, \"node2\":3}
10 hears commit T
";

#[test]
fn clocks_grow_along_letters(rt: HostRuntime) -> Result<(), Fail> {
    let told = tell(rt.alloc(), Question::Shiviz, "T", COMMIT.as_bytes())?;
    same(&rt, told.text.as_str(), LOG);
    Ok(())
}
