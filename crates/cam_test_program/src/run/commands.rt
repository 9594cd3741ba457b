//! The commands beside `run`: what each tells of a run or of the image of a log, and where there is nothing to tell.

use super::{FIRST_PATH, check_command};
use std::test::Fail;

/// A command, its input, and its answer.
#[derive(Clone, Copy)]
struct Row {
    command: &'static str,
    input: &'static str,
    status: u8,
    text: &'static str,
}

const TRACE: Row = Row {
    command: "trace",
    input: FIRST_PATH,
    status: 0,
    text: "event 0 node 1 letter 0 note plain
  create 1.1.1
event 1 node 1 letter 0 note plain
  create 1.1.2
event 2 node 1 letter 0 note plain
  call 1.1.1 1 x write 5 1
  sent 1 to 1 call
event 3 node 1 letter 1 note plain
  perform 1.1.1 1 ok
  sent 2 to 1 answer
event 4 node 1 letter 2 note plain
  got 1.1.1 1 ok
event 5 node 1 letter 0 note plain
  call 1.1.2 1 x read 1
  sent 3 to 1 call
event 6 node 1 letter 3 note plain
  bounce 1.1.2 1 1.1.1
  sent 4 to 1 answer
event 7 node 1 letter 4 note plain
  got 1.1.2 1 busy 1.1.1
event 8 node 1 letter 0 note plain
  call 1.1.1 2 x read 1
  sent 5 to 1 call
",
};

const WITNESS: Row = Row {
    command: "witness 1.1.2",
    input: FIRST_PATH,
    status: 0,
    text: "create 1.1.1
create 1.1.2
call 1.1.1 1 x write 5 1
perform 1.1.1 1 ok
got 1.1.1 1 ok
call 1.1.2 1 x read 1
bounce 1.1.2 1 1.1.1
got 1.1.2 1 busy 1.1.1
legal
",
};

const NO_ACTION: Row = Row {
    command: "witness 1.1.3",
    input: FIRST_PATH,
    status: 8,
    text: "no such action\n",
};

/// A call is stopped, since its action was given up.
const GIVEN_UP: &str = "nodes 3
object x 2 register 0
begin P 1
ask P C 3
drain
giveup P C
tell 1 2
drain
call C x read
drain
";

const ABORT: Row = Row {
    command: "why 8",
    input: GIVEN_UP,
    status: 0,
    text: "stop 8 1.1.1/3.1.1 abort 1.1.1/3.1.1
cause 3
letter 2 from 4 to 5
letter 4 from 7 to 8
",
};

const NO_STOP: Row = Row {
    command: "why 6",
    input: GIVEN_UP,
    status: 8,
    text: "no such stop\n",
};

const NO_EVENT: Row = Row {
    command: "why 4294967295",
    input: GIVEN_UP,
    status: 8,
    text: "no such stop\n",
};

/// The input is not read.
const GENERATED: Row = Row {
    command: "gen 7 9",
    input: "foo\n",
    status: 0,
    text: "steps 9
events 11
letters 5
actions 2
committed 0
stops 0
report fbd1dba5a1c76dff62b9904d12168377531aa129842baa96a20afcf137d148fc
",
};

/// A child is given up at its quiesce moment and not before, and gets no answer from then on.
const BY_TIME: Row = Row {
    command: "timed",
    input: "nodes 2
object x 2 register 1
begin P 1 100
ask P C 2 50
drain
call C x write 4
drain
giveup P C
tick 1 50
giveup P C
call C x read
tell 1 2
drain
abort C
",
    status: 0,
    text: "action 1.1.1 open
  created
  asked 1.1.1/2.1.1
  child 1.1.1/2.1.1 aborted
action 1.1.1/2.1.1 aborted
  created
  called 1 x write 4
  got 1 ok
  called 2 x read
quiet 12 1.1.1/2.1.1 50 50
refused 8 L11 0 50
refused 14 L10 50 50
value x 1
",
};

/// A script without time is none by time.
const NOT_BY_TIME: Row = Row {
    command: "timed",
    input: GIVEN_UP,
    status: 3,
    text: "refused 3 10 S4\n",
};

const REFUSED: Row = Row {
    command: "witness 1.1.1",
    input: "nodes 1\n\nfoo\n",
    status: 3,
    text: "refused 3 1 S3\n",
};

/// The image of a log with one entry, a Count of 2.
const IMAGE: &str = "CAMELOT\n\x01\0\0\0\0\0\0\0\x05\x01\0\0\0\x02\0";

/// The same in version 2, with an entry of a Version after it.
const IMAGE_2: &str =
    "CAMELOT\n\x01\0\0\0\0\0\0\0\x05\x01\0\0\0\x02\x01\0\0\0\0\0\0\0\x02\x06\x02\0";

/// The image of a log with each record: in the first entry a count, an abort, a commit and a count of another node, in the second one a
/// Version and a family with one operation.
const RECORDS: &str =
    "CAMELOT\n\x01\0\0\0\0\0\0\x005\x01\0\0\0\x02\x02\x01\x01\0\0\0\x01\0\0\0\x01\x03\x02\x01\0\0\0\x01\0\0\0\x02\x02\0\0\0\x01\0\0\0\x01\x02\x01\0\0\0\x01\x02\0\0\0\x03\x04\x03\0\0\0\x04\x01\0\0\0\0\0\0\0#\x06\x02\x05\x01\x01\0\0\0\x01\0\0\0\x01\0\0\0\x02\0\0\0\x01\0\0\0\x07\x03\x02\0\0\0\0\0\0\0\x05\0";

/// The image of a log with checkpoints, without entries.
const CHECKPOINTS: &str =
    "CAMCKPT\n\x01\0\0\0\0\0\0\0\x01\0\0\0\0\0\0\0*\0\0\0\0\0\0\0\0\0\0\0\0\0\0\0\0\0\0";

const INSPECTED: Row = Row {
    command: "inspect",
    input: RECORDS,
    status: 0,
    text: "entry 0
  count 2
  abort 1.1.1
  commit 1.1.2/2.1.1 1:1 2:3
  seen 3 4
entry 1
  version 2
  secure 1.1.1 2 1
",
};

const EMPTY: Row = Row {
    command: "inspect",
    input: CHECKPOINTS,
    status: 0,
    text: "",
};

/// The closed gate is missing.
const NO_LOG: Row = Row {
    command: "inspect",
    input: "CAMELOT\n",
    status: 3,
    text: "refused log 8\n",
};

/// A Count is 2 at least.
const NO_RECORD: Row = Row {
    command: "upgrade",
    input: "CAMELOT\n\x01\0\0\0\0\0\0\0\x05\x01\0\0\0\x01\0",
    status: 3,
    text: "refused record 0 1\n",
};

const UPGRADED: Row = Row {
    command: "upgrade",
    input: IMAGE,
    status: 0,
    text: IMAGE_2,
};

/// What stands after the closed gate is left out.
const UPGRADED_AGAIN: Row = Row {
    command: "upgrade",
    input: "CAMELOT\n\x01\0\0\0\0\0\0\0\x02\x06\x02\x07behind",
    status: 0,
    text: "CAMELOT\n\x01\0\0\0\0\0\0\0\x02\x06\x02\x07",
};

const NOT_UPGRADED: Row = Row {
    command: "upgrade",
    input: CHECKPOINTS,
    status: 3,
    text: "refused log 3\n",
};

const ROWS: &[Row] = &[
    TRACE,
    WITNESS,
    NO_ACTION,
    ABORT,
    NO_STOP,
    NO_EVENT,
    GENERATED,
    BY_TIME,
    NOT_BY_TIME,
    REFUSED,
    INSPECTED,
    EMPTY,
    NO_LOG,
    NO_RECORD,
    UPGRADED,
    UPGRADED_AGAIN,
    NOT_UPGRADED,
];

#[test]
fn each_command_has_its_answer(rt: HostRuntime) -> Result<(), Fail> {
    for row in ROWS {
        check_command(
            &rt,
            rt.alloc(),
            row.command,
            row.input,
            row.status,
            row.text,
        )?;
    }
    Ok(())
}
