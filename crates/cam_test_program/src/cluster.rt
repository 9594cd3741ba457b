//! `cam_cluster`: what each line of a script comes to.

ghost use Rattle.std.specs.Prelude.{◌≡◌, IfOk, length};
ghost use Rattle.cam_script.specs.Law.{IsScript};

mod halts;
mod words;

use cam_base::NoMemory;
use cam_cluster::{RunFault, Servers, run_script};
use cam_disk::MemoryDisk;
use cam_event::RunRecord;
use cam_script::{Labels, Script, parse};
use cam_type::{CounterServer, QueueServer, RegisterServer};
use std::alloc::Global;
use std::fmt::Write;
use std::test::Fail;
use words::event_text;

// A table has the lines of a script. After the bar of a line stands what it comes to: its event, or the mark of its refusal. An event
// is told by its node, the number of the letter that it got (0 for none), its note, its deeds, and the letters that it sent.

/// A write, and a read of another action that bounces off it. The holder may read. A second call while one is open is refused.
const CONFLICT: &str = "nodes 1
object x 1 register 0
begin A 1 | node 1 got 0 Plain, create 1.1.1
begin B 1 | node 1 got 0 Plain, create 1.1.2
call A x write 5 | node 1 got 0 Plain, call 1.1.1 1 x Write(5) at 1, sent 1 to 1 call 1.1.1 1 x Write(5) at 1 deps 1:1
deliver 1 | node 1 got 1 Plain, perform 1.1.1 1 Ok, sent 2 to 1 answer 1.1.1 1 Ok
deliver 2 | node 1 got 2 Plain, got 1.1.1 1 Ok
call B x read | node 1 got 0 Plain, call 1.1.2 1 x Read at 1, sent 3 to 1 call 1.1.2 1 x Read at 1 deps 1:1
deliver 3 | node 1 got 3 Plain, bounce 1.1.2 1 1.1.1, sent 4 to 1 answer 1.1.2 1 busy 1.1.1
deliver 4 | node 1 got 4 Plain, got 1.1.2 1 busy 1.1.1
call A x read | node 1 got 0 Plain, call 1.1.1 2 x Read at 1, sent 5 to 1 call 1.1.1 2 x Read at 1 deps 1:1
call A x read | Refused { line: 12, refusal: OpenCall }
deliver 6 | Refused { line: 13, refusal: NoLetter }
deliver 5 | node 1 got 5 Plain, perform 1.1.1 2 Value(5), sent 6 to 1 answer 1.1.1 2 Value(5)
deliver 6 | node 1 got 6 Plain, got 1.1.1 2 Value(5)";

/// Actions of two nodes: two read the same object, and a third bounces off the one whose read came first. An answer that was done adds
/// its site to what the action depends on, and a Busy adds nothing. A call that bounced holds nothing.
const TWO_NODES: &str = "nodes 2
object x 2 register 7
object y 1 register 0
begin A 1 | node 1 got 0 Plain, create 1.1.1
begin B 2 | node 2 got 0 Plain, create 2.1.1
begin C 2 | node 2 got 0 Plain, create 2.1.2
call A x read | node 1 got 0 Plain, call 1.1.1 1 x Read at 1, sent 1 to 2 call 1.1.1 1 x Read at 1 deps 1:1
call B x read | node 2 got 0 Plain, call 2.1.1 1 x Read at 1, sent 2 to 2 call 2.1.1 1 x Read at 1 deps 2:1
deliver 2 | node 2 got 2 Plain, perform 2.1.1 1 Value(7), sent 3 to 2 answer 2.1.1 1 Value(7)
deliver 1 | node 2 got 1 Plain, perform 1.1.1 1 Value(7), sent 4 to 1 answer 1.1.1 1 Value(7)
call C x write 1 | node 2 got 0 Plain, call 2.1.2 1 x Write(1) at 1, sent 5 to 2 call 2.1.2 1 x Write(1) at 1 deps 2:1
deliver 5 | node 2 got 5 Plain, bounce 2.1.2 1 2.1.1, sent 6 to 2 answer 2.1.2 1 busy 2.1.1
deliver 4 | node 1 got 4 Plain, got 1.1.1 1 Value(7)
call A y swap 3 | node 1 got 0 Plain, call 1.1.1 2 y Swap(3) at 1, sent 7 to 1 call 1.1.1 2 y Swap(3) at 1 deps 1:1 2:1
deliver 6 | node 2 got 6 Plain, got 2.1.2 1 busy 2.1.1
call C y read | node 2 got 0 Plain, call 2.1.2 2 y Read at 1, sent 8 to 1 call 2.1.2 2 y Read at 1 deps 2:1
deliver 8 | node 1 got 8 Plain, perform 2.1.2 2 Value(0), sent 9 to 2 answer 2.1.2 2 Value(0)
deliver 7 | node 1 got 7 Plain, bounce 1.1.1 2 2.1.2, sent 10 to 1 answer 1.1.1 2 busy 2.1.2
deliver 9 | node 2 got 9 Plain, got 2.1.2 2 Value(0)
call C y write 4 | node 2 got 0 Plain, call 2.1.2 3 y Write(4) at 1, sent 11 to 1 call 2.1.2 3 y Write(4) at 1 deps 1:1 2:1
deliver 11 | node 1 got 11 Plain, perform 2.1.2 3 Ok, sent 12 to 2 answer 2.1.2 3 Ok";

/// Letters that come twice, and letters that were never sent. A call that comes again has its reply again, and is not performed again;
/// an answer is late where it comes again, and where the action waits for another.
const REPEATS: &str = "nodes 1
object x 1 register 7
deliver 1 | Refused { line: 3, refusal: NoLetter }
begin A 1 | node 1 got 0 Plain, create 1.1.1
call A x swap 5 | node 1 got 0 Plain, call 1.1.1 1 x Swap(5) at 1, sent 1 to 1 call 1.1.1 1 x Swap(5) at 1 deps 1:1
deliver 1 | node 1 got 1 Plain, perform 1.1.1 1 Value(7), sent 2 to 1 answer 1.1.1 1 Value(7)
deliver 1 | node 1 got 1 Again, sent 3 to 1 answer 1.1.1 1 Value(7)
deliver 3 | node 1 got 3 Plain, got 1.1.1 1 Value(7)
deliver 2 | node 1 got 2 Late
deliver 3 | node 1 got 3 Late
begin B 1 | node 1 got 0 Plain, create 1.1.2
call B x read | node 1 got 0 Plain, call 1.1.2 1 x Read at 1, sent 4 to 1 call 1.1.2 1 x Read at 1 deps 1:1
deliver 4 | node 1 got 4 Plain, bounce 1.1.2 1 1.1.1, sent 5 to 1 answer 1.1.2 1 busy 1.1.1
deliver 4 | node 1 got 4 Again, sent 6 to 1 answer 1.1.2 1 busy 1.1.1
deliver 5 | node 1 got 5 Plain, got 1.1.2 1 busy 1.1.1
call A x read | node 1 got 0 Plain, call 1.1.1 2 x Read at 1, sent 7 to 1 call 1.1.1 2 x Read at 1 deps 1:1
deliver 2 | node 1 got 2 Late
deliver 7 | node 1 got 7 Plain, perform 1.1.1 2 Value(5), sent 8 to 1 answer 1.1.1 2 Value(5)
deliver 9 | Refused { line: 19, refusal: NoLetter }
deliver 4294967295 | Refused { line: 20, refusal: NoLetter }
deliver 8 | node 1 got 8 Plain, got 1.1.1 2 Value(5)";

/// Eight nodes, an action at the last, a letter that was never sent, and a restart.
const EIGHT_NODES: &str = "nodes 8
begin A 8 | node 8 got 0 Plain, create 8.1.1
deliver 1 | Refused { line: 3, refusal: NoLetter }
restart 3 | node 3 got 0 Plain, another deed";

/// The text of a table's script: of each row what stands before the bar.
fn text_of(alloc: Global, table: &str) -> Result<String, NoMemory> {
    let mut text = String::new(alloc);
    for row in table.lines() {
        let line = match row.split_once(" | ") {
            Some((line, _)) => line,
            None => row,
        };
        writeln!(text, "{line}")?;
    }
    Ok(text)
}

/// The script of a table.
fn script_of(alloc: Global, table: &str) -> Result<Script, Fail>
    ensures { IfOk result IsScript }
{
    let text = text_of(alloc, table)?;
    Ok(parse(alloc, text.as_bytes())?)
}

/// So many empty disks in memory.
pub(crate) fn empty_disks(alloc: Global, count: u8) -> Result<Vec<MemoryDisk>, NoMemory>
    ensures { IfOk result (λ disks. length disks.items ≡ count) }
{
    let mut disks = Vec::with_capacity(alloc, count as usize)?;
    for _ in 0..count {
        disks.push(MemoryDisk::new(alloc))?;
    }
    Ok(disks)
}

/// The run of a script over disks in memory.
fn run(alloc: Global, script: &Script) -> Result<RunRecord, RunFault>
    requires { IsScript script.now }
{
    let mut disks = empty_disks(alloc, script.nodes)?;
    let mut servers = Servers {
        register: RegisterServer::new(),
        queue: QueueServer::new(alloc),
        counter: CounterServer::new(),
    };
    run_script(alloc, script, &mut disks, &mut servers)
}

/// How many events and how many marks there are.
#[derive(Clone, Copy, Debug, PartialEq, Eq)]
struct Counts {
    events: usize,
    marks: usize,
}

/// The next event of a record where an event is wanted, else its next mark, and counts it.
fn next_text(
    alloc: Global,
    want: &str,
    labels: &Labels,
    record: &RunRecord,
    counts: &mut Counts,
) -> Result<String, Fail> {
    if want.starts_with("node") {
        let event = counts.events;
        counts.events = event.wrapping_add(1);
        Ok(event_text(alloc, labels, &record.trace, event)?)
    } else {
        let mark = counts.marks;
        counts.marks = mark.wrapping_add(1);
        mark_text(alloc, record, mark)
    }
}

/// Fails where a line does not come to what its row has, with what it comes to.
fn check_told(line: &str, told: &str, want: &str) -> Result<(), Fail> {
    if told != want {
        return Err(Fail::new(format_args!("{line} | {told}, in place of {want}")));
    }
    Ok(())
}

/// Fails where a line does not come to what stands after its bar, and counts the event or the mark that it came to.
fn check_line(
    alloc: Global,
    line: &str,
    want: &str,
    labels: &Labels,
    record: &RunRecord,
    counts: &mut Counts,
) -> Result<(), Fail> {
    let told = next_text(alloc, want, labels, record, counts)?;
    check_told(line, &told, want)
}

/// Fails at the first row of a table that the record of its run does not have, or where the record has more.
fn check_rows(alloc: Global, table: &str, labels: &Labels, record: &RunRecord) -> Result<(), Fail> {
    let mut counts = Counts {
        events: 0,
        marks: 0,
    };
    for row in table.lines() {
        if let Some((line, want)) = row.split_once(" | ") {
            check_line(alloc, line, want, labels, record, &mut counts)?;
        }
    }
    check_counts(counts, record)
}

/// Fails where a record has more than the rows of its table.
fn check_counts(rows: Counts, record: &RunRecord) -> Result<(), Fail> {
    let all = Counts {
        events: record.trace.len(),
        marks: record.marks.len(),
    };
    if all != rows {
        return Err(Fail::new(format_args!("the rows have {rows:?}, and there are {all:?}")));
    }
    Ok(())
}

/// The mark at this place of a record.
fn mark_text(alloc: Global, record: &RunRecord, place: usize) -> Result<String, Fail> {
    let mark = record.marks.get(place).ok_or("a mark is missing")?;
    Ok(format!(in alloc; "{mark:?}")?)
}

/// Runs the script of a table, and fails where its record is not what the table has.
fn check_run(alloc: Global, table: &str, script: &Script) -> Result<(), Fail>
    requires { IsScript script.now }
{
    let record = run(alloc, script)?;
    check_rows(alloc, table, &script.labels, &record)
}

/// Fails where the run of a table's script is not what the table has.
fn check(alloc: Global, table: &str) -> Result<(), Fail> {
    let script = script_of(alloc, table)?;
    check_run(alloc, table, &script)
}

#[test]
fn each_line_has_its_event_or_its_mark(rt: HostRuntime) -> Result<(), Fail> {
    check(rt.alloc(), CONFLICT)?;
    check(rt.alloc(), TWO_NODES)?;
    check(rt.alloc(), REPEATS)?;
    check(rt.alloc(), EIGHT_NODES)
}
