//! Runs that go on through a halt.

ghost use Rattle.std.specs.Prelude.{IfOk};
ghost use Rattle.cam_script.specs.Law.{IsScript};

use super::words::event_text;
use super::{mark_text, run};
use crate::check::same;
use cam_event::RunRecord;
use cam_script::{Labels, Script, parse};
use std::alloc::Global;
use std::process::Abort;
use std::test::Fail;

/// What is to come of a halt, by the calls that its disk does before it stops.
#[derive(Clone, Copy)]
struct Halt {
    calls: u32,
    events: usize,
    fourth_event: &'static str,
    mark: &'static str,
}

/// The disk does nothing more: the event is lost.
const LOST: Halt = Halt {
    calls: 0,
    events: 5,
    fourth_event: "node 1 got 0 Plain, another deed",
    mark: "Halted { line: 5, node: 1, taken: false }",
};

/// Its entry has come to the disk: the event is taken.
const TAKEN: Halt = Halt {
    calls: 3,
    events: 6,
    fourth_event: "node 1 got 2 Plain, another deed",
    mark: "Halted { line: 5, node: 1, taken: true }",
};

/// What came of a halt: how many events there are, the fourth of them, the first mark, and how many marks there are.
#[derive(Drop)]
struct Halted {
    events: usize,
    fourth_event: String,
    mark: String,
    marks: usize,
}

/// What the record of a halt tells of it.
fn told_of(alloc: Global, labels: &Labels, record: &RunRecord) -> Result<Halted, Fail> {
    let fourth_event = event_text(alloc, labels, &record.trace, 3)?;
    let mark = mark_text(alloc, record, 0)?;
    Ok(Halted {
        events: record.trace.len(),
        fourth_event,
        mark,
        marks: record.marks.len(),
    })
}

/// A script in which a disk stops after so many calls, as its node secures a family. The node goes on by its restart.
fn script_with_halt(alloc: Global, calls: u32) -> Result<Script, Fail>
    ensures { IfOk result IsScript }
{
    let text = format!(in alloc;
        "nodes 1\nbegin A 1\ncommit A 0\nstop 1 {calls}\ndrain\nbegin B 1\nrestart 1\nbegin C 1\n"
    )?;
    Ok(parse(alloc, text.as_bytes())?)
}

/// What comes of the halt in a script.
fn halt_of(alloc: Global, script: &Script) -> Result<Halted, Fail>
    requires { IsScript script.now }
{
    let record = run(alloc, script)?;
    told_of(alloc, &script.labels, &record)
}

/// What comes of a halt at a stop of the disk after so many calls.
fn halted_after(alloc: Global, calls: u32) -> Result<Halted, Fail> {
    let script = script_with_halt(alloc, calls)?;
    halt_of(alloc, &script)
}

/// Fails where something else comes of a halt than is to come of it, and tells after how many calls its disk stopped.
fn check_halt(rt: &impl Abort, alloc: Global, halt: Halt) -> Result<(), Fail> {
    let halted = halted_after(alloc, halt.calls)?;
    check_numbers(rt, halt, &halted);
    check_text(rt, halt.calls, &halted.fourth_event, halt.fourth_event);
    check_text(rt, halt.calls, &halted.mark, halt.mark);
    Ok(())
}

/// Fails where there are more or fewer events, or not two marks: that of the halt, and that of the line that the halted node refuses.
fn check_numbers(rt: &impl Abort, halt: Halt, halted: &Halted) {
    same(
        rt,
        (halt.calls, halted.events, halted.marks),
        (halt.calls, halt.events, 2),
    );
}

/// Fails where a text is another, and tells after how many calls the disk stopped.
fn check_text(rt: &impl Abort, calls: u32, got: &str, wanted: &str) {
    same(rt, (calls, got), (calls, wanted));
}

/// The event of the halt is taken where three calls more of its disk passed: then it stands at its place, after the three before it, without its
/// letter.
#[test]
fn a_run_goes_on_through_a_halt(rt: HostRuntime) -> Result<(), Fail> {
    check_halt(&rt, rt.alloc(), LOST)?;
    check_halt(&rt, rt.alloc(), TAKEN)
}
