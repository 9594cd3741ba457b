//! `cam_run`: answers to words and scripts, and streams and disks that fail.

ghost use Rattle.std.specs.Prelude.{◌≤◌, length};

mod commands;
mod failing;
mod forms;
mod rows;
mod storms;
mod streams;

use crate::check::same;
use crate::cluster::empty_disks;
use cam_cluster::Servers;
use cam_disk::TellingDisk;
use cam_io::{MemorySink, MemorySource, Sink, Source};
use cam_run::{camelot, worked_answers};
use cam_type::{CounterServer, QueueServer, RegisterServer};
use rows::{COUNT, REFUSED, ROWS};
use std::alloc::Global;
use std::process::Abort;
use std::sync::Wait;
use std::test::Fail;
use std::thread::Threads;

/// A write, and a read of another action that is told who holds the register.
const FIRST_PATH: &str = "nodes 1
object x 1 register 0
begin A 1
begin B 1
call A x write 5
deliver 1
deliver 2
call B x read
deliver 3
deliver 4
call A x read
";

const FIRST_REPORT: &str = "action 1.1.1 open
  created
  called 1 x write 5
  got 1 ok
  called 2 x read
action 1.1.2 open
  created
  called 1 x read
  got 1 busy 1.1.1
value x 0
";

/// The words between the blanks of a text.
fn words(alloc: Global, text: &str) -> Result<Vec<String>, Fail> {
    let mut words = Vec::new(alloc);
    for word in text.split(' ') {
        words.push(String::from_str(alloc, word)?)?;
    }
    Ok(words)
}

fn source(alloc: Global, text: &str, fail: &[u32]) -> Result<MemorySource, Fail> {
    Ok(MemorySource::new(text.as_bytes().to_vec(alloc)?, fail.to_vec(alloc)?))
}

/// The status of the answer to the words, over these disks.
fn status_over<S: Source, K: Sink, D: TellingDisk + Send>(
    rt: &(impl Threads + Wait + Sync),
    alloc: Global,
    words: &[String],
    source: &mut S,
    sink: &mut K,
    disks: &mut Vec<D>,
) -> u8
    requires { 8 ≤ length disks.old.items }
{
    let mut servers = Servers {
        register: RegisterServer::new(),
        queue: QueueServer::new(alloc),
        counter: CounterServer::new(),
    };
    camelot(rt, alloc, words, source, sink, disks, &mut servers)
}

/// An answer: its status, and the text that it writes.
#[derive(Drop)]
struct Answer {
    status: u8,
    text: Vec<u8>,
}

impl Answer {
    /// Whether it has this status and this text.
    fn has(&self, status: u8, text: &str) -> bool {
        self.status == status && self.text.as_slice() == text.as_bytes()
    }
}

/// Fails where an answer has not this status and this text, and tells of which case it is.
fn check_answer(rt: &impl Abort, case: &str, answer: &Answer, status: u8, text: &[u8]) {
    same(
        rt,
        (case, answer.status, answer.text.as_slice()),
        (case, status, text),
    );
}

/// Fails where an answer has not this status and this text, and tells the number of its case.
fn check_numbered_answer(rt: &impl Abort, case: u64, answer: &Answer, status: u8, text: &[u8]) {
    same(
        rt,
        (case, answer.status, answer.text.as_slice()),
        (case, status, text),
    );
}

/// The answer to the words, over these disks.
fn answer_over<S: Source, D: TellingDisk + Send>(
    rt: &(impl Threads + Wait + Sync),
    alloc: Global,
    words: &[String],
    source: &mut S,
    disks: &mut Vec<D>,
) -> Result<Answer, Fail>
    requires { 8 ≤ length disks.old.items }
{
    let mut sink = MemorySink::new(alloc, Vec::new(alloc));
    let status = status_over(rt, alloc, words, source, &mut sink, disks);
    let text = sink.text().to_vec(alloc)?;
    Ok(Answer { status, text })
}

/// The same over eight disks in memory.
fn answer_in_memory<S: Source>(
    rt: &(impl Threads + Wait + Sync),
    alloc: Global,
    words: &[String],
    source: &mut S,
) -> Result<Answer, Fail> {
    let mut disks = empty_disks(alloc, 8)?;
    answer_over(rt, alloc, words, source, &mut disks)
}

/// The answer to a command on its input.
fn answer_to(
    rt: &(impl Threads + Wait + Sync),
    alloc: Global,
    command: &str,
    input: &str,
) -> Result<Answer, Fail> {
    let words = words(alloc, command)?;
    let mut source = source(alloc, input, &[])?;
    answer_in_memory(rt, alloc, &words, &mut source)
}

/// Fails where the answer to a command on its input has not this status and this text.
fn check_command(
    rt: &(impl Threads + Wait + Sync + Abort),
    alloc: Global,
    command: &str,
    input: &str,
    status: u8,
    text: &str,
) -> Result<(), Fail> {
    let answer = answer_to(rt, alloc, command, input)?;
    check_answer(rt, command, &answer, status, text.as_bytes());
    Ok(())
}

/// Fails where the run of a script does not have its report, and tells its title.
fn check_run(
    rt: &(impl Threads + Wait + Sync + Abort),
    alloc: Global,
    title: &str,
    script: &str,
    report: &str,
) -> Result<(), Fail> {
    let answer = answer_to(rt, alloc, "run", script)?;
    check_answer(rt, title, &answer, 0, report.as_bytes());
    Ok(())
}

/// Fails where the run of a row of a topic does not have its report.
fn check_row(
    rt: &(impl Threads + Wait + Sync + Abort),
    alloc: Global,
    row: &str,
) -> Result<(), Fail> {
    let (title, run) = row.split_once('\n').ok_or("a row has no script")?;
    let (script, report) = run.split_once("--\n").ok_or("a row has no report")?;
    check_run(rt, alloc, title, script, report)
}

/// Fails where a run of a topic does not have its report, and counts its runs.
fn check_topic(
    rt: &(impl Threads + Wait + Sync + Abort),
    alloc: Global,
    topic: &str,
) -> Result<usize, Fail> {
    let mut count = 0usize;
    for row in topic.split("== ").skip(1) {
        check_row(rt, alloc, row)?;
        count = count.wrapping_add(1);
    }
    Ok(count)
}

/// The call whose promise of worked scripts is proved. It does nothing when it runs. Called in a test, its promise would stand
/// among what is known there, and make the proof of the test longer.
fn call_worked_answers() {
    worked_answers();
}

/// Lines of every kind, by the reports of their runs.
#[test]
fn worked_runs_have_their_reports(rt: HostRuntime) -> Result<(), Fail> {
    call_worked_answers();
    let mut count = 0usize;
    for topic in ROWS {
        let runs = check_topic(&rt, rt.alloc(), topic)?;
        count = count.wrapping_add(runs);
    }
    same(&rt, count, COUNT);
    Ok(())
}

/// Fails where a script is not refused with this fault.
fn check_refused(
    rt: &(impl Threads + Wait + Sync + Abort),
    alloc: Global,
    script: &str,
    fault: &str,
) -> Result<(), Fail> {
    let answer = answer_to(rt, alloc, "run", script)?;
    check_answer(rt, script, &answer, 3, fault.as_bytes());
    Ok(())
}

#[test]
fn refused_scripts_have_their_faults(rt: HostRuntime) -> Result<(), Fail> {
    for &(script, fault) in REFUSED {
        check_refused(&rt, rt.alloc(), script, fault)?;
    }
    Ok(())
}

/// The answer to `run` of a script of empty lines, a byte longer than a script may be.
fn answer_to_long_script(rt: &(impl Threads + Wait + Sync), alloc: Global) -> Result<Answer, Fail> {
    let run = words(alloc, "run")?;
    let mut long = MemorySource::new(vec![in alloc; 10; 262_145]?, Vec::new(alloc));
    answer_in_memory(rt, alloc, &run, &mut long)
}

#[test]
fn a_script_that_is_too_long_is_refused(rt: HostRuntime) -> Result<(), Fail> {
    let answer = answer_to_long_script(&rt, rt.alloc())?;
    check_answer(
        &rt,
        "a long script",
        &answer,
        3,
        "refused 1 1 S1\n".as_bytes(),
    );
    Ok(())
}
