//! A source and a sink that fail.

ghost use Rattle.std.specs.Prelude.{Some};

use super::{
    Answer, FIRST_PATH, FIRST_REPORT, answer_in_memory, check_numbered_answer, source, status_over,
    words,
};
use crate::cluster::empty_disks;
use cam_io::{Failed, Sink, Source};
use std::alloc::Global;
use std::process::Abort;
use std::sync::Wait;
use std::test::Fail;
use std::thread::Threads;

/// The answer to `run` of a script of which the read at this call fails.
fn answer_with_failing_read(
    rt: &(impl Threads + Wait + Sync),
    alloc: Global,
    call: u32,
) -> Result<Answer, Fail> {
    let run = words(alloc, "run")?;
    let mut source = source(alloc, FIRST_PATH, &[call])?;
    answer_in_memory(rt, alloc, &run, &mut source)
}

/// Fails where the answer has not this status and this text when the read at this call fails.
fn check_failing_read(
    rt: &(impl Threads + Wait + Sync + Abort),
    alloc: Global,
    call: u32,
    status: u8,
    text: &str,
) -> Result<(), Fail> {
    let answer = answer_with_failing_read(rt, alloc, call)?;
    check_numbered_answer(rt, u64::from(call), &answer, status, text.as_bytes());
    Ok(())
}

/// Each read fails in turn: of the script, and of the end after it.
#[test]
fn a_source_that_fails(rt: HostRuntime) -> Result<(), Fail> {
    check_failing_read(&rt, rt.alloc(), 1, 4, "read fault\n")?;
    check_failing_read(&rt, rt.alloc(), 2, 4, "read fault\n")?;
    check_failing_read(&rt, rt.alloc(), 3, 0, FIRST_REPORT)
}

/// A sink that takes a byte a call, and fails once it has taken so many.
#[derive(Drop)]
struct Narrow {
    text: Vec<u8>,
    room: usize,
    faults: u64,
}

impl Sink for Narrow {
    ghost written = { λ s. Some s.text.items };

    ghost faults = { λ s. s.faults };

    fn write(&mut self, piece: &[u8]) -> Result<usize, Failed> {
        if self.text.len() < self.room && self.text.push(piece[0]).is_ok() {
            return Ok(1);
        }
        self.faults = self.faults.saturating_add(1);
        Err(Failed)
    }
}

/// The answer to the words into a sink that takes so many bytes, over eight disks in memory.
fn answer_into<S: Source>(
    rt: &(impl Threads + Wait + Sync),
    alloc: Global,
    words: &[String],
    source: &mut S,
    room: usize,
) -> Result<Answer, Fail> {
    let mut disks = empty_disks(alloc, 8)?;
    let mut sink = Narrow {
        text: Vec::new(alloc),
        room,
        faults: 0,
    };
    let status = status_over(rt, alloc, words, source, &mut sink, &mut disks);
    Ok(Answer {
        status,
        text: sink.text,
    })
}

/// The answer to `run` of a script into a sink that takes so many bytes.
fn answer_in_room(
    rt: &(impl Threads + Wait + Sync),
    alloc: Global,
    room: usize,
) -> Result<Answer, Fail> {
    let run = words(alloc, "run")?;
    let mut source = source(alloc, FIRST_PATH, &[])?;
    answer_into(rt, alloc, &run, &mut source, room)
}

/// Fails where a sink that takes as many bytes as this text has is not left with it, or where the answer has not this status.
fn check_room(
    rt: &(impl Threads + Wait + Sync + Abort),
    alloc: Global,
    text: &[u8],
    status: u8,
) -> Result<(), Fail> {
    let room = text.len();
    let answer = answer_in_room(rt, alloc, room)?;
    check_numbered_answer(rt, room as u64, &answer, status, text);
    Ok(())
}

/// Each write fails in turn: a prefix of the text stands there, and the whole where none fails.
#[test]
fn a_sink_that_fails(rt: HostRuntime) -> Result<(), Fail> {
    let whole = FIRST_REPORT.as_bytes();
    for room in 0..=whole.len() {
        let wanted = if room < whole.len() { 5 } else { 0 };
        check_room(&rt, rt.alloc(), &whole[..room], wanted)?;
    }
    Ok(())
}
