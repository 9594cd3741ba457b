//! Words that are no form: the line of usage.

use super::{Answer, FIRST_PATH, answer_in_memory, check_answer, check_command, source};
use std::alloc::Global;
use std::sync::Wait;
use std::test::Fail;
use std::thread::Threads;

const USAGE: &str =
    "usage: camelot run | trace | witness NAME | gen SEED SIZE | storm SEED ACTIONS THREADS MODE | inspect | upgrade | why EVENT | timed\n";

/// Words that are no form.
const NO_FORMS: &[&str] = &[
    "",
    "witness",
    "run run",
    "--help",
    "gen 7 401",
    "storm 7 0 1 calm",
    "storm 7 65 1 rough",
    "storm 7 1 5 calm",
    "storm 7 1 1 wild",
    "storm 7 01 1 calm",
    "inspect run",
    "timed 7",
    "Run",
    "run ",
];

#[test]
fn words_that_are_no_form(rt: HostRuntime) -> Result<(), Fail> {
    for &words in NO_FORMS {
        check_command(&rt, rt.alloc(), words, FIRST_PATH, 2, USAGE)?;
    }
    Ok(())
}

/// The answer where there is no word at all.
fn answer_to_no_words(rt: &(impl Threads + Wait + Sync), alloc: Global) -> Result<Answer, Fail> {
    let none = Vec::new(alloc);
    let mut source = source(alloc, FIRST_PATH, &[])?;
    answer_in_memory(rt, alloc, &none, &mut source)
}

#[test]
fn no_words_are_no_form(rt: HostRuntime) -> Result<(), Fail> {
    let answer = answer_to_no_words(&rt, rt.alloc())?;
    check_answer(&rt, "no words", &answer, 2, USAGE.as_bytes());
    Ok(())
}
