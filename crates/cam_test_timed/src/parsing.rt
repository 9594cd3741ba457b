//! `parse_timed`: what each form says, and first faults.
use crate::check::same;
use cam_script::{Cause, ScriptFault};
use cam_timed::{TimedScript, parse_timed};
use std::alloc::Global;
use std::test::Fail;

/// How many nodes and objects a script has, and its steps, as they are shown.
fn shown(alloc: Global, text: &str) -> Result<String, Fail> {
    let TimedScript { script, steps } = parse_timed(alloc, text.as_bytes())?;
    Ok(format!(in alloc;
        "{} {} {:?}",
        script.nodes,
        script.objects.len(),
        steps.as_slice()
    )?)
}

/// Where and why a script is refused: the line, its column and the cause.
type Fault = (u32, u32, Cause);

/// The fault of a script. None where it is accepted.
fn fault_of(alloc: Global, text: &str) -> Result<Option<Fault>, Fail> {
    match parse_timed(alloc, text.as_bytes()) {
        Ok(_) => Ok(None),
        Err(
            ScriptFault::Bad {
                line,
                column,
                cause,
            },
        ) => Ok(Some((line, column, cause))),
        Err(ScriptFault::NoMemory) => Err(ScriptFault::NoMemory.into()),
    }
}

/// Each form says what it spells, with the place of the step of each variable.
#[test]
fn each_form_is_read(rt: HostRuntime) -> Result<(), Fail> {
    let text =
        "nodes 2\n\nobject x 2 counter -3\nbegin P 1 100\nask P C 2 1000000000\n# moments\ntick 1 50\nexpire P\ncall C x add 4\ncommit C 7\nabort C\ngiveup P C\ndeliver 3\nlose 4\ndrain\ntell 1 2\nquery 2 P\n";
    same(
        &rt,
        shown(rt.alloc(), text)?.as_str(),
        "2 1 [TimedStep { line: 4, act: Begin { node: 1, until: 100 } }, TimedStep { line: 5, act: Ask { parent: 0, node: 2, until: 1000000000 } }, TimedStep { line: 7, act: Tick { node: 1, moment: 50 } }, TimedStep { line: 8, act: Expire { action: 0 } }, TimedStep { line: 9, act: Call { action: 1, object: 0, op: Add(4) } }, TimedStep { line: 10, act: Commit { action: 1, value: 7 } }, TimedStep { line: 11, act: Abort { action: 1 } }, TimedStep { line: 12, act: GiveUp { action: 0, child: 1 } }, TimedStep { line: 13, act: Deliver { letter: 3 } }, TimedStep { line: 14, act: Lose { letter: 4 } }, TimedStep { line: 15, act: Drain }, TimedStep { line: 16, act: Tell { node: 1, to: 2 } }, TimedStep { line: 17, act: Query { node: 2, action: 0 } }]",
    );
    Ok(())
}

/// Scripts of one node with a top action P and its child C in lines 2 and 3, and the fault of their fourth line, by its column and cause.
const FOURTH_LINES: [(&str, u32, Cause); 21] = [
    // The words of scripts without time that are none here.
    ("restart 1", 1, Cause::UnknownWord),
    ("cut 1 0", 1, Cause::UnknownWord),
    ("body B", 1, Cause::UnknownWord),
    ("start S 1 B", 1, Cause::UnknownWord),
    ("go P", 1, Cause::UnknownWord),
    ("play", 1, Cause::UnknownWord),
    ("stop 1 0", 1, Cause::UnknownWord),
    // Moments.
    ("begin Q 1", 10, Cause::MissingWord),
    ("begin Q 1 0", 11, Cause::InvalidNumber),
    ("begin Q 1 1000000001", 11, Cause::InvalidNumber),
    ("begin Q 1 5 5", 13, Cause::ExtraWord),
    ("begin P 1 5", 7, Cause::DeclaredAgain),
    ("ask P D 2 5", 9, Cause::NoSuchNode),
    ("ask P D 1 x", 11, Cause::InvalidNumber),
    ("ask D E 1 5", 5, Cause::Undeclared),
    ("tick 1", 7, Cause::MissingWord),
    ("tick 2 5", 6, Cause::NoSuchNode),
    ("tick 1 0", 8, Cause::InvalidNumber),
    // A child does not expire.
    ("expire C", 8, Cause::Misplaced),
    ("expire D", 8, Cause::Undeclared),
    ("object x 1 queue", 1, Cause::Misplaced),
];

/// The fault of a script of one node with a top action P and its child C, and then this line.
fn fault_of_fourth(alloc: Global, line: &str) -> Result<Option<Fault>, Fail> {
    let text = format!(in alloc; "nodes 1\nbegin P 1 9\nask P C 1 9\n{line}\n")?;
    fault_of(alloc, text.as_str())
}

#[test]
fn faults_are_told(rt: HostRuntime) -> Result<(), Fail> {
    for place in 0..FOURTH_LINES.len() {
        let (line, column, cause) = FOURTH_LINES[place];
        let fault = fault_of_fourth(rt.alloc(), line)?;
        same(&rt, (place, fault), (place, Some((4, column, cause))));
    }
    Ok(())
}

/// A script of one node with this many steps.
fn ticks(alloc: Global, count: u32) -> Result<String, Fail> {
    let mut text = String::from_str(alloc, "nodes 1\n")?;
    for _ in 0..count {
        text.push_str("tick 1 5\n")?;
    }
    Ok(text)
}

/// How many steps a script has.
fn steps_of(alloc: Global, text: &str) -> Result<usize, ScriptFault> {
    Ok(parse_timed(alloc, text.as_bytes())?.steps.len())
}

/// `tick` counts among the 512 steps.
#[test]
fn steps_are_counted(rt: HostRuntime) -> Result<(), Fail> {
    let alloc = rt.alloc();
    same(&rt, steps_of(alloc, ticks(alloc, 512)?.as_str())?, 512);
    let fault = fault_of(alloc, ticks(alloc, 513)?.as_str())?;
    same(&rt, fault, Some((514, 1, Cause::TooMany)));
    Ok(())
}

#[test]
fn nodes_come_first(rt: HostRuntime) -> Result<(), Fail> {
    for (text, line) in [("tick 1 5\n", 1), ("# no line\n", 2)] {
        let fault = fault_of(rt.alloc(), text)?;
        same(&rt, fault, Some((line, 1, Cause::Misplaced)));
    }
    Ok(())
}
