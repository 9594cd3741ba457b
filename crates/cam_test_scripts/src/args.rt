//! `cam_args`: words that are forms, and words that are none.

use crate::check::same;
use cam_args::{ArgsFault, Command, read_words};
use cam_names::Name;
use std::alloc::Global;
use std::test::Fail;

/// The words of a line.
fn words_of(alloc: Global, line: &str) -> Result<Vec<String>, Fail> {
    let mut words = Vec::new(alloc);
    for word in line.split_whitespace() {
        words.push(String::from_str(alloc, word)?)?;
    }
    Ok(words)
}

/// The command of the words of a line.
fn read(alloc: Global, line: &str) -> Result<Result<Command, ArgsFault>, Fail> {
    let words = words_of(alloc, line)?;
    Ok(read_words(alloc, words.as_slice()))
}

/// The line, where something else is read of it.
fn if_wrong<'a>(
    alloc: Global,
    line: &'a str,
    wanted: Result<Command, ArgsFault>,
) -> Result<Option<&'a str>, Fail> {
    let found = read(alloc, line)?;
    Ok(if found == wanted { None } else { Some(line) })
}

/// Lines that are forms, but for names.
const FORMS: [(&str, Command); 11] = [
    ("run", Command::Run),
    ("trace", Command::Trace),
    ("inspect", Command::Inspect),
    ("upgrade", Command::Upgrade),
    ("timed", Command::Timed),
    ("gen 7 100", Command::Gen { seed: 7, size: 100 }),
    (
        "gen 18446744073709551615 400",
        Command::Gen {
            seed: u64::MAX,
            size: 400,
        },
    ),
    (
        "storm 1 4 2 calm",
        Command::Storm {
            seed: 1,
            actions: 4,
            threads: 2,
            calm: true,
        },
    ),
    (
        "storm 0 64 4 rough",
        Command::Storm {
            seed: 0,
            actions: 64,
            threads: 4,
            calm: false,
        },
    ),
    ("why 0", Command::Why(0)),
    ("why 4294967295", Command::Why(u32::MAX)),
];

#[test]
fn forms(rt: HostRuntime) -> Result<(), Fail> {
    for (line, command) in FORMS {
        same(&rt, if_wrong(rt.alloc(), line, Ok(command))?, None);
    }
    Ok(())
}

#[test]
fn witness(rt: HostRuntime) -> Result<(), Fail> {
    let name = Name::parse("1.1.1/4.1.1")?;
    let command = read(rt.alloc(), "witness 1.1.1/4.1.1")?;
    same(&rt, command, Ok(Command::Witness(name)));
    Ok(())
}

/// Lines that are no forms.
const NO_FORMS: [&str; 18] = [
    "",
    "run run",
    "--help",
    "-h",
    "witness",
    "witness 1.1.1/",
    "gen 7 401",
    "gen 7 0",
    "gen 07 1",
    "gen +7 1",
    "gen -7 1",
    "gen 18446744073709551616 1",
    "storm 1 65 2 calm",
    "storm 1 4 5 calm",
    "storm 1 4 2 quiet",
    "why 4294967296",
    "why",
    "timed 1",
];

#[test]
fn no_forms(rt: HostRuntime) -> Result<(), Fail> {
    for line in NO_FORMS {
        let wrong = if_wrong(rt.alloc(), line, Err(ArgsFault::Usage))?;
        same(&rt, wrong, None);
    }
    Ok(())
}
