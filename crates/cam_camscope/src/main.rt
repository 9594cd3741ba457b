//! The program `camscope`: it hands the words after its name to `cam_scope_args`, reads the files
//! or standard input, and writes what `cam_teller` tells of them.
#![tactic(auto)]

use cam_base::NoMemory;
use cam_io::{ReadFault, Source, StdSink, StdSource, read_all, write_all};
use cam_scope_args::{Question, Request, USAGE, VERSION, read_words};
use cam_script::MOST_BYTES;
use cam_teller::{ScriptFile, Status, Told, compare, made, tell};
use std::alloc::Global;
use std::env;
use std::fs::File;
use std::io::ErrorKind;
use std::process::ExitCode;

/// Why the program ends without its text.
#[derive(Clone, Copy, Debug)]
enum Failure {
    WrongWords,
    Unreadable,
    Unwritable,
    NoMemory,
}

impl From<NoMemory> for Failure {
    fn from(_: NoMemory) -> Failure {
        Failure::NoMemory
    }
}

/// The words after the program's name. Words that are no text are none: they ask for nothing.
fn words(rt: &HostRuntime) -> Result<Vec<String>, NoMemory> {
    let mut words = Vec::new(rt.alloc());
    match env::args(rt) {
        Ok(args) => {
            for word in args.skip(1) {
                words.push(word)?;
            }
        }
        Err(error) if error.kind() == ErrorKind::OutOfMemory => return Err(NoMemory),
        Err(_) => {}
    }
    Ok(words)
}

/// The bytes of a source, one more than a script may have at most, so that a longer one is seen to
/// be too long.
fn bytes_of<S: Source>(alloc: Global, source: &mut S) -> Result<Vec<u8>, Failure> {
    match read_all(alloc, source, 16 * MOST_BYTES) {
        Ok(bytes) => Ok(bytes),
        Err(ReadFault::NoMemory) => Err(Failure::NoMemory),
        Err(_) => Err(Failure::Unreadable),
    }
}

/// Writes a text to standard output.
fn write(rt: &HostRuntime, text: &str) -> Result<(), Failure> {
    let mut sink = StdSink::new(rt.stdout());
    match write_all(&mut sink, text.as_bytes()) {
        Ok(()) => Ok(()),
        Err(_) => Err(Failure::Unwritable),
    }
}

/// Writes a text to standard error.
fn complain(rt: &HostRuntime, text: &str) -> Result<(), Failure> {
    let mut sink = StdSink::new(rt.stderr());
    match write_all(&mut sink, text.as_bytes()) {
        Ok(()) => Ok(()),
        Err(_) => Err(Failure::Unwritable),
    }
}

/// Shows what is told. If a picture or a script was asked for, a finding goes to standard error:
/// standard output has a picture, a script or nothing.
fn show(rt: &HostRuntime, question: Question<'_>, told: &Told) -> Result<(), Failure> {
    match (question, told.status) {
        (Question::Draw(_) | Question::Shrink(_) | Question::Sweep(_), Status::Finding) => {
            complain(rt, told.text.as_str())
        }
        _ => write(rt, told.text.as_str()),
    }
}

/// Tells of the bytes of a script.
fn tell_of(
    rt: &HostRuntime,
    question: Question<'_>,
    file: &str,
    bytes: &[u8],
) -> Result<Status, Failure> {
    let told = tell(rt.alloc(), question, file, bytes)?;
    show(rt, question, &told)?;
    Ok(told.status)
}

/// Tells of standard input.
fn tell_of_input(rt: &HostRuntime, question: Question<'_>) -> Result<Status, Failure> {
    let mut source = StdSource::new(rt.stdin());
    let bytes = bytes_of(rt.alloc(), &mut source)?;
    tell_of(rt, question, "standard input", &bytes)
}

/// The bytes of a file.
fn bytes_of_file(rt: &HostRuntime, file: &str) -> Result<Vec<u8>, Failure> {
    let Ok(opened) = File::open(rt, file) else {
        return Err(Failure::Unreadable);
    };
    let mut source = StdSource::new(opened);
    bytes_of(rt.alloc(), &mut source)
}

/// Tells of a file.
fn tell_of_file(rt: &HostRuntime, question: Question<'_>, file: &str) -> Result<Status, Failure> {
    let bytes = bytes_of_file(rt, file)?;
    tell_of(rt, question, file, &bytes)
}

/// Tells in what the runs of two files differ.
fn compare_files(rt: &HostRuntime, a: &str, b: &str) -> Result<Status, Failure> {
    let bytes_a = bytes_of_file(rt, a)?;
    let bytes_b = bytes_of_file(rt, b)?;
    let first = ScriptFile {
        name: a,
        bytes: &bytes_a,
    };
    let second = ScriptFile {
        name: b,
        bytes: &bytes_b,
    };
    let told = compare(rt.alloc(), &first, &second)?;
    write(rt, told.text.as_str())?;
    Ok(told.status)
}

/// Tells of each file, or of standard input where there is none: a finding in one is one of all.
fn tell_all(rt: &HostRuntime, question: Question<'_>, files: &[String]) -> Result<Status, Failure> {
    if files.is_empty() {
        return tell_of_input(rt, question);
    }
    let mut status = Status::Fine;
    for file in files {
        if tell_of_file(rt, question, file.as_str())? == Status::Finding {
            status = Status::Finding;
        }
    }
    Ok(status)
}

/// Writes the script that is made from a seed, of so many steps.
fn write_made(rt: &HostRuntime, seed: &str, size: &str) -> Result<Status, Failure> {
    match made(rt.alloc(), seed, size)? {
        Some(script) => {
            write(rt, script.as_str())?;
            Ok(Status::Fine)
        }
        None => Err(Failure::WrongWords),
    }
}

/// Does what the words ask for.
fn obey(rt: &HostRuntime) -> Result<Status, Failure> {
    let words = words(rt)?;
    match read_words(&words) {
        Some(Request::Tell(Question::Compare, [a, b])) => compare_files(rt, a.as_str(), b.as_str()),
        Some(Request::Tell(question, files)) => tell_all(rt, question, files),
        Some(Request::Gen(seed, size)) => write_made(rt, seed, size),
        Some(Request::Help) => {
            write(rt, USAGE)?;
            Ok(Status::Fine)
        }
        Some(Request::Version) => {
            write(rt, VERSION)?;
            Ok(Status::Fine)
        }
        None => Err(Failure::WrongWords),
    }
}

/// What is said on standard error of a failure.
fn sentence(failure: Failure) -> &'static str {
    match failure {
        Failure::WrongWords => USAGE,
        Failure::Unreadable => "camscope: a file cannot be read\n",
        Failure::Unwritable => "camscope: standard output cannot be written\n",
        Failure::NoMemory => "camscope: out of memory\n",
    }
}

fn main(rt: HostRuntime) -> ExitCode {
    match obey(&rt) {
        Ok(Status::Fine) => ExitCode::from(0),
        Ok(Status::Finding) => ExitCode::from(1),
        Err(failure) => {
            match complain(&rt, sentence(failure)) {
                Ok(()) => ExitCode::from(2),
                Err(_) => ExitCode::from(2),
            }
        }
    }
}
