//! The answer to a question about a script.
ghost use Rattle.std.specs.Prelude.{◌≡◌, false, All, IfOk, length};
ghost use Rattle.cam_run.specs.Commands.{needs_threads};
ghost use Rattle.cam_page.specs.Page.{IsTold};

use crate::words::words_of;
use cam_args::{ArgsFault, Command};
use cam_base::NoMemory;
use cam_cluster::Servers;
use cam_disk::{Disk, MemoryDisk};
use cam_io::{MemorySink, MemorySource};
use cam_run::{Status, camelot_alone};
use cam_scope_args::{Question, Request};
use cam_teller::tell;
use cam_type::{CounterServer, QueueServer, RegisterServer};
use std::alloc::Global;

/// What is answered: a status, and a text as bytes.
#[derive(Drop)]
pub(crate) struct Reply {
    pub(crate) status: u8,
    pub(crate) text: Vec<u8>,
}

/// The answer to a question, whose first word is the program's name.
pub(crate) fn answer(alloc: Global, question: &[u8], script: &[u8]) -> Result<Reply, NoMemory> {
    let words = words_of(alloc, question)?;
    match words.split_first() {
        Some((program, rest)) if program.as_str() == "camelot" => of_camelot(alloc, rest, script),
        Some((program, rest)) if program.as_str() == "camscope" => of_camscope(alloc, rest, script),
        _ => Ok(no_form(alloc)),
    }
}

/// The answer to words that are no form: a status without a text.
fn no_form(alloc: Global) -> Reply {
    Reply {
        status: Status::Usage.number(),
        text: Vec::new(alloc),
    }
}

/// Whether the command needs threads, of which there are none here.
fn needs_threads(command: &Command) -> bool
    ensures { result ≡ needs_threads command.now }
{
    matches!(command, Command::Storm { .. })
}

/// What `camelot` answers to the words behind its name.
fn of_camelot(alloc: Global, words: &[String], script: &[u8]) -> Result<Reply, NoMemory> {
    match cam_args::read_words(alloc, words) {
        Ok(command) if needs_threads(&command) => Ok(no_form(alloc)),
        Ok(command) => obeyed(alloc, &command, script),
        Err(ArgsFault::Usage) => Ok(no_form(alloc)),
        Err(ArgsFault::NoMemory) => Err(NoMemory),
    }
}

/// As many disks as a script may have nodes, of which none has failed.
fn disks(alloc: Global) -> Result<Vec<MemoryDisk>, NoMemory>
    ensures eight { IfOk result (λ disks. length disks.items ≡ 8) }
    ensures fresh { IfOk result
        (λ disks. All (λ d. ⟦<MemoryDisk as Disk>⟧.faults d ≡ 0) disks.items) }
{
    let mut disks = Vec::with_capacity(alloc, 8)?;
    for before in 0..8u8 {
        disks.push(MemoryDisk::new(alloc))?;
    }
    Ok(disks)
}

/// What `camelot` writes for a command, over streams and disks in memory.
fn obeyed(alloc: Global, command: &Command, script: &[u8]) -> Result<Reply, NoMemory>
    requires { needs_threads command.now ≡ false }
    ensures { IfOk result (λ a. IsTold ⟦<MemoryDisk as Disk>⟧.tells ⟦<MemoryDisk as Disk>⟧.faults
        ⟦<MemoryDisk as Disk>⟧.moment ⟦<MemoryDisk as Disk>⟧.left_since
        command.now script.now a.status a.text.items) }
{
    let mut source = MemorySource::new(script.iter().copied().collect(alloc)?, Vec::new(alloc));
    let mut sink = MemorySink::new(alloc, Vec::new(alloc));
    let mut disks = disks(alloc)?;
    let mut servers = Servers {
        register: RegisterServer::new(),
        queue: QueueServer::new(alloc),
        counter: CounterServer::new(),
    };
    let status = camelot_alone(
        alloc,
        command,
        &mut source,
        &mut sink,
        &mut disks,
        &mut servers,
    );
    let text = sink.text().iter().copied().collect(alloc)?;
    Ok(Reply { status, text })
}

/// What `camscope` answers to the words behind its name.
fn of_camscope(alloc: Global, words: &[String], script: &[u8]) -> Result<Reply, NoMemory> {
    match cam_scope_args::read_words(words) {
        Some(Request::Tell(question, [])) => told(alloc, question, script),
        _ => Ok(no_form(alloc)),
    }
}

/// What `camscope` tells of a script that it reads from standard input: its status is 1 for a finding.
fn told(alloc: Global, question: Question<'_>, script: &[u8]) -> Result<Reply, NoMemory> {
    let told = tell(alloc, question, "standard input", script)?;
    Ok(Reply {
        status: u8::from(told.status == cam_teller::Status::Finding),
        text: told.text.into_bytes(),
    })
}
