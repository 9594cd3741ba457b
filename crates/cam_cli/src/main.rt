//! The program `camelot`: it hands the words after its name, the standard streams, eight disks and the data servers to the top call of
//! `cam_run`, which reads a script, runs it over the disks, and writes the report of the run; or it lets threads run a storm over them.
#![tactic(auto)]

ghost use Rattle.std.specs.Prelude.{◌≡◌, IfOk, length, map, string_bytes};
ghost use Rattle.cam_cli.specs.Places.{asks_for_files, without_files, IsPlaceFor};

use cam_base::NoMemory;
use cam_cluster::Servers;
use cam_disk::{FileDisk, HostDisk, MemoryDisk};
use cam_io::{StdSink, StdSource};
use cam_run::{Status, camelot, uses_disks};
use cam_type::{CounterServer, QueueServer, RegisterServer};
use std::env;
use std::fs::File;
use std::io::ErrorKind;
use std::os::fd::AsRawFd;
use std::process::ExitCode;

/// The words after the program's name. Words that are no text are none: they are no form either.
fn words(rt: &HostRuntime) -> Result<Vec<String>, NoMemory> {
    let mut words = Vec::new(rt.alloc());
    match env::args(rt) {
        Ok(args) => {
            for word in args.skip(1) {
                words.push(word)?;
            }
        }
        Err(error) if error.kind() == ErrorKind::OutOfMemory => return Err(NoMemory),
        Err(_) => {}
    }
    Ok(words)
}

/// Where the disks are.
#[derive(Clone, Copy, Debug)]
enum Place {
    Memory,
    /// The files `cam1.log` to `cam8.log` of the current folder.
    Files,
    /// Files without a name, which cannot be opened: each call on such a disk fails.
    Nowhere,
}

/// Opens a folder under the number of each standard stream that is closed, and holds it, so that no disk
/// gets that number. A folder gives no bytes and takes none, so the stream fails as before. If no folder
/// can be opened, no disk is to be opened either.
fn keep_off_streams(rt: &HostRuntime, held: &mut Vec<File>) -> Result<Place, NoMemory> {
    for _ in 0..3 {
        let Ok(folder) = File::open(rt, "/") else {
            return Ok(Place::Nowhere);
        };
        if folder.as_raw_fd() > 2 {
            break;
        }
        held.push(folder)?;
    }
    Ok(Place::Files)
}

/// Whether the last word is `files`.
fn asks_for_files(words: &[String]) -> bool
    ensures { result ≡ asks_for_files (map string_bytes words.now) }
{
    match words.last() {
        Some(last) => last.as_str() == "files",
        None => false,
    }
}

/// Takes the word `files` off the end, whatever stands before it, and tells whether it stood there.
fn take_files(words: &mut Vec<String>) -> bool
    ensures asks { result ≡ asks_for_files (map string_bytes words.old.items) }
    ensures rest { map string_bytes words.new.items ≡ without_files (map string_bytes words.old.items) }
{
    let asks = asks_for_files(words);
    if asks {
        words.pop();
    }
    asks
}

/// Where the disks are to be, by the words, of which a word `files` at the end is taken off: in files if it stood there and the other
/// words go over disks, and in memory otherwise.
fn take_place(
    rt: &HostRuntime,
    words: &mut Vec<String>,
    held: &mut Vec<File>,
) -> Result<Place, NoMemory>
    ensures rest { map string_bytes words.new.items ≡ without_files (map string_bytes words.old.items) }
    ensures place { IfOk result (IsPlaceFor (map string_bytes words.old.items)) }
{
    if take_files(words) && uses_disks(rt.alloc(), words)? {
        keep_off_streams(rt, held)
    } else {
        Ok(Place::Memory)
    }
}

/// The disk of the node of this number.
fn disk(rt: &HostRuntime, place: Place, number: u8) -> Result<HostDisk, NoMemory> {
    match place {
        Place::Memory => Ok(HostDisk::Memory(MemoryDisk::new(rt.alloc()))),
        Place::Files => {
            let path = format!(in rt.alloc(); "cam{number}.log")?;
            Ok(HostDisk::File(FileDisk::open(rt, rt.alloc(), &path)))
        }
        Place::Nowhere => Ok(HostDisk::File(FileDisk::open(rt, rt.alloc(), ""))),
    }
}

/// Eight disks: as many as a script may have nodes.
fn disks(rt: &HostRuntime, place: Place) -> Result<Vec<HostDisk>, NoMemory>
    ensures { IfOk result (λ disks. length disks.items ≡ 8) }
{
    let mut disks = Vec::with_capacity(rt.alloc(), 8)?;
    for before in 0..8u8 {
        disks.push(disk(rt, place, before + 1)?)?;
    }
    Ok(disks)
}

/// The disks of words, from which `files` is taken off.
fn disks_for(
    rt: &HostRuntime,
    words: &mut Vec<String>,
    held: &mut Vec<File>,
) -> Result<Vec<HostDisk>, NoMemory>
    ensures { IfOk result (λ disks. length disks.items ≡ 8) }
{
    let place = take_place(rt, words, held)?;
    disks(rt, place)
}

fn main(rt: HostRuntime) -> ExitCode {
    let out_of_memory = ExitCode::from(Status::NoMemory.number());
    let Ok(mut words) = words(&rt) else {
        return out_of_memory;
    };
    let mut held = Vec::new(rt.alloc());
    let Ok(mut disks) = disks_for(&rt, &mut words, &mut held) else {
        return out_of_memory;
    };
    let mut servers = Servers {
        register: RegisterServer::new(),
        queue: QueueServer::new(rt.alloc()),
        counter: CounterServer::new(),
    };
    let mut source = StdSource::new(rt.stdin());
    let mut sink = StdSink::new(rt.stdout());
    let status = camelot(
        &rt,
        rt.alloc(),
        &words,
        &mut source,
        &mut sink,
        &mut disks,
        &mut servers,
    );
    ExitCode::from(status)
}
