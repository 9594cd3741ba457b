// Logs: their bytes, where bytes are none, and appends that are stopped.
ghost use Rattle.std.specs.Prelude.{IfOk, IsFalse};

use crate::check::same;
use cam_disk::{Disk, MemoryDisk, StopDisk};
use cam_log::{Entries, Entry, EntryLog, Log, LogFault, StopLog};
use std::alloc::Global;
use std::test::Fail;

/// A log of the one entry 01 00000002.
const IMAGE: [u8; 23] = [
    0x43, 0x41, 0x4d, 0x45, 0x4c, 0x4f, 0x54, 0x0a, 1, 0, 0, 0, 0, 0, 0, 0, 5, 1, 0, 0, 0, 2, 0,
];

/// A log of the entries `ab` and `c`.
const TWO: [u8; 30] = *b"CAMELOT\n\x01\0\0\0\0\0\0\0\x02ab\x01\0\0\0\0\0\0\0\x01c\0";

/// From which place on a beginning of it is no log, by its length: the header is not whole, a gate is
/// missing, or a length or what it counts is not whole.
const PLACES: [u64; 30] = [
    0, 1, 2, 3, 4, 5, 6, 7, 8, 9, 9, 9, 9, 9, 9, 9, 9, 9, 9, 19, 20, 20, 20, 20, 20, 20, 20, 20,
    20, 29,
];

/// A log without entries, over a disk that can be stopped.
pub(super) fn formatted(alloc: Global) -> Result<Log<StopDisk<MemoryDisk>>, Fail>
    ensures { IfOk result (λ log. IsFalse (⟦<Log<StopDisk<MemoryDisk>> as EntryLog>⟧.broken log)) }
{
    match Log::format(alloc, StopDisk::new(MemoryDisk::new(alloc))) {
        Ok(log) => Ok(log),
        Err(refused) => Err(refused.fault.into()),
    }
}

/// The log on a disk.
pub(super) fn opened(alloc: Global, disk: MemoryDisk) -> Result<Log<MemoryDisk>, Fail>
    ensures { IfOk result (λ log. IsFalse (⟦<Log<MemoryDisk> as EntryLog>⟧.broken log)) }
{
    match Log::open(alloc, disk) {
        Ok(log) => Ok(log),
        Err(refused) => Err(refused.fault.into()),
    }
}

/// A disk that holds these bytes.
fn disk_of(alloc: Global, bytes: &[u8]) -> Result<MemoryDisk, Fail> {
    let mut disk = MemoryDisk::new(alloc);
    disk.write_at(0, bytes)?;
    Ok(disk)
}

/// Why these bytes are no log. None where they are one.
fn fault_of(alloc: Global, bytes: &[u8]) -> Result<Option<LogFault>, Fail> {
    match Log::open(alloc, disk_of(alloc, bytes)?) {
        Ok(_) => Ok(None),
        Err(refused) => Ok(Some(refused.fault)),
    }
}

/// How many entries the log on a disk has, and whether it is broken.
fn seen_on(alloc: Global, disk: MemoryDisk) -> Result<(usize, bool), Fail> {
    let log = opened(alloc, disk)?;
    Ok((log.entries().len(), log.is_broken()))
}

/// The bytes of the entry at a place. None where there are fewer.
fn bytes_of(entries: &Entries, place: usize) -> Option<&[u8]> {
    entries.get(place).map(Entry::as_slice)
}

/// The disk of a log to which one entry was appended.
fn disk_after_an_append(alloc: Global) -> Result<MemoryDisk, Fail> {
    let mut log = formatted(alloc)?;
    log.append(&[1, 0, 0, 0, 2])?;
    Ok(log.into_disk().into_inner())
}

#[test]
fn an_append_leaves_these_bytes(rt: HostRuntime) -> Result<(), Fail> {
    let mut into = [0u8; 30];
    let mut disk = disk_after_an_append(rt.alloc())?;
    same(&rt, disk.read(0, &mut into), Ok(23));
    same(&rt, &into[..23], IMAGE.as_slice());
    same(&rt, seen_on(rt.alloc(), disk)?, (1, false));
    Ok(())
}

#[test]
fn each_beginning_of_a_log_is_refused_at_its_place(rt: HostRuntime) -> Result<(), Fail> {
    let alloc = rt.alloc();
    for (length, at) in PLACES.iter().enumerate() {
        let fault = fault_of(alloc, TWO.get(..length).unwrap_or(&TWO))?;
        same(&rt, (length, fault), (length, Some(LogFault::NotALog(*at))));
    }
    let fault = fault_of(alloc, &IMAGE[..22])?;
    same(&rt, fault, Some(LogFault::NotALog(22)));
    Ok(())
}

#[test]
fn the_whole_of_a_log_is_opened(rt: HostRuntime) -> Result<(), Fail> {
    let disk = disk_of(rt.alloc(), &TWO)?;
    let log = opened(rt.alloc(), disk)?;
    same(&rt, log.entries().len(), 2);
    same(&rt, bytes_of(log.entries(), 0), Some(b"ab".as_slice()));
    same(&rt, bytes_of(log.entries(), 1), Some(b"c".as_slice()));
    Ok(())
}

/// What is seen of an append that is stopped: its answer, whether the log is broken then, and how many entries are
/// listed and are found again.
#[derive(Clone, Copy, Debug, PartialEq, Eq)]
struct Stopped {
    answer: Result<(), LogFault>,
    is_broken: bool,
    listed: usize,
    found: usize,
}

/// What is seen of an append where these device calls are passed on.
fn stopped_append(alloc: Global, calls: u32) -> Result<Stopped, Fail> {
    let mut log = formatted(alloc)?;
    log.stop_after(calls);
    let answer = log.append(&[1, 0, 0, 0, 2]);
    let is_broken = log.is_broken();
    let listed = log.entries().len();
    let (found, _) = seen_on(alloc, log.into_disk().into_inner())?;
    Ok(Stopped {
        answer,
        is_broken,
        listed,
        found,
    })
}

#[test]
fn an_append_is_stopped_at_each_device_call(rt: HostRuntime) -> Result<(), Fail> {
    let stopped = Err(LogFault::DiskFault);
    // The calls that are passed on, the answer, and the entries that are listed and that are found again.
    let rows = [
        (0, stopped, 0, 0),
        (1, stopped, 0, 0),
        (2, stopped, 0, 0),
        (3, stopped, 0, 1),
        (4, Ok(()), 1, 1),
    ];
    for (calls, answer, listed, found) in rows {
        let wanted = Stopped {
            answer,
            is_broken: answer.is_err(),
            listed,
            found,
        };
        let seen = stopped_append(rt.alloc(), calls)?;
        same(&rt, (calls, seen), (calls, wanted));
    }
    Ok(())
}

#[test]
fn a_log_whose_disk_was_cleared_appends(rt: HostRuntime) -> Result<(), Fail> {
    let mut log = formatted(rt.alloc())?;
    log.stop_after(0);
    log.clear();
    log.append(b"ab")?;
    same(&rt, log.entries().len(), 1);
    same(&rt, bytes_of(log.entries(), 0), Some(b"ab".as_slice()));
    Ok(())
}
