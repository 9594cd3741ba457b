// Disks in memory, that stop, and of files.
use crate::check::same;
use cam_disk::{Disk, DiskError, FileDisk, HostDisk, MemoryDisk, StopDisk, TellingDisk};
use std::alloc::Global;
use std::process::Abort;
use std::test::Fail;
use std::{fs, io};

/// A disk that holds "axyde".
fn five_bytes(alloc: Global) -> Result<MemoryDisk, Fail> {
    let mut disk = MemoryDisk::new(alloc);
    disk.write_at(0, b"abcd")?;
    disk.write_at(1, b"xy")?;
    disk.write_at(4, b"ef")?;
    disk.cut(5)?;
    Ok(disk)
}

/// How many bytes are read of a disk at a place where there is room for so many, and the bytes.
fn read_of(disk: &mut MemoryDisk, at: u64, room: usize) -> Result<(usize, [u8; 9]), DiskError> {
    let mut into = [0u8; 9];
    let count = disk.read(at, &mut into[..room.min(9)])?;
    Ok((count, into))
}

#[test]
fn a_read_copies_what_there_is_and_fits(rt: HostRuntime) -> Result<(), Fail> {
    let mut disk = five_bytes(rt.alloc())?;
    // The place, the room, and what is read.
    let rows: [(u64, usize, &[u8]); 6] = [
        (0, 3, b"axy"),
        (3, 3, b"de"),
        (1, 9, b"xyde"),
        (2, 0, b""),
        (5, 3, b""),
        (9, 3, b""),
    ];
    for (at, room, want) in rows {
        let (count, into) = read_of(&mut disk, at, room)?;
        same(&rt, (at, into.get(..count)), (at, Some(want)));
    }
    Ok(())
}

/// What a call answers that changes a disk.
type Changed = Result<(), DiskError>;

/// What a disk answers to a write, a cut and a sync, which follow two calls that are passed on and leave it at "dbc".
fn stopped_answers(disk: &mut StopDisk<MemoryDisk>) -> Result<(Changed, Changed, Changed), Fail> {
    disk.write_at(0, b"abc")?;
    disk.stop_after(2);
    disk.write_at(0, b"d")?;
    disk.sync()?;
    Ok((disk.write_at(1, b"e"), disk.cut(0), disk.sync()))
}

#[test]
fn a_stopped_disk_does_no_call(rt: HostRuntime) -> Result<(), Fail> {
    let failed = Err(DiskError::Failed);
    let mut into = [0u8; 4];
    let mut disk = StopDisk::new(MemoryDisk::new(rt.alloc()));
    same(&rt, stopped_answers(&mut disk)?, (failed, failed, failed));
    same(&rt, disk.read(0, &mut into), Err(DiskError::Failed));
    disk.clear();
    same(&rt, disk.read(0, &mut into), Ok(3));
    same(&rt, &into[..3], b"dbc".as_slice());
    same(&rt, disk.into_inner().read(2, &mut into), Ok(1));
    Ok(())
}

/// Leaves "axy" on a disk.
fn write_three(disk: &mut HostDisk) -> Result<(), Fail> {
    disk.cut(0)?;
    disk.write_at(0, b"abcd")?;
    disk.write_at(1, b"xy")?;
    disk.cut(3)?;
    disk.sync()?;
    Ok(())
}

/// What is read back of a disk: how many bytes behind its first and the first two of them, how many behind its third,
/// and how often it has failed.
#[derive(Clone, Copy, Debug, PartialEq, Eq)]
struct ReadBack {
    count: usize,
    first: [u8; 2],
    behind: usize,
    failures: u64,
}

/// What is read back of this disk.
fn read_back(disk: &mut HostDisk) -> Result<ReadBack, Fail> {
    let mut into = [0u8; 9];
    let count = disk.read(1, &mut into)?;
    let first = [into[0], into[1]];
    let behind = disk.read(3, &mut into)?;
    Ok(ReadBack {
        count,
        first,
        behind,
        failures: disk.failures(),
    })
}

/// What is read back of the disk of a file, once it was written.
fn written_and_read(rt: &HostRuntime, path: &str) -> Result<ReadBack, Fail> {
    let mut disk = HostDisk::File(FileDisk::open(rt, rt.alloc(), path));
    write_three(&mut disk)?;
    read_back(&mut disk)
}

/// Fails the test where what was read of a file is not this text.
fn same_text(rt: &impl Abort, read: io::Result<String>, text: &str) -> Result<(), Fail> {
    let read = read?;
    same(rt, read.as_str(), text);
    Ok(())
}

#[test]
fn a_file_keeps_what_was_written(rt: HostRuntime) -> Result<(), Fail> {
    let path = "cam_disk_kept.log";
    fs::write(&rt, path, "what another run left")?;
    let wanted = ReadBack {
        count: 2,
        first: *b"xy",
        behind: 0,
        failures: 0,
    };
    same(&rt, written_and_read(&rt, path)?, wanted);
    same_text(&rt, fs::read_to_string(&rt, path), "axy")?;
    Ok(fs::remove_file(&rt, path)?)
}

/// What a call answers, and how many failures the disk tells then.
type Told<T> = (Result<T, DiskError>, u64);

/// Leaves "abc" on a disk.
fn write_abc(disk: &mut FileDisk) -> Result<(), Fail> {
    disk.cut(0)?;
    disk.write_at(0, b"abc")?;
    Ok(())
}

/// What a disk tells of a read and of a cut.
fn read_and_cut(disk: &mut FileDisk) -> (Told<usize>, Told<()>) {
    let mut into = [0u8; 9];
    let read = (disk.read(0, &mut into), disk.failures());
    (read, (disk.cut(0), disk.failures()))
}

/// What a disk tells of a read and of a cut, once another one has made this of the "abc" in its file.
fn read_and_cut_after(
    rt: &HostRuntime,
    path: &str,
    other: &str,
) -> Result<(Told<usize>, Told<()>), Fail> {
    let mut disk = FileDisk::open(rt, rt.alloc(), path);
    write_abc(&mut disk)?;
    fs::write(rt, path, other)?;
    Ok(read_and_cut(&mut disk))
}

#[test]
fn a_file_that_another_one_writes_fails(rt: HostRuntime) -> Result<(), Fail> {
    let path = "cam_disk_other.log";
    let failed = ((Err(DiskError::Failed), 1), (Err(DiskError::Failed), 2));
    // What another one makes of "abc".
    for other in ["abd", "ab", "abcd"] {
        let seen = read_and_cut_after(&rt, path, other)?;
        same(&rt, (other, seen), (other, failed));
        same_text(&rt, fs::read_to_string(&rt, path), other)?;
    }
    Ok(fs::remove_file(&rt, path)?)
}

/// What the disk of a file answers to a read, where that is its first call.
fn first_read(rt: &HostRuntime, path: &str) -> Result<usize, DiskError> {
    let mut into = [0u8; 9];
    FileDisk::open(rt, rt.alloc(), path).read(0, &mut into)
}

/// What the disk of a file answers to a write, where that is its first call.
fn first_write(rt: &HostRuntime, path: &str) -> Result<(), DiskError> {
    FileDisk::open(rt, rt.alloc(), path).write_at(0, b"d")
}

/// What the disk of a file answers to a sync, where that is its first call.
fn first_sync(rt: &HostRuntime, path: &str) -> Result<(), DiskError> {
    FileDisk::open(rt, rt.alloc(), path).sync()
}

#[test]
fn a_file_of_another_run_is_no_log_of_this_one(rt: HostRuntime) -> Result<(), Fail> {
    let path = "cam_disk_before.log";
    fs::write(&rt, path, "abc")?;
    same(&rt, first_read(&rt, path), Err(DiskError::Failed));
    same(&rt, first_write(&rt, path), Err(DiskError::Failed));
    same(&rt, first_sync(&rt, path), Err(DiskError::Failed));
    same_text(&rt, fs::read_to_string(&rt, path), "abc")?;
    Ok(fs::remove_file(&rt, path)?)
}

#[test]
fn a_file_that_is_not_opened_fails_each_call(rt: HostRuntime) -> Result<(), Fail> {
    let mut into = [0u8; 9];
    let mut disk = FileDisk::open(&rt, rt.alloc(), "no such folder/file");
    same(&rt, disk.cut(0), Err(DiskError::Failed));
    same(&rt, disk.read(0, &mut into), Err(DiskError::Failed));
    same(&rt, disk.sync(), Err(DiskError::Failed));
    disk.spoil();
    same(&rt, disk.failures(), 3);
    Ok(())
}

/// Leaves "a" on a disk, and spoils it.
fn write_one(disk: &mut HostDisk) -> Result<(), Fail> {
    disk.write_at(0, b"ab")?;
    disk.cut(1)?;
    disk.sync()?;
    disk.spoil();
    Ok(())
}

#[test]
fn a_disk_of_the_machine_may_be_in_memory(rt: HostRuntime) -> Result<(), Fail> {
    let mut into = [0u8; 4];
    let mut disk = HostDisk::Memory(MemoryDisk::new(rt.alloc()));
    write_one(&mut disk)?;
    same(&rt, disk.failures(), 0);
    same(&rt, disk.read(0, &mut into), Ok(1));
    Ok(())
}
