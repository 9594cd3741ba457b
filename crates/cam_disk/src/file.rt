// A file as a disk.
ghost use Rattle.std.specs.Prelude.{◌≡◌, ◌≤◌, [], true, length, IfOk, Err, refl};
ghost use Rattle.cam_disk.specs.declared.error.DiskError.TheVariants.{Failed};
ghost use Rattle.cam_disk.specs.Disk.{FailsWithCause};
ghost use Rattle.cam_disk.specs.Images.{held_is_image, LeftSince-now, LeftSince-only};

use crate::disk::Disk;
use crate::error::DiskError;
use crate::memory::MemoryDisk;
use crate::telling::TellingDisk;
use std::alloc::Global;
use std::fs::File;
use std::io;
use std::io::{Read, Seek, SeekFrom, Write};
use std::rt::Files;

/// A file as a disk, with a copy in memory, which tells what the file is to hold.
///
/// It begins empty, whatever the file holds, and opening it changes nothing there: a cut to 0 empties the
/// file. Until then, and if another program writes to the file, a call fails that finds another size or
/// other bytes than the copy has. A file that has failed is not used again, so each
/// later call fails: what it holds then is not known.
#[derive(Drop)]
pub struct FileDisk {
    /// None if it could not be opened, or has failed.
    file: Option<File>,
    copy: MemoryDisk,
}

impl FileDisk {
    /// The file of this path, which is made if it is not there. If it cannot be opened, each call on the
    /// disk fails, from the first on.
    pub fn open<R: Files<File = File>>(rt: &R, alloc: Global, path: &str) -> FileDisk
        ensures seen { ⟦<FileDisk as Disk>⟧.seen result ≡ [] }
        ensures faults { ⟦<FileDisk as Disk>⟧.faults result ≡ 0 }
    {
        let opened = File::options()
            .read(true)
            .write(true)
            .create(true)
            .open(rt, path);
        FileDisk {
            file: opened.ok(),
            copy: MemoryDisk::new(alloc),
        }
    }

    /// Whether the file is there, and as long as the copy.
    fn is_whole(&mut self) -> bool
        ensures { self.new.copy ≡ self.old.copy }
    {
        match &mut self.file {
            Some(file) => match file.seek(SeekFrom::End(0)) {
                Ok(size) => size == self.copy.size(),
                Err(_) => false,
            },
            None => false,
        }
    }

    /// Counts a fault of the file, which is not used again.
    fn fail<T: Drop>(&mut self) -> Result<T, DiskError>
        ensures failed { result ≡ Err Failed }
        ensures cause { FailsWithCause self.old.copy.faults self.new.copy.faults result }
        ensures bytes { self.new.copy.bytes ≡ self.old.copy.bytes }
        ensures calls { self.new.copy.calls ≡ self.old.copy.calls }
    {
        self.file = None;
        self.copy.count_fault();
        Err(DiskError::Failed)
    }
}

/// Copies the bytes from a place on, as many as there are and fit. A short read is followed by another,
/// and so is one that was interrupted.
fn read_from(file: &mut File, at: u64, into: &mut [u8]) -> io::Result<usize>
    ensures { IfOk result (λ n. n ≤ length into.new) }
{
    let after = file.seek(SeekFrom::End(0))?.saturating_sub(at);
    let count = (into.len() as u64).min(after) as usize;
    file.seek(SeekFrom::Start(at))?;
    file.read_exact(&mut into[..count])?;
    Ok(count)
}

fn write_to(file: &mut File, at: u64, bytes: &[u8]) -> io::Result<()> {
    file.seek(SeekFrom::Start(at))?;
    file.write_all(bytes)
}

impl Disk for FileDisk {
    ghost tells = { λ _. true };

    ghost seen = { λ disk. ⟦<MemoryDisk as Disk>⟧.seen disk.copy };

    ghost may_leave = { λ disk. ⟦<MemoryDisk as Disk>⟧.may_leave disk.copy };

    ghost moment = { λ disk. ⟦<MemoryDisk as Disk>⟧.moment disk.copy };

    ghost left_since = { λ disk. ⟦<MemoryDisk as Disk>⟧.left_since disk.copy };

    ghost faults = { λ disk. ⟦<MemoryDisk as Disk>⟧.faults disk.copy };

    ghost faults_within = { λ disk. ⟦<MemoryDisk as Disk>⟧.faults disk.copy };

    ghost kept = { λ disk h. held_is_image disk.copy.calls.items disk.copy.held disk.copy.placed };

    ghost counts_now = { λ disk t c h. LeftSince-now disk.copy.calls.items t c };

    ghost only_now = { λ disk c h. LeftSince-only disk.copy.calls.items c };

    fn read(&mut self, at: u64, into: &mut [u8]) -> Result<usize, DiskError> {
        let given = match &mut self.file {
            Some(file) => read_from(file, at, into).ok(),
            None => None,
        };
        match given {
            Some(count) if self.copy.gives(at, into.len(), &into[..count]) => Ok(count),
            _ => self.fail(),
        }
    }

    fn write_at(&mut self, at: u64, bytes: &[u8]) -> Result<(), DiskError> {
        if !self.is_whole() {
            return self.fail();
        }
        self.copy.write_at(at, bytes)?;
        let written = match &mut self.file {
            Some(file) => write_to(file, at, bytes).is_ok(),
            None => false,
        };
        if written { Ok(()) } else { self.fail() }
    }

    fn cut(&mut self, size: u64) -> Result<(), DiskError> {
        self.copy.cut(size)?;
        match &self.file {
            Some(file) if file.set_len(size).is_ok() => Ok(()),
            _ => self.fail(),
        }
    }

    fn sync(&mut self) -> Result<(), DiskError> {
        if !self.is_whole() {
            return self.fail();
        }
        match &self.file {
            Some(file) if file.sync_all().is_ok() => self.copy.sync(),
            _ => self.fail(),
        }
    }

    fn spoil(&mut self)
        ensures same { self.new ≡ self.old }
    {}
}

impl TellingDisk for FileDisk {
    ghost always = { λ _. refl };

    fn failures(&self) -> u64 {
        self.copy.failures()
    }
}
