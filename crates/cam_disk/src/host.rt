// A disk of this machine.
ghost use Rattle.std.specs.Prelude.{true, refl};

use crate::disk::Disk;
use crate::error::DiskError;
use crate::file::FileDisk;
use crate::memory::MemoryDisk;
use crate::telling::TellingDisk;

/// A disk of this machine: in memory, or a file. It tells what it holds.
#[derive(Drop)]
pub enum HostDisk {
    Memory(MemoryDisk),
    File(FileDisk),
}

impl Disk for HostDisk {
    ghost use Rattle.cam_disk.specs.Host.{in_memory};
    ghost use Rattle.cam_disk.specs.Images.{held_is_image, LeftSince-now, LeftSince-only};

    ghost tells = { λ _. true };

    ghost seen = { λ disk. ⟦<MemoryDisk as Disk>⟧.seen (in_memory disk) };

    ghost may_leave = { λ disk. ⟦<MemoryDisk as Disk>⟧.may_leave (in_memory disk) };

    ghost moment = { λ disk. ⟦<MemoryDisk as Disk>⟧.moment (in_memory disk) };

    ghost left_since = { λ disk. ⟦<MemoryDisk as Disk>⟧.left_since (in_memory disk) };

    ghost faults = { λ disk. ⟦<MemoryDisk as Disk>⟧.faults (in_memory disk) };

    ghost faults_within = { λ disk. ⟦<MemoryDisk as Disk>⟧.faults (in_memory disk) };

    ghost kept = { λ disk h. let m = in_memory disk in held_is_image m.calls.items m.held m.placed };

    ghost counts_now = { λ disk t c h. LeftSince-now (in_memory disk).calls.items t c };

    ghost only_now = { λ disk c h. LeftSince-only (in_memory disk).calls.items c };

    fn read(&mut self, at: u64, into: &mut [u8]) -> Result<usize, DiskError> {
        match self {
            HostDisk::Memory(disk) => disk.read(at, into),
            HostDisk::File(disk) => disk.read(at, into),
        }
    }

    fn write_at(&mut self, at: u64, bytes: &[u8]) -> Result<(), DiskError> {
        match self {
            HostDisk::Memory(disk) => disk.write_at(at, bytes),
            HostDisk::File(disk) => disk.write_at(at, bytes),
        }
    }

    fn cut(&mut self, size: u64) -> Result<(), DiskError> {
        match self {
            HostDisk::Memory(disk) => disk.cut(size),
            HostDisk::File(disk) => disk.cut(size),
        }
    }

    fn sync(&mut self) -> Result<(), DiskError> {
        match self {
            HostDisk::Memory(disk) => disk.sync(),
            HostDisk::File(disk) => disk.sync(),
        }
    }

    fn spoil(&mut self) {
        match self {
            HostDisk::Memory(disk) => disk.spoil(),
            HostDisk::File(disk) => disk.spoil(),
        }
    }
}

impl TellingDisk for HostDisk {
    ghost always = { λ _. refl };

    fn failures(&self) -> u64 {
        match self {
            HostDisk::Memory(disk) => disk.failures(),
            HostDisk::File(disk) => disk.failures(),
        }
    }
}
