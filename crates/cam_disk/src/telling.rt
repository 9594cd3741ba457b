// Disks that always tell what they hold.
ghost use Rattle.std.specs.Prelude.{◌≡◌, IsTrue};

use crate::disk::Disk;

/// A disk that always tells what it holds, and how often it has failed.
pub trait TellingDisk: Disk {
    /// How often a call on it has failed.
    fn failures(&self) -> u64
        ensures { result ≡ Self.faults self.now };

    ghost always: { (disk : Self) → IsTrue (Self.tells disk) };
}
