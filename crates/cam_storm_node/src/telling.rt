//! Logs over disks that always tell what they hold and how often they have failed.
ghost use Rattle.std.specs.Prelude.{◌≡◌, IsTrue};

use cam_ckpt::{CheckpointLog, Ckpt};
use cam_disk::{StopDisk, TellingDisk};

/// A log whose disk always tells what it holds.
pub trait TellingLog: CheckpointLog {
    /// How often a call that its disk did has failed.
    fn failures(&self) -> u64
        ensures { result ≡ Self.faults_within self.now };

    ghost always: { (log : Self) → IsTrue (Self.tells log) };
}

impl<D: TellingDisk> TellingLog for Ckpt<StopDisk<D>> {
    ghost always = { λ log. D.always _ };

    fn failures(&self) -> u64 {
        self.disk().inner().failures()
    }
}
