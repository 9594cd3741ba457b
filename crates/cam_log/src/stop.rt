// A log whose disk can be stopped.
ghost use Rattle.std.specs.Prelude.{◌≡◌, Some, None};
ghost use Rattle.cam_log.specs.Moments.{Stays};

use crate::entry_log::EntryLog;
use crate::log::Log;
use cam_disk::{Disk, StopDisk};

/// A log whose disk can be stopped, as a machine that loses its power: from then on the disk does no call,
/// and each fails. Neither call touches the disk or the entries.
pub trait StopLog: EntryLog {
    /// Lets the disk do this many calls more, and fail each later one without doing it.
    fn stop_after(&mut self, calls: u32)
        ensures passes { Self.passes self.new ≡ Some calls }
        ensures reads { Self.reads self.new ≡ Self.reads self.old }
        ensures faults_within { Self.faults_within self.new ≡ Self.faults_within self.old }
        ensures listed { Self.listed self.new ≡ Self.listed self.old }
        ensures generation { Self.generation self.new ≡ Self.generation self.old }
        ensures broken { Self.broken self.new ≡ Self.broken self.old }
        ensures tells { Self.tells self.new ≡ Self.tells self.old }
        ensures stays { Stays (Self.moment self.old) (Self.moment self.new)
            (Self.opens_since self.old) (Self.opens_since self.new)
            (Self.seen self.old) (Self.seen self.new)
            (Self.faults self.old) (Self.faults self.new) };

    /// Lets the disk do all calls again.
    fn clear(&mut self)
        ensures passes { Self.passes self.new ≡ None }
        ensures reads { Self.reads self.new ≡ Self.reads self.old }
        ensures faults_within { Self.faults_within self.new ≡ Self.faults_within self.old }
        ensures listed { Self.listed self.new ≡ Self.listed self.old }
        ensures generation { Self.generation self.new ≡ Self.generation self.old }
        ensures broken { Self.broken self.new ≡ Self.broken self.old }
        ensures tells { Self.tells self.new ≡ Self.tells self.old }
        ensures stays { Stays (Self.moment self.old) (Self.moment self.new)
            (Self.opens_since self.old) (Self.opens_since self.new)
            (Self.seen self.old) (Self.seen self.new)
            (Self.faults self.old) (Self.faults self.new) };
}

impl<D: Disk> StopLog for Log<StopDisk<D>> {
    fn stop_after(&mut self, calls: u32) {
        self.disk.stop_after(calls);
    }

    fn clear(&mut self) {
        self.disk.clear();
    }
}
