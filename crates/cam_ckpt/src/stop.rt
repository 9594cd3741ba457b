// A log with checkpoints whose disk can be stopped.
use crate::ckpt::Ckpt;
use cam_disk::{Disk, StopDisk};
use cam_log::StopLog;

impl<D: Disk> StopLog for Ckpt<StopDisk<D>> {
    fn stop_after(&mut self, calls: u32) {
        self.disk.stop_after(calls);
    }

    fn clear(&mut self) {
        self.disk.clear();
    }
}
