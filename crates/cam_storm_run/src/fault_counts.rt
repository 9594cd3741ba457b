//! Which of the four disks failed in a storm: those whose count of faults rose in it.
ghost use Rattle.std.specs.Prelude.{◌≡◌, ◌≤◌, ℕ, IsTrue, length, map, take};
ghost use Rattle.cam_cluster.specs.HandedBack.{FindsFailed};

use cam_disk::TellingDisk;

/// How often the disk of each node had failed before a storm, by the place of the node.
#[derive(Clone, Copy, Debug)]
pub(crate) struct FaultCounts {
    counts: [u64; 4],
}

impl FaultCounts {
    /// How often each of these disks has failed so far. It takes no memory.
    pub(crate) fn of<D: TellingDisk>(disks: &[D]) -> FaultCounts
        requires { length disks.now ≤ 4 }
        ensures counts { take (length disks.now) result.counts ≡ map D.faults disks.now }
        ensures always { (disk : D) → IsTrue (D.tells disk) }
    {
        let mut counts = [0; 4];
        for (place, disk) in disks.iter().enumerate() {
            counts[place] = disk.failures();
        }
        FaultCounts { counts }
    }

    /// The first node whose disk has failed since, in order of their numbers. A count at its type's
    /// end counts as one that rose.
    pub(crate) fn first_failed<D: TellingDisk>(&self, disks: &[D]) -> Option<u8>
        requires { length disks.now ≤ 4 }
        ensures { FindsFailed (λ (count : ℕ). count) D.faults self.now.counts disks.now result }
    {
        for (place, disk) in disks.iter().enumerate() {
            if disk.failures() >= self.counts[place].saturating_add(1) {
                return Some(place as u8 + 1);
            }
        }
        None
    }
}
