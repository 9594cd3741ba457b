//! What has failed by itself in the works, and not by a line that stops a disk.
ghost use Rattle.std.specs.Prelude.{◌≡◌, ◌+◌, ◌<◌, IfErr, IfSome, OnOk, length, set, slice_get, true};
ghost use Rattle.cam_cluster.specs.Failing.{IsAfterCall, IsAfterHalt, IsAfterRestart, KnownFirst, failure, nothing_failed};
ghost use Rattle.cam_cluster.specs.declared.works.failing.Ending.TheVariants as endings;

use super::Works;
use crate::fault::RunFault;
use crate::telling::TellingLog;
use cam_node::NodeFault;

/// By what a run has to end.
#[derive(Clone, Copy, Debug)]
pub(crate) enum Ending {
    Nothing,
    /// The restart of the node of this number failed, and its disk has failed.
    Disk(u8),
    /// Memory ran out in a node that is halted since.
    Memory,
}

/// What has failed by itself so far, in a step or a restart of a node.
#[derive(Clone, Copy, Debug)]
pub(crate) struct Failed {
    /// Of each of the eight nodes whether its disk failed: its count of faults rose.
    pub(crate) disks: [bool; 8],
    /// By what the run has to end.
    pub(crate) ends: Ending,
}

/// The places with this one marked.
fn marked(disks: [bool; 8], place: usize) -> [bool; 8]
    requires { place < 8 }
    ensures { result ≡ set disks place true }
{
    let mut disks = disks;
    disks[place] = true;
    disks
}

impl Failed {
    /// Nothing has failed.
    pub(crate) fn nothing() -> Failed
        ensures { result ≡ nothing_failed }
    {
        Failed {
            disks: [false; 8],
            ends: Ending::Nothing,
        }
    }

    /// What has failed after a call of the node at a place, by the count of its disk before and after it.
    fn after_call(self, place: usize, before: u64, count: u64) -> Failed
        requires { place < 8 }
        ensures { IsAfterCall place before count self result }
    {
        if count >= before.saturating_add(1) {
            let disks = marked(self.disks, place);
            Failed {
                disks,
                ends: self.ends,
            }
        } else {
            self
        }
    }

    /// With this as what the run has to end by, unless there is something before.
    fn then(self, now: Ending) -> Failed
        ensures disks { result.disks ≡ self.disks }
        ensures ends { KnownFirst self.ends now result.ends }
    {
        let disks = self.disks;
        match self.ends {
            Ending::Nothing => Failed { disks, ends: now },
            Ending::Disk(_) | Ending::Memory => self,
        }
    }

    /// Fails if the run has to end.
    pub(crate) fn unfailing(self) -> Result<(), RunFault>
        ensures nothing { OnOk result (self.ends ≡ endings.Nothing) }
        ensures something { IfErr result (λ fault. self.ends ≡ failure fault) }
    {
        match self.ends {
            Ending::Nothing => Ok(()),
            Ending::Disk(node) => Err(RunFault::DiskFault(node)),
            Ending::Memory => Err(RunFault::NoMemory),
        }
    }

    /// What has failed where a node halted in its step.
    pub(super) fn after_halt(self, fault: NodeFault) -> Failed
        ensures { IsAfterHalt fault self result }
    {
        match fault {
            NodeFault::NoMemory => self.then(Ending::Memory),
            NodeFault::DiskFault => self,
        }
    }

    /// What has failed where the restart of the node at a place fails: its disk has, or else memory
    /// ran out.
    pub(super) fn after_restart(self, place: usize) -> Failed
        requires { place < 8 }
        ensures { IsAfterRestart place self result }
    {
        if self.disks[place] {
            self.then(Ending::Disk(place as u8 + 1))
        } else {
            self.then(Ending::Memory)
        }
    }
}

impl<L: TellingLog> Works<L> {
    /// What has failed after a call of the node at a place, by the count of its disk before it.
    pub(super) fn failed_since(&self, place: usize, before: u64) -> Failed
        requires place { place < 8 }
        requires there { place < length self.now.nodes.items }
        ensures { IfSome (slice_get self.now.nodes.items place) (λ node. IsAfterCall place
            before (L.faults_within node.log.log) self.now.failed result) }
    {
        let count = self.nodes[place].log().failures();
        self.failed.after_call(place, before, count)
    }
}
