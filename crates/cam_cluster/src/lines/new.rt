//! The lines of a script before its first.
ghost use Rattle.std.specs.Prelude.{◌≡◌, ◌≤◌, [], IfErr, IfOk, OnErr, OnOk, length, vec_capacity};
ghost use Rattle.cam_script.specs.Law.{IsScript};
ghost use Rattle.cam_cluster.specs.Between.{KeepsBetween};
ghost use Rattle.cam_cluster.specs.Failing.{nothing_failed};
ghost use Rattle.cam_cluster.specs.Founding.{before_first};
ghost use Rattle.cam_cluster.specs.HandedBack.{AreHandedBack, AreLater, NamesFailed};

use super::{AsLines, Lines};
use crate::fault::RunFault;
use crate::founding::found;
use crate::works::Works;
use cam_ckpt::Ckpt;
use cam_disk::{Disk, StopDisk};
use cam_script::Script;
use std::alloc::Global;

impl<D: Disk> Lines<Ckpt<StopDisk<D>>> {
    /// The lines of a script before its first, over a disk for each node, which is formatted,
    /// whatever it held. The disks are taken from their list, which keeps its room; where a disk
    /// fails or memory runs out as many are back in it.
    pub(crate) fn new(
        alloc: Global,
        script: &Script,
        disks: &mut Vec<D>,
    ) -> Result<Lines<Ckpt<StopDisk<D>>>, RunFault>
        requires script { IsScript script.now }
        requires one_each { length disks.old.items ≡ script.now.nodes }
        ensures before_first { IfOk result (λ lines. KeepsBetween (before_first script.now)
            (⟦<Lines<Ckpt<StopDisk<D>>> as AsLines>⟧.fields lines)
            (⟦<Lines<Ckpt<StopDisk<D>>> as AsLines>⟧.may_read lines)) }
        ensures count { IfOk result
            (λ lines. length lines.works.nodes.items ≡ length disks.old.items) }
        // Each node's disk tells what it holds exactly if it did, and no count of faults fell.
        ensures later { IfOk result (λ lines. AreLater D.tells D.faults (λ n. n.tells)
            (λ n. n.failures) disks.old.items
            (⟦<Lines<Ckpt<StopDisk<D>>> as AsLines>⟧.fields lines).works.nodes) }
        ensures nothing { IfOk result (λ lines. lines.works.failed ≡ nothing_failed) }
        ensures empty { OnOk result (disks.new.items ≡ []) }
        ensures back { OnErr result
            (AreHandedBack D.tells D.faults disks.old.items disks.new.items) }
        ensures cause { IfErr result (NamesFailed D.faults disks.old.items disks.new.items) }
        ensures capacity { vec_capacity disks.old ≤ vec_capacity disks.new }
    {
        let mut nodes = match Vec::with_capacity(alloc, disks.len()) {
            Ok(nodes) => nodes,
            Err(_) => return Err(RunFault::NoMemory),
        };
        match found(alloc, &script.objects, disks, &mut nodes) {
            Ok(()) => Ok(Lines {
                works: Works::new(alloc, nodes),
                bound: Vec::new(alloc),
            }),
            Err(fault) => Err(fault),
        }
    }
}
