//! The nodes of a storm, each over the disk at its place.
ghost use Rattle.std.specs.Prelude.{◌≡◌, ◌≤◌, [], IfErr, IfOk, OnErr, OnOk, length, map, vec_capacity, vec_len};
ghost use Rattle.cam_storm_node.specs.Playing.{IsCore};
ghost use Rattle.cam_storm_run.specs.Disks.{AreNew, AreOut, HaveFailedSince};

use cam_base::NoMemory;
use cam_cluster::push_owned;
use cam_disk::TellingDisk;
use cam_gen::Storm;
use cam_storm_node::{AsStormNode, DiskStormNode, Storming};
use std::alloc::Global;

/// The node of this number, to which nothing has happened, over a disk that is formatted. If the disk
/// fails or memory runs out, the disk is handed back.
fn found_one<D: TellingDisk, W: Storming>(
    alloc: Global,
    storm: &Storm,
    number: u8,
    disk: D,
) -> Result<Box<DiskStormNode<D, W>>, D>
    requires number { (1 ≤ number) × (number ≤ 4) }
    requires few { storm.now.actions ≤ 64 }
    requires words { storm.now ≡ W.words }
    requires floor { W.failures number ≤ D.faults disk }
    ensures new { IfOk result (λ core. IsCore W.words W.failures
        (⟦<DiskStormNode<D, W> as AsStormNode>⟧.fields core.value) number []) }
    ensures back { IfErr result (λ disk. W.failures number ≤ D.faults disk) }
{
    match DiskStormNode::new(alloc, storm, number, disk) {
        Ok(node) => match Box::new(alloc, node) {
            Ok(core) => Ok(core),
            Err(refused) => Err(refused.value.into_disk()),
        },
        Err(refused) => Err(refused.disk),
    }
}

/// The disk of a node.
fn unboxed_disk<D: TellingDisk, W: Storming>(core: Box<DiskStormNode<D, W>>) -> D
    ensures { D.faults result
        ≡ (⟦<DiskStormNode<D, W> as AsStormNode>⟧.fields core.value).faults }
{
    Box::into_inner(core).into_disk()
}

/// The nodes over all of these disks, in order, formatted from the last to the first. If a disk fails
/// or memory runs out, as many disks are back.
pub(crate) fn found<D: TellingDisk, W: Storming>(
    alloc: Global,
    storm: &Storm,
    disks: &mut Vec<D>,
    cores: &mut Vec<Box<DiskStormNode<D, W>>>,
) -> Result<(), NoMemory>
    requires four { vec_len disks.old ≤ 4 }
    requires none { cores.old.items ≡ [] }
    requires room { vec_len disks.old ≤ vec_capacity cores.old }
    requires few { storm.now.actions ≤ 64 }
    requires words { storm.now ≡ W.words }
    requires floor { HaveFailedSince D.faults W.failures 1 disks.old.items }
    ensures new { OnOk result (AreNew (λ core s. IsCore W.words W.failures
        (⟦<DiskStormNode<D, W> as AsStormNode>⟧.fields core.value) s []) 1 cores.new.items) }
    ensures count { OnOk result (length cores.new.items ≡ length disks.old.items) }
    ensures empty { OnOk result (disks.new.items ≡ []) }
    ensures floor { OnErr result (HaveFailedSince D.faults W.failures 1 disks.new.items) }
    ensures back { OnErr result (length disks.new.items ≡ length disks.old.items) }
    ensures capacity { (vec_capacity disks.old ≤ vec_capacity disks.new)
        × (vec_capacity cores.old ≤ vec_capacity cores.new) }
{
    let Some(disk) = disks.pop() else {
        return Ok(());
    };
    let number = disks.len() as u8 + 1;
    let core = match found_one(alloc, storm, number, disk) {
        Ok(core) => core,
        Err(disk) => {
            push_owned(disks, disk);
            return Err(NoMemory);
        }
    };
    match found(alloc, storm, disks, cores) {
        Ok(()) => {
            push_owned(cores, core);
            Ok(())
        }
        Err(NoMemory) => {
            push_owned(disks, unboxed_disk(core));
            Err(NoMemory)
        }
    }
}

/// Takes the disks out of all of these nodes, each to its place in a list that has room for them. It
/// takes no memory.
pub(crate) fn take_out<D: TellingDisk, W: Storming>(
    cores: &mut Vec<DiskStormNode<D, W>>,
    disks: &mut Vec<D>,
)
    requires none { disks.old.items ≡ [] }
    requires room { vec_len cores.old ≤ vec_capacity disks.old }
    ensures out { AreOut (⟦<DiskStormNode<D, W> as AsStormNode>⟧.fields)
        D.faults D.moment D.left_since cores.old.items disks.new.items }
    ensures count { length disks.new.items ≡ length cores.old.items }
    ensures capacity { vec_capacity disks.old ≤ vec_capacity disks.new }
{
    if let Some(core) = cores.pop() {
        take_out(cores, disks);
        push_owned(disks, core.into_disk());
    }
}
