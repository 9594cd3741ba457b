//! The nodes of a cluster before its first line, each formatted over the disk at its place.
ghost use Rattle.std.specs.Prelude.{◌≡◌, ◌+◌, ◌≤◌, [], IfErr, IfOk, OnErr, OnOk, length, map, vec_capacity, vec_len};
ghost use Rattle.cam_node.specs.Opened.{MayRead};
ghost use Rattle.cam_base.specs.Causes.{Rose};
ghost use Rattle.cam_node.specs.declared.fault.NodeFault.TheVariants.{DiskFault};
ghost use Rattle.cam_cluster.specs.Founding.{AreNewNodes, AreTakenOut, IsNewNode, fault_at};
ghost use Rattle.cam_cluster.specs.HandedBack.{AreHandedBack, AreLater, IsLater, NamesFailed};

use crate::fault::RunFault;
use crate::room::push_owned;
use cam_base::NoMemory;
use cam_ckpt::{CheckpointLog, Ckpt};
use cam_disk::{Disk, StopDisk};
use cam_log::EntryLog;
use cam_node::{FormatRefused, Node, NodeFault};
use cam_type::Objects;
use std::alloc::Global;

/// What contracts see of a node.
pub(crate) trait AsPart {
    ghost use Rattle.cam_cluster.specs.Works.{NodeFields};

    ghost part: { Self → NodeFields };
}

impl<L: CheckpointLog> AsPart for Node<L> {
    ghost use Rattle.cam_node.specs.Calls.{answers};

    ghost part = { λ node. record {
      site = record { node = answers node.core; entries = L.listed node.log.log };
      objects = node.objects;
      halted = node.log.halted;
      halted_at = node.halted_at;
      passes = L.passes node.log.log;
      reads = L.reads node.log.log;
      tells = L.tells node.log.log;
      failures = L.faults_within node.log.log;
    } };
}

/// Why no cluster was made, where the node of this number was refused.
fn fault_at(number: u8, fault: NodeFault) -> RunFault
    ensures { result ≡ fault_at number fault }
{
    match fault {
        NodeFault::DiskFault => RunFault::DiskFault(number),
        NodeFault::NoMemory => RunFault::NoMemory,
    }
}

/// An equal list of declarations.
fn copy_objects(alloc: Global, objects: &Objects) -> Result<Objects, NoMemory>
    ensures { IfOk result (λ copy. copy ≡ objects.now) }
{
    let mut copy = Objects::new(alloc);
    for declared in objects.as_slice() {
        copy.push(declared.copy()?)?;
    }
    Ok(copy)
}

/// The node of this number, to which nothing has happened, over a disk that can be stopped. The disk
/// within is handed back where it failed, or memory ran out.
fn found_one<D: Disk>(
    alloc: Global,
    number: u8,
    objects: &Objects,
    disk: D,
) -> Result<Node<Ckpt<StopDisk<D>>>, FormatRefused<D>>
    requires { (1 ≤ number) × (number ≤ 8) }
    ensures new { IfOk result (λ node. IsNewNode objects.now number
        (⟦<Node<Ckpt<StopDisk<D>>> as AsPart>⟧.part node)) }
    ensures later { IfOk result (λ node. IsLater D.tells D.faults (λ n. n.tells) (λ n. n.failures)
        disk (⟦<Node<Ckpt<StopDisk<D>>> as AsPart>⟧.part node)) }
    ensures back { IfErr result (λ refused. IsLater D.tells D.faults D.tells D.faults
        disk refused.disk) }
    ensures cause { IfErr result (λ refused. refused.fault ≡ DiskFault
        → Rose (D.faults disk) (D.faults refused.disk)) }
{
    let own = match copy_objects(alloc, objects) {
        Ok(own) => own,
        Err(NoMemory) => {
            return Err(FormatRefused {
                fault: NodeFault::NoMemory,
                disk,
            });
        }
    };
    match Node::format(alloc, number, own, StopDisk::new(disk)) {
        Ok(node) => Ok(node),
        Err(refused) => Err(FormatRefused {
            fault: refused.fault,
            disk: refused.disk.into_inner(),
        }),
    }
}

/// The nodes over all of these disks, none of which is stopped, in order, formatted from the last to the first. Where one is
/// refused all disks are back at their places.
pub(crate) fn found<D: Disk>(
    alloc: Global,
    objects: &Objects,
    disks: &mut Vec<D>,
    nodes: &mut Vec<Node<Ckpt<StopDisk<D>>>>,
) -> Result<(), RunFault>
    requires eight { vec_len disks.old ≤ 8 }
    requires none { nodes.old.items ≡ [] }
    requires room { vec_len disks.old ≤ vec_capacity nodes.old }
    ensures new { OnOk result (AreNewNodes (⟦<Node<Ckpt<StopDisk<D>>> as AsPart>⟧.part)
        objects.now 1 nodes.new.items) }
    ensures count { OnOk result (length nodes.new.items ≡ length disks.old.items) }
    ensures later { OnOk result (AreLater D.tells D.faults (λ n. n.tells) (λ n. n.failures)
        disks.old.items (map (⟦<Node<Ckpt<StopDisk<D>>> as AsPart>⟧.part) nodes.new.items)) }
    ensures empty { OnOk result (disks.new.items ≡ []) }
    ensures back { OnErr result
        (AreHandedBack D.tells D.faults disks.old.items disks.new.items) }
    ensures cause { IfErr result (NamesFailed D.faults disks.old.items disks.new.items) }
    ensures none { OnErr result (nodes.new.items ≡ []) }
    ensures capacity { (vec_capacity disks.old ≤ vec_capacity disks.new)
        × (vec_capacity nodes.old ≤ vec_capacity nodes.new) }
{
    let Some(disk) = disks.pop() else {
        return Ok(());
    };
    let number = disks.len() as u8 + 1;
    let node = match found_one(alloc, number, objects, disk) {
        Ok(node) => node,
        Err(refused) => {
            push_owned(disks, refused.disk);
            return Err(fault_at(number, refused.fault));
        }
    };
    match found(alloc, objects, disks, nodes) {
        Ok(()) => {
            push_owned(nodes, node);
            Ok(())
        }
        Err(fault) => {
            push_owned(disks, node.into_disk().into_inner());
            Err(fault)
        }
    }
}

/// Takes the disks out of all of these nodes, each to its place in a list that has room for them.
/// It takes no memory.
pub(crate) fn take_out<D: Disk>(nodes: &mut Vec<Node<Ckpt<StopDisk<D>>>>, disks: &mut Vec<D>)
    requires none { disks.old.items ≡ [] }
    requires room { vec_len nodes.old ≤ vec_capacity disks.old }
    ensures out { AreTakenOut (λ node. ⟦<Ckpt<StopDisk<D>> as EntryLog>⟧.tells node.log.log)
        (λ node. MayRead (⟦<Ckpt<StopDisk<D>> as EntryLog>⟧.opens_since node.log.log)
        (⟦<Ckpt<StopDisk<D>> as EntryLog>⟧.moment node.log.log))
        D.tells D.moment D.left_since nodes.old.items disks.new.items }
    // Each tells what it holds exactly if the node's log did, and no count of faults fell.
    ensures later { AreLater (λ n. n.tells) (λ n. n.failures) D.tells D.faults
        (map (⟦<Node<Ckpt<StopDisk<D>>> as AsPart>⟧.part) nodes.old.items) disks.new.items }
    ensures count { length disks.new.items ≡ length nodes.old.items }
    ensures capacity { vec_capacity disks.old ≤ vec_capacity disks.new }
{
    if let Some(node) = nodes.pop() {
        take_out(nodes, disks);
        push_owned(disks, node.into_disk().into_inner());
    }
}
