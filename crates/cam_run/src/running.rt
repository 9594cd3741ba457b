//! The run of a script over the first of the disks that are handed in, one for each of its nodes.
ghost use Rattle.std.specs.Prelude.{◌≡◌, ◌≤◌, ◌+◌, ◌++◌, IfErr, IfOk, OnErr, OnOk, drop, length, reverse, take, vec_capacity, vec_len};
ghost use Rattle.cam_cluster.specs.HandedBack.{AreHandedBack};
ghost use Rattle.cam_script.specs.Law.{IsScript};
ghost use Rattle.cam_run.specs.Disks.{FailedAt, IsNamed, IsRunOver, disks_left};

use cam_base::NoMemory;
use cam_cluster::{RunFault, Servers, push_owned, run_script};
use cam_disk::TellingDisk;
use cam_event::RunRecord;
use cam_script::Script;
use cam_type::DataType;
use std::alloc::Global;

/// Runs the script, each node over the disk at its place, which is formatted. Further disks stay as they are.
pub(crate) fn run<D: TellingDisk, R: DataType, Q: DataType, C: DataType>(
    alloc: Global,
    script: &Script,
    disks: &mut Vec<D>,
    servers: &mut Servers<R, Q, C>,
) -> Result<RunRecord, RunFault>
    requires script { IsScript script.now }
    requires enough { script.now.nodes ≤ length disks.old.items }
    ensures run { IfOk result (IsRunOver script.now
        (disks_left D.tells D.faults D.moment D.left_since disks.old.items disks.new.items)) }
    ensures cause { IfErr result (IsNamed script.now.nodes
        (FailedAt D.faults disks.old.items disks.new.items)) }
    ensures back { AreHandedBack D.tells D.faults disks.old.items disks.new.items }
    ensures others { drop script.now.nodes disks.new.items
        ≡ drop script.now.nodes disks.old.items }
{
    let mut further = set_aside(alloc, disks, script.nodes as usize)?;
    let run = run_script(alloc, script, disks, servers);
    put_back(disks, &mut further);
    run
}

/// Takes all but the first so many disks off their list, the last first. Where memory runs out they stay.
pub(crate) fn set_aside<D: Drop>(
    alloc: Global,
    disks: &mut Vec<D>,
    first: usize,
) -> Result<Vec<D>, NoMemory>
    requires { first ≤ vec_len disks.old }
    ensures first { OnOk result (disks.new.items ≡ take first disks.old.items) }
    ensures further { IfOk result
        (λ further. reverse further.items ≡ drop first disks.old.items) }
    ensures room { IfOk result
        (λ further. first + vec_len further ≤ vec_capacity disks.new) }
    ensures stay { OnErr result (disks.new ≡ disks.old) }
{
    let mut further = Vec::with_capacity(alloc, disks.len() - first)?;
    while disks.len() > first {
        if let Some(disk) = disks.pop() {
            push_owned(&mut further, disk);
        }
    }
    Ok(further)
}

/// Puts disks that were set aside back after the others. It takes no memory.
pub(crate) fn put_back<D: Drop>(disks: &mut Vec<D>, further: &mut Vec<D>)
    requires { vec_len disks.old + vec_len further.old ≤ vec_capacity disks.old }
    ensures { disks.new.items ≡ disks.old.items ++ reverse further.old.items }
{
    while let Some(disk) = further.pop() {
        push_owned(disks, disk);
    }
}
