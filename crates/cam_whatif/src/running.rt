//! The run of a script over disks in memory.
ghost use Rattle.std.specs.Prelude.{◌≡◌, ℕ, false, IfOk, length};
ghost use Rattle.std.specs.List.{All};
ghost use Rattle.cam_script.specs.Law.{IsScript};
ghost use Rattle.cam_whatif.specs.Reports.{IsOneRun};

use cam_base::NoMemory;
use cam_cluster::{Servers, run_script};
use cam_disk::{MemoryDisk, TellingDisk};
use cam_event::RunRecord;
use cam_script::Script;
use cam_type::{CounterServer, QueueServer, RegisterServer};
use std::alloc::Global;

/// A disk in memory for each of so many nodes.
fn disks_for(alloc: Global, nodes: u8) -> Result<Vec<MemoryDisk>, NoMemory>
    ensures { IfOk result (λ disks. length disks.items ≡ nodes) }
{
    let mut disks = Vec::new(alloc);
    for before in 0..nodes {
        disks.push(MemoryDisk::new(alloc))?;
    }
    Ok(disks)
}

/// Whether one of the disks has failed.
fn has_failed<D: TellingDisk>(disks: &[D]) -> bool
    ensures { result ≡ false → All (λ d. D.faults d ≡ 0) disks.now }
{
    for disk in disks {
        if disk.failures() > 0 {
            return true;
        }
    }
    false
}

/// The record of the one run of a script by the step rules. Disks in memory fail only at bytes of
/// which no memory has so many, so that counts as want of memory.
pub fn record_of(alloc: Global, script: &Script) -> Result<RunRecord, NoMemory>
    requires { IsScript script.now }
    ensures { IfOk result (IsOneRun script.now) }
{
    let mut disks = disks_for(alloc, script.nodes)?;
    let mut servers = Servers {
        register: RegisterServer::new(),
        queue: QueueServer::new(alloc),
        counter: CounterServer::new(),
    };
    let Ok(run) = run_script(alloc, script, &mut disks, &mut servers) else {
        return Err(NoMemory);
    };
    if has_failed(disks.as_slice()) {
        return Err(NoMemory);
    }
    Ok(run)
}
