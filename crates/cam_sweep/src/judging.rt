//! A second pair of eyes on a run: what is proved of every run is tested of this one.
use cam_base::NoMemory;
use cam_cut::{CutFault, witness};
use cam_event::RunRecord;
use cam_names::Name;
use cam_plain::{CheckFault, check};
use cam_report::{deeds_of, gather};
use cam_script::Script;
use cam_serial::{replays, serial};
use std::alloc::Global;

/// Whether the witness of an action is a legal execution of nested transactions.
fn has_legal_witness(
    alloc: Global,
    script: &Script,
    run: &RunRecord,
    action: &Name,
) -> Result<bool, NoMemory> {
    let deeds = match witness(alloc, &run.trace, action) {
        Ok(deeds) => deeds,
        Err(CutFault::NoSuchAction) => return Ok(false),
        Err(CutFault::NoMemory) => return Err(NoMemory),
    };
    match check(alloc, &deeds, &script.objects) {
        Ok(()) => Ok(true),
        Err(CheckFault::Illegal { .. }) => Ok(false),
        Err(CheckFault::NoMemory) => Err(NoMemory),
    }
}

/// Whether the witness of each action of a run is legal, and what committed replays in the order of
/// commits.
pub(crate) fn is_lawful(alloc: Global, script: &Script, run: &RunRecord) -> Result<bool, NoMemory> {
    let deeds = deeds_of(alloc, &run.trace)?;
    let actions = gather(alloc, deeds.as_slice())?;
    for action in actions.created() {
        if !has_legal_witness(alloc, script, run, action)? {
            return Ok(false);
        }
    }
    let list = serial(alloc, &deeds, &script.objects, None)?;
    replays(alloc, &list, &script.objects)
}
