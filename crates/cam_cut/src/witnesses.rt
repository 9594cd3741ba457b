//! Witnesses of actions.
ghost use Rattle.std.specs.Prelude.{◌≡◌, ℕ, ◌<◌, true, false, length, reverse, IfOk, OnOk, IfErr, MatchOption};
ghost use Rattle.cam_event.specs.History.{created};
ghost use Rattle.cam_event.specs.Pasts.{in_past, plain_all};
ghost use Rattle.cam_plain.specs.Legal.{history};
ghost use Rattle.cam_cut.specs.declared.witnesses.CutFault.TheVariants.{NoMemory as OutOfMemory};
ghost use Rattle.cam_cut.specs.Faults.{IsCause};
ghost use Rattle.cam_cut.specs.Kept.{is_kept};
ghost use Rattle.cam_cut.specs.Law.{IsWitnessOfRun, IsWitnessOfHaltedRun};
ghost use Rattle.cam_cut.specs.Witness.{last_step, witness};

use crate::cut::cut_deeds;
use crate::watch::Watch;
use cam_base::NoMemory;
use cam_event::{Deeds, Trace};
use cam_names::Name;
use cam_past::clocks;
use std::alloc::Global;
use thiserror::Error;

/// Why there is no witness.
#[derive(Clone, Copy, Debug, PartialEq, Eq, Error)]
pub enum CutFault {
    /// The action was not created in the trace.
    #[error("no such action")]
    NoSuchAction,
    #[error("out of memory")]
    NoMemory,
}

impl From<NoMemory> for CutFault {
    ghost from_gives = { λ _ fault. fault ≡ OutOfMemory };

    fn from(_: NoMemory) -> CutFault {
        CutFault::NoMemory
    }
}

/// The witness of an action: the deeds in the past of the last event that gives a step of its view, in
/// the order of the trace. Where the trace is a run, also one in which nodes halt, these are a legal
/// history of plain nested transactions in which the action is no orphan and has the view that it has
/// in the whole run. `NoSuchAction` comes exactly if the action was not created in the trace. The
/// time is linear in the trace, times the logarithm of how many children the action has.
pub fn witness(alloc: Global, trace: &Trace, name: &Name) -> Result<Deeds, CutFault>
    ensures exact { IfOk result (λ deeds. history deeds ≡ witness (reverse trace.now) name.now) }
    ensures created { OnOk result (created (plain_all (reverse trace.now)) name.now ≡ true) }
    ensures fault { IfErr result (IsCause (reverse trace.now) name.now) }
    ensures view { IfOk result
        (λ deeds. IsWitnessOfRun (reverse trace.now) name.now (history deeds)) }
    ensures halted_view { IfOk result
        (λ deeds. IsWitnessOfHaltedRun (reverse trace.now) name.now (history deeds)) }
{
    let Some(last) = last_step(alloc, trace, name)? else {
        return Err(CutFault::NoSuchAction);
    };
    let keep = past_of(alloc, trace, last)?;
    let deeds = cut_deeds(alloc, trace, &keep)?;
    Ok(deeds)
}

/// The number of the last event that gives a step of the action's view, where it was created.
fn last_step(alloc: Global, trace: &Trace, name: &Name) -> Result<Option<u64>, NoMemory>
    ensures { IfOk result (λ last.
        MatchOption last (created (plain_all (reverse trace.now)) name.now ≡ false)
        (λ number. (created (plain_all (reverse trace.now)) name.now ≡ true)
        × (last_step (reverse trace.now) name.now ≡ Some number))) }
{
    let mut watch = Watch::new(alloc, name);
    let mut last = None;
    for (number, event) in trace.as_slice().iter().enumerate() {
        if watch.go_over(&event.deeds)? {
            last = Some(number as u64);
        }
    }
    if watch.created { Ok(last) } else { Ok(None) }
}

/// Of each event whether it is in the past of this one.
fn past_of(alloc: Global, trace: &Trace, last: u64) -> Result<Vec<bool>, NoMemory>
    ensures flags { IfOk result (λ keep. length keep.items ≡ length trace.now) }
    ensures past { IfOk result
        (λ keep. (i : ℕ) → i < length trace.now
        → is_kept keep.items i ≡ in_past (reverse trace.now) i last) }
{
    let clocks = clocks(alloc, trace)?;
    let mut keep = Vec::with_capacity(alloc, trace.len())?;
    for number in 0..trace.len() {
        keep.push(clocks.in_past(number as u64, last))?;
    }
    Ok(keep)
}
