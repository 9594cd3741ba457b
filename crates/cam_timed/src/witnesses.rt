//! The witness of an action in a run by time.
ghost use Rattle.std.specs.Prelude.{◌≡◌, List, true, reverse, IfOk, OnOk, IfErr};
ghost use Rattle.cam_type.specs.declared.ObjectDecl.{ObjectDecl};
ghost use Rattle.cam_event.specs.History.{created};
ghost use Rattle.cam_event.specs.Pasts.{plain_all};
ghost use Rattle.cam_plain.specs.Legal.{history};
ghost use Rattle.cam_cut.specs.Faults.{IsCause};
ghost use Rattle.cam_cut.specs.Witness.{witness};
ghost use Rattle.cam_timed.specs.Law.{IsTimedWitness};
ghost use Rattle.cam_timed.specs.Moments.{events};
ghost use Rattle.cam_timed.specs.TimedRuns.{IsTimedRun};

use crate::TimedRecord;
use crate::events::plain_trace;
use cam_cut::{CutFault, witness};
use cam_event::Deeds;
use cam_names::Name;
use std::alloc::Global;

/// The witness of an action: the deeds in the past of the last event that gives a step of its view, in
/// order. If the record is a run by time, these are a legal history of plain nested transactions in
/// which the action is no orphan and has the view that it has in the whole run, and whose serial list
/// for it replays and has each answer that it got. `NoSuchAction` comes exactly if the action was not
/// created in the run.
pub fn timed_witness(alloc: Global, run: &TimedRecord, name: &Name) -> Result<Deeds, CutFault>
    ensures exact { IfOk result (λ deeds. history deeds ≡ witness (events (reverse run.now.trace)) name.now) }
    ensures created { OnOk result (created (plain_all (events (reverse run.now.trace))) name.now ≡ true) }
    ensures fault { IfErr result (IsCause (events (reverse run.now.trace)) name.now) }
    ensures view { IfOk result (λ deeds. (objects : List ObjectDecl) → IsTimedRun objects (reverse run.now.trace) → IsTimedWitness objects (reverse run.now.trace) name.now (history deeds)) }
{
    let plain = plain_trace(alloc, &run.trace)?;
    witness(alloc, &plain, name)
}
