//! The text of a witness.
ghost use Rattle.std.specs.Prelude.{◌≡◌, true, IfErr, IfOk, OnOk, reverse, string_bytes};
ghost use Rattle.cam_event.specs.History.{created};
ghost use Rattle.cam_event.specs.Pasts.{plain_all};
ghost use Rattle.cam_cut.specs.Faults.{IsCause};
ghost use Rattle.cam_plain.specs.Legal.{history};
ghost use Rattle.cam_report.specs.Records.{record_witness};
ghost use Rattle.cam_report.specs.Traces.{witness_text};

use crate::deed::write_deed;
use cam_base::NoMemory;
use cam_cut::{CutFault, witness};
use cam_event::{Deeds, RunRecord};
use cam_names::Name;
use cam_script::{Labels, Script};
use std::alloc::Global;
use std::fmt::Write;

/// The text of a history: a line for each deed, in order, and `legal`.
fn history_text(alloc: Global, labels: &Labels, deeds: &Deeds) -> Result<String, NoMemory>
    ensures { IfOk result (λ text.
        string_bytes text ≡ witness_text labels.now (history deeds.now)) }
{
    let mut text = String::new(alloc);
    for deed in deeds.as_slice() {
        write_deed(alloc, labels, deed, &mut text)?;
        writeln!(text)?;
    }
    writeln!(text, "legal")?;
    Ok(text)
}

/// The text of an action's witness: the deeds that explain what the action saw, in order, and
/// `legal`. `NoSuchAction` comes exactly if the action was not created in the run.
pub fn witness_text(
    alloc: Global,
    script: &Script,
    run: &RunRecord,
    name: &Name,
) -> Result<String, CutFault>
    ensures text { IfOk result (λ text.
        string_bytes text ≡ record_witness script.now run.now name.now) }
    ensures created { OnOk result (created (plain_all (reverse run.now.trace)) name.now ≡ true) }
    ensures fault { IfErr result (IsCause (reverse run.now.trace) name.now) }
{
    let deeds = witness(alloc, &run.trace, name)?;
    let text = history_text(alloc, &script.labels, &deeds)?;
    Ok(text)
}
