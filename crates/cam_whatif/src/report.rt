//! The report of a text.
ghost use Rattle.std.specs.Prelude.{◌≡◌, IfOk, string_bytes};
ghost use Rattle.std.specs.Option.{option_map};
ghost use Rattle.cam_script.specs.Law.{IsScript};
ghost use Rattle.cam_whatif.specs.Reports.{report_of, the_report};

use crate::running::record_of;
use cam_base::NoMemory;
use cam_report::report_text;
use cam_script::{Script, ScriptFault, parse};
use std::alloc::Global;

/// The report of a script's run.
#[tactic(auto, using(crate::proofs::Runs::report_of_record))]
fn report_of_script(alloc: Global, script: &Script) -> Result<String, NoMemory>
    requires { IsScript script.now }
    ensures { IfOk result (λ text. string_bytes text ≡ the_report script.now) }
{
    let run = record_of(alloc, script)?;
    report_text(alloc, script, &run)
}

/// The report of the run of the script that a text spells; none if it spells none.
pub fn report_of(alloc: Global, text: &[u8]) -> Result<Option<String>, NoMemory>
    ensures { IfOk result (λ report. option_map string_bytes report ≡ report_of text.now) }
{
    match parse(alloc, text) {
        Ok(script) => Ok(Some(report_of_script(alloc, &script)?)),
        Err(ScriptFault::Bad { .. }) => Ok(None),
        Err(ScriptFault::NoMemory) => Err(NoMemory),
    }
}
