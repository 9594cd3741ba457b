//! In what the runs of two scripts differ.
ghost use Rattle.cam_script.specs.Law.{IsScript};

use crate::answer::refused;
use crate::told::{Status, Told};
use cam_base::NoMemory;
use cam_compare::{Side, compare_text};
use cam_scope::Lines;
use cam_script::{Script, ScriptFault, parse};
use cam_whatif::record_of;
use std::alloc::Global;

/// The bytes of a script that stand in a file of this name.
#[derive(Clone, Copy, Debug)]
pub struct ScriptFile<'a> {
    pub name: &'a str,
    pub bytes: &'a [u8],
}

/// In what the runs of two accepted scripts differ.
fn compared(
    alloc: Global,
    a: &ScriptFile<'_>,
    b: &ScriptFile<'_>,
    script_a: &Script,
    script_b: &Script,
) -> Result<Told, NoMemory>
    requires a { IsScript script_a.now }
    requires b { IsScript script_b.now }
{
    let run_a = record_of(alloc, script_a)?;
    let run_b = record_of(alloc, script_b)?;
    let side_a = Side::of(alloc, &Lines::of(alloc, a.bytes)?, script_a, &run_a)?;
    let side_b = Side::of(alloc, &Lines::of(alloc, b.bytes)?, script_b, &run_b)?;
    let (text, differs) = compare_text(alloc, &side_a, &side_b)?;
    let status = if differs {
        Status::Finding
    } else {
        Status::Fine
    };
    Ok(Told { text, status })
}

/// In what the runs of two scripts differ. That they differ is a finding, and so is a script that is
/// refused.
pub fn compare(alloc: Global, a: &ScriptFile<'_>, b: &ScriptFile<'_>) -> Result<Told, NoMemory> {
    match (parse(alloc, a.bytes), parse(alloc, b.bytes)) {
        (Ok(script_a), Ok(script_b)) => compared(alloc, a, b, &script_a, &script_b),
        (Err(ScriptFault::NoMemory), _) | (_, Err(ScriptFault::NoMemory)) => Err(NoMemory),
        (Err(fault), _) => refused(alloc, a, fault),
        (_, Err(fault)) => refused(alloc, b, fault),
    }
}
