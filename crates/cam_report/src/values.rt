//! The values of the objects.
ghost use Rattle.std.specs.Prelude.{◌≡◌, ◌++◌, ◌∷◌, [], List, OnOk, codes, string_bytes};
ghost use Rattle.cam_event.specs.declared.Deed.{Deed};
ghost use Rattle.cam_event.specs.History.{after};
ghost use Rattle.cam_event.specs.Settled.{settled};
ghost use Rattle.cam_live.specs.Settled.{settled_operations};
ghost use Rattle.cam_report.specs.Words.{line, state_text};
ghost use Rattle.cam_report.specs.Report.{value_text, values_from};

use crate::words::write_state;
use cam_base::NoMemory;
use cam_event::Deeds;
use cam_live::{Operations, settled, value_after};
use cam_script::{Label, Script};
use std::alloc::Global;
use std::fmt::Write;

/// Appends an object's value.
fn write_value(
    script: &Script,
    object: usize,
    label: &Label,
    operations: &Operations,
    out: &mut String,
) -> Result<(), NoMemory>
    ensures { OnOk result ((L : List Deed)
        → operations.now ≡ settled_operations script.now.objects L
        → string_bytes out.new ≡ string_bytes out.old
        ++ value_text label.now (settled script.now.objects L object)) }
{
    let state = value_after(&script.objects, object, operations)?;
    write!(out, "value {} ", label.as_str())?;
    write_state(&state, out)?;
    writeln!(out)?;
    Ok(())
}

/// Appends the value of each object, in order of their declarations.
pub fn write_values(
    alloc: Global,
    script: &Script,
    deeds: &Deeds,
    out: &mut String,
) -> Result<(), NoMemory>
    ensures { OnOk result (string_bytes out.new ≡ string_bytes out.old
        ++ values_from script.now.objects (after [] deeds.now) 0 script.now.labels) }
{
    let operations = settled(alloc, deeds, &script.objects)?;
    for (object, label) in script.labels.as_slice().iter().enumerate() {
        write_value(script, object, label, &operations, out)?;
    }
    Ok(())
}
