//! The ends to which one fault more leads.
use crate::told::{Status, Told};
use cam_base::NoMemory;
use cam_event::RunRecord;
use cam_scope::{Lines, push_number};
use cam_script::Script;
use cam_sweep::{Faults, Tallied, Variants, end_of, ends_of, summary_text, sweep_of, tally};
use std::alloc::Global;

/// What is asked of a sweep: which faults, and the number of the end whose first script is shown.
#[derive(Drop)]
struct Sweep {
    faults: Faults,
    shown: Option<usize>,
}

/// What the words of a sweep ask for; none if a number is none of a node, or stands for no end.
fn sweep_by(alloc: Global, options: &[String], nodes: u8) -> Result<Option<Sweep>, NoMemory> {
    let mut faults = Faults {
        restarts: false,
        stops: false,
        losses: false,
        repeats: false,
        nodes: Vec::new(alloc),
    };
    let mut shown = None;
    let mut is_end = false;
    for option in options {
        match option.as_str() {
            "--restart" => faults.restarts = true,
            "--stop" => faults.stops = true,
            "--lose" => faults.losses = true,
            "--repeat" => faults.repeats = true,
            "--show" => is_end = true,
            number => {
                let Ok(number) = number.parse::<u32>() else {
                    return Ok(None);
                };
                if is_end {
                    shown = Some(number as usize);
                    is_end = false;
                } else {
                    match u8::try_from(number) {
                        Ok(node) if 1 <= node && node <= nodes => faults.nodes.push(node)?,
                        _ => return Ok(None),
                    }
                }
            }
        }
    }
    if is_end {
        return Ok(None);
    }
    if !faults.stops && !faults.losses && !faults.repeats {
        faults.restarts = true;
    }
    Ok(Some(Sweep { faults, shown }))
}

/// What is told as a finding.
fn finding(alloc: Global, file: &str, text: &str) -> Result<Told, NoMemory> {
    let mut said = String::new(alloc);
    said.push_str(file)?;
    said.push_str(text)?;
    Ok(Told {
        text: said,
        status: Status::Finding,
    })
}

/// The first script that leads to the end of a number.
fn shown(
    alloc: Global,
    file: &str,
    number: usize,
    variants: &Variants,
    tallied: &[Tallied],
) -> Result<Told, NoMemory> {
    let Some(before) = number.checked_sub(1) else {
        return finding(alloc, file, ": ends count from 1.\n");
    };
    let Some(led) = tallied.get(before) else {
        return finding(alloc, file, ": there is no end of that number.\n");
    };
    match variants.get(led.first) {
        Some(variant) => Ok(Told {
            text: String::from_utf8_lossy(alloc, &variant.text)?,
            status: Status::Fine,
        }),
        None => finding(alloc, file, ": there is no end of that number.\n"),
    }
}

/// How many runs with one fault more lead to each end, and the first; or the first script that leads
/// to an end.
pub(crate) fn swept(
    alloc: Global,
    file: &str,
    bytes: &[u8],
    source: &Lines<'_>,
    script: &Script,
    run: &RunRecord,
    options: &[String],
) -> Result<Told, NoMemory> {
    let Some(sweep) = sweep_by(alloc, options, script.nodes)? else {
        return finding(
            alloc,
            file,
            ": a number is no node of the script, or --show has none.\n",
        );
    };
    let variants = sweep_of(alloc, &sweep.faults, source, script, run)?;
    let ends = ends_of(alloc, &variants)?;
    let tallied = tally(alloc, &ends)?;
    if let Some(number) = sweep.shown {
        return shown(alloc, file, number, &variants, &tallied);
    }
    let mut text = String::new(alloc);
    text.push_str("Without a fault:\n")?;
    text.push_str(end_of(alloc, bytes)?.as_str())?;
    text.push_str("\n")?;
    let summary = summary_text(alloc, "run", &variants, &ends, &tallied)?;
    text.push_str(summary.as_str())?;
    Ok(Told {
        text,
        status: Status::Fine,
    })
}
