//! All that a node has, as the records of one entry.
ghost use Rattle.std.specs.Prelude.{◌≡◌, ◌++◌, ◌+◌, ◌≤◌, length, map, All, IfOk, OnOk};
ghost use Rattle.std.specs.List.{AllByRecursion};
ghost use Rattle.cam_recman.specs.declared.Record.TheVariants.{Secure};
ghost use Rattle.cam_recman.specs.Ranges.{IsHeld};
ghost use Rattle.cam_recman.specs.Writable.{IsWritable};
ghost use Rattle.cam_recman.specs.Snapshot.{outcome_record, seen_records, snapshot};

use crate::{Record, Records, Recovered};
use cam_base::NoMemory;
use cam_know::{Know, Outcome};
use cam_type::{Held, HeldList};
use std::alloc::Global;

/// The records that keep all that a node has: the format's version, its own count, each outcome in the
/// order in which they were learnt, each count that was seen, in order of nodes, and what each secured
/// family holds. [`crate::encode_entry`] may write them where the count and the families are in their
/// ranges, as they are where [`crate::recover`] gave them.
#[tactic(auto, using(crate::proofs::KeptRanges::counts_below))]
pub fn snapshot(alloc: Global, kept: &Recovered) -> Result<Records, NoMemory>
    ensures exactly { IfOk result (λ records. records ≡ snapshot kept.now) }
    ensures writable { kept.now.count ≤ 1000000000 → AllByRecursion IsHeld kept.now.held
        → IfOk result (λ records. All IsWritable records) }
{
    let mut records = Records::new(alloc);
    records.push(Record::Version)?;
    if kept.count > 1 {
        records.push(Record::Count(kept.count))?;
    }
    add_outcomes(&mut records, &kept.know)?;
    add_counts(&mut records, 1, &kept.know.counts())?;
    add_held(&mut records, &kept.held)?;
    Ok(records)
}

/// The record of an outcome.
fn record_of(outcome: &Outcome) -> Record
    ensures { «result» ≡ outcome_record outcome.now }
{
    match outcome {
        Outcome::Aborted(name) => Record::Abort(*name),
        Outcome::Committed(name, deps) => Record::Commit(*name, *deps),
    }
}

/// Adds each outcome.
fn add_outcomes(records: &mut Records, know: &Know) -> Result<(), NoMemory>
    ensures { OnOk result (records.new ≡ records.old ++ map outcome_record know.now.outcomes) }
{
    for outcome in know.outcomes() {
        records.push(record_of(outcome))?;
    }
    Ok(())
}

/// Adds these counts, which are those of the nodes from this one on.
fn add_counts(records: &mut Records, node: u8, counts: &[u32]) -> Result<(), NoMemory>
    requires nodes { (1 ≤ node) × (node + length counts.now ≤ 9) }
    requires range { AllByRecursion (λ count. count ≤ 1000000000) counts.now }
    ensures exactly { OnOk result (records.new ≡ records.old ++ seen_records node counts.now) }
    ensures range { OnOk result (AllByRecursion IsWritable (seen_records node counts.now)) }
{
    let Some((count, behind)) = counts.split_first() else {
        return Ok(());
    };
    if *count > 1 {
        records.push(Record::Seen(node, *count))?;
    }
    add_counts(records, node + 1, behind)
}

/// A copy of what a family holds.
fn copy_of(held: &Held) -> Result<Held, NoMemory>
    ensures { IfOk result (λ copy. copy ≡ held.now) }
{
    Ok(Held {
        family: held.family,
        count: held.count,
        ops: held.ops.copy()?,
    })
}

/// Adds what each family holds.
fn add_held(records: &mut Records, held: &HeldList) -> Result<(), NoMemory>
    ensures { OnOk result (records.new ≡ records.old ++ map (λ one. Secure one) held.now) }
{
    for one in held.as_slice() {
        records.push(Record::Secure(copy_of(one)?))?;
    }
    Ok(())
}
