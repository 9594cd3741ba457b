// What a node learnt, as records.
ghost use Rattle.std.specs.Prelude.{◌≡◌, ◌++◌, ◌-◌, ◌≤◌, map, drop, All, IfOk, OnOk};
ghost use Rattle.std.specs.List.{AllByRecursion};
ghost use Rattle.cam_names.specs.Dependencies.{AreCounts};
ghost use Rattle.cam_recman.specs.Snapshot.{outcome_record};
ghost use Rattle.cam_recman.specs.Versions.{AreOf};
ghost use Rattle.cam_recman.specs.Writable.{IsWritable};
ghost use Rattle.cam_node.specs.Entries.{greater_records, news_records};

use cam_base::NoMemory;
use cam_know::{Know, Outcome};
use cam_recman::{Record, Records};
use std::alloc::Global;

/// The records of what is new to a node that knew these counts, each 1 to 1,000,000,000: each outcome, in the order in which it was learnt,
/// and each greater count, in order of nodes. `fresh` is what `cam_comman::arrive` answers: the new outcomes, and all counts.
pub(crate) fn news_records(
    alloc: Global,
    before: &[u32; 8],
    fresh: &Know,
) -> Result<Records, NoMemory>
    requires { AreCounts 1 before.now }
    ensures exactly { IfOk result (λ records. records ≡ news_records before.now fresh.now) }
    ensures writable { IfOk result (λ records. All IsWritable records) }
    ensures version { IfOk result (λ records. AreOf 2 records) }
{
    let mut records = Records::new(alloc);
    add_outcomes(&mut records, fresh)?;
    add_counts(&mut records, before, fresh, 1)?;
    Ok(records)
}

/// The record of an outcome.
pub(crate) fn record_of(outcome: &Outcome) -> Record
    ensures { «result» ≡ outcome_record outcome.now }
{
    match outcome {
        Outcome::Aborted(name) => Record::Abort(*name),
        Outcome::Committed(name, deps) => Record::Commit(*name, *deps),
    }
}

/// Adds each outcome.
fn add_outcomes(records: &mut Records, fresh: &Know) -> Result<(), NoMemory>
    ensures { OnOk result (records.new ≡ records.old ++ map outcome_record fresh.now.outcomes) }
{
    for outcome in fresh.outcomes() {
        records.push(record_of(outcome))?;
    }
    Ok(())
}

/// Adds each greater count of the nodes from this one on.
fn add_counts(
    records: &mut Records,
    before: &[u32; 8],
    fresh: &Know,
    node: u8,
) -> Result<(), NoMemory>
    requires node { (1 ≤ node) × (node ≤ 9) }
    requires before { AreCounts 1 before.now }
    ensures exactly { OnOk result (records.new ≡ records.old
        ++ greater_records node (drop (node - 1) before.now) (drop (node - 1) fresh.now.counts)) }
    ensures range { OnOk result (AllByRecursion IsWritable
        (greater_records node (drop (node - 1) before.now) (drop (node - 1) fresh.now.counts))) }
{
    if node > 8 {
        return Ok(());
    }
    let count = fresh.count(node);
    if before[node as usize - 1] < count {
        records.push(Record::Seen(node, count))?;
    }
    add_counts(records, before, fresh, node + 1)
}
