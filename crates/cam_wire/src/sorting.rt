// The outcomes of a letter in rising order of names, each name once.
ghost use Rattle.std.specs.Prelude.{◌≡◌, ◌∷◌, List, flat_map, IfOk, OnOk};
ghost use Rattle.cam_know.specs.Known.{aborted_name};
ghost use Rattle.cam_event.specs.Rules.{sorted_names};
ghost use Rattle.cam_know.specs.declared.Outcome.{Outcome as KnownOutcome};
ghost use Rattle.cam_wire.specs.Spelling.{committed_pair, sorted_commits};

use cam_base::NoMemory;
use cam_know::Outcome;
use cam_names::{Deps, Name};
use std::alloc::Global;
use std::collections::{BTreeMap, BTreeSet};

/// One more outcome, which was learnt before those whose aborts are in it.
fn note_abort(aborts: &mut BTreeSet<Name>, outcome: &Outcome) -> Result<(), NoMemory>
    ensures { (outcomes : List KnownOutcome) → aborts.old.keys ≡ sorted_names (flat_map aborted_name outcomes)
        → OnOk result (aborts.new.keys ≡ sorted_names (flat_map aborted_name (outcome.now ∷ outcomes))) }
{
    if let Outcome::Aborted(name) = outcome {
        aborts.insert(*name)?;
    }
    Ok(())
}

/// The names of the aborts.
pub fn sorted_aborts(alloc: Global, outcomes: &[Outcome]) -> Result<BTreeSet<Name>, NoMemory>
    ensures { IfOk result (λ aborts. aborts.keys ≡ sorted_names (flat_map aborted_name outcomes.now)) }
{
    let mut aborts = BTreeSet::new(alloc);
    for place in (0..outcomes.len()).rev() {
        note_abort(&mut aborts, &outcomes[place])?;
    }
    Ok(aborts)
}

/// One more outcome, which was learnt before those whose commits are in it: a name keeps the dependencies that it has.
fn note_commit(commits: &mut BTreeMap<Name, Deps>, outcome: &Outcome) -> Result<(), NoMemory>
    ensures { (outcomes : List KnownOutcome) → commits.old.entries ≡ sorted_commits (flat_map committed_pair outcomes)
        → OnOk result (commits.new.entries ≡ sorted_commits (flat_map committed_pair (outcome.now ∷ outcomes))) }
{
    if let Outcome::Committed(name, deps) = outcome {
        if !commits.contains_key(name) {
            commits.insert(*name, *deps)?;
        }
    }
    Ok(())
}

/// The commits with their dependencies. Of a name with several the set that was learnt last counts.
pub fn sorted_commits(alloc: Global, outcomes: &[Outcome]) -> Result<BTreeMap<Name, Deps>, NoMemory>
    ensures { IfOk result (λ commits. commits.entries ≡ sorted_commits (flat_map committed_pair outcomes.now)) }
{
    let mut commits = BTreeMap::new(alloc);
    for place in (0..outcomes.len()).rev() {
        note_commit(&mut commits, &outcomes[place])?;
    }
    Ok(commits)
}
