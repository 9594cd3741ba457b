//! The first Informs of an event: one for each outcome that its letter brings and the node did not know, aborts first, then commits, each in
//! order of names. They cost what the letter tells: its outcomes stand in order, so each name goes to the end of a list.
ghost use Rattle.std.specs.Prelude.{◌≡◌, true, false, ◌∷◌, ◌++◌, List, map, reverse, IfOk, OnOk};
ghost use Rattle.cam_know.specs.declared.Outcome.{Outcome as OutcomeValue};
ghost use Rattle.cam_know.specs.Order.{told_in_order};
ghost use Rattle.cam_event.specs.declared.Deed.TheVariants.{Inform};
ghost use Rattle.cam_event.specs.Rules.{put_name};
ghost use Rattle.cam_event.specs.ByKnowledge.{new_informs};
ghost use Rattle.cam_node.specs.Informs.{aborts_from, commits_from};

use cam_base::NoMemory;
use cam_event::{Deed, Deeds};
use cam_know::{Know, Outcome};
use cam_names::Name;
use std::alloc::Global;

/// The first Informs of a site that knows this, where a letter tells that.
pub(crate) fn first_informs(
    alloc: Global,
    known: &Know,
    told: &Know,
    site: u8,
) -> Result<Deeds, NoMemory>
    ensures { IfOk result (λ deeds. deeds ≡ new_informs site (told_in_order told.now) known.now) }
{
    let outcomes = told.outcomes();
    let aborts = new_aborts(alloc, known, outcomes)?;
    let commits = new_commits(alloc, known, outcomes)?;
    let mut deeds = Deeds::new(alloc);
    inform_aborts(&mut deeds, site, aborts)?;
    inform_commits(&mut deeds, site, commits)?;
    Ok(deeds)
}

/// The names that are told as aborted and are not known so, in falling order.
fn new_aborts(alloc: Global, known: &Know, told: &[Outcome]) -> Result<Vec<Name>, NoMemory>
    ensures { IfOk result (λ names. reverse names.items ≡ aborts_from known.now told.now) }
{
    let mut names = Vec::new(alloc);
    for place in (0..told.len()).rev() {
        note_abort(&mut names, known, &told[place])?;
    }
    Ok(names)
}

/// The names that are told as committed and are not known so, in falling order.
fn new_commits(alloc: Global, known: &Know, told: &[Outcome]) -> Result<Vec<Name>, NoMemory>
    ensures { IfOk result (λ names. reverse names.items ≡ commits_from known.now told.now) }
{
    let mut names = Vec::new(alloc);
    for place in (0..told.len()).rev() {
        note_commit(&mut names, known, &told[place])?;
    }
    Ok(names)
}

/// Puts the name of an outcome among those after it that are told as aborted, where it is a new abort.
#[tactic(auto, using(crate::proofs::Told::new_abort, crate::proofs::Told::known_abort))]
fn note_abort(names: &mut Vec<Name>, known: &Know, outcome: &Outcome) -> Result<(), NoMemory>
    ensures { (behind : List OutcomeValue) → reverse names.old.items ≡ aborts_from known.now behind
        → OnOk result (reverse names.new.items ≡ aborts_from known.now (outcome.now ∷ behind)) }
{
    if let Outcome::Aborted(name) = outcome {
        if !known.is_aborted(name) {
            put(names, name)?;
        }
    }
    Ok(())
}

/// Puts the name of an outcome among those after it that are told as committed, where it is a new commit.
fn note_commit(names: &mut Vec<Name>, known: &Know, outcome: &Outcome) -> Result<(), NoMemory>
    ensures { (behind : List OutcomeValue) → reverse names.old.items ≡ commits_from known.now behind
        → OnOk result (reverse names.new.items ≡ commits_from known.now (outcome.now ∷ behind)) }
{
    if let Outcome::Committed(name, _) = outcome {
        if !known.is_committed(name) {
            put(names, name)?;
        }
    }
    Ok(())
}

/// Puts a name at its place among names in falling order, where it is not there already.
fn put(names: &mut Vec<Name>, name: &Name) -> Result<(), NoMemory>
    ensures { OnOk result (reverse names.new.items ≡ put_name name.now (reverse names.old.items)) }
{
    let mut place = names.len();
    while place > 0 && names[place - 1] < *name {
        place -= 1;
    }
    if place > 0 && names[place - 1] == *name {
        return Ok(());
    }
    names.insert(place, *name)?;
    Ok(())
}

/// Adds an Inform of the abort of each of these names, the last first.
fn inform_aborts(deeds: &mut Deeds, site: u8, names: Vec<Name>) -> Result<(), NoMemory>
    ensures { OnOk result (deeds.new ≡ deeds.old ++ map (λ a. Inform site a false) (reverse names.items)) }
{
    for place in (0..names.len()).rev() {
        deeds.push_copy(&Deed::Inform {
            site,
            name: names[place],
            committed: false,
        })?;
    }
    Ok(())
}

/// Adds an Inform of the commit of each of these names, the last first.
fn inform_commits(deeds: &mut Deeds, site: u8, names: Vec<Name>) -> Result<(), NoMemory>
    ensures { OnOk result (deeds.new ≡ deeds.old ++ map (λ a. Inform site a true) (reverse names.items)) }
{
    for place in (0..names.len()).rev() {
        deeds.push_copy(&Deed::Inform {
            site,
            name: names[place],
            committed: true,
        })?;
    }
    Ok(())
}
