//! The first Informs of an event of a node, if its letter brings these outcomes.
ghost use Rattle.std.specs.Prelude.{◌≡◌, ◌∷◌, ◌++◌, not, true, false, ℕ, List, filter, map, IfOk, OnOk};
ghost use Rattle.cam_names.specs.declared.name.Name.{Name as NameFields};
ghost use Rattle.cam_type.specs.declared.ObjectDecl.{ObjectDecl};
ghost use Rattle.cam_event.specs.declared.Deed.{Deed as DeedValue};
ghost use Rattle.cam_event.specs.declared.Deed.TheVariants.{Inform};
ghost use Rattle.cam_event.specs.History.{informed};
ghost use Rattle.cam_event.specs.Rules.{informs, sorted_names};
ghost use Rattle.cam_event.specs.Sights.{Entry};
ghost use Rattle.cam_own.specs.Own.{KeepsOwn};

use crate::own::Own;
use cam_base::NoMemory;
use cam_event::{Deed, Deeds};
use cam_names::Name;
use std::alloc::Global;
use std::collections::BTreeSet;

/// The first Informs of an event of the node, if its letter brings these aborts and commits: one for each
/// of which the node was not informed, aborts first, then commits, each in order of names.
pub fn first_informs(
    alloc: Global,
    own: &Own,
    aborts: &[Name],
    commits: &[Name],
) -> Result<Deeds, NoMemory>
    ensures { IfOk result (λ deeds. (objects : List ObjectDecl) (s : ℕ) (L : List DeedValue)
        (E : List Entry) → KeepsOwn objects s L E own.now
        → deeds ≡ informs s (filter (λ a. not (informed L s a false)) aborts.now)
        (filter (λ a. not (informed L s a true)) commits.now)) }
{
    let site = own.node();
    let mut deeds = Deeds::new(alloc);
    inform(&mut deeds, site, &new_aborts(alloc, own, aborts)?, false)?;
    inform(&mut deeds, site, &new_commits(alloc, own, commits)?, true)?;
    Ok(deeds)
}

/// Informs a site of the outcome of each of these actions, in order of names.
fn inform(
    deeds: &mut Deeds,
    site: u8,
    names: &BTreeSet<Name>,
    committed: bool,
) -> Result<(), NoMemory>
    ensures { OnOk result (deeds.new
        ≡ deeds.old ++ map (λ a. Inform site a committed) names.now.keys) }
{
    for name in names {
        deeds.push_copy(&Deed::Inform {
            site,
            name: *name,
            committed,
        })?;
    }
    Ok(())
}

/// Those of the aborts of which the node was not informed.
fn new_aborts(alloc: Global, own: &Own, aborts: &[Name]) -> Result<BTreeSet<Name>, NoMemory>
    ensures { IfOk result (λ new. (objects : List ObjectDecl) (s : ℕ) (L : List DeedValue)
        (E : List Entry) → KeepsOwn objects s L E own.now
        → new.keys ≡ sorted_names (filter (λ a. not (informed L s a false)) aborts.now)) }
{
    let mut new = BTreeSet::new(alloc);
    for place in (0..aborts.len()).rev() {
        note_abort(&mut new, own, &aborts[place])?;
    }
    Ok(new)
}

/// Those of the commits of which the node was not informed.
fn new_commits(alloc: Global, own: &Own, commits: &[Name]) -> Result<BTreeSet<Name>, NoMemory>
    ensures { IfOk result (λ new. (objects : List ObjectDecl) (s : ℕ) (L : List DeedValue)
        (E : List Entry) → KeepsOwn objects s L E own.now
        → new.keys ≡ sorted_names (filter (λ a. not (informed L s a true)) commits.now)) }
{
    let mut new = BTreeSet::new(alloc);
    for place in (0..commits.len()).rev() {
        note_commit(&mut new, own, &commits[place])?;
    }
    Ok(new)
}

/// Adds an abort of which the node was not informed.
#[tactic(auto, using(crate::proofs::Gathering::insert_put))]
fn note_abort(new: &mut BTreeSet<Name>, own: &Own, name: &Name) -> Result<(), NoMemory>
    ensures { OnOk result ((objects : List ObjectDecl) (s : ℕ) (L : List DeedValue) (E : List Entry)
        (more : List NameFields) → KeepsOwn objects s L E own.now
        → new.old.keys ≡ sorted_names (filter (λ a. not (informed L s a false)) more)
        → new.new.keys ≡ sorted_names (filter (λ a. not (informed L s a false)) (name.now ∷ more))) }
{
    if !own.has_abort(name) {
        new.insert(*name)?;
    }
    Ok(())
}

/// Adds a commit of which the node was not informed.
#[tactic(auto, using(crate::proofs::Gathering::insert_put))]
fn note_commit(new: &mut BTreeSet<Name>, own: &Own, name: &Name) -> Result<(), NoMemory>
    ensures { OnOk result ((objects : List ObjectDecl) (s : ℕ) (L : List DeedValue) (E : List Entry)
        (more : List NameFields) → KeepsOwn objects s L E own.now
        → new.old.keys ≡ sorted_names (filter (λ a. not (informed L s a true)) more)
        → new.new.keys ≡ sorted_names (filter (λ a. not (informed L s a true)) (name.now ∷ more))) }
{
    if !own.has_commit(name) {
        new.insert(*name)?;
    }
    Ok(())
}
