//! What each action depends on: a table that takes the deeds over one by one.

ghost use Rattle.std.specs.Prelude.{◌≡◌, ◌∷◌, ◌||◌, ◌&&◌, ℕ, List, OnOk, IfOk, eqb, unwrap_or, []};
ghost use Rattle.std.specs.BTreeMap.{get};
ghost use Rattle.cam_names.specs.Dependencies.{has_pair};
ghost use Rattle.cam_type.specs.declared.ObjectDecl.{ObjectDecl};
ghost use Rattle.cam_event.specs.declared.Deed.{Deed};
ghost use Rattle.cam_event.specs.declared.Deed.TheVariants.{Create, Ask, Commit};
ghost use Rattle.cam_event.specs.Gained.{visited};
ghost use Rattle.cam_live.specs.Ledger.{Keeps, addressed};
ghost use Rattle.cam_plain.specs.Depending.{pairs_in, AddsPairs, DependsOn};

use cam_base::{NoMemory, Sequence};
use cam_event::{Deed, Seen};
use cam_live::{AddressedCall, Ledger};
use cam_names::Name;
use cam_type::{Objects, site_of};
use std::alloc::Global;
use std::collections::BTreeMap;

/// Pairs of a node and a count, each once.
pub(crate) type Pairs = Sequence<(u8, u32)>;

/// The pairs on which each action depends.
pub(crate) type Dependencies = BTreeMap<Name, Pairs>;

/// Whether the pair is among the pairs.
pub(crate) fn has_pair(pairs: &Pairs, node: u8, count: u32) -> bool
    ensures { result ≡ has_pair pairs.now node count }
{
    for pair in pairs.as_slice() {
        if pair.0 == node && pair.1 == count {
            return true;
        }
    }
    false
}

/// Adds a pair, if it is not there.
#[tactic(auto, using(crate::proofs::Dependent::has_pair_end, crate::proofs::Dependent::has_pair_already))]
fn add_pair(pairs: &mut Pairs, node: u8, count: u32) -> Result<(), NoMemory>
    ensures { OnOk result ((s c : ℕ)
        → has_pair pairs.new s c ≡ ((eqb node s && eqb count c) || has_pair pairs.old s c)) }
{
    if !has_pair(pairs, node, count) {
        pairs.push((node, count))?;
    }
    Ok(())
}

/// Adds pairs, those that are not there.
fn add_pairs(pairs: &mut Pairs, more: &Pairs) -> Result<(), NoMemory>
    ensures { OnOk result ((s c : ℕ)
        → has_pair pairs.new s c ≡ (has_pair more.now s c || has_pair pairs.old s c)) }
{
    for pair in more.as_slice() {
        add_pair(pairs, pair.0, pair.1)?;
    }
    Ok(())
}

/// The pairs on which the action depends.
pub(crate) fn pairs_of(
    alloc: Global,
    dependencies: &Dependencies,
    action: &Name,
) -> Result<Pairs, NoMemory>
    ensures { IfOk result (λ pairs. pairs ≡ pairs_in dependencies.now action.now) }
{
    match dependencies.get(action) {
        Some(pairs) => pairs.copy(),
        None => Ok(Pairs::new(alloc)),
    }
}

/// Adds pairs to those on which the action depends.
fn depend(
    alloc: Global,
    dependencies: &mut Dependencies,
    action: &Name,
    more: &Pairs,
) -> Result<(), NoMemory>
    ensures { OnOk result (AddsPairs dependencies.old action.now more.now dependencies.new) }
{
    let mut pairs = pairs_of(alloc, dependencies, action)?;
    add_pairs(&mut pairs, more)?;
    dependencies.insert(*action, pairs)?;
    Ok(())
}

/// A top action begins with its home.
fn take_create(
    alloc: Global,
    dependencies: &mut Dependencies,
    action: &Name,
) -> Result<(), NoMemory>
    ensures { OnOk result ((objects : List ObjectDecl) (L : List Deed)
        → DependsOn objects L dependencies.old
        → DependsOn objects (Create action.now ∷ L) dependencies.new) }
{
    let is_top = action.depth() == 1;
    if !is_top {
        return Ok(());
    }
    let home = action.home();
    let mut pairs = Pairs::new(alloc);
    add_pair(&mut pairs, home.0, home.1)?;
    depend(alloc, dependencies, action, &pairs)?;
    Ok(())
}

/// A child begins with what its parent depends on, and its home.
fn take_ask(
    alloc: Global,
    dependencies: &mut Dependencies,
    action: &Name,
    child: &Name,
) -> Result<(), NoMemory>
    ensures { OnOk result ((objects : List ObjectDecl) (L : List Deed)
        → DependsOn objects L dependencies.old
        → DependsOn objects (Ask action.now child.now ∷ L) dependencies.new) }
{
    // A name has a part.
    prove!(action.depth() > 0);
    let home = child.home();
    let mut pairs = pairs_of(alloc, dependencies, action)?;
    add_pair(&mut pairs, home.0, home.1)?;
    depend(alloc, dependencies, child, &pairs)?;
    Ok(())
}

/// The site of a call with the addressed count.
fn visited(alloc: Global, objects: &Objects, call: Option<AddressedCall>) -> Result<Pairs, NoMemory>
    ensures { IfOk result (λ pairs. pairs ≡ visited objects.now (addressed call)) }
{
    let mut pairs = Pairs::new(alloc);
    if let Some(call) = call {
        pairs.push((site_of(objects, call.object), call.count))?;
    }
    Ok(pairs)
}

/// An answer that was done adds the call's site with the addressed count.
fn take_done(
    alloc: Global,
    dependencies: &mut Dependencies,
    objects: &Objects,
    call: Option<AddressedCall>,
    action: &Name,
) -> Result<(), NoMemory>
    ensures { OnOk result (AddsPairs dependencies.old action.now
        (visited objects.now (addressed call)) dependencies.new) }
{
    let pairs = visited(alloc, objects, call)?;
    depend(alloc, dependencies, action, &pairs)?;
    Ok(())
}

/// The commit of a child adds what the child depends on.
fn take_commit(
    alloc: Global,
    dependencies: &mut Dependencies,
    action: &Name,
) -> Result<(), NoMemory>
    ensures { OnOk result ((objects : List ObjectDecl) (L : List Deed)
        → DependsOn objects L dependencies.old
        → DependsOn objects (Commit action.now ∷ L) dependencies.new) }
{
    // A name has a part.
    prove!(action.depth() > 0);
    match action.parent() {
        Some(parent) => {
            let pairs = pairs_of(alloc, dependencies, action)?;
            depend(alloc, dependencies, &parent, &pairs)?;
            Ok(())
        }
        None => Ok(()),
    }
}

/// Takes a deed over into what the actions depend on.
pub(crate) fn take_deed(
    alloc: Global,
    dependencies: &mut Dependencies,
    objects: &Objects,
    ledger: &Ledger,
    deed: &Deed,
) -> Result<(), NoMemory>
    ensures { OnOk result ((L : List Deed) → Keeps objects.now L ledger.now
        → DependsOn objects.now L dependencies.old
        → DependsOn objects.now (deed.now ∷ L) dependencies.new) }
{
    match deed {
        Deed::Create { action } => take_create(alloc, dependencies, action),
        Deed::Ask { action, child } => take_ask(alloc, dependencies, action, child),
        Deed::Got {
            action,
            number,
            seen: Seen::Done(_),
        } => {
            let call = ledger.call(action, *number);
            take_done(alloc, dependencies, objects, call, action)
        }
        Deed::Commit { action } => take_commit(alloc, dependencies, action),
        _ => Ok(()),
    }
}
