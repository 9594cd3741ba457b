//! On which nodes each action depends, deed by deed.
ghost use Rattle.std.specs.Prelude.{◌≡◌, ◌≤◌, ◌∷◌, [], List, length, IfOk, OnOk};
ghost use Rattle.cam_names.specs.Dependencies.{AreCounts, as_counts, greater_counts};
ghost use Rattle.cam_type.specs.declared.ObjectDecl.{ObjectDecl};
ghost use Rattle.cam_event.specs.declared.Deed.{Deed as DeedValue};
ghost use Rattle.cam_event.specs.declared.Deed.TheVariants.{Create, Ask, Commit};
ghost use Rattle.cam_event.specs.Gained.{visited};
ghost use Rattle.cam_live.specs.Ledger.{Keeps, addressed};
ghost use Rattle.cam_own.specs.Depending.{nodes_in, nodes_of, KeepsDeps, Depends};

use cam_base::NoMemory;
use cam_event::{Deed, Seen};
use cam_live::{AddressedCall, Ledger};
use cam_names::{Deps, Name};
use cam_type::{Objects, site_of};
use std::collections::HashMap;

/// The nodes on which each action depends, each at count 1.
pub(crate) type Depending = HashMap<Name, Deps>;

/// The nodes on which an action depends.
pub(crate) fn nodes_in(depending: &Depending, action: &Name) -> Deps
    ensures { result ≡ nodes_in depending.now action.now }
{
    match depending.get(action) {
        Some(deps) => *deps,
        None => Deps::none(),
    }
}

/// Both together.
fn union(one: &Deps, other: &Deps) -> Deps
    ensures { result ≡ greater_counts one.now other.now }
{
    Deps::of(&greater(&one.counts(), &other.counts()))
}

/// Of each node the greater count.
fn greater(one: &[u32; 8], other: &[u32; 8]) -> [u32; 8]
    requires one { AreCounts 0 one.now }
    requires other { AreCounts 0 other.now }
    ensures value { result ≡ greater_counts one.now other.now }
    ensures range { AreCounts 0 result }
{
    let mut counts = *one;
    for node in 0..8 {
        counts[node] = counts[node].max(other[node]);
    }
    counts
}

/// One node.
fn at(node: u8) -> Deps
    ensures { result ≡ as_counts ((node, 1) ∷ []) }
{
    if node < 1 || node > 8 {
        return Deps::none();
    }
    Deps::none().with(node, 1)
}

/// An action depends on these nodes besides.
fn depend(depending: &mut Depending, action: &Name, more: &Deps) -> Result<(), NoMemory>
    ensures { OnOk result (Depends action.now more.now depending.old depending.new) }
{
    let deps = union(&nodes_in(depending, action), more);
    depending.insert(*action, deps)?;
    Ok(())
}

/// A top action begins with its home.
fn note_create(depending: &mut Depending, action: &Name) -> Result<(), NoMemory>
    ensures { OnOk result ((objects : List ObjectDecl) (L : List DeedValue)
        → KeepsDeps objects L depending.old
        → KeepsDeps objects (Create action.now ∷ L) depending.new) }
{
    let is_top = action.depth() == 1;
    if !is_top {
        return Ok(());
    }
    let (node, _count) = action.home();
    depend(depending, action, &at(node))
}

/// A child begins with what its parent depends on, and its home.
fn note_ask(depending: &mut Depending, action: &Name, child: &Name) -> Result<(), NoMemory>
    ensures { OnOk result ((objects : List ObjectDecl) (L : List DeedValue)
        → KeepsDeps objects L depending.old
        → KeepsDeps objects (Ask action.now child.now ∷ L) depending.new) }
{
    // A name has a part.
    prove!(action.depth() > 0);
    let (node, _count) = child.home();
    let deps = union(&nodes_in(depending, action), &at(node));
    depend(depending, child, &deps)
}

/// An answer that was done adds the call's site.
fn note_done(
    depending: &mut Depending,
    objects: &Objects,
    action: &Name,
    call: &Option<AddressedCall>,
) -> Result<(), NoMemory>
    ensures { OnOk result (Depends action.now
        (nodes_of (visited objects.now (addressed call.now))) depending.old depending.new) }
{
    let deps = match call {
        Some(call) => at(site_of(objects, call.object)),
        None => Deps::none(),
    };
    depend(depending, action, &deps)
}

/// The commit of a child adds what the child depends on.
fn note_commit(depending: &mut Depending, action: &Name) -> Result<(), NoMemory>
    ensures { OnOk result ((objects : List ObjectDecl) (L : List DeedValue)
        → KeepsDeps objects L depending.old
        → KeepsDeps objects (Commit action.now ∷ L) depending.new) }
{
    // A name has a part.
    prove!(action.depth() > 0);
    match action.parent() {
        Some(parent) => {
            let deps = nodes_in(depending, action);
            depend(depending, &parent, &deps)
        }
        None => Ok(()),
    }
}

/// Keeps what one more deed says of dependencies.
pub(crate) fn note_gain(
    depending: &mut Depending,
    objects: &Objects,
    ledger: &Ledger,
    deed: &Deed,
) -> Result<(), NoMemory>
    ensures { OnOk result ((L : List DeedValue) → Keeps objects.now L ledger.now
        → KeepsDeps objects.now L depending.old
        → KeepsDeps objects.now (deed.now ∷ L) depending.new) }
{
    match deed {
        Deed::Create { action } => note_create(depending, action),
        Deed::Ask { action, child } => note_ask(depending, action, child),
        Deed::Got {
            action,
            number,
            seen: Seen::Done(_),
        } => note_done(depending, objects, action, &ledger.call(action, *number)),
        Deed::Commit { action } => note_commit(depending, action),
        _ => Ok(()),
    }
}
