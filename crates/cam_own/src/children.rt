//! The open children of each action, deed by deed.
ghost use Rattle.std.specs.Prelude.{◌≡◌, ◌∷◌, ◌++◌, [], true, false, if◌then◌else◌, List, IfOk, OnOk};
ghost use Rattle.std.specs.List.{list_any};
ghost use Rattle.cam_names.specs.declared.name.Name.{Name as NameValue};
ghost use Rattle.cam_names.specs.Names.{name_eq};
ghost use Rattle.cam_event.specs.declared.Deed.{Deed as DeedValue};
ghost use Rattle.cam_own.specs.Children.{is_parent, without, children_in, KeepsChildren, Puts};

use cam_base::{NoMemory, Sequence};
use cam_event::Deed;
use cam_names::Name;
use std::alloc::Global;
use std::collections::HashMap;

/// Names, in order.
pub(crate) type Names = Sequence<Name>;

/// The open children of each action, in the order in which it asked for them.
pub(crate) type Children = HashMap<Name, Names>;

/// Whether the action has an open child.
#[tactic(auto, using(crate::proofs::Putting::any_there))]
pub(crate) fn has_open(children: &Children, action: &Name) -> bool
    ensures { result ≡ list_any (λ c. true) (children_in children.now action.now) }
{
    match children.get(action) {
        Some(names) => names.len() != 0,
        None => false,
    }
}

/// Whether the name is among them.
fn has_name(names: &Names, name: &Name) -> bool
    ensures { result ≡ list_any (name_eq name.now) names.now }
{
    for other in names.as_slice() {
        if *name == *other {
            return true;
        }
    }
    false
}

/// Whether the action has this open child.
pub(crate) fn is_open(children: &Children, action: &Name, child: &Name) -> bool
    ensures { result ≡ list_any (name_eq child.now) (children_in children.now action.now) }
{
    match children.get(action) {
        Some(names) => has_name(names, child),
        None => false,
    }
}

/// Takes out the open children of an action.
fn take_out(children: &mut Children, alloc: Global, action: &Name) -> Names
    ensures value { result ≡ children_in children.old action.now }
    ensures others { (a : NameValue) → name_eq action.now a ≡ false
        → children_in children.new a ≡ children_in children.old a }
{
    match children.remove(action) {
        Some(names) => names,
        None => Names::new(alloc),
    }
}

/// The names but for this one.
fn without(alloc: Global, names: &Names, name: &Name) -> Result<Names, NoMemory>
    ensures { IfOk result (λ kept. kept ≡ without name.now names.now) }
{
    let mut kept = Names::new(alloc);
    for other in names.as_slice() {
        if *name != *other {
            kept.push_copy(other)?;
        }
    }
    Ok(kept)
}

/// An action asks for a child.
fn note_ask(
    children: &mut Children,
    alloc: Global,
    action: &Name,
    child: &Name,
) -> Result<(), NoMemory>
    ensures { OnOk result (Puts action.now
        (children_in children.old action.now ++ child.now ∷ []) children.old children.new) }
{
    let mut names = take_out(children, alloc, action);
    names.push_copy(child)?;
    children.insert(*action, names)?;
    Ok(())
}

/// A child of an action is decided.
fn note_decided(
    children: &mut Children,
    alloc: Global,
    action: &Name,
    child: &Name,
) -> Result<(), NoMemory>
    ensures { OnOk result (Puts action.now
        (without child.now (children_in children.old action.now)) children.old children.new) }
{
    let names = take_out(children, alloc, action);
    let kept = without(alloc, &names, child)?;
    children.insert(*action, kept)?;
    Ok(())
}

/// An action is decided: it is no open child of its parent any longer.
fn note_decision(children: &mut Children, alloc: Global, action: &Name) -> Result<(), NoMemory>
    ensures { OnOk result ((a : NameValue) → children_in children.new a
        ≡ (if is_parent a action.now then without action.now (children_in children.old a)
        else children_in children.old a)) }
{
    match action.parent() {
        Some(parent) => note_decided(children, alloc, &parent, action),
        None => Ok(()),
    }
}

/// Keeps what one more deed says of children.
pub(crate) fn note_child(
    children: &mut Children,
    alloc: Global,
    deed: &Deed,
) -> Result<(), NoMemory>
    ensures { OnOk result ((L : List DeedValue) → KeepsChildren L children.old
        → KeepsChildren (deed.now ∷ L) children.new) }
{
    match deed {
        Deed::Ask { action, child } => note_ask(children, alloc, action, child),
        Deed::Commit { action } => note_decision(children, alloc, action),
        Deed::Abort { action } => note_decision(children, alloc, action),
        _ => Ok(()),
    }
}
