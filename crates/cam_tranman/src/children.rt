//! The open children of all actions.
ghost use Rattle.std.specs.Prelude.{◌≡◌, ◌≤◌, ◌<◌, ◌^◌, ◌&&◌, ◌||◌, not, false, if◌then◌else◌, []};
ghost use Rattle.std.specs.Prelude.{◌∷◌, length, OnOk, IsOk, IsPermutation};
ghost use Rattle.std.specs.List.{list_any};
ghost use Rattle.std.specs.HashMap.{spare};
ghost use Rattle.std.specs.HashSet.{contains, spare as key_spare};
ghost use Rattle.cam_names.specs.declared.name.Name.{Name as NameValue};
ghost use Rattle.cam_names.specs.Names.{name_eq, is_child};
ghost use Rattle.cam_tranman.specs.Children.{noted};

use cam_base::NoMemory;
use cam_names::Name;
use std::alloc::Global;
use std::collections::{HashMap, HashSet};
use std::marker::Model;

/// The open children of all actions, found by their hashes, and how many of them each action has.
#[derive(Drop)]
pub(crate) struct Children {
    names: HashSet<Name>,
    counts: HashMap<Name, usize>,
}

impl Model for Children {
    ghost use Rattle.std.specs.Prelude.{min};
    ghost use Rattle.std.specs.HashMap.{spare};
    ghost use Rattle.std.specs.HashSet.{spare as key_spare};
    ghost use Rattle.cam_tranman.specs.Children.{ChildrenView, AreCounted};

    ghost Value = { ChildrenView };

    ghost view = { λ c. record {
      names = c.names.keys;
      room = min (key_spare c.names) (spare c.counts);
    } };

    ghost invariant = { λ c. AreCounted c.names.keys c.counts };
}

impl Children {
    pub(crate) fn new(alloc: Global) -> Children
        ensures { result.names ≡ [] }
    {
        Children {
            names: HashSet::new(alloc),
            counts: HashMap::new(alloc),
        }
    }

    /// Whether the child is among them.
    pub(crate) fn contains(&self, child: &Name) -> bool
        ensures { result ≡ list_any (name_eq child.now) self.now.names }
    {
        self.names.contains(child)
    }

    /// Whether a child of the action is among them.
    pub(crate) fn has_any(&self, action: &Name) -> bool
        ensures { result ≡ list_any (is_child action.now) self.now.names }
    {
        // A name has a part.
        prove!(action.depth() > 0);
        number_in(&self.counts, action) != 0
    }

    /// Makes room for one more.
    pub(crate) fn reserve(&mut self) -> Result<(), NoMemory>
        ensures same { (b : NameValue) → list_any (name_eq b) self.new.names
            ≡ list_any (name_eq b) self.old.names }
        ensures ok { OnOk result (1 ≤ self.new.room) }
        ensures succeeds { 1 ≤ self.old.room → IsOk result }
    {
        self.names.reserve(1)?;
        self.counts.reserve(1)?;
        Ok(())
    }

    /// One more child, for which there is room.
    pub(crate) fn insert(&mut self, child: &Name)
        requires { 1 ≤ self.old.room }
        ensures { (b : NameValue) → list_any (name_eq b) self.new.names
            ≡ (name_eq child.now b || list_any (name_eq b) self.old.names) }
    {
        if self.names.contains(child) {
            return;
        }
        let _len = put(&mut self.names, child);
        if let Some(parent) = child.parent() {
            let number = number_in(&self.counts, &parent);
            set_number(&mut self.counts, &parent, number + 1);
        }
    }

    /// The child is open no longer.
    pub(crate) fn remove(&mut self, child: &Name)
        ensures { (b : NameValue) → list_any (name_eq b) self.new.names
            ≡ (not (name_eq child.now b) && list_any (name_eq b) self.old.names) }
    {
        if !self.names.remove(child) {
            return;
        }
        if let Some(parent) = child.parent() {
            let number = number_in(&self.counts, &parent);
            set_number(&mut self.counts, &parent, number - 1);
        }
    }
}

/// Puts a name that is not among them, for which there is room. Their number then.
fn put(names: &mut HashSet<Name>, name: &Name) -> usize
    requires room { 1 ≤ key_spare names.old }
    requires absent { contains name_eq names.old name.now ≡ false }
    ensures keys { IsPermutation (name.now ∷ names.old.keys) names.new.keys }
    ensures len { result ≡ length names.new.keys }
    ensures small { result < 2 ^ 63 }
{
    let _ = names.insert(*name);
    names.len()
}

/// The number that is noted of an action.
fn number_in(counts: &HashMap<Name, usize>, action: &Name) -> usize
    ensures { result ≡ noted counts.now action.now }
{
    counts.get(action).copied().unwrap_or(0)
}

/// Notes a number of an action, of which one is noted, or there is room.
fn set_number(counts: &mut HashMap<Name, usize>, action: &Name, number: usize)
    requires { noted counts.old action.now ≡ 0 → 1 ≤ spare counts.old }
    ensures { (a : NameValue) → noted counts.new a
        ≡ (if name_eq action.now a then number else noted counts.old a) }
{
    let _ = counts.insert(*action, number);
}
