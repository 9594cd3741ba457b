//! Names of actions in order, and a table by which one is found.
ghost use Rattle.std.specs.Prelude.{◌≡◌, ◌+◌, ◌≤◌, [], OnOk, IfOk};
ghost use Rattle.cam_know.specs.Known.{lift_by};
ghost use Rattle.cam_locks.specs.Names.{has_name, with_name, AreKeys};

use cam_base::NoMemory;
use cam_names::Name;
use std::alloc::Global;
use std::collections::HashSet;
use std::marker::Model;

/// Names of actions, none of them twice, in the order in which they came in. Room for more can be reserved. A table of hashes stands
/// beside the list, so that a question costs no more where there are many.
#[derive(Drop)]
pub(crate) struct Names {
    names: Vec<Name>,
    keys: HashSet<Name>,
}

impl Model for Names {
    ghost use Rattle.std.specs.Prelude.{◌-◌, min, vec_len};
    ghost use Rattle.std.specs.Vec.{vec_capacity};
    ghost use Rattle.std.specs.HashSet.{spare};
    ghost use Rattle.cam_locks.specs.Names.{NamesView, AreKeys};

    ghost Value = { NamesView };

    ghost view = { λ n. record {
      names = n.names.items;
      spare = min (vec_capacity n.names - vec_len n.names) (spare n.keys);
    } };

    ghost invariant = { λ n. AreKeys n.keys.keys n.names.items };
}

impl Names {
    pub(crate) fn new(alloc: Global) -> Names
        ensures { result.names ≡ [] }
    {
        Names {
            names: Vec::new(alloc),
            keys: HashSet::new(alloc),
        }
    }

    /// Whether the name is among them.
    pub(crate) fn contains(&self, name: &Name) -> bool
        ensures { result ≡ has_name self.now.names name.now }
    {
        self.keys.contains(name)
    }

    /// Makes room for this many more.
    pub(crate) fn reserve(&mut self, count: usize) -> Result<(), NoMemory>
        ensures names { self.new.names ≡ self.old.names }
        ensures ok { OnOk result (count ≤ self.new.spare) }
        ensures kept { self.old.spare ≤ self.new.spare }
    {
        self.names.reserve(count)?;
        self.keys.reserve(count)?;
        Ok(())
    }

    /// Adds a name, for which there is room, where it is not among them. It takes no memory.
    pub(crate) fn put(&mut self, name: &Name)
        requires { 1 ≤ self.old.spare }
        ensures names { self.new.names ≡ with_name self.old.names name.now }
        ensures spare { self.old.spare ≤ self.new.spare + 1 }
    {
        if !self.contains(name) {
            // There is room, so this succeeds.
            let _ = self.keys.insert(*name);
            self.names.push_reserved(*name);
        }
    }

    /// Adds a name where it is not among them.
    pub(crate) fn add(&mut self, name: &Name) -> Result<(), NoMemory>
        ensures ok { OnOk result (self.new.names ≡ with_name self.old.names name.now) }
    {
        self.reserve(1)?;
        self.put(name);
        Ok(())
    }

    /// The same names.
    pub(crate) fn copy(&self) -> Result<Names, NoMemory>
        ensures { IfOk result (λ copy. copy.names ≡ self.now.names) }
    {
        let alloc = *self.names.allocator();
        Ok(Names {
            names: self.names.iter().copied().collect(alloc)?,
            keys: keys_of(alloc, self.names.as_slice())?,
        })
    }

    /// Climbs from the name to the parent while the present one is among the names. None if that goes past the top.
    pub(crate) fn lift(&self, name: &Name) -> Option<Name>
        ensures { result ≡ lift_by (has_name self.now.names) name.now }
    {
        let mut present = *name;
        for _ in 1..name.depth() {
            if !self.contains(&present) {
                return Some(present);
            }
            present = present.parent()?;
        }
        if self.contains(&present) {
            return None;
        }
        Some(present)
    }
}

/// The table of hashes of these names.
fn keys_of(alloc: Global, names: &[Name]) -> Result<HashSet<Name>, NoMemory>
    ensures { IfOk result (λ keys. AreKeys keys.keys names.now) }
{
    let mut keys = HashSet::new(alloc);
    for name in names {
        keys.insert(*name)?;
    }
    Ok(keys)
}
