//! The index of what is known: of each action how it ended, and on what the commits of its children depend.
ghost use Rattle.std.specs.Prelude.{◌≡◌, ◌+◌, ◌*◌, ◌≤◌, if◌then◌else◌, List, [], ◌∷◌, ◌++◌, length, OnOk};
ghost use Rattle.cam_names.specs.declared.name.Name.{Name as NameValue};
ghost use Rattle.cam_names.specs.Names.{name_eq};
ghost use Rattle.cam_know.specs.declared.Outcome.{Outcome as OutcomeValue};
ghost use Rattle.cam_know.specs.Index.{blank, with_abort, with_commit, with_child, entry_at, index_room, SaysSame, IsIndexOf};

use crate::Outcome;
use crate::oldest::Oldest;
use cam_base::NoMemory;
use cam_names::{Deps, Name};
use std::alloc::Global;
use std::collections::HashMap;

/// What is known of one action: how it ended, and on what the commits of its children depend.
#[derive(Clone, Copy)]
pub(crate) struct Entry {
    pub(crate) aborted: bool,
    pub(crate) committed: bool,
    /// The least counts of the known commits of its children.
    pub(crate) oldest: Oldest,
}

impl Entry {
    fn blank() -> Entry
        ensures { result ≡ blank }
    {
        Entry {
            aborted: false,
            committed: false,
            oldest: Oldest::none(),
        }
    }

    fn with_abort(&self) -> Entry
        ensures { result ≡ with_abort self.now }
    {
        let mut entry = *self;
        entry.aborted = true;
        entry
    }

    fn with_commit(&self) -> Entry
        ensures { result ≡ with_commit self.now }
    {
        let mut entry = *self;
        entry.committed = true;
        entry
    }

    fn with_child(&self, deps: &Deps) -> Entry
        ensures { result ≡ with_child deps.now self.now }
    {
        let mut entry = *self;
        entry.oldest = self.oldest.join(&Oldest::of(deps));
        entry
    }
}

/// The entries of actions, found by the hash of the name.
#[derive(Drop)]
pub(crate) struct Index {
    entries: HashMap<Name, Entry>,
}

impl Index {
    /// The index of no outcome.
    pub(crate) fn new(alloc: Global) -> Index
        ensures { IsIndexOf [] result }
    {
        Index {
            entries: HashMap::new(alloc),
        }
    }

    /// What is known of this action.
    pub(crate) fn entry(&self, name: &Name) -> Entry
        ensures { result ≡ entry_at self.now name.now }
    {
        match self.entries.get(name) {
            Some(entry) => *entry,
            None => Entry::blank(),
        }
    }

    /// Makes room for the entries of this many more actions. What the index says stays the same.
    pub(crate) fn reserve(&mut self, count: usize) -> Result<(), NoMemory>
        ensures same { SaysSame self.old self.new }
        ensures ok { OnOk result (count ≤ index_room self.new) }
    {
        self.entries.reserve(count)?;
        Ok(())
    }

    /// Changes the entry of an action. There is room for it, so that it takes no memory.
    fn set(&mut self, name: &Name, entry: &Entry)
        requires { 1 ≤ index_room self.old }
        ensures value { (a : NameValue) →
            entry_at self.new a ≡ (if name_eq name.now a then entry.now else entry_at self.old a) }
        ensures room { index_room self.old ≤ index_room self.new + 1 }
    {
        let _ = self.entries.insert(*name, *entry);
    }

    /// One more outcome. It changes at most two entries, for which there is room.
    fn note(&mut self, outcome: &Outcome)
        requires { 2 ≤ index_room self.old }
        ensures value { (os : List OutcomeValue) →
            IsIndexOf os self.old → IsIndexOf (os ++ outcome.now ∷ []) self.new }
        ensures room { index_room self.old ≤ index_room self.new + 2 }
    {
        match outcome {
            Outcome::Aborted(name) => self.set(name, &self.entry(name).with_abort()),
            Outcome::Committed(name, deps) => {
                self.set(name, &self.entry(name).with_commit());
                if let Some(parent) = name.parent() {
                    self.set(&parent, &self.entry(&parent).with_child(deps));
                }
            }
        }
    }

    /// These outcomes in turn, for which there is room.
    pub(crate) fn note_all(&mut self, outcomes: &[Outcome])
        requires { 2 * length outcomes.now ≤ index_room self.old }
        ensures { (os : List OutcomeValue) →
            IsIndexOf os self.old → IsIndexOf (os ++ outcomes.now) self.new }
    {
        for outcome in outcomes {
            self.note(outcome);
        }
    }
}
