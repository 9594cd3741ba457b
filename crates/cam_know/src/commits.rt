//! The set of known commits, each with its dependencies.
ghost use Rattle.std.specs.Prelude.{◌≡◌, ◌+◌, ◌≤◌, ◌||◌, [], length, OnOk};
ghost use Rattle.std.specs.List.{list_any};
ghost use Rattle.cam_know.specs.declared.commits.Commit.{Commit as CommitValue};
ghost use Rattle.cam_know.specs.Commits.{has_commit, is_commit, commits_room, HasSame, HasCommitsOf};

use crate::Outcome;
use cam_base::NoMemory;
use cam_names::{Deps, Name};
use std::alloc::Global;
use std::collections::HashSet;

/// A commit with its dependencies, as it is looked up.
#[derive(Clone, Copy, PartialEq, Eq, Hash)]
pub(crate) struct Commit {
    pub(crate) name: Name,
    pub(crate) deps: Deps,
}

impl Commit {
    fn of(name: &Name, deps: &Deps) -> Commit
        ensures { result ≡ record { name = name.now; deps = deps.now } }
    {
        Commit {
            name: *name,
            deps: *deps,
        }
    }
}

/// The known commits, each with its dependencies, found by their hashes: one name may have several.
#[derive(Drop)]
pub(crate) struct Commits {
    commits: HashSet<Commit>,
}

impl Commits {
    /// No commit.
    pub(crate) fn new(alloc: Global) -> Commits
        ensures { HasCommitsOf [] result }
    {
        Commits {
            commits: HashSet::new(alloc),
        }
    }

    /// This very commit is known.
    pub(crate) fn has(&self, name: &Name, deps: &Deps) -> bool
        ensures { result ≡ has_commit self.now (record { name = name.now; deps = deps.now }) }
    {
        self.commits.contains(&Commit::of(name, deps))
    }

    /// Makes room for this many more commits. What is known stays the same.
    pub(crate) fn reserve(&mut self, count: usize) -> Result<(), NoMemory>
        ensures same { HasSame self.old self.new }
        ensures ok { OnOk result (count ≤ commits_room self.new) }
    {
        self.commits.reserve(count)?;
        Ok(())
    }

    /// One more outcome, for which there is room, so that it takes no memory.
    fn note(&mut self, outcome: &Outcome)
        requires { 1 ≤ commits_room self.old }
        ensures value { (c : CommitValue) →
            has_commit self.new c ≡ (has_commit self.old c || is_commit c outcome.now) }
        ensures room { commits_room self.old ≤ commits_room self.new + 1 }
    {
        if let Outcome::Committed(name, deps) = outcome {
            let _ = self.commits.insert(Commit::of(name, deps));
        }
    }

    /// These outcomes, for which there is room.
    pub(crate) fn note_all(&mut self, outcomes: &[Outcome])
        requires { length outcomes.now ≤ commits_room self.old }
        ensures { (c : CommitValue) →
            has_commit self.new c ≡ (has_commit self.old c || list_any (is_commit c) outcomes.now) }
    {
        for outcome in outcomes {
            self.note(outcome);
        }
    }
}
