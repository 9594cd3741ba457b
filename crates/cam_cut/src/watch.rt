//! What the deeds so far say of one action, as far as its view needs it.
ghost use Rattle.std.specs.Prelude.{◌≡◌, ◌∷◌, [], List, IfOk, OnOk};
ghost use Rattle.cam_names.specs.declared.name.Name.{Name};
ghost use Rattle.cam_event.specs.declared.Deed.{Deed};
ghost use Rattle.cam_event.specs.History.{after};
ghost use Rattle.cam_event.specs.Views.{step_of};
ghost use Rattle.cam_cut.specs.Watched.{Watches};
ghost use Rattle.cam_cut.specs.Witness.{is_some_step, gives_step};

use cam_base::NoMemory;
use cam_event::{Deed, Deeds};
use cam_names::Name;
use std::alloc::Global;
use std::collections::BTreeSet;

/// What the deeds so far say of one action.
#[derive(Drop)]
pub(crate) struct Watch {
    pub(crate) action: Name,
    pub(crate) created: bool,
    /// Its children that have asked to commit.
    pub(crate) finished: BTreeSet<Name>,
}

impl Watch {
    /// The action before any deed.
    pub(crate) fn new(alloc: Global, action: &Name) -> Watch
        ensures { Watches [] action.now result }
    {
        Watch {
            action: *action,
            created: false,
            finished: BTreeSet::new(alloc),
        }
    }

    /// Whether one more deed gives a step of the action's view.
    fn gives_step(&self, deed: &Deed) -> bool
        ensures { (L : List Deed) (a : Name) → Watches L a self.now
            → result ≡ is_some_step (step_of L deed.now a) }
    {
        match deed {
            Deed::Create { action }
            | Deed::Ask { action, .. }
            | Deed::Call { action, .. }
            | Deed::Got { action, .. }
            | Deed::AskCommit { action, .. }
            | Deed::AskAbort { action } => self.action == *action,
            Deed::Commit { action } => self.finished.contains(action),
            Deed::Abort { action } => self.action.is_parent(action),
            Deed::Perform { .. }
            | Deed::Bounce { .. }
            | Deed::Secure { .. }
            | Deed::Inform { .. }
            | Deed::Crash { .. } => false,
        }
    }

    /// Notes what one more deed says.
    fn note(&mut self, deed: &Deed) -> Result<(), NoMemory>
        ensures { OnOk result ((L : List Deed) (a : Name) → Watches L a self.old
            → Watches (deed.now ∷ L) a self.new) }
    {
        match deed {
            Deed::Create { action } => {
                let same = self.action == *action;
                self.created = self.created || same;
            }
            Deed::AskCommit { action, .. } => {
                if self.action.is_parent(action) {
                    self.finished.insert(*action)?;
                }
            }
            _ => {}
        }
        Ok(())
    }

    /// Notes the deeds of one more event; whether one of them gives a step of the action's view.
    pub(crate) fn go_over(&mut self, deeds: &Deeds) -> Result<bool, NoMemory>
        ensures { IfOk result (λ gives. (L : List Deed) (a : Name) → Watches L a self.old
            → (gives ≡ gives_step L deeds.now a) × Watches (after L deeds.now) a self.new) }
    {
        let mut gives = false;
        for deed in deeds.as_slice() {
            let step = self.gives_step(deed);
            gives = gives || step;
            self.note(deed)?;
        }
        Ok(gives)
    }
}
