//! What is kept of the deeds so far: a table for each thing that a line asks.
ghost use Rattle.std.specs.Prelude.{◌≡◌, ◌∷◌, [], List, OnOk};
ghost use Rattle.cam_type.specs.declared.ObjectDecl.{ObjectDecl};
ghost use Rattle.cam_event.specs.declared.Deed.{Deed};
ghost use Rattle.cam_plain.specs.Kept.{IsKept};

use crate::actions::{Actions, note_action};
use crate::dependencies::{Dependencies, take_deed};
use crate::marks::{MarkTable, note_mark};
use crate::replies::Replies;
use crate::tops::{Tops, note_top};
use cam_base::NoMemory;
use cam_event::Deed;
use cam_live::Ledger;
use cam_type::Objects;
use std::alloc::Global;

/// What is kept of the deeds so far.
#[derive(Drop)]
pub(crate) struct Tables {
    /// Calls, counts of sites, secured families and Informs.
    pub(crate) ledger: Ledger,
    /// The operations that were performed.
    pub(crate) marks: MarkTable,
    pub(crate) actions: Actions,
    pub(crate) tops: Tops,
    pub(crate) replies: Replies,
    /// What the actions depend on.
    pub(crate) dependencies: Dependencies,
}

impl Tables {
    /// Before any deed.
    pub(crate) fn new(alloc: Global) -> Tables
        ensures { (objects : List ObjectDecl) → IsKept objects [] result }
    {
        let ledger = Ledger::new(alloc);
        let marks = MarkTable::new(alloc);
        let actions = Actions::new(alloc);
        let tops = Tops::new(alloc);
        let replies = Replies::new(alloc);
        let dependencies = Dependencies::new(alloc);
        Tables {
            ledger,
            marks,
            actions,
            tops,
            replies,
            dependencies,
        }
    }

    /// Takes one more deed over.
    pub(crate) fn note(
        &mut self,
        alloc: Global,
        objects: &Objects,
        deed: &Deed,
    ) -> Result<(), NoMemory>
        ensures { OnOk result ((L : List Deed) → IsKept objects.now L self.old
            → IsKept objects.now (deed.now ∷ L) self.new) }
    {
        take_deed(alloc, &mut self.dependencies, objects, &self.ledger, deed)?;
        note_mark(&mut self.marks, alloc, objects, &self.ledger, deed)?;
        self.ledger.note(objects, deed)?;
        note_action(&mut self.actions, deed)?;
        note_top(&mut self.tops, deed)?;
        self.replies.note(deed)
    }
}
