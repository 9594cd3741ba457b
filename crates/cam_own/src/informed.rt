//! The outcomes of which a site was informed, in order, deed by deed.
ghost use Rattle.std.specs.Prelude.{◌∷◌, [], ℕ, List, OnOk};
ghost use Rattle.cam_event.specs.declared.Deed.{Deed as DeedValue};
ghost use Rattle.cam_own.specs.Informed.{KeepsInformed};

use cam_base::{NoMemory, Sequence};
use cam_event::Deed;
use cam_names::Name;
use std::alloc::Global;

/// The names of whose commit, and of whose abort, a site was informed, in order.
#[derive(Drop)]
pub struct Informed {
    pub commits: Sequence<Name>,
    pub aborts: Sequence<Name>,
}

impl Informed {
    /// Nothing yet.
    pub(crate) fn new(alloc: Global) -> Informed
        ensures { (s : ℕ) → KeepsInformed [] s result }
    {
        Informed {
            commits: Sequence::new(alloc),
            aborts: Sequence::new(alloc),
        }
    }

    /// Keeps what one more deed informs the node of.
    pub(crate) fn note(&mut self, node: u8, deed: &Deed) -> Result<(), NoMemory>
        ensures { OnOk result ((L : List DeedValue) → KeepsInformed L node self.old
            → KeepsInformed (deed.now ∷ L) node self.new) }
    {
        match deed {
            Deed::Inform {
                site,
                name,
                committed: true,
            } if *site == node => self.commits.push_copy(name),
            Deed::Inform {
                site,
                name,
                committed: false,
            } if *site == node => self.aborts.push_copy(name),
            _ => Ok(()),
        }
    }
}
