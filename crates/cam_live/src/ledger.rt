//! The ledger: what is kept of a list of deeds, and what it tells of live operations.
ghost use Rattle.std.specs.Prelude.{◌≡◌, ◌∷◌, [], true, false, List, IfOk, OnOk, OnErr};
ghost use Rattle.cam_type.specs.declared.ObjectDecl.{ObjectDecl};
ghost use Rattle.cam_event.specs.declared.Deed.{Deed};
ghost use Rattle.cam_event.specs.History.{after, count, call_of, informed};
ghost use Rattle.cam_event.specs.Live.{live, lift};
ghost use Rattle.cam_live.specs.Ledger.{Keeps, addressed};
ghost use Rattle.cam_live.specs.Tables.{first_secured};
ghost use Rattle.cam_live.specs.Settled.{settled_operations};

use crate::performed::{Operations, PerformedList, live_of, past_top_of, perform};
use crate::tables::{AddressedCall, Tables, count_of, lift};
use cam_base::NoMemory;
use cam_event::{Deed, Deeds};
use cam_names::Name;
use cam_type::Objects;
use std::alloc::Global;

/// What is kept of a list of deeds: tables of what they say, and the operations that they perform.
#[derive(Drop)]
pub struct Ledger {
    tables: Tables,
    performed: PerformedList,
}

impl Ledger {
    /// The ledger before any deed.
    pub fn new(alloc: Global) -> Ledger
        ensures { (objects : List ObjectDecl) → Keeps objects [] result }
    {
        Ledger {
            tables: Tables::new(alloc),
            performed: PerformedList::new(alloc),
        }
    }

    /// Takes one more deed over. The deeds may be any list. It fails only if memory runs out, and the
    /// ledger then keeps what it kept.
    pub fn note(&mut self, objects: &Objects, deed: &Deed) -> Result<(), NoMemory>
        ensures noted { OnOk result ((L : List Deed) → Keeps objects.now L self.old
            → Keeps objects.now (deed.now ∷ L) self.new) }
        ensures failed { OnErr result ((L : List Deed) → Keeps objects.now L self.old
            → Keeps objects.now L self.new) }
    {
        match deed {
            Deed::Perform {
                action,
                number,
                answer,
            } => {
                let performed = &mut self.performed;
                perform(objects, &self.tables, performed, action, *number, *answer)
            }
            _ => self.tables.note(deed),
        }
    }

    /// Climbs from the action to its parent while the site was informed of the commit of the present
    /// one. None if that goes past the top.
    pub fn lift(&self, site: u8, action: &Name) -> Option<Name>
        ensures { (objects : List ObjectDecl) (L : List Deed) → Keeps objects L self.now
            → result ≡ lift L site action.now }
    {
        lift(&self.tables.committed, site, action)
    }

    /// The count of a site: 1, and 1 more for each crash.
    pub fn count(&self, site: u8) -> u64
        ensures { (objects : List ObjectDecl) (L : List Deed) → Keeps objects L self.now
            → result ≡ count L site }
    {
        count_of(&self.tables.counts, site)
    }

    /// What the action's call of this number asked.
    pub fn call(&self, action: &Name, number: u32) -> Option<AddressedCall>
        ensures { (objects : List ObjectDecl) (L : List Deed) → Keeps objects L self.now
            → addressed result ≡ call_of L action.now number }
    {
        self.tables.calls.get(&(*action, number)).copied()
    }

    /// The count of the site when the family was first secured there.
    pub fn first_secured(&self, site: u8, family: &Name) -> Option<u64>
        ensures { (objects : List ObjectDecl) (L : List Deed) → Keeps objects L self.now
            → result ≡ first_secured L site family.now }
    {
        self.tables.secured.get(&(site, *family)).copied()
    }

    /// Whether the site was informed of the action's commit.
    pub fn has_commit(&self, site: u8, name: &Name) -> bool
        ensures { (objects : List ObjectDecl) (L : List Deed) → Keeps objects L self.now
            → result ≡ informed L site name.now true }
    {
        self.tables.committed.contains(&(site, *name))
    }

    /// Whether the site was informed of the action's abort.
    pub fn has_abort(&self, site: u8, name: &Name) -> bool
        ensures { (objects : List ObjectDecl) (L : List Deed) → Keeps objects L self.now
            → result ≡ informed L site name.now false }
    {
        self.tables.aborted.contains(&(site, *name))
    }

    /// The operations that are live now, of all objects, in the order in which they were performed.
    pub fn live(&self, alloc: Global, objects: &Objects) -> Result<Operations, NoMemory>
        ensures { IfOk result (λ operations. (L : List Deed) → Keeps objects.now L self.now
            → operations ≡ live objects.now L) }
    {
        let live = live_of(alloc, objects, &self.tables, &self.performed)?;
        Ok(live)
    }

    /// Those of the live operations that are handed up past the top.
    pub fn settled(&self, alloc: Global, objects: &Objects) -> Result<Operations, NoMemory>
        ensures { IfOk result (λ operations. (L : List Deed) → Keeps objects.now L self.now
            → operations ≡ settled_operations objects.now L) }
    {
        let live = self.live(alloc, objects)?;
        let settled = past_top_of(alloc, objects, &self.tables, &live)?;
        Ok(settled)
    }
}

/// The ledger of a list of deeds.
fn ledger_of(alloc: Global, deeds: &Deeds, objects: &Objects) -> Result<Ledger, NoMemory>
    ensures { IfOk result (Keeps objects.now (after [] deeds.now)) }
{
    let mut ledger = Ledger::new(alloc);
    for deed in deeds.as_slice() {
        ledger.note(objects, deed)?;
    }
    Ok(ledger)
}

/// The operations that are live after the deeds, of all objects, in the order in which they were
/// performed. The deeds may be any list. It fails only if memory runs out.
pub fn live(alloc: Global, deeds: &Deeds, objects: &Objects) -> Result<Operations, NoMemory>
    ensures { IfOk result (λ operations. operations ≡ live objects.now (after [] deeds.now)) }
{
    let ledger = ledger_of(alloc, deeds, objects)?;
    let live = ledger.live(alloc, objects)?;
    Ok(live)
}

/// The live operations that are handed up past the top after the deeds, as [`live`] has them: what
/// they make of the objects stays whatever runs on. It fails only if memory runs out.
pub fn settled(alloc: Global, deeds: &Deeds, objects: &Objects) -> Result<Operations, NoMemory>
    ensures { IfOk result (λ operations.
        operations ≡ settled_operations objects.now (after [] deeds.now)) }
{
    let ledger = ledger_of(alloc, deeds, objects)?;
    let settled = ledger.settled(alloc, objects)?;
    Ok(settled)
}
