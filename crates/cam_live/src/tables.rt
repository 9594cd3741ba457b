//! Tables of what the deeds so far say.
ghost use Rattle.std.specs.Prelude.{◌≡◌, ◌∷◌, [], ℕ, List, OnOk, OnErr};
ghost use Rattle.std.specs.BTreeSet.{contains};
ghost use Rattle.std.specs.List.{list_any};
ghost use Rattle.cam_names.specs.Names.{ancestors};
ghost use Rattle.cam_know.specs.Known.{lift_by};
ghost use Rattle.cam_event.specs.declared.Deed.{Deed};
ghost use Rattle.cam_event.specs.declared.Deed.TheVariants.{Call, Secure, Crash};
ghost use Rattle.cam_live.specs.Tables.{site_name_cmp, count_in, AddsName, HasSameNames};
ghost use Rattle.cam_live.specs.Tables.{TellsCalls, TellsCounts, TellsSecured, Tells};

use cam_base::NoMemory;
use cam_event::Deed;
use cam_names::Name;
use cam_type::Op;
use std::alloc::Global;
use std::collections::{BTreeMap, BTreeSet};

/// What a call asked, and the count at which the object's site was addressed.
#[derive(Clone, Copy, Debug)]
pub struct AddressedCall {
    pub object: u8,
    pub op: Op,
    pub count: u32,
}

/// What each call asked, by the action and the call's number.
pub(crate) type Calls = BTreeMap<(Name, u32), AddressedCall>;

/// The counts of the sites that have crashed.
pub(crate) type Counts = BTreeMap<u8, u64>;

/// The count of a site when a family was first secured there.
pub(crate) type Secured = BTreeMap<(u8, Name), u64>;

/// Names at sites.
pub(crate) type SiteNames = BTreeSet<(u8, Name)>;

/// What the deeds so far say.
#[derive(Drop)]
pub(crate) struct Tables {
    pub(crate) calls: Calls,
    pub(crate) counts: Counts,
    pub(crate) secured: Secured,
    /// The actions whose abort the site was informed of.
    pub(crate) aborted: SiteNames,
    /// The actions whose commit the site was informed of.
    pub(crate) committed: SiteNames,
}

impl Tables {
    /// The tables before any deed.
    pub(crate) fn new(alloc: Global) -> Tables
        ensures { Tells [] result }
    {
        Tables {
            calls: Calls::new(alloc),
            counts: Counts::new(alloc),
            secured: Secured::new(alloc),
            aborted: SiteNames::new(alloc),
            committed: SiteNames::new(alloc),
        }
    }

    /// Keeps what one more deed says. If memory runs out, the tables say what they said.
    pub(crate) fn note(&mut self, deed: &Deed) -> Result<(), NoMemory>
        ensures noted { OnOk result ((L : List Deed) → Tells L self.old
            → Tells (deed.now ∷ L) self.new) }
        ensures failed { OnErr result ((L : List Deed) → Tells L self.old → Tells L self.new) }
    {
        match deed {
            Deed::Call {
                action,
                number,
                object,
                op,
                count,
            } => {
                let call = AddressedCall {
                    object: *object,
                    op: *op,
                    count: *count,
                };
                note_call(&mut self.calls, action, *number, &call)
            }
            Deed::Secure { family, site, .. } => {
                note_secure(&mut self.secured, &self.counts, *site, family)
            }
            Deed::Crash { site } => note_crash(&mut self.counts, *site),
            Deed::Inform {
                site,
                name,
                committed: false,
            } => note_name(&mut self.aborted, *site, name),
            Deed::Inform {
                site,
                name,
                committed: true,
            } => note_name(&mut self.committed, *site, name),
            _ => Ok(()),
        }
    }
}

/// Keeps what a call asked.
fn note_call(
    calls: &mut Calls,
    action: &Name,
    number: u32,
    call: &AddressedCall,
) -> Result<(), NoMemory>
    ensures noted { OnOk result ((L : List Deed) → TellsCalls L calls.old
        → TellsCalls (Call action.now number call.now.object call.now.op call.now.count ∷ L)
        calls.new) }
    ensures failed { OnErr result ((L : List Deed) → TellsCalls L calls.old
        → TellsCalls L calls.new) }
{
    calls.insert((*action, number), *call)?;
    Ok(())
}

/// The count of a site.
pub(crate) fn count_of(counts: &Counts, site: u8) -> u64
    ensures { result ≡ count_in counts.now site }
{
    match counts.get(&site) {
        Some(count) => *count,
        None => 1,
    }
}

/// Raises the count of a site that crashes. No memory holds so many deeds that the count could wrap.
fn note_crash(counts: &mut Counts, site: u8) -> Result<(), NoMemory>
    ensures noted { OnOk result ((L : List Deed) → TellsCounts L counts.old
        → TellsCounts (Crash site ∷ L) counts.new) }
    ensures failed { OnErr result ((L : List Deed) → TellsCounts L counts.old
        → TellsCounts L counts.new) }
{
    match count_of(counts, site).checked_add(1) {
        Some(next) => {
            counts.insert(site, next)?;
            Ok(())
        }
        None => Err(NoMemory),
    }
}

/// Keeps the count at which a family is secured at a site for the first time.
fn note_secure(
    secured: &mut Secured,
    counts: &Counts,
    site: u8,
    family: &Name,
) -> Result<(), NoMemory>
    ensures noted { OnOk result ((L : List Deed) (count : ℕ) → TellsCounts L counts.now
        → TellsSecured L secured.old
        → TellsSecured (Secure family.now site count ∷ L) secured.new) }
    ensures failed { OnErr result ((L : List Deed) → TellsSecured L secured.old
        → TellsSecured L secured.new) }
{
    let key = (site, *family);
    if !secured.contains_key(&key) {
        secured.insert(key, count_of(counts, site))?;
    }
    Ok(())
}

/// Keeps a name at a site.
fn note_name(names: &mut SiteNames, site: u8, name: &Name) -> Result<(), NoMemory>
    ensures noted { OnOk result (AddsName site name.now names.old names.new) }
    ensures failed { OnErr result (HasSameNames names.old names.new) }
{
    names.insert((site, *name))?;
    Ok(())
}

/// Whether the set has an ancestor of the action at the site.
pub(crate) fn has_ancestor(names: &SiteNames, site: u8, action: &Name) -> bool
    ensures { result
        ≡ list_any (λ u. contains site_name_cmp names.now (site, u)) (ancestors action.now) }
{
    match action.parent() {
        Some(parent) => has_ancestor(names, site, &parent) || names.contains(&(site, *action)),
        None => names.contains(&(site, *action)),
    }
}

/// Climbs to the parent while the set has the present action at the site. None if that goes past
/// the top.
pub(crate) fn lift(names: &SiteNames, site: u8, action: &Name) -> Option<Name>
    ensures { result ≡ lift_by (λ u. contains site_name_cmp names.now (site, u)) action.now }
{
    // A name has a part.
    prove!(action.depth() > 0);
    if !names.contains(&(site, *action)) {
        return Some(*action);
    }
    match action.parent() {
        Some(parent) => lift(names, site, &parent),
        None => None,
    }
}
