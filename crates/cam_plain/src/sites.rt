//! The sites, deed by deed.
ghost use Rattle.std.specs.Prelude.{◌≡◌, ◌∷◌, eqb, if◌then◌else◌, true, false, ℕ, List, Some, None, IfOk, OnOk};
ghost use Rattle.cam_type.specs.declared.Answer.{Answer as AnswerValue};
ghost use Rattle.cam_type.specs.Objects.{is_fit};
ghost use Rattle.cam_type.specs.Table.{answer_of};
ghost use Rattle.cam_locks.specs.Calls.{grant_by};
ghost use Rattle.cam_event.specs.declared.Deed.{Deed as DeedValue};
ghost use Rattle.cam_event.specs.declared.Deed.TheVariants.{Inform, Crash};
ghost use Rattle.cam_event.specs.History.{call_of};
ghost use Rattle.cam_event.specs.Live.{holder, value};
ghost use Rattle.cam_live.specs.Ledger.{Keeps, addressed};
ghost use Rattle.cam_plain.specs.Legal.{history};
ghost use Rattle.cam_plain.specs.Kept.{IsKnown};
ghost use Rattle.cam_plain.specs.Sites.{KeepsSite, KeepsSites, site_in, Attempted, Between};

use crate::before::Before;
use crate::site::Site;
use cam_base::NoMemory;
use cam_event::Deed;
use cam_live::{AddressedCall, Ledger};
use cam_locks::Grant;
use cam_names::Name;
use cam_type::{Objects, site_of};
use std::alloc::Global;
use std::collections::HashMap;

/// What is kept of the sites, of each under its node.
pub(crate) type Sites = HashMap<u8, Site>;

/// Takes a site out, for a change.
fn take_out(sites: &mut Sites, alloc: Global, objects: &Objects, node: u8) -> Result<Site, NoMemory>
    ensures site { IfOk result (λ site. (L : List DeedValue) → KeepsSites objects.now L sites.old
        → KeepsSite objects.now L node site) }
    ensures others { OnOk result ((t : ℕ) → eqb t node ≡ false
        → site_in sites.new t ≡ site_in sites.old t) }
{
    match sites.remove(&node) {
        Some(site) => Ok(site),
        None => Site::new(alloc, objects, node),
    }
}

/// Puts it back.
fn put_back(sites: &mut Sites, node: u8, site: Site) -> Result<(), NoMemory>
    ensures { OnOk result ((t : ℕ) → site_in sites.new t
        ≡ (if eqb t node then Some site else site_in sites.old t)) }
{
    sites.insert(node, site)?;
    Ok(())
}

/// A call comes to its site: its operation is done there, unless a live one conflicts.
pub(crate) fn attempt(
    sites: &mut Sites,
    alloc: Global,
    before: &Before,
    action: &Name,
    call: &AddressedCall,
) -> Result<Grant, NoMemory>
    requires known { IsKnown before.now.objects.now (history before.now.deeds.now)
        before.now.tables.now }
    requires sites { KeepsSites before.now.objects.now (history before.now.deeds.now) sites.old }
    requires fits { is_fit before.now.objects.now call.now.object call.now.op ≡ true }
    ensures value { IfOk result (λ granted. granted ≡ grant_by
        (holder before.now.objects.now (history before.now.deeds.now) action.now call.now.object
        call.now.op)
        (answer_of (value before.now.objects.now (history before.now.deeds.now) call.now.object)
        call.now.op)) }
    ensures kept { OnOk result ((n : ℕ) (answer : AnswerValue)
        → call_of (history before.now.deeds.now) action.now n ≡ addressed (Some call.now)
        → Attempted before.now.objects.now (history before.now.deeds.now) action.now n answer
        (holder before.now.objects.now (history before.now.deeds.now) action.now call.now.object
        call.now.op)
        sites.new) }
{
    let node = site_of(before.objects, call.object);
    let mut site = take_out(sites, alloc, before.objects, node)?;
    let granted = site.attempt(alloc, &before.tables.ledger, node, action, call)?;
    put_back(sites, node, site)?;
    Ok(granted)
}

/// A site is informed of an outcome.
fn inform(
    sites: &mut Sites,
    alloc: Global,
    objects: &Objects,
    node: u8,
    name: &Name,
    committed: bool,
) -> Result<(), NoMemory>
    ensures { OnOk result ((L : List DeedValue) → KeepsSites objects.now L sites.old
        → KeepsSites objects.now (Inform node name.now committed ∷ L) sites.new) }
{
    let mut site = take_out(sites, alloc, objects, node)?;
    site.inform(name, committed)?;
    put_back(sites, node, site)
}

/// A site crashes.
fn crash(
    sites: &mut Sites,
    alloc: Global,
    objects: &Objects,
    ledger: &Ledger,
    node: u8,
) -> Result<(), NoMemory>
    ensures { OnOk result ((L : List DeedValue) → Keeps objects.now L ledger.now
        → KeepsSites objects.now L sites.old
        → KeepsSites objects.now (Crash node ∷ L) sites.new) }
{
    let mut site = take_out(sites, alloc, objects, node)?;
    site.crash(alloc, ledger, node)?;
    put_back(sites, node, site)
}

/// Keeps what one more deed does at the sites; a Perform was kept when its call came.
pub(crate) fn note_at_site(
    sites: &mut Sites,
    alloc: Global,
    objects: &Objects,
    ledger: &Ledger,
    deed: &Deed,
) -> Result<(), NoMemory>
    ensures { OnOk result ((L : List DeedValue) → Keeps objects.now L ledger.now
        → Between objects.now L deed.now sites.old
        → KeepsSites objects.now (deed.now ∷ L) sites.new) }
{
    match deed {
        Deed::Inform {
            site,
            name,
            committed,
        } => inform(sites, alloc, objects, *site, name, *committed),
        Deed::Crash { site } => crash(sites, alloc, objects, ledger, *site),
        _ => Ok(()),
    }
}
