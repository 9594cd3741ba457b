//! The check of a list of deeds.
ghost use Rattle.std.specs.Prelude.{◌≡◌, true, IfOk, OnOk, IfErr};
ghost use Rattle.cam_plain.specs.declared.legality.CheckFault.TheVariants.{NoMemory as OutOfMemory};
ghost use Rattle.cam_plain.specs.Faults.{IsFault};
ghost use Rattle.cam_plain.specs.Kept.{IsKnown};
ghost use Rattle.cam_plain.specs.Sites.{KeepsSites, Between};
ghost use Rattle.cam_plain.specs.Legal.{Legal, history};
ghost use Rattle.cam_plain.specs.Tests.{meets, call_meets, site_meets};

use crate::arrivals::{may_bounce, may_perform};
use crate::before::Before;
use crate::kind::DeedKind;
use crate::lines::{may_abort, may_ask, may_ask_commit, may_call, may_create, may_get, may_inform};
use crate::securing::{may_commit, may_secure};
use crate::sites::{Sites, note_at_site};
use crate::standing::runs;
use crate::tables::Tables;
use cam_base::NoMemory;
use cam_event::{Deed, Deeds};
use cam_live::AddressedCall;
use cam_type::Objects;
use std::alloc::Global;
use thiserror::Error;

/// Why a list of deeds was not found legal.
#[derive(Clone, Copy, Debug, PartialEq, Eq, Error)]
pub enum CheckFault {
    /// The first deed that is not legal: its place, from 0, and its kind, whose line it does not meet.
    /// It is never a crash, which may always come.
    #[error("the deed at {at} does not meet line {}", .cause.number())]
    Illegal { at: u64, cause: DeedKind },
    #[error("out of memory")]
    NoMemory,
}

impl From<NoMemory> for CheckFault {
    ghost from_gives = { λ _ fault. fault ≡ OutOfMemory };

    fn from(_: NoMemory) -> CheckFault {
        CheckFault::NoMemory
    }
}

/// Whether the deeds are a legal history of the plain machine; if not, the first that is not legal.
pub fn check(alloc: Global, deeds: &Deeds, objects: &Objects) -> Result<(), CheckFault>
    ensures legal { OnOk result (Legal objects.now (history deeds.now)) }
    ensures illegal { IfErr result (IsFault objects.now deeds.now) }
{
    let list = deeds.as_slice();
    let mut tables = Tables::new(alloc);
    let mut sites = Sites::new(alloc);
    for (at, deed) in list.iter().enumerate() {
        let before = Before {
            objects,
            deeds: &list[..at],
            tables: &tables,
        };
        let legal = is_legal(alloc, &before, &mut sites, deed)?;
        if !legal {
            return Err(CheckFault::Illegal {
                at: at as u64,
                cause: DeedKind::of(deed),
            });
        }
        note_at_site(&mut sites, alloc, objects, &tables.ledger, deed)?;
        tables.note(alloc, objects, deed)?;
    }
    Ok(())
}

/// Whether the deed meets its line for the deeds before it. A Perform that does is kept of its site.
fn is_legal(
    alloc: Global,
    before: &Before,
    sites: &mut Sites,
    deed: &Deed,
) -> Result<bool, NoMemory>
    requires known { IsKnown before.now.objects.now (history before.now.deeds.now)
        before.now.tables.now }
    requires kept { KeepsSites before.now.objects.now (history before.now.deeds.now) sites.old }
    ensures value { IfOk result (λ legal.
        legal ≡ meets before.now.objects.now (history before.now.deeds.now) deed.now) }
    ensures sites { IfOk result (λ legal. legal ≡ true
        → Between before.now.objects.now (history before.now.deeds.now) deed.now sites.new) }
{
    match deed {
        Deed::Create { action } => Ok(may_create(before, action)),
        Deed::Ask { action, child } => Ok(may_ask(before, action, child)),
        Deed::AskCommit { action, .. } => Ok(may_ask_commit(before, action)),
        Deed::AskAbort { action } => Ok(runs(before, action)),
        Deed::Commit { action } => Ok(may_commit(before, action)),
        Deed::Abort { action } => Ok(may_abort(before, action)),
        Deed::Secure { .. } | Deed::Inform { .. } | Deed::Crash { .. } => {
            Ok(is_legal_at_site(before, deed))
        }
        _ => is_legal_of_call(alloc, before, sites, deed),
    }
}

/// Whether a deed of a call, a reply to it or its end, meets its line; any other passes.
fn is_legal_of_call(
    alloc: Global,
    before: &Before,
    sites: &mut Sites,
    deed: &Deed,
) -> Result<bool, NoMemory>
    requires known { IsKnown before.now.objects.now (history before.now.deeds.now)
        before.now.tables.now }
    requires kept { KeepsSites before.now.objects.now (history before.now.deeds.now) sites.old }
    ensures value { IfOk result (λ legal.
        legal ≡ call_meets before.now.objects.now (history before.now.deeds.now) deed.now) }
    ensures sites { IfOk result (λ legal. legal ≡ true
        → Between before.now.objects.now (history before.now.deeds.now) deed.now sites.new) }
{
    match deed {
        Deed::Call {
            action,
            number,
            object,
            op,
            count,
        } => {
            let call = AddressedCall {
                object: *object,
                op: *op,
                count: *count,
            };
            Ok(may_call(before, action, *number, &call))
        }
        Deed::Perform {
            action,
            number,
            answer,
        } => may_perform(alloc, before, sites, action, *number, answer),
        Deed::Bounce {
            action,
            number,
            holder,
        } => may_bounce(alloc, before, sites, action, *number, holder),
        Deed::Got {
            action,
            number,
            seen,
        } => Ok(may_get(before, action, *number, seen)),
        _ => Ok(true),
    }
}

/// Whether a deed that a site does on its own meets its line; any other passes.
fn is_legal_at_site(before: &Before, deed: &Deed) -> bool
    requires { IsKnown before.now.objects.now (history before.now.deeds.now) before.now.tables.now }
    ensures { result ≡ site_meets before.now.objects.now (history before.now.deeds.now) deed.now }
{
    match deed {
        Deed::Secure {
            family,
            site,
            count,
        } => may_secure(before, family, *site, *count),
        Deed::Inform {
            site,
            name,
            committed,
        } => may_inform(before, *site, name, *committed),
        _ => true,
    }
}
