//! Whether a call may be performed or bounced at its site.
ghost use Rattle.std.specs.Prelude.{◌≡◌, ◌∷◌, true, false, Bool, IfOk, IfSome};
ghost use Rattle.std.specs.Option.{option_map_or};
ghost use Rattle.cam_type.specs.Objects.{is_fit};
ghost use Rattle.cam_event.specs.declared.Deed.TheVariants.{Perform};
ghost use Rattle.cam_event.specs.History.{Addressed, call_of};
ghost use Rattle.cam_live.specs.Ledger.{addressed};
ghost use Rattle.cam_plain.specs.Legal.{history};
ghost use Rattle.cam_plain.specs.Tests.{arrival_test, perform_test, bounce_test};
ghost use Rattle.cam_plain.specs.Kept.{IsKnown};
ghost use Rattle.cam_plain.specs.Sites.{KeepsSites};

use crate::before::Before;
use crate::sites::{Sites, attempt};
use cam_base::NoMemory;
use cam_live::AddressedCall;
use cam_locks::Grant;
use cam_names::Name;
use cam_type::{Answer, site_of};
use std::alloc::Global;

/// The call that comes to its site, where no reply to it was made and the site stands at the
/// addressed count.
fn arriving(before: &Before, action: &Name, number: u32) -> Option<AddressedCall>
    requires { IsKnown before.now.objects.now (history before.now.deeds.now) before.now.tables.now }
    ensures test { (test : Addressed → Bool)
        → arrival_test before.now.objects.now (history before.now.deeds.now) action.now number test
        ≡ option_map_or test (addressed result) false }
    ensures fits { IfSome result (λ call.
        is_fit before.now.objects.now call.object call.op ≡ true) }
    ensures called { IfSome result (λ call.
        call_of (history before.now.deeds.now) action.now number ≡ addressed (Some call)) }
{
    if before.replied(action, number) {
        return None;
    }
    match before.call(action, number) {
        Some(call) => {
            if call.count as u64 == before.count(site_of(before.objects, call.object)) {
                Some(call)
            } else {
                None
            }
        }
        None => None,
    }
}

/// Whether the call comes to its site, meets no conflict there, and this is its answer. Then its
/// operation is done.
pub(crate) fn may_perform(
    alloc: Global,
    before: &Before,
    sites: &mut Sites,
    action: &Name,
    number: u32,
    answer: &Answer,
) -> Result<bool, NoMemory>
    requires known { IsKnown before.now.objects.now (history before.now.deeds.now)
        before.now.tables.now }
    requires kept { KeepsSites before.now.objects.now (history before.now.deeds.now) sites.old }
    ensures value { IfOk result (λ may.
        may ≡ perform_test before.now.objects.now (history before.now.deeds.now)
        action.now number answer.now) }
    ensures done { IfOk result (λ may. may ≡ true → KeepsSites before.now.objects.now
        (Perform action.now number answer.now ∷ history before.now.deeds.now) sites.new) }
{
    match arriving(before, action, number) {
        Some(call) => match attempt(sites, alloc, before, action, &call)? {
            Grant::Done(given) => Ok(*answer == given),
            Grant::Conflict(_) => Ok(false),
        },
        None => Ok(false),
    }
}

/// Whether the call comes to its site, meets a conflict there, and this is the lift of the first
/// operation that conflicts.
pub(crate) fn may_bounce(
    alloc: Global,
    before: &Before,
    sites: &mut Sites,
    action: &Name,
    number: u32,
    holder: &Name,
) -> Result<bool, NoMemory>
    requires known { IsKnown before.now.objects.now (history before.now.deeds.now)
        before.now.tables.now }
    requires kept { KeepsSites before.now.objects.now (history before.now.deeds.now) sites.old }
    ensures value { IfOk result (λ may.
        may ≡ bounce_test before.now.objects.now (history before.now.deeds.now)
        action.now number holder.now) }
    ensures same { IfOk result (λ may. may ≡ true
        → KeepsSites before.now.objects.now (history before.now.deeds.now) sites.new) }
{
    match arriving(before, action, number) {
        Some(call) => match attempt(sites, alloc, before, action, &call)? {
            Grant::Done(_) => Ok(false),
            Grant::Conflict(named) => Ok(named == *holder),
        },
        None => Ok(false),
    }
}
