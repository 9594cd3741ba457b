//! Whether a deed of an action or of its parent, or an Inform, meets its line.
ghost use Rattle.std.specs.Prelude.{◌≡◌, ◌+◌, eqb, if◌then◌else◌};
ghost use Rattle.cam_names.specs.Names.{is_top, last_part, parent};
ghost use Rattle.cam_event.specs.History.{tops, decided};
ghost use Rattle.cam_plain.specs.Legal.{history};
ghost use Rattle.cam_plain.specs.Lines.{asked_for, outcome_in};
ghost use Rattle.cam_plain.specs.Tests.{is_placed, create_test, ask_test, call_test, seen_test};
ghost use Rattle.cam_plain.specs.Tests.{got_test, ask_commit_test, may_abort_test, abort_test, inform_test};
ghost use Rattle.cam_plain.specs.Kept.{IsKnown};

use crate::before::Before;
use crate::standing::{is_at_home, runs};
use cam_event::Seen;
use cam_live::AddressedCall;
use cam_names::Name;
use cam_type::{is_fit, site_of};

/// The number of the action among those of its parent, or among the top actions of its home.
fn number_of(name: &Name) -> u32
    ensures { result ≡ (last_part name.now).number }
{
    let parts = name.parts();
    let part = parts[parts.len() - 1];
    part.number
}

/// Whether a number is the next one after so many.
fn is_next(number: u32, so_far: u64) -> bool
    ensures { result ≡ eqb number (so_far + 1) }
{
    let number = number as u64;
    so_far < number && number - so_far == 1
}

/// Whether a child was asked for, and a top action has the next number.
fn is_placed(before: &Before, action: &Name) -> bool
    requires { IsKnown before.now.objects.now (history before.now.deeds.now) before.now.tables.now }
    ensures { result ≡ is_placed (history before.now.deeds.now) action.now }
{
    if action.depth() == 1 {
        let (node, count) = action.home();
        is_next(number_of(action), before.tops(node, count))
    } else {
        before.action(action).is_asked_for
    }
}

pub(crate) fn may_create(before: &Before, action: &Name) -> bool
    requires { IsKnown before.now.objects.now (history before.now.deeds.now) before.now.tables.now }
    ensures { result ≡ create_test (history before.now.deeds.now) action.now }
{
    let created = before.action(action).is_created;
    !created && is_at_home(before, action) && is_placed(before, action)
}

pub(crate) fn may_ask(before: &Before, action: &Name, child: &Name) -> bool
    requires { IsKnown before.now.objects.now (history before.now.deeds.now) before.now.tables.now }
    ensures { result ≡ ask_test (history before.now.deeds.now) action.now child.now }
{
    let kept = before.action(action);
    let running = runs(before, action);
    let below = action.is_parent(child);
    let (node, home_count) = child.home();
    let counted = home_count as u64 <= before.count(node);
    let next = is_next(number_of(child), kept.asks);
    running && kept.open_call.is_none() && action.depth() < 8 && below && counted && next
}

pub(crate) fn may_call(before: &Before, action: &Name, number: u32, call: &AddressedCall) -> bool
    requires { IsKnown before.now.objects.now (history before.now.deeds.now) before.now.tables.now }
    ensures { result ≡ call_test before.now.objects.now (history before.now.deeds.now)
        action.now number call.now.object call.now.op call.now.count }
{
    let objects = before.objects;
    let kept = before.action(action);
    let running = runs(before, action);
    let child_open = before.has_open_child(action);
    let next = is_next(number, kept.calls);
    let fit = is_fit(objects, call.object, &call.op);
    let counted = call.count as u64 <= before.count(site_of(objects, call.object));
    running && kept.open_call.is_none() && !child_open && next && fit && counted
}

/// Whether what the action sees of its call is what came of it.
fn is_seen(before: &Before, action: &Name, number: u32, seen: &Seen) -> bool
    requires { IsKnown before.now.objects.now (history before.now.deeds.now) before.now.tables.now }
    ensures { result ≡ seen_test before.now.objects.now (history before.now.deeds.now)
        action.now number seen.now }
{
    match seen {
        Seen::Done(answer) => before.is_performed(action, number, answer),
        Seen::Busy(holder) => before.is_bounced(action, number, holder),
        Seen::Gone => match before.call(action, number) {
            Some(call) => {
                let site = site_of(before.objects, call.object);
                (call.count as u64) < before.count(site)
            }
            None => false,
        },
    }
}

pub(crate) fn may_get(before: &Before, action: &Name, number: u32, seen: &Seen) -> bool
    requires { IsKnown before.now.objects.now (history before.now.deeds.now) before.now.tables.now }
    ensures { result ≡ got_test before.now.objects.now (history before.now.deeds.now)
        action.now number seen.now }
{
    let running = runs(before, action);
    let seen_so = is_seen(before, action, number, seen);
    let open_one = match before.action(action).open_call {
        Some(open) => open == number,
        None => false,
    };
    running && open_one && seen_so
}

pub(crate) fn may_ask_commit(before: &Before, action: &Name) -> bool
    requires { IsKnown before.now.objects.now (history before.now.deeds.now) before.now.tables.now }
    ensures { result ≡ ask_commit_test (history before.now.deeds.now) action.now }
{
    let running = runs(before, action);
    let open = before.action(action).open_call;
    running && open.is_none() && !before.has_open_child(action)
}

pub(crate) fn is_decided(before: &Before, name: &Name) -> bool
    requires { IsKnown before.now.objects.now (history before.now.deeds.now) before.now.tables.now }
    ensures { result ≡ decided (history before.now.deeds.now) name.now }
{
    let action = before.action(name);
    action.is_committed || action.is_aborted
}

/// Whether a child was asked for by its parent, which runs, and a top action was created.
fn may_end(before: &Before, name: &Name) -> bool
    requires { IsKnown before.now.objects.now (history before.now.deeds.now) before.now.tables.now }
    ensures { result ≡ may_abort_test (history before.now.deeds.now) name.now (parent name.now) }
{
    let action = before.action(name);
    match name.parent() {
        Some(parent) => runs(before, &parent) && action.is_asked_for,
        None => action.is_created,
    }
}

pub(crate) fn may_abort(before: &Before, name: &Name) -> bool
    requires { IsKnown before.now.objects.now (history before.now.deeds.now) before.now.tables.now }
    ensures { result ≡ abort_test (history before.now.deeds.now) name.now }
{
    let decided = is_decided(before, name);
    let may = may_end(before, name);
    !decided && may
}

pub(crate) fn may_inform(before: &Before, site: u8, name: &Name, committed: bool) -> bool
    requires { IsKnown before.now.objects.now (history before.now.deeds.now) before.now.tables.now }
    ensures { result ≡ inform_test (history before.now.deeds.now) site name.now committed }
{
    let action = before.action(name);
    let decided = if committed {
        action.is_committed
    } else {
        action.is_aborted
    };
    let told = before.is_informed(site, name, committed);
    decided && !told
}
