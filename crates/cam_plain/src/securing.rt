//! Whether families may be secured and committed.

ghost use Rattle.std.specs.Prelude.{◌≡◌, ◌&&◌, not, false};
ghost use Rattle.std.specs.List.{list_all};
ghost use Rattle.cam_names.specs.Names.{parent};
ghost use Rattle.cam_names.specs.Dependencies.{has_pair};
ghost use Rattle.cam_event.specs.History.{secured, secured_at};
ghost use Rattle.cam_plain.specs.Depending.{pairs_in};
ghost use Rattle.cam_plain.specs.Legal.{history};
ghost use Rattle.cam_plain.specs.Tests.{may_commit_test, commit_test, handed_up, secure_test};
ghost use Rattle.cam_plain.specs.Marks.{is_clear, marks_in};
ghost use Rattle.cam_plain.specs.Kept.{IsKnown};

use crate::before::Before;
use crate::dependencies::{Dependencies, Pairs, has_pair};
use crate::lines::is_decided;
use crate::marks::{Mark, Marks, Place};
use crate::site::has_lost;
use crate::standing::{is_at_home, runs};
use cam_names::Name;

/// Whether the family is secured at each pair.
fn all_secured(before: &Before, family: &Name, pairs: &Pairs) -> bool
    requires { IsKnown before.now.objects.now (history before.now.deeds.now) before.now.tables.now }
    ensures { result
        ≡ list_all (λ p. secured (history before.now.deeds.now) family.now p.0 p.1) pairs.now }
{
    for pair in pairs.as_slice() {
        if !before.is_secured(family, pair.0, pair.1) {
            return false;
        }
    }
    true
}

/// Whether the family is secured at each pair on which it depends.
fn is_secured(before: &Before, family: &Name) -> bool
    requires { IsKnown before.now.objects.now (history before.now.deeds.now) before.now.tables.now }
    ensures { result ≡ list_all (λ p. secured (history before.now.deeds.now) family.now p.0 p.1)
        (pairs_in before.now.tables.now.dependencies family.now) }
{
    match before.tables.dependencies.get(family) {
        Some(pairs) => all_secured(before, family, pairs),
        None => true,
    }
}

/// Whether the action depends on the pair.
fn depends(dependencies: &Dependencies, action: &Name, node: u8, count: u32) -> bool
    ensures { result ≡ has_pair (pairs_in dependencies.now action.now) node count }
{
    match dependencies.get(action) {
        Some(pairs) => has_pair(pairs, node, count),
        None => false,
    }
}

/// Whether the action's parent, or for a top action what it depends on, lets it commit.
fn is_let_commit(before: &Before, action: &Name) -> bool
    requires { IsKnown before.now.objects.now (history before.now.deeds.now) before.now.tables.now }
    ensures { result ≡ may_commit_test before.now.objects.now (history before.now.deeds.now)
        action.now (parent action.now) }
{
    // A name has a part.
    prove!(action.depth() > 0);
    match action.parent() {
        Some(parent) => runs(before, &parent),
        None => {
            let at_home = is_at_home(before, action);
            let secured = is_secured(before, action);
            at_home && secured
        }
    }
}

pub(crate) fn may_commit(before: &Before, action: &Name) -> bool
    requires { IsKnown before.now.objects.now (history before.now.deeds.now) before.now.tables.now }
    ensures { result
        ≡ commit_test before.now.objects.now (history before.now.deeds.now) action.now }
{
    let asked = before.action(action).asked_commit;
    let decided = is_decided(before, action);
    let may = is_let_commit(before, action);
    asked && !decided && may
}

/// Whether an operation of the family at the site is gone, by a crash or an abort, or has been handed up to the family.
fn is_clear(before: &Before, family: &Name, site: u8, mark: &Mark) -> bool
    requires { IsKnown before.now.objects.now (history before.now.deeds.now) before.now.tables.now }
    ensures { result ≡ is_clear (history before.now.deeds.now) site family.now mark.now }
{
    let ledger = &before.tables.ledger;
    let crashed = mark.count != ledger.count(site);
    let lost = has_lost(ledger, site, &mark.action);
    let lifted = match ledger.lift(site, &mark.action) {
        Some(holder) => *family == holder,
        None => false,
    };
    crashed || lost || lifted
}

/// Whether all of these operations of the family at the site are so.
fn all_clear(before: &Before, family: &Name, site: u8, marks: &Marks) -> bool
    requires { IsKnown before.now.objects.now (history before.now.deeds.now) before.now.tables.now }
    ensures { result
        ≡ list_all (is_clear (history before.now.deeds.now) site family.now) marks.now }
{
    for mark in marks.as_slice() {
        if !is_clear(before, family, site, mark) {
            return false;
        }
    }
    true
}

/// Whether all operations of the family at the site are so.
fn is_place_clear(before: &Before, place: &Place) -> bool
    requires { IsKnown before.now.objects.now (history before.now.deeds.now) before.now.tables.now }
    ensures { result
        ≡ list_all (is_clear (history before.now.deeds.now) place.now.site place.now.family)
        (marks_in before.now.tables.now.marks place.now) }
{
    match before.tables.marks.get(place) {
        Some(marks) => all_clear(before, &place.family, place.site, marks),
        None => true,
    }
}

/// Whether all live operations of a family have been handed up to it, at a site where it is not secured.
fn is_handed_up(before: &Before, family: &Name, site: u8) -> bool
    requires known { IsKnown before.now.objects.now (history before.now.deeds.now)
        before.now.tables.now }
    requires unsecured { secured_at (history before.now.deeds.now) family.now site ≡ false }
    ensures { result
        ≡ handed_up before.now.objects.now (history before.now.deeds.now) family.now site }
{
    let place = Place {
        site,
        family: *family,
    };
    is_place_clear(before, &place)
}

/// Whether the family is not secured at the site, and all its live operations there have been handed up to it.
fn is_ready(before: &Before, family: &Name, site: u8) -> bool
    requires { IsKnown before.now.objects.now (history before.now.deeds.now) before.now.tables.now }
    ensures { result ≡ (not (secured_at (history before.now.deeds.now) family.now site)
        && handed_up before.now.objects.now (history before.now.deeds.now) family.now site) }
{
    let secured = before.is_secured_at(family, site);
    if secured {
        return false;
    }
    is_handed_up(before, family, site)
}

pub(crate) fn may_secure(before: &Before, family: &Name, site: u8, secured_count: u32) -> bool
    requires { IsKnown before.now.objects.now (history before.now.deeds.now) before.now.tables.now }
    ensures { result ≡ secure_test before.now.objects.now (history before.now.deeds.now)
        family.now site secured_count }
{
    let is_top = family.depth() == 1;
    let asked = before.action(family).asked_commit;
    let depends = depends(&before.tables.dependencies, family, site, secured_count);
    let present = secured_count as u64 == before.count(site);
    let ready = is_ready(before, family, site);
    is_top && asked && depends && present && ready
}
