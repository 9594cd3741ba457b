//! How actions stand: whether they are at home, and whether they run.
ghost use Rattle.std.specs.Prelude.{◌≡◌};
ghost use Rattle.cam_event.specs.History.{runs};
ghost use Rattle.cam_plain.specs.Legal.{history};
ghost use Rattle.cam_plain.specs.Tests.{is_at_home};
ghost use Rattle.cam_plain.specs.Kept.{IsKnown};

use crate::before::Before;
use cam_names::Name;

/// Whether the home of the action stands at the count at which the action was named.
pub(crate) fn is_at_home(before: &Before, action: &Name) -> bool
    requires { IsKnown before.now.objects.now (history before.now.deeds.now) before.now.tables.now }
    ensures { result ≡ is_at_home (history before.now.deeds.now) action.now }
{
    let (node, home_count) = action.home();
    before.count(node) == home_count as u64
}

/// Whether the action was created, has not ended, and its home has not crashed since.
pub(crate) fn runs(before: &Before, name: &Name) -> bool
    requires { IsKnown before.now.objects.now (history before.now.deeds.now) before.now.tables.now }
    ensures { result ≡ runs (history before.now.deeds.now) name.now }
{
    let action = before.action(name);
    let ended = action.asked_commit || action.asked_abort;
    action.is_created && !ended && is_at_home(before, name)
}
