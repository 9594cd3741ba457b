//! Where the live operations stand by the names of their actions: what is of an action or below it stands together.
ghost use Rattle.std.specs.Prelude.{◌≡◌, ◌≤◌};
ghost use Rattle.std.specs.Cmp.{partial_order_from_agreeing_total};
ghost use Rattle.std.specs.Ordering.{as_partial_cmp};
ghost use Rattle.std.proofs.Common.{refl};
ghost use Rattle.cam_locks.specs.Placed.{placed_cmp, placed_of, behind, IsFirstFrom};
ghost use Rattle.cam_locks.specs.PlacedLaws.{placed_total, placed_ties};

use crate::LiveOp;
use cam_names::Name;
use std::cmp::Ordering;
use std::collections::BTreeSet;

/// The action and the index of a live operation.
#[derive(Clone, Copy, PartialEq, Eq)]
pub(crate) struct Placed {
    pub(crate) name: Name,
    pub(crate) index: u32,
}

impl Placed {
    /// Where an operation stands.
    pub(crate) fn of(operation: &LiveOp) -> Placed
        ensures { result ≡ placed_of operation.now }
    {
        Placed {
            name: operation.action,
            index: operation.index,
        }
    }

    /// The place right after an operation.
    pub(crate) fn behind(operation: &LiveOp) -> Placed
        requires { operation.now.index ≤ 999999999 }
        ensures { result ≡ behind operation.now }
    {
        Placed {
            name: operation.action,
            index: operation.index + 1,
        }
    }
}

/// By name, a prefix first, and then by index.
impl Ord for Placed {
    ghost cmp = { placed_cmp };

    ghost total = { placed_total };

    ghost matches_partial_cmp = { λ x y. refl };

    ghost matches_eq = { placed_ties };

    fn cmp(&self, other: &Placed) -> Ordering {
        self.name
            .cmp(&other.name)
            .then(self.index.cmp(&other.index))
    }
}

impl PartialOrd for Placed {
    ghost partial_cmp = { as_partial_cmp placed_cmp };

    ghost laws = { partial_order_from_agreeing_total
        placed_cmp placed_total (λ x y. refl) placed_ties };

    fn partial_cmp(&self, other: &Placed) -> Option<Ordering> {
        Some(self.cmp(other))
    }
}

/// The first that is not before a place.
pub(crate) fn first_from(by_name: &BTreeSet<Placed>, start: Placed) -> Option<Placed>
    ensures { IsFirstFrom by_name.now start result }
{
    by_name.range(start..).next().copied()
}
