//! The least count that some pairs have of each node.
ghost use Rattle.std.specs.Prelude.{◌≡◌, ◌≤◌, replicate};
ghost use Rattle.cam_names.specs.Dependencies.{count_of, pairs_of};
ghost use Rattle.cam_know.specs.LeastCounts.{least_counts, lesser_count, lesser_counts};

use cam_names::Deps;
use std::marker::Model;

/// For each node the least count that some pairs of a node and a count have of it. Contracts see eight
/// counts, 0 for a node of which there is no pair.
#[derive(Clone, Copy, Debug)]
pub struct Oldest {
    counts: [u32; 8],
}

impl Model for Oldest {
    ghost use Rattle.std.specs.Prelude.{List, ℕ};
    ghost use Rattle.cam_names.specs.Dependencies.{AreCounts};

    ghost Value = { List ℕ };

    ghost view = { λ o. o.counts };

    ghost invariant = { λ o. AreCounts 0 o.counts };

    ghost inverse = { λ counts. record { counts = counts } };
}

/// The lesser of two counts, where 0 means none.
fn lesser(one: u32, other: u32) -> u32
    ensures { result ≡ lesser_count one other }
{
    if one == 0 {
        other
    } else if other == 0 {
        one
    } else {
        one.min(other)
    }
}

impl Oldest {
    /// The least counts of no pairs: 0 for each node.
    pub fn none() -> Oldest
        ensures { result ≡ replicate 8 0 }
    {
        Oldest { counts: [0; 8] }
    }

    /// The least counts of these dependencies: the one count that they have of a node, or 0.
    pub fn of(deps: &Deps) -> Oldest
        ensures { result ≡ least_counts (pairs_of deps.now) }
    {
        Oldest {
            counts: deps.counts(),
        }
    }

    /// The least count of the node, 1 to 8: 1 to 1,000,000,000, or 0 if there is no pair of it.
    pub fn count_of(&self, node: u8) -> u32
        requires node { (1 ≤ node) × (node ≤ 8) }
        ensures value { result ≡ count_of self.now node }
        ensures bound { result ≤ 1000000000 }
    {
        self.counts[node as usize - 1]
    }

    /// The least counts of the pairs of both.
    pub fn join(&self, other: &Oldest) -> Oldest
        ensures { result ≡ lesser_counts self.now other.now }
    {
        let mut counts = self.counts;
        for node in 0..8 {
            counts[node] = lesser(counts[node], other.counts[node]);
        }
        Oldest { counts }
    }
}
