//! Dependencies put together: of each node the greater count.
ghost use Rattle.std.specs.Prelude.{◌≡◌, ◌≤◌, [], ◌∷◌};
ghost use Rattle.cam_names.specs.Dependencies.{AreCounts, as_counts, greater_counts};

use cam_names::Deps;

/// Both together.
pub(crate) fn union(one: &Deps, other: &Deps) -> Deps
    ensures { result ≡ greater_counts one.now other.now }
{
    Deps::of(&greater(&one.counts(), &other.counts()))
}

/// One node at a count.
pub(crate) fn at(node: u8, count: u32) -> Deps
    requires node { (1 ≤ node) × (node ≤ 8) }
    requires count { (1 ≤ count) × (count ≤ 1000000000) }
    ensures { result ≡ as_counts ((node, count) ∷ []) }
{
    Deps::none().with(node, count)
}

/// Of each node the greater count.
fn greater(one: &[u32; 8], other: &[u32; 8]) -> [u32; 8]
    requires one { AreCounts 0 one.now }
    requires other { AreCounts 0 other.now }
    ensures value { result ≡ greater_counts one.now other.now }
    ensures range { AreCounts 0 result }
{
    let mut counts = *one;
    for node in 0..8 {
        counts[node] = counts[node].max(other[node]);
    }
    counts
}
