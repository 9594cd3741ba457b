//! Whether an action is an orphan by what a node knows, and why.
//!
//! The rule is *The orphan test* of `docs/RULES.md`. An action is an orphan if an ancestor is
//! known aborted, by the shortest such ancestor; each action is its own ancestor. Otherwise pairs
//! of a node and a count are tested: those that the action itself has visited, and those of each known
//! commit of a child of one of its ancestors. If the count of such a pair is below the known
//! count of its node, what the action depends on was lost in a crash, and it is an orphan, by the least
//! such node and then the least such count.
//!
//! It uses `cam_names` and `cam_know`. Its calls are `orphan`, and `orphan_at_home` for an action
//! that comes to its home. The main clause of each says that it returns exactly what the rule says. A test
//! costs a few look-ups for each ancestor, however much is known.
#![tactic(auto)]

ghost use Rattle.std.specs.Prelude.{◌≡◌, ℕ, List, [], ◌∷◌, flat_map, length, None};
ghost use Rattle.cam_names.specs.Names.{ancestors, home_node, home_count};
ghost use Rattle.cam_names.specs.Dependencies.{pairs_of};
ghost use Rattle.cam_know.specs.Known.{known_count};
ghost use Rattle.cam_know.specs.Orphans.{known_orphan, children_pairs, reason_of};
ghost use Rattle.cam_know.specs.LeastCounts.{least_counts};
ghost use Rattle.cam_orphan.specs.Stale.{Valid, first_stale};

use cam_know::{Know, Oldest, Reason};
use cam_names::{Deps, Name};

/// Why the action is an orphan by this knowledge, or None if it is none. `visited` has the pairs
/// that it has visited. Each action is its own ancestor. It takes no memory. The rule is *The orphan
/// test* of `docs/RULES.md`.
pub fn orphan(know: &Know, name: &Name, visited: &Deps) -> Option<Reason>
    ensures { result ≡ known_orphan know.now name.now (pairs_of visited.now) }
{
    orphan_by(know, name, &Oldest::of(visited))
}

/// The same test of an action that comes to its home: `visited` has the pairs with which it comes,
/// and the home is tested with them. So an older pair of that very node counts too.
pub fn orphan_at_home(know: &Know, name: &Name, visited: &Deps) -> Option<Reason>
    ensures { result ≡ known_orphan know.now name.now
        ((home_node name.now, home_count name.now) ∷ pairs_of visited.now) }
{
    orphan_by(know, name, &home_oldest(name).join(&Oldest::of(visited)))
}

/// The count of the action's home.
fn home_oldest(name: &Name) -> Oldest
    ensures value { result ≡ least_counts ((home_node name.now, home_count name.now) ∷ []) }
    ensures valid { Valid ((home_node name.now, home_count name.now) ∷ []) }
{
    let parts = name.parts();
    let part = parts[parts.len() - 1];
    Oldest::of(&Deps::none().with(part.node, part.count))
}

/// The test with any visited pairs that have these least counts.
fn orphan_by(know: &Know, name: &Name, visited: &Oldest) -> Option<Reason>
    requires { length visited.now ≡ 8 }
    ensures { (pairs : List (ℕ × ℕ)) → Valid pairs → visited.now ≡ least_counts pairs
        → result ≡ known_orphan know.now name.now pairs }
{
    match know.aborted_by(name) {
        Some(ancestor) => Some(Reason::Abort(ancestor)),
        None => stale(know, &visited.join(&family_oldest(know, name))),
    }
}

/// The least counts of the known commits of the children of the action's ancestors.
fn family_oldest(know: &Know, name: &Name) -> Oldest
    ensures { result ≡ least_counts (flat_map (children_pairs know.now) (ancestors name.now)) }
{
    let own = know.oldest(name);
    match name.parent() {
        None => own,
        Some(parent) => family_oldest(know, &parent).join(&own),
    }
}

/// The reason by the first node whose least count is below the known one.
fn stale(know: &Know, oldest: &Oldest) -> Option<Reason>
    requires { length oldest.now ≡ 8 }
    ensures value { result ≡ reason_of (known_count know.now) None
        (first_stale (known_count know.now) 1 oldest.now) }
    ensures eight { length know.now.counts ≡ 8 }
{
    let known = know.counts();
    for node in 1..9 {
        let old = oldest.count_of(node);
        let new = known[node as usize - 1];
        if 0 < old && old < new {
            return Some(Reason::Crash { node, old, new });
        }
    }
    None
}
