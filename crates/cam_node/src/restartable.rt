//! Whether a restart takes what a log says. A disk that does not tell what it holds may give bytes that the node never wrote.
ghost use Rattle.std.specs.Prelude.{◌≡◌, ◌≤◌, ◌↔◌, [], IsTrue, IfOk};
ghost use Rattle.std.specs.List.{list_all};
ghost use Rattle.cam_know.specs.Known.{counts_raised, with_count};
ghost use Rattle.cam_node.specs.Lawful.{are_known, is_known_outcome};
ghost use Rattle.cam_node.specs.Opened.{CanRestart};
ghost use Rattle.cam_node.specs.Restartable.{are_low, is_low, AreOnce};

use cam_base::NoMemory;
use cam_know::{Know, Outcome};
use cam_locks::may_restore;
use cam_names::Deps;
use cam_recman::Recovered;
use cam_type::{Held, HeldOp, Objects};
use std::alloc::Global;
use std::collections::HashSet;

/// Whether a restart of a node, 1 to 8, takes this: its count can be raised; each operation that it
/// holds is on an object of the node and fits it, under an index that stands once and is not above
/// 499,999,999; no family is secured twice; and no commit depends on a count above the known one of
/// its node.
pub(crate) fn can_restart(
    alloc: Global,
    objects: &Objects,
    node: u8,
    recovered: &Recovered,
) -> Result<bool, NoMemory>
    requires { (1 ≤ node) × (node ≤ 8) }
    ensures { IfOk result (λ can. IsTrue can ↔ CanRestart objects.now node recovered.now) }
{
    let may = may_restore(alloc, objects, node, &recovered.held)?;
    let once = are_once(alloc, recovered.held.as_slice())?;
    Ok(
        recovered.count < 1_000_000_000
            && may
            && are_low(recovered.held.as_slice())
            && once
            && depend_on_known(&recovered.know, node, recovered.count),
    )
}

/// Whether no family is among them twice.
fn are_once(alloc: Global, held: &[Held]) -> Result<bool, NoMemory>
    ensures { IfOk result (λ once. IsTrue once ↔ AreOnce held.now) }
{
    let mut families = HashSet::new(alloc);
    for one in held {
        if !families.insert(one.family)? {
            return Ok(false);
        }
    }
    Ok(true)
}

/// Whether no index that they hold is above 499,999,999.
fn are_low(held: &[Held]) -> bool
    ensures { result ≡ are_low held.now }
{
    for one in held {
        if !all_low(one.ops.as_slice()) {
            return false;
        }
    }
    true
}

/// Whether no index of the operations is above 499,999,999.
fn all_low(ops: &[HeldOp]) -> bool
    ensures { result ≡ list_all is_low ops.now }
{
    for op in ops {
        if op.index > 499_999_999 {
            return false;
        }
    }
    true
}

/// Whether no known commit depends on a count above the known one of its node, where the node
/// itself, 1 to 8, has reached this count.
fn depend_on_known(know: &Know, node: u8, count: u32) -> bool
    requires { (1 ≤ node) × (node ≤ 8) }
    ensures { result ≡ list_all (is_known_outcome (with_count node count know.now))
        know.now.outcomes }
{
    let known = known_counts(know, node, count);
    all_known(&known, know.outcomes())
}

/// The known counts of the nodes, where one of them has reached this count.
pub(crate) fn known_counts(know: &Know, node: u8, count: u32) -> [u32; 8]
    requires { (1 ≤ node) × (node ≤ 8) }
    ensures { result ≡ counts_raised know.now.counts node count }
{
    let mut counts = know.counts();
    let place = node as usize - 1;
    counts[place] = counts[place].max(count);
    counts
}

/// Whether none of these outcomes depends on a count above the known one of its node.
pub(crate) fn all_known(known: &[u32; 8], outcomes: &[Outcome]) -> bool
    ensures { result ≡ list_all (is_known_outcome (record { outcomes = []; counts = known.now }))
        outcomes.now }
{
    for outcome in outcomes {
        if !is_known(known, outcome) {
            return false;
        }
    }
    true
}

/// Whether an outcome depends on no count above the known one of its node.
fn is_known(known: &[u32; 8], outcome: &Outcome) -> bool
    ensures { result ≡ is_known_outcome (record { outcomes = []; counts = known.now }) outcome.now }
{
    match outcome {
        Outcome::Aborted(_) => true,
        Outcome::Committed(_, deps) => are_known(known, deps),
    }
}

/// Whether no count among the dependencies is above the known one of its node.
pub(crate) fn are_known(known: &[u32; 8], deps: &Deps) -> bool
    ensures { result ≡ are_known (record { outcomes = []; counts = known.now }) deps.now }
{
    let counts = deps.counts();
    for node in 1..9u8 {
        if known[node as usize - 1] < counts[node as usize - 1] {
            return false;
        }
    }
    true
}
