// The order in which outcomes are learnt.
ghost use Rattle.std.specs.Prelude.{◌≡◌, IfOk};
ghost use Rattle.std.specs.Ordering.{is_lt, is_gt};
ghost use Rattle.cam_know.specs.Order.{stands_before, in_order};

use crate::Outcome;
use cam_base::{NoMemory, Sequence};
use std::alloc::Global;
use std::cmp::Ordering;

/// Less if the first outcome comes before the other, and greater if it comes after.
fn compare(one: &Outcome, other: &Outcome) -> Ordering
    ensures less { is_lt result ≡ stands_before one.now other.now }
    ensures greater { is_gt result ≡ stands_before other.now one.now }
{
    match (one, other) {
        (Outcome::Aborted(first), Outcome::Aborted(second)) => first.cmp(second),
        (Outcome::Aborted(_), Outcome::Committed(_, _)) => Ordering::Less,
        (Outcome::Committed(_, _), Outcome::Aborted(_)) => Ordering::Greater,
        (Outcome::Committed(first, deps), Outcome::Committed(second, others)) => {
            first.cmp(second).then(deps.counts().cmp(&others.counts()))
        }
    }
}

/// The outcomes in the order in which they are learnt. n of them take n log n steps, and n if they are in it already; a
/// letter's bytes give them so.
pub fn in_order(alloc: Global, outcomes: &[Outcome]) -> Result<Sequence<Outcome>, NoMemory>
    ensures { IfOk result (λ told. told ≡ in_order outcomes.now) }
{
    let mut told = Vec::new(alloc);
    told.extend_from_slice(outcomes)?;
    told.sort_by(|one, other| compare(one, other))?;
    Ok(Sequence::from_vec(told))
}
