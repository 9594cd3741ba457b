//! How many runs lead to each end.
ghost use Rattle.std.specs.Prelude.{◌≡◌, ◌≤◌, ◌++◌, IfOk, OnOk, length, map, string_bytes, take};
ghost use Rattle.cam_sweep.specs.Tally.{is_among, pair_of, tally, times, told_at};

use cam_base::NoMemory;
use std::alloc::Global;

/// An end, by the place of the first run that leads there, and how many runs do.
#[derive(Clone, Copy, Debug, PartialEq, Eq)]
pub struct Tallied {
    pub first: usize,
    pub runs: usize,
}

/// Whether an end is one of these.
fn is_among(end: &String, ends: &[String]) -> bool
    ensures { result ≡ is_among (string_bytes end.now) (map string_bytes ends.now) }
{
    for other in ends {
        if end.as_str() == other.as_str() {
            return true;
        }
    }
    false
}

/// How many of these ends are this one.
fn times(end: &String, ends: &[String]) -> usize
    ensures { result ≡ times (string_bytes end.now) (map string_bytes ends.now) }
{
    let mut count = 0;
    for other in ends {
        if end.as_str() == other.as_str() {
            count += 1;
        }
    }
    count
}

/// Adds the end of a run, if none of the runs before it leads there.
fn add_end(
    ends: &[String],
    first: usize,
    end: &String,
    tallied: &mut Vec<Tallied>,
) -> Result<(), NoMemory>
    requires { first ≤ length ends.now }
    ensures { OnOk result (map pair_of tallied.new.items ≡ map pair_of tallied.old.items
        ++ told_at (map string_bytes ends.now) first (map string_bytes (take first ends.now))
        (string_bytes end.now)) }
{
    if !is_among(end, &ends[..first]) {
        let runs = times(end, ends);
        tallied.push(Tallied { first, runs })?;
    }
    Ok(())
}

/// The ends in order of the first run that leads to each, with how many runs do.
pub fn tally(alloc: Global, ends: &[String]) -> Result<Vec<Tallied>, NoMemory>
    ensures { IfOk result (λ tallied.
        map pair_of tallied.items ≡ tally (map string_bytes ends.now)) }
{
    let mut tallied = Vec::new(alloc);
    for (first, end) in ends.iter().enumerate() {
        add_end(ends, first, end, &mut tallied)?;
    }
    Ok(tallied)
}
