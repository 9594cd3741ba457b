// Counts of nodes as pairs: the number of pairs, then each node with its count, the nodes rising.
ghost use Rattle.std.specs.Prelude.{◌≡◌, ◌+◌, ◌<◌, ◌≤◌, ◌++◌, length, IfOk};
ghost use Rattle.cam_bytes.specs.Fields.{pair, pairs_above, counts_above, deps as bytes_of_deps};
ghost use Rattle.cam_bytes.specs.Ranges.{IsDeps};
ghost use Rattle.cam_bytes.specs.Reading.{pairs_from, counts_above_at, deps_at};

use crate::WireFault;
use crate::numbers::{byte_in, number_in, write_byte, write_number};
use cam_base::NoMemory;
use cam_names::{Deps, Part};

/// The counts with so many more pairs put in, each count at least `least` and each node above the one before, and the place
/// after them.
#[tactic(auto, unfolding(crate::specs::Reading::pairs_from))]
fn pairs_from(
    bytes: &[u8],
    at: usize,
    left: u8,
    least: u32,
    before: u8,
    mut counts: [u32; 8],
) -> Result<([u32; 8], usize), WireFault>
    requires { at ≤ length bytes.now }
    ensures value { result ≡ pairs_from left least before counts at bytes.now }
    ensures end { IfOk result (λ read. (at ≤ read.1) × (read.1 ≤ length bytes.now)) }
{
    if left == 0 {
        return Ok((counts, at));
    }
    let (node, behind) = byte_in(bytes, at, 1, 8)?;
    if node <= before {
        return Err(WireFault::Order(at as u64));
    }
    let (count, end) = number_in(bytes, behind, least, Part::LAST)?;
    counts[node as usize - 1] = count;
    pairs_from(bytes, end, left - 1, least, node, counts)
}

/// The counts above `base`, 0 or 1, at a place, with `base` for each that is not written, and the place after them.
///
/// `Short` if a field is not whole; `BadNumber` at the first byte of a number of pairs, a node or a count out of its range; `Order` at a
/// node that is not above the one before.
#[tactic(auto, unfolding(crate::specs::Reading::pairs_in))]
pub fn counts_above_at(bytes: &[u8], at: usize, base: u32) -> Result<([u32; 8], usize), WireFault>
    requires place { at ≤ length bytes.now }
    requires base { base ≤ 1 }
    ensures value { result ≡ counts_above_at base at bytes.now }
    ensures end { IfOk result (λ read. (at < read.1) × (read.1 ≤ length bytes.now)) }
{
    let (number, at) = byte_in(bytes, at, 0, 8)?;
    pairs_from(bytes, at, number, base + 1, 0, [base; 8])
}

/// Dependencies at a place, and the place after them. `Short`, `BadNumber` and `Order` as `counts_above_at`.
pub fn deps_at(bytes: &[u8], at: usize) -> Result<(Deps, usize), WireFault>
    requires { at ≤ length bytes.now }
    ensures value { result ≡ deps_at at bytes.now }
    ensures end { IfOk result (λ read. (at < read.1) × (read.1 ≤ length bytes.now)) }
{
    let (counts, at) = counts_above_at(bytes, at, 0)?;
    Ok((Deps::of(&counts), at))
}

/// A node with its count, appended to what was written.
fn write_pair(out: Vec<u8>, node: u8, count: u32) -> Result<Vec<u8>, NoMemory>
    ensures { IfOk result (λ text. text.items ≡ out.items ++ pair (node, count)) }
{
    write_number(write_byte(out, node)?, count)
}

/// How many of the counts are above `base`.
fn number_above(counts: &[u32; 8], base: u32) -> u8
    ensures { result ≡ length (pairs_above base 1 counts.now) }
{
    let mut number = 0;
    for node in 0..8 {
        if counts[node] > base {
            number += 1;
        }
    }
    number
}

/// The counts above `base`, appended to what was written. Fails only if memory runs out.
pub fn write_counts_above(out: Vec<u8>, counts: &[u32; 8], base: u32) -> Result<Vec<u8>, NoMemory>
    ensures { IfOk result (λ text. text.items ≡ out.items ++ counts_above base counts.now) }
{
    let mut out = write_byte(out, number_above(counts, base))?;
    for node in 0..8 {
        if counts[node] > base {
            out = write_pair(out, node as u8 + 1, counts[node])?;
        }
    }
    Ok(out)
}

/// Dependencies, appended to what was written. Fails only if memory runs out.
pub fn write_deps(out: Vec<u8>, deps: &Deps) -> Result<Vec<u8>, NoMemory>
    ensures ok { IfOk result (λ text. text.items ≡ out.items ++ bytes_of_deps deps.now) }
    ensures range { IsDeps deps.now }
{
    write_counts_above(out, &deps.counts(), 0)
}
