//! Places of lines, and those that go together.
ghost use Rattle.std.specs.Prelude.{◌≡◌, ◌++◌, ◌<◌, IfOk, OnOk};
ghost use Rattle.cam_shrink.specs.Cuts.{alone, is_cut, places_below, without};

use cam_base::{NoMemory, Sequence};
use std::alloc::Global;

/// Places of lines, counted from 0, in rising order.
pub type Places = Sequence<usize>;

/// Lists of places of which each goes as a whole.
pub type Cuts = Sequence<Places>;

/// The places of so many lines.
pub(crate) fn places_below(alloc: Global, lines: usize) -> Result<Places, NoMemory>
    ensures { IfOk result (λ places. places ≡ places_below lines) }
{
    let mut places = Places::new(alloc);
    for place in 0..lines {
        places.push(place)?;
    }
    Ok(places)
}

/// Whether a place is one of a cut.
fn is_cut(cut: &[usize], place: usize) -> bool
    ensures { result ≡ is_cut cut.now place }
{
    cut.contains(&place)
}

/// The places that are left if those of a cut go.
pub(crate) fn without(alloc: Global, cut: &[usize], kept: &[usize]) -> Result<Places, NoMemory>
    ensures { IfOk result (λ left. left ≡ without cut.now kept.now) }
{
    let mut left = Places::new(alloc);
    for place in kept {
        if !is_cut(cut, *place) {
            left.push(*place)?;
        }
    }
    Ok(left)
}

/// Adds each of so many lines as a cut of its own.
pub(crate) fn add_lines(alloc: Global, lines: usize, cuts: &mut Cuts) -> Result<(), NoMemory>
    ensures { OnOk result (cuts.new ≡ cuts.old ++ alone lines) }
{
    for place in 0..lines {
        let mut cut = Places::new(alloc);
        cut.push(place)?;
        cuts.push(cut)?;
    }
    Ok(())
}

/// The places from one up to another.
fn between(alloc: Global, first: usize, end: usize) -> Result<Places, NoMemory> {
    let mut places = Places::new(alloc);
    for place in first..end {
        places.push(place)?;
    }
    Ok(places)
}

/// Adds the cuts of so many neighbours each, of all lines.
fn add_neighbours(alloc: Global, lines: usize, size: usize, cuts: &mut Cuts) -> Result<(), NoMemory>
    requires { 0 < size }
{
    let mut first = 0;
    while first < lines {
        let end = if size < lines - first {
            first + size
        } else {
            lines
        };
        cuts.push(between(alloc, first, end)?)?;
        first = end;
    }
    Ok(())
}

/// The halves of the lines, the quarters and so on, down to pairs.
pub(crate) fn halves(alloc: Global, lines: usize) -> Result<Cuts, NoMemory> {
    let mut cuts = Cuts::new(alloc);
    let mut size = lines / 2;
    while size > 1 {
        add_neighbours(alloc, lines, size, &mut cuts)?;
        size /= 2;
    }
    Ok(cuts)
}
