//! Taking lines away until none can go.
ghost use Rattle.std.specs.Prelude.{◌≡◌, ◌++◌, true, false, IfOk, OnOk, IfSome, IfNone, length};
ghost use Rattle.cam_shrink.specs.Cuts.{alone, places_below, IsPart};
ghost use Rattle.cam_shrink.specs.Least.{EachIsNeeded, IsRound, IsTried};

use crate::cuts::{Cuts, Places, add_lines, halves, places_below, without};
use crate::test::Test;
use cam_base::NoMemory;
use std::alloc::Global;

/// Takes the places of a cut away, if some of them are kept and the others pass without them.
fn try_cut<T: Test>(
    alloc: Global,
    test: &T,
    cut: &Places,
    kept: &mut Places,
) -> Result<(), NoMemory>
    ensures { OnOk result (IsTried (T.answers test.now) cut.now kept.old kept.new) }
{
    let left = without(alloc, cut.as_slice(), kept.as_slice())?;
    if left.len() >= kept.len() {
        return Ok(());
    }
    if test.passes(alloc, left.as_slice())? {
        *kept = left;
    }
    Ok(())
}

/// Tries each cut once.
fn try_cuts<T: Test>(
    alloc: Global,
    test: &T,
    cuts: &Cuts,
    kept: &mut Places,
) -> Result<(), NoMemory>
    ensures { OnOk result (IsRound (T.answers test.now) cuts.now kept.old kept.new) }
{
    for cut in cuts.as_slice() {
        try_cut(alloc, test, cut, kept)?;
    }
    Ok(())
}

/// Tries the cuts until none of them can go.
fn settle<T: Test>(alloc: Global, test: &T, cuts: &Cuts, kept: &mut Places) -> Result<(), NoMemory>
    ensures part { OnOk result (IsPart kept.new kept.old) }
    ensures passes { OnOk result (T.answers test.now kept.old true → T.answers test.now kept.new true) }
    ensures least { OnOk result (EachIsNeeded (T.answers test.now) kept.new cuts.now) }
{
    loop {
        let before = kept.len();
        try_cuts(alloc, test, cuts, kept)?;
        if kept.len() == before {
            return Ok(());
        }
    }
}

/// The smallest part of so many lines that still passes the test, if all of them pass: the test said
/// so of that part, and of that part without any one of its lines, or without the lines of a group,
/// it said that they fail. None if the test said that all lines fail.
///
/// The places of a group go together; each line goes alone, too.
pub fn shrink<T: Test>(
    alloc: Global,
    test: &T,
    lines: usize,
    groups: Cuts,
) -> Result<Option<Places>, NoMemory>
    ensures part { IfOk result (λ found. IfSome found (λ kept. IsPart kept (places_below lines))) }
    ensures passes { IfOk result (λ found. IfSome found (λ kept. T.answers test.now kept true)) }
    ensures lines { IfOk result (λ found.
        IfSome found (λ kept. EachIsNeeded (T.answers test.now) kept (alone lines))) }
    ensures groups { IfOk result (λ found.
        IfSome found (λ kept. EachIsNeeded (T.answers test.now) kept groups)) }
    ensures none { IfOk result (λ found.
        IfNone found (T.answers test.now (places_below lines) false)) }
{
    let mut kept = places_below(alloc, lines)?;
    if !test.passes(alloc, kept.as_slice())? {
        return Ok(None);
    }
    try_cuts(alloc, test, &halves(alloc, lines)?, &mut kept)?;
    let mut cuts = groups;
    add_lines(alloc, lines, &mut cuts)?;
    settle(alloc, test, &cuts, &mut kept)?;
    Ok(Some(kept))
}
