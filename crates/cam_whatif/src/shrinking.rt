//! The smallest script whose report still has a line.
ghost use Rattle.std.specs.Prelude.{◌≡◌, false, true, length, map, IfNone, IfOk, IfSome};
ghost use Rattle.cam_shrink.specs.Cuts.{alone, places_below, IsPart};
ghost use Rattle.cam_shrink.specs.Least.{EachIsNeeded};
ghost use Rattle.cam_words.specs.Lines.{lines_of};
ghost use Rattle.cam_whatif.specs.Reports.{shows};
ghost use Rattle.cam_whatif.specs.Smallest.{IsMissing, IsSmallest, Shows};
ghost use Rattle.cam_whatif.specs.Texts.{text_at};

use crate::groups::groups;
use crate::lines::{has_line, lines_in, text_of};
use crate::report::report_of;
use cam_base::NoMemory;
use cam_shrink::{Places, Test, shrink};
use std::alloc::Global;

/// Whether a text is accepted and its report has this line.
fn shows(alloc: Global, line: &[u8], text: &[u8]) -> Result<bool, NoMemory>
    ensures { IfOk result (λ yes. yes ≡ shows line.now text.now) }
{
    match report_of(alloc, text)? {
        Some(report) => Ok(has_line(line, report.as_bytes())),
        None => Ok(false),
    }
}

/// The lines of a script, and the line that the report is to keep.
#[derive(Drop)]
struct Keeps<'a> {
    lines: &'a [&'a [u8]],
    line: &'a [u8],
}

impl<'a> Test for Keeps<'a> {
    ghost use Rattle.std.specs.Prelude.{◌≡◌, map};
    ghost use Rattle.cam_whatif.specs.Reports.{shows};
    ghost use Rattle.cam_whatif.specs.Texts.{text_at};

    ghost answers = { λ test kept passed.
        passed ≡ shows test.line.now (text_at (map (λ line. line.now) test.lines.now) kept) };

    fn passes(&self, alloc: Global, kept: &[usize]) -> Result<bool, NoMemory> {
        let text = text_of(alloc, self.lines, kept)?;
        shows(alloc, self.line, &text)
    }
}

/// The places of the lines that are kept where no further line can go. None if the report of all
/// lines does not have the line.
fn smallest(alloc: Global, lines: &[&[u8]], line: &[u8]) -> Result<Option<Places>, NoMemory>
    ensures part { IfOk result (λ found. IfSome found
        (λ kept. IsPart kept (places_below (length lines.now)))) }
    ensures passes { IfOk result (λ found. IfSome found (λ kept.
        true ≡ shows line.now (text_at (map (λ line. line.now) lines.now) kept))) }
    ensures needed { IfOk result (λ found. IfSome found (λ kept. EachIsNeeded
        (Shows line.now (map (λ line. line.now) lines.now)) kept (alone (length lines.now)))) }
    ensures none { IfOk result (λ found. IfNone found (false ≡ shows line.now
        (text_at (map (λ line. line.now) lines.now) (places_below (length lines.now))))) }
{
    let test = Keeps { lines, line };
    let found = shrink(alloc, &test, lines.len(), groups(alloc, lines)?)?;
    Ok(found)
}

/// The smallest text, by taking lines away.
fn shrink_lines(alloc: Global, lines: &[&[u8]], line: &[u8]) -> Result<Option<Vec<u8>>, NoMemory>
    ensures smallest { IfOk result (λ found. IfSome found
        (λ text. IsSmallest line.now (map (λ line. line.now) lines.now) text.items)) }
    ensures none { IfOk result (λ found. IfNone found
        (IsMissing line.now (map (λ line. line.now) lines.now))) }
{
    match smallest(alloc, lines, line)? {
        Some(kept) => {
            let text = text_of(alloc, lines, kept.as_slice())?;
            Ok(Some(text))
        }
        None => Ok(None),
    }
}

/// The smallest script, by taking lines away, whose report still has a line: no further line can
/// go. None if the report of all lines does not have it. The lines of a variable, of an object and
/// of a body are tried together, too.
pub fn shrink_text(alloc: Global, source: &[u8], line: &[u8]) -> Result<Option<Vec<u8>>, NoMemory>
    ensures smallest { IfOk result (λ found. IfSome found
        (λ text. IsSmallest line.now (lines_of source.now) text.items)) }
    ensures none { IfOk result (λ found. IfNone found (IsMissing line.now (lines_of source.now))) }
{
    let lines = lines_in(alloc, source)?;
    let found = shrink_lines(alloc, &lines, line)?;
    Ok(found)
}
