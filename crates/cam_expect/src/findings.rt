//! What a script expects against what its run comes to.
ghost use Rattle.std.specs.Prelude.{◌≡◌, ◌++◌, ◌↔◌, [], IfOk, OnOk, map, string_bytes};
ghost use Rattle.std.specs.List.{flat_map, list_any};
ghost use Rattle.cam_expect.specs.Findings.{found_at, is_met, is_of, labelled_text, missed, refused_text, unexpected, unexpected_line, Holds};
ghost use Rattle.cam_sentences.specs.Labels.{label};

use crate::expected::{Expectation, Expectations};
use crate::facts::Facts;
use crate::like::like;
use cam_base::{NoMemory, Sequence};
use cam_event::{LineRefusal, Mark, Marks};
use cam_scope::push_number;
use cam_sentences::refusal_label;
use std::alloc::Global;

/// What is wrong at a line of a script.
#[derive(Drop)]
pub struct Finding {
    /// The number of the line.
    pub line: u32,
    /// What it expects; none where the line was refused and nothing expects that.
    pub expected: Option<String>,
    /// What was found in its place; none where nothing is like it.
    pub found: Option<String>,
}

/// The findings of a script.
pub type Findings = Sequence<Finding>;

/// Whether the run comes to what is expected.
fn is_met(facts: &Facts, expectation: &Expectation) -> bool
    ensures { result ≡ is_met facts.now expectation.now }
{
    facts.contains(expectation.text.as_str())
}

/// The finding of an expectation that is not met.
fn finding_of(alloc: Global, facts: &Facts, expectation: &Expectation) -> Result<Finding, NoMemory>
    ensures { IfOk result (λ finding. finding.line ≡ expectation.now.line) }
{
    let text = expectation.text.as_str();
    Ok(Finding {
        line: expectation.line,
        expected: Some(String::from_str(alloc, text)?),
        found: like(alloc, facts, text)?,
    })
}

/// Adds a finding for each expectation that is not met.
fn add_missed(
    alloc: Global,
    facts: &Facts,
    expectations: &[Expectation],
    findings: &mut Findings,
) -> Result<(), NoMemory>
    ensures { OnOk result (map found_at findings.new ≡ map found_at findings.old
        ++ flat_map (missed facts.now) expectations.now) }
{
    for expectation in expectations {
        if !is_met(facts, expectation) {
            findings.push(finding_of(alloc, facts, expectation)?)?;
        }
    }
    Ok(())
}

/// The expectation that a line is refused.
fn refused_text(alloc: Global, line: u32) -> Result<String, NoMemory>
    ensures { IfOk result (λ text. string_bytes text ≡ refused_text line) }
{
    let mut text = String::from_str(alloc, "line ")?;
    push_number(&mut text, u64::from(line))?;
    text.push_str(" refused")?;
    Ok(text)
}

/// The expectation that a line is refused for this reason.
fn labelled_text(alloc: Global, line: u32, refusal: LineRefusal) -> Result<String, NoMemory>
    ensures { IfOk result (λ text. string_bytes text ≡ labelled_text line (label refusal)) }
{
    let mut text = refused_text(alloc, line)?;
    text.push_str(" ")?;
    text.push_str(refusal_label(refusal))?;
    Ok(text)
}

/// Whether something expects one text or the other.
fn expects(expectations: &[Expectation], plain: &str, labelled: &str) -> bool
    ensures { result ≡ list_any (is_of plain.now labelled.now) expectations.now }
{
    for expectation in expectations {
        let text = expectation.text.as_str();
        if text == plain || text == labelled {
            return true;
        }
    }
    false
}

/// Adds a finding for a line that was refused, where nothing expects that.
fn add_refused(
    alloc: Global,
    expectations: &[Expectation],
    line: u32,
    refusal: LineRefusal,
    findings: &mut Findings,
) -> Result<(), NoMemory>
    ensures { OnOk result (map found_at findings.new ≡ map found_at findings.old
        ++ unexpected_line expectations.now line (label refusal)) }
{
    let plain = refused_text(alloc, line)?;
    let labelled = labelled_text(alloc, line, refusal)?;
    if !expects(expectations, &plain, &labelled) {
        findings.push(Finding {
            line,
            expected: None,
            found: Some(labelled),
        })?;
    }
    Ok(())
}

/// Adds a finding for a mark of a line that was refused, where nothing expects that.
fn add_mark(
    alloc: Global,
    expectations: &[Expectation],
    mark: &Mark,
    findings: &mut Findings,
) -> Result<(), NoMemory>
    ensures { OnOk result (map found_at findings.new ≡ map found_at findings.old
        ++ unexpected expectations.now mark.now) }
{
    match mark {
        Mark::Refused { line, refusal } => {
            add_refused(alloc, expectations, *line, *refusal, findings)
        }
        Mark::Cut { .. } => Ok(()),
        Mark::Halted { .. } => Ok(()),
    }
}

/// Adds a finding for each line that was refused, where nothing expects that.
fn add_unexpected(
    alloc: Global,
    expectations: &[Expectation],
    marks: &Marks,
    findings: &mut Findings,
) -> Result<(), NoMemory>
    ensures { OnOk result (map found_at findings.new ≡ map found_at findings.old
        ++ flat_map (unexpected expectations.now) marks.now) }
{
    for mark in marks.as_slice() {
        add_mark(alloc, expectations, mark, findings)?;
    }
    Ok(())
}

/// The findings of both kinds, those of expectations first.
fn gathered(
    alloc: Global,
    facts: &Facts,
    expectations: &Expectations,
    marks: &Marks,
) -> Result<Findings, NoMemory>
    ensures { IfOk result (λ findings. map found_at findings
        ≡ flat_map (missed facts.now) expectations.now
        ++ flat_map (unexpected expectations.now) marks.now) }
{
    let mut findings = Findings::new(alloc);
    add_missed(alloc, facts, expectations.as_slice(), &mut findings)?;
    add_unexpected(alloc, expectations.as_slice(), marks, &mut findings)?;
    Ok(findings)
}

/// The findings of a run that comes to these facts and left these marks: one for each expectation
/// that is no such fact, and one for each refused line that nothing expects, and no other. So there
/// is none exactly where all expectations hold and each refused line is expected.
pub fn check(
    alloc: Global,
    facts: &Facts,
    expectations: &Expectations,
    marks: &Marks,
) -> Result<Findings, NoMemory>
    ensures lines { IfOk result (λ findings. map found_at findings
        ≡ flat_map (missed facts.now) expectations.now
        ++ flat_map (unexpected expectations.now) marks.now) }
    ensures none { IfOk result (λ findings.
        (findings ≡ []) ↔ Holds facts.now expectations.now marks.now) }
{
    let findings = gathered(alloc, facts, expectations, marks)?;
    Ok(findings)
}
