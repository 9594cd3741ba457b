//! The summary of a run.
ghost use Rattle.std.specs.Prelude.{◌≡◌, List, IfOk, filter, length, reverse, string_bytes};
ghost use Rattle.std.specs.List.{flat_map};
ghost use Rattle.cam_event.specs.declared.Deed.{Deed as DeedFields};
ghost use Rattle.cam_event.specs.Rules.{sorted_names};
ghost use Rattle.cam_report.specs.declared.milestones.Milestone.TheVariants.{Committed};
ghost use Rattle.cam_report.specs.Gathered.{reached};
ghost use Rattle.cam_report.specs.Records.{record_summary};
ghost use Rattle.cam_report.specs.Report.{actions};
ghost use Rattle.cam_report.specs.Summary.{is_committed_top, is_stop};

use crate::deeds::deeds_of;
use crate::milestones::{Milestone, all_reached};
use crate::numbering::numbering_of;
use cam_base::NoMemory;
use cam_event::{Deed, Note, RunRecord, Trace};
use cam_names::Name;
use std::alloc::Global;
use std::collections::BTreeSet;
use std::fmt::Write;

/// Whether an event stopped an action.
fn is_stop(note: &Note) -> bool
    ensures { result ≡ is_stop note.now }
{
    matches!(note, Note::Stopped(..))
}

/// How many events stopped an action.
fn stops_in(trace: &Trace) -> usize
    ensures { result ≡ length (filter (λ e. is_stop e.note) (reverse trace.now)) }
{
    let mut stops = 0;
    for event in trace.as_slice() {
        if is_stop(&event.note) {
            stops += 1;
        }
    }
    stops
}

/// Whether it is a top action, and one of those that committed.
fn is_committed_top(committed: &BTreeSet<Name>, action: &Name) -> bool
    ensures { (L : List DeedFields) → committed.now.keys ≡ sorted_names (flat_map (reached Committed) L)
        → result ≡ is_committed_top L action.now }
{
    action.depth() == 1 && committed.contains(action)
}

/// How many of the created actions are top actions that committed.
fn committed_tops(created: &BTreeSet<Name>, committed: &BTreeSet<Name>) -> usize
    ensures { (L : List DeedFields) → committed.now.keys ≡ sorted_names (flat_map (reached Committed) L)
        → result ≡ length (filter (is_committed_top L) created.now.keys) }
{
    let mut tops = 0;
    for action in created {
        if is_committed_top(committed, action) {
            tops += 1;
        }
    }
    tops
}

/// How many actions were created, and how many of them are top actions that committed.
#[derive(Clone, Copy)]
struct Figures {
    actions: usize,
    committed: usize,
}

/// Counts the actions.
fn figures_of(alloc: Global, deeds: &[Deed]) -> Result<Figures, NoMemory>
    ensures actions { IfOk result (λ figures.
        figures.actions ≡ length (actions (reverse deeds.now))) }
    ensures committed { IfOk result (λ figures. figures.committed
        ≡ length (filter (is_committed_top (reverse deeds.now)) (actions (reverse deeds.now)))) }
{
    let created = all_reached(alloc, deeds, Milestone::Created)?;
    let committed = all_reached(alloc, deeds, Milestone::Committed)?;
    Ok(Figures {
        actions: created.len(),
        committed: committed_tops(&created, &committed),
    })
}

/// The summary of a run in seven lines: the steps of its script, its events, its letters, its
/// actions, the top actions that committed, the stops, and the digest of its report. The steps and
/// the digest are those that are handed in.
pub fn summary_text(
    alloc: Global,
    run: &RunRecord,
    steps: u32,
    digest: &str,
) -> Result<String, NoMemory>
    ensures { IfOk result (λ text.
        string_bytes text ≡ record_summary run.now steps digest.now) }
{
    let deeds = deeds_of(alloc, &run.trace)?;
    let figures = figures_of(alloc, deeds.as_slice())?;
    let events = run.trace.len();
    let numbering = numbering_of(alloc, &run.trace)?;
    let letters = numbering.sent_before(events);
    let mut text = String::new(alloc);
    writeln!(text, "steps {steps}")?;
    writeln!(text, "events {events}")?;
    writeln!(text, "letters {letters}")?;
    writeln!(text, "actions {}", figures.actions)?;
    writeln!(text, "committed {}", figures.committed)?;
    writeln!(text, "stops {}", stops_in(&run.trace))?;
    writeln!(text, "report {digest}")?;
    Ok(text)
}
