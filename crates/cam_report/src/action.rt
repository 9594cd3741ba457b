//! The part of the report on an action.
ghost use Rattle.std.specs.Prelude.{◌≡◌, ◌++◌, List, ℕ, OnOk, IfOk, reverse, string_bytes};
ghost use Rattle.std.specs.List.{flat_map};
ghost use Rattle.cam_event.specs.declared.Deed.{Deed};
ghost use Rattle.cam_event.specs.declared.ViewStep.TheVariants.{Child};
ghost use Rattle.cam_report.specs.Words.{words, inner_line};
ghost use Rattle.cam_report.specs.Report.{step_words, state_of, state_text_of, action_text, actions};
ghost use Rattle.cam_report.specs.Gathered.{view_in, IsGathered};

use crate::milestones::{Milestone, all_reached};
use crate::views::{Views, steps_of, views_of};
use crate::words::{object_text, write_op, write_seen};
use cam_base::NoMemory;
use cam_event::{Deed, ViewStep};
use cam_names::Name;
use cam_script::Labels;
use std::alloc::Global;
use std::collections::BTreeSet;
use std::fmt::Write;

/// How an action stands at the end.
#[derive(Clone, Copy, Debug, PartialEq, Eq)]
pub enum ActionState {
    Committed,
    Aborted,
    Open,
}

impl ActionState {
    /// Its word: `committed`, `aborted` or `open`.
    pub fn word(self) -> &'static str
        ensures { result.now ≡ state_text_of self }
    {
        match self {
            ActionState::Committed => "committed",
            ActionState::Aborted => "aborted",
            ActionState::Open => "open",
        }
    }
}

/// What is gathered of the actions of a run: their names, how each stands at the end, and their
/// views.
#[derive(Drop)]
pub struct Actions {
    created: BTreeSet<Name>,
    committed: BTreeSet<Name>,
    aborted: BTreeSet<Name>,
    views: Views,
}

impl Actions {
    /// The created actions, in order of names.
    pub fn created(&self) -> &BTreeSet<Name>
        ensures { result.now ≡ self.now.created }
    {
        &self.created
    }

    /// The view of an action.
    pub fn view(&self, action: &Name) -> &[ViewStep]
        ensures { result.now ≡ view_in self.now.views action.now }
    {
        steps_of(&self.views, action)
    }

    /// How an action stands at the end.
    pub fn state(&self, action: &Name) -> ActionState
        ensures { (L : List Deed) → IsGathered L self.now → result ≡ state_of L action.now }
    {
        if self.committed.contains(action) {
            ActionState::Committed
        } else if self.aborted.contains(action) {
            ActionState::Aborted
        } else {
            ActionState::Open
        }
    }
}

/// Gathers the actions, by passes over the deeds.
pub fn gather(alloc: Global, deeds: &[Deed]) -> Result<Actions, NoMemory>
    ensures { IfOk result (IsGathered (reverse deeds.now)) }
{
    Ok(Actions {
        created: all_reached(alloc, deeds, Milestone::Created)?,
        committed: all_reached(alloc, deeds, Milestone::Committed)?,
        aborted: all_reached(alloc, deeds, Milestone::Aborted)?,
        views: views_of(alloc, deeds)?,
    })
}

/// Appends how a child ended: with a value where it committed.
fn write_child(
    alloc: Global,
    child: &Name,
    end: Option<i64>,
    out: &mut String,
) -> Result<(), NoMemory>
    ensures { OnOk result ((labels : List (List ℕ))
        → string_bytes out.new ≡ string_bytes out.old
        ++ words (step_words labels (Child child.now end))) }
{
    out.push_str("child ")?;
    child.write_text(alloc, out)?;
    match end {
        Some(value) => write!(out, " committed {value}")?,
        None => out.push_str(" aborted")?,
    }
    Ok(())
}

/// Appends the words of a view's step.
#[tactic(auto, using(crate::proofs::Spaced::words_op, crate::proofs::Spaced::words_seen))]
fn write_step(
    alloc: Global,
    labels: &Labels,
    step: &ViewStep,
    out: &mut String,
) -> Result<(), NoMemory>
    ensures { OnOk result (string_bytes out.new ≡ string_bytes out.old
        ++ words (step_words labels.now step.now)) }
{
    match step {
        ViewStep::Created => out.push_str("created")?,
        ViewStep::Asked(child) => {
            out.push_str("asked ")?;
            child.write_text(alloc, out)?;
        }
        ViewStep::Called(number, object, op) => {
            write!(out, "called {number} {} ", object_text(labels, *object))?;
            write_op(op, out)?;
        }
        ViewStep::Got(number, seen) => {
            write!(out, "got {number} ")?;
            write_seen(alloc, seen, out)?;
        }
        ViewStep::Child(child, end) => write_child(alloc, child, *end, out)?,
        ViewStep::CommitAsked(value) => write!(out, "commit {value}")?,
        ViewStep::AbortAsked => out.push_str("abort")?,
    }
    Ok(())
}

/// Appends the steps of a view, a line each.
fn write_view(
    alloc: Global,
    labels: &Labels,
    view: &[ViewStep],
    out: &mut String,
) -> Result<(), NoMemory>
    ensures { OnOk result (string_bytes out.new ≡ string_bytes out.old
        ++ flat_map (λ step. inner_line (step_words labels.now step)) view.now) }
{
    for step in view {
        out.push_str("  ")?;
        write_step(alloc, labels, step, out)?;
        writeln!(out)?;
    }
    Ok(())
}

/// Appends an action with its view.
fn write_action(
    alloc: Global,
    labels: &Labels,
    actions: &Actions,
    action: &Name,
    out: &mut String,
) -> Result<(), NoMemory>
    ensures { OnOk result ((L : List Deed) → IsGathered L actions.now
        → string_bytes out.new ≡ string_bytes out.old ++ action_text labels.now L action.now) }
{
    let depth = action.depth();
    prove!(depth >= 1);
    out.push_str("action ")?;
    action.write_text(alloc, out)?;
    writeln!(out, " {}", actions.state(action).word())?;
    write_view(alloc, labels, actions.view(action), out)?;
    Ok(())
}

/// Appends the created actions with their views, in order of names.
pub fn write_actions(
    alloc: Global,
    labels: &Labels,
    deeds: &[Deed],
    out: &mut String,
) -> Result<(), NoMemory>
    ensures { OnOk result (string_bytes out.new ≡ string_bytes out.old
        ++ flat_map (action_text labels.now (reverse deeds.now))
        (actions (reverse deeds.now))) }
{
    let actions = gather(alloc, deeds)?;
    for action in &actions.created {
        write_action(alloc, labels, &actions, action, out)?;
    }
    Ok(())
}
