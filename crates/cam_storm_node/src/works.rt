//! What the actions of a node work at and have seen, event by event.
ghost use Rattle.std.specs.Prelude.{◌≡◌, ◌≤◌, ◌||◌, ◌∷◌, ◌++◌, cond, false, true, [], ℕ, List, IfOk, OnOk, Option, Some, length, flat_map};
ghost use Rattle.std.specs.Ordering.{is_eq};
ghost use Rattle.std.specs.BTreeSet.{contains};
ghost use Rattle.std.specs.List.{list_any};
ghost use Rattle.cam_names.specs.declared.name.Name.{Name as NameFields};
ghost use Rattle.cam_names.specs.Names.{name_cmp};
ghost use Rattle.cam_event.specs.declared.Deed.{Deed as DeedFields};
ghost use Rattle.cam_event.specs.History.{after};
ghost use Rattle.cam_event.specs.declared.Event.{Event as EventFields};
ghost use Rattle.cam_event.specs.Inputs.{Mail};
ghost use Rattle.cam_event.specs.Loads.{Load};
ghost use Rattle.cam_event.specs.ByDeltas.{Received};
ghost use Rattle.cam_body.specs.Work.{next};
ghost use Rattle.cam_gen.specs.Storms.{Words, action_number, body_of};
ghost use Rattle.cam_runs.specs.Playing.{is_stop_of};
ghost use Rattle.cam_storm.specs.Own.{finish_value, own_step, value_on};
ghost use Rattle.cam_storm_node.specs.Works.{HaveBodies, HaveSeen, IsTakenOut, IsWanted, child_end, steps_for, view_in};
ghost use Rattle.cam_storm_node.specs.Asking.{EndsActions, HaveAsked, IsKept, IsNoted, is_any_crash};

use cam_base::NoMemory;
use cam_body::{Next, next_request};
use cam_event::{Body, Deed, Deeds, Event, Note, View, ViewStep, Want};
use cam_gen::Storm;
use cam_names::Name;
use cam_script::BodyText;
use std::alloc::Global;
use std::collections::{BTreeMap, BTreeSet};

/// What an action works at, and what it has seen.
#[derive(Drop)]
pub(crate) struct Work {
    pub(crate) body: BodyText,
    pub(crate) view: View,
}

impl Work {
    /// What the action asks for next, by its body and its view; none if it waits or is over.
    pub(crate) fn want(&self) -> Option<Want>
        ensures { IsWanted (next self.now.body self.now.view) result }
    {
        match next_request(&self.body, &self.view) {
            Next::Request(want) => Some(want),
            Next::Wait | Next::Over => None,
        }
    }
}

/// The works of actions, by name.
pub(crate) type Table = BTreeMap<Name, Work>;

/// The works of the actions that were created at a node, and which actions were stopped there.
#[derive(Drop)]
pub(crate) struct Works {
    alloc: Global,
    pub(crate) storm: Storm,
    pub(crate) works: Table,
    pub(crate) stopped: BTreeSet<Name>,
    /// The actions that may have a request: those that ask for something by their body and view,
    /// but for the ones that were stopped and those of an earlier count of the node.
    pub(crate) asking: BTreeSet<Name>,
}

/// The value on a finish; none on any other letter.
pub(crate) fn value_on(body: &Body) -> Option<i64>
    ensures { result ≡ value_on body.now }
{
    match body {
        Body::Finish { value, .. } => Some(*value),
        _ => None,
    }
}

/// The step that a child's end gives to the view of its parent.
fn child_end(child: &Name, value: Option<i64>) -> Option<(Name, ViewStep)>
    ensures { (a : NameFields) → 1 ≤ length a → steps_for a result ≡ child_end a child.now value }
{
    match child.parent() {
        Some(parent) => Some((parent, ViewStep::Child(*child, value))),
        None => None,
    }
}

/// The step that a deed gives to a view, and whose view it is. A child that commits does so with
/// the value on the finish that came.
fn step_given(deed: &Deed, finish: Option<i64>) -> Option<(Name, ViewStep)>
    ensures { (mail : Option Mail) (a : NameFields) → finish_value mail ≡ finish → 1 ≤ length a
        → steps_for a result ≡ own_step mail a deed.now }
{
    match deed {
        Deed::Create { action } => Some((*action, ViewStep::Created)),
        Deed::Ask { action, child } => Some((*action, ViewStep::Asked(*child))),
        Deed::Call {
            action,
            number,
            object,
            op,
            ..
        } => Some((*action, ViewStep::Called(*number, *object, *op))),
        Deed::Got {
            action,
            number,
            seen,
        } => Some((*action, ViewStep::Got(*number, *seen))),
        Deed::AskCommit { action, value } => Some((*action, ViewStep::CommitAsked(*value))),
        Deed::AskAbort { action } => Some((*action, ViewStep::AbortAsked)),
        Deed::Commit { action } => match finish {
            Some(value) => child_end(action, Some(value)),
            None => None,
        },
        Deed::Abort { action } => child_end(action, None),
        Deed::Perform { .. }
        | Deed::Bounce { .. }
        | Deed::Secure { .. }
        | Deed::Inform { .. }
        | Deed::Crash { .. } => None,
    }
}

/// The work of an action before its first step.
fn unbegun(alloc: Global, storm: &Storm, action: &Name) -> Result<Work, NoMemory>
    ensures body { IfOk result (λ work. action_number action.now ≤ 64
        → work.body ≡ body_of storm.now action.now) }
    ensures view { IfOk result (λ work. work.view ≡ []) }
{
    Ok(Work {
        body: storm.body_of(alloc, action)?,
        view: View::new(alloc),
    })
}

/// Takes the work of an action out of the table; one that has none begins.
fn take_out(
    alloc: Global,
    storm: &Storm,
    works: &mut Table,
    action: &Name,
) -> Result<Work, NoMemory>
    ensures out { IsTakenOut works.old works.new action.now }
    ensures view { IfOk result (λ work. work.view ≡ view_in works.old action.now) }
    ensures body { HaveBodies storm.now works.old
        → IfOk result (λ work. action_number action.now ≤ 64
        → work.body ≡ body_of storm.now action.now) }
{
    match works.remove(action) {
        Some(work) => Ok(work),
        None => unbegun(alloc, storm, action),
    }
}

/// Keeps whether an action asks for something.
fn note_asking(asking: &mut BTreeSet<Name>, action: &Name, asks: bool) -> Result<(), NoMemory>
    ensures { OnOk result ((a : NameFields) → contains name_cmp asking.new a
        ≡ cond (is_eq (name_cmp action.now a)) asks (contains name_cmp asking.old a)) }
{
    if asks {
        asking.insert(*action)?;
    } else {
        asking.remove(action);
    }
    Ok(())
}

/// Adds a step at the end of an action's view.
fn add_step(
    alloc: Global,
    storm: &Storm,
    works: &mut Table,
    asking: &mut BTreeSet<Name>,
    action: &Name,
    step: &ViewStep,
) -> Result<(), NoMemory>
    ensures views { OnOk result ((a : NameFields)
        → view_in works.new a ≡ view_in works.old a ++ steps_for a (Some (action.now, step.now))) }
    ensures bodies { OnOk result (HaveBodies storm.now works.old
        → HaveBodies storm.now works.new) }
    ensures asking { OnOk result
        (IsNoted action.now works.old asking.old works.new asking.new) }
{
    let mut work = take_out(alloc, storm, works, action)?;
    work.view.push_copy(step)?;
    note_asking(asking, action, work.want().is_some())?;
    works.insert(*action, work)?;
    Ok(())
}

/// Adds the step that a deed gives, if it gives one.
fn note_step(
    alloc: Global,
    storm: &Storm,
    works: &mut Table,
    asking: &mut BTreeSet<Name>,
    deed: &Deed,
    finish: Option<i64>,
) -> Result<(), NoMemory>
    ensures views { OnOk result ((mail : Option Mail) (a : NameFields) → finish_value mail ≡ finish
        → 1 ≤ length a → view_in works.new a ≡ view_in works.old a ++ own_step mail a deed.now) }
    ensures bodies { OnOk result (HaveBodies storm.now works.old
        → HaveBodies storm.now works.new) }
    ensures asking { OnOk result ((s : ℕ) (L : List DeedFields) (a : NameFields) → 1 ≤ length a
        → IsKept s L works.old asking.old a
        → IsKept s (deed.now ∷ L) works.new asking.new a) }
{
    match step_given(deed, finish) {
        Some(given) => add_step(alloc, storm, works, asking, &given.0, &given.1),
        None => Ok(()),
    }
}

/// Keeps which action an event stopped at its home: it asks for nothing any more.
fn note_stop(
    stopped: &mut BTreeSet<Name>,
    asking: &mut BTreeSet<Name>,
    event: &Event,
) -> Result<(), NoMemory>
    ensures stopped { OnOk result ((a : NameFields)
        → contains name_cmp stopped.new a
        ≡ (is_stop_of a event.now || contains name_cmp stopped.old a)) }
    ensures asking { OnOk result ((a : NameFields) → contains name_cmp stopped.new a ≡ false
        → contains name_cmp asking.new a ≡ contains name_cmp asking.old a) }
{
    if let Note::Stopped(action, _) = &event.note {
        if event.node == action.home().0 {
            stopped.insert(*action)?;
            asking.remove(action);
        }
    }
    Ok(())
}

/// After a restart, whose first deed is the crash, no action of the node asks for anything.
fn forget_ended(asking: &mut BTreeSet<Name>, deeds: &Deeds)
    ensures { list_any is_any_crash deeds.now ≡ false → asking.new ≡ asking.old }
{
    if let Some(Deed::Crash { .. }) = deeds.as_slice().first() {
        asking.clear();
    }
}

impl Works {
    /// No action was created. It takes no memory.
    pub(crate) fn new(alloc: Global, storm: &Storm) -> Works
        ensures { HaveSeen storm.now [] result }
    {
        Works {
            alloc,
            storm: *storm,
            works: Table::new(alloc),
            stopped: BTreeSet::new(alloc),
            asking: BTreeSet::new(alloc),
        }
    }

    /// Takes in the deeds of one more event, with the value on the finish that came.
    fn take_deeds(&mut self, deeds: &Deeds, finish: Option<i64>) -> Result<(), NoMemory>
        ensures views { OnOk result ((mail : Option Mail) (a : NameFields)
            → finish_value mail ≡ finish → 1 ≤ length a
            → view_in self.new.works a
            ≡ view_in self.old.works a ++ flat_map (own_step mail a) deeds.now) }
        ensures bodies { OnOk result (HaveBodies self.old.storm self.old.works
            → HaveBodies self.old.storm self.new.works) }
        ensures asking { OnOk result ((s : ℕ) (L : List DeedFields) (a : NameFields) → 1 ≤ length a
            → IsKept s L self.old.works self.old.asking a
            → IsKept s (after L deeds.now) self.new.works self.new.asking a) }
        ensures storm { self.new.storm ≡ self.old.storm }
        ensures stopped { self.new.stopped ≡ self.old.stopped }
    {
        for deed in deeds.as_slice() {
            note_step(
                self.alloc,
                &self.storm,
                &mut self.works,
                &mut self.asking,
                deed,
                finish,
            )?;
        }
        Ok(())
    }

    /// Takes in one more event, with the value on the finish that came.
    pub(crate) fn take_in(&mut self, event: &Event, finish: Option<i64>) -> Result<(), NoMemory>
        ensures seen { OnOk result ((words : Words) (own : List Received) (mail : Option Mail)
            (load : Load) → finish_value mail ≡ finish → HaveSeen words own self.old
            → HaveSeen words (record { event = event.now; mail = mail; load = load } ∷ own)
            self.new) }
        ensures asked { OnOk result ((s : ℕ) (own : List Received) (c : Received)
            → c.event ≡ event.now → EndsActions s own c → HaveAsked s own self.old
            → HaveAsked s (c ∷ own) self.new) }
    {
        self.take_deeds(&event.deeds, finish)?;
        note_stop(&mut self.stopped, &mut self.asking, event)?;
        forget_ended(&mut self.asking, &event.deeds);
        Ok(())
    }
}
