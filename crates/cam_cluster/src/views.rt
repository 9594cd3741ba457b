//! What the actions of a run have seen, event by event: the view of each, the value with which it asked to commit, and whether it was
//! stopped at its home.
ghost use Rattle.std.specs.Prelude.{◌≡◌, ◌≤◌, ◌||◌, ◌∷◌, ◌++◌, [], List, OnOk, Some, length, reverse};
ghost use Rattle.std.specs.BTreeMap.{get};
ghost use Rattle.std.specs.BTreeSet.{contains};
ghost use Rattle.cam_names.specs.declared.name.Name.{Name as NameFields};
ghost use Rattle.cam_names.specs.Names.{name_cmp};
ghost use Rattle.cam_event.specs.declared.Deed.{Deed as DeedFields};
ghost use Rattle.cam_event.specs.declared.Event.{Event as EventFields};
ghost use Rattle.cam_event.specs.History.{after};
ghost use Rattle.cam_event.specs.Pasts.{plain_all};
ghost use Rattle.cam_event.specs.Values.{HasValues};
ghost use Rattle.cam_event.specs.Views.{step_of, view};
ghost use Rattle.cam_runs.specs.Playing.{is_stop_of};
ghost use Rattle.cam_cluster.specs.ActionViews.{HasSeen, HasViews, child_end, steps_for, view_in};

use cam_base::NoMemory;
use cam_event::{Deed, Deeds, Event, Note, View, ViewStep};
use cam_names::Name;
use std::alloc::Global;
use std::collections::{BTreeMap, BTreeSet};

/// The value with which each action asked to commit.
type Values = BTreeMap<Name, i64>;

/// The view of each action that has one.
type Views = BTreeMap<Name, View>;

/// What each action has seen in the events so far.
#[derive(Drop)]
pub(crate) struct ActionViews {
    alloc: Global,
    pub(crate) views: Views,
    pub(crate) values: Values,
    /// The actions that were stopped at their homes.
    pub(crate) stopped: BTreeSet<Name>,
}

/// The step that a child's end gives to the view of its parent.
fn child_end(child: &Name, value: Option<i64>) -> Option<(Name, ViewStep)>
    ensures { (a : NameFields) → 1 ≤ length a
        → steps_for a result ≡ child_end a child.now value }
{
    match child.parent() {
        Some(parent) => Some((parent, ViewStep::Child(*child, value))),
        None => None,
    }
}

/// The step that a deed gives to a view, and whose view it is.
fn step_given(deed: &Deed, values: &Values) -> Option<(Name, ViewStep)>
    ensures { (L : List DeedFields) (a : NameFields) → HasValues L values.now → 1 ≤ length a
        → steps_for a result ≡ step_of L deed.now a }
{
    match deed {
        Deed::Create { action } => Some((*action, ViewStep::Created)),
        Deed::Ask { action, child } => Some((*action, ViewStep::Asked(*child))),
        Deed::Call {
            action,
            number,
            object,
            op,
            ..
        } => Some((*action, ViewStep::Called(*number, *object, *op))),
        Deed::Got {
            action,
            number,
            seen,
        } => Some((*action, ViewStep::Got(*number, *seen))),
        Deed::AskCommit { action, value } => Some((*action, ViewStep::CommitAsked(*value))),
        Deed::AskAbort { action } => Some((*action, ViewStep::AbortAsked)),
        Deed::Commit { action } => match values.get(action) {
            Some(value) => child_end(action, Some(*value)),
            None => None,
        },
        Deed::Abort { action } => child_end(action, None),
        Deed::Perform { .. }
        | Deed::Bounce { .. }
        | Deed::Secure { .. }
        | Deed::Inform { .. }
        | Deed::Crash { .. } => None,
    }
}

/// Adds a step at the end of an action's view.
fn add_step(
    alloc: Global,
    views: &mut Views,
    action: &Name,
    step: &ViewStep,
) -> Result<(), NoMemory>
    ensures { OnOk result ((a : NameFields)
        → view_in views.new a ≡ view_in views.old a
        ++ steps_for a (Some (action.now, step.now))) }
{
    let mut view = views.remove(action).unwrap_or(View::new(alloc));
    view.push_copy(step)?;
    views.insert(*action, view)?;
    Ok(())
}

/// Adds the step that a deed gives, where it gives one.
fn note_step(alloc: Global, views: &mut Views, values: &Values, deed: &Deed) -> Result<(), NoMemory>
    ensures { OnOk result ((L : List DeedFields) (a : NameFields) → HasValues L values.now
        → 1 ≤ length a
        → view_in views.new a ≡ view_in views.old a ++ step_of L deed.now a) }
{
    match step_given(deed, values) {
        Some((action, step)) => add_step(alloc, views, &action, &step),
        None => Ok(()),
    }
}

/// Keeps the value with which an action asks to commit.
fn note_value(values: &mut Values, deed: &Deed) -> Result<(), NoMemory>
    ensures { OnOk result ((L : List DeedFields) → HasValues L values.old
        → HasValues (deed.now ∷ L) values.new) }
{
    if let Deed::AskCommit { action, value } = deed {
        values.insert(*action, *value)?;
    }
    Ok(())
}

/// Keeps which action an event stopped at its home.
fn note_stop(stopped: &mut BTreeSet<Name>, event: &Event) -> Result<(), NoMemory>
    ensures { OnOk result ((a : NameFields)
        → contains name_cmp stopped.new a
        ≡ (is_stop_of a event.now || contains name_cmp stopped.old a)) }
{
    if let Note::Stopped(action, _) = &event.note {
        if event.node == action.home().0 {
            stopped.insert(*action)?;
        }
    }
    Ok(())
}

impl ActionViews {
    /// No event has happened. It takes no memory.
    pub(crate) fn new(alloc: Global) -> ActionViews
        ensures { HasSeen [] result }
    {
        ActionViews {
            alloc,
            views: Views::new(alloc),
            values: Values::new(alloc),
            stopped: BTreeSet::new(alloc),
        }
    }

    /// Takes in one more deed.
    fn take_deed(&mut self, deed: &Deed) -> Result<(), NoMemory>
        ensures seen { OnOk result ((L : List DeedFields) → HasViews L self.old
            → HasViews (deed.now ∷ L) self.new) }
        ensures stops { self.new.stopped ≡ self.old.stopped }
    {
        note_step(self.alloc, &mut self.views, &self.values, deed)?;
        note_value(&mut self.values, deed)
    }

    /// Takes in the deeds of one more event.
    fn take_deeds(&mut self, deeds: &Deeds) -> Result<(), NoMemory>
        ensures seen { OnOk result ((L : List DeedFields) → HasViews L self.old
            → HasViews (after L deeds.now) self.new) }
        ensures stops { self.new.stopped ≡ self.old.stopped }
    {
        for deed in deeds.as_slice() {
            self.take_deed(deed)?;
        }
        Ok(())
    }

    /// Takes in one more event.
    fn take_event(&mut self, event: &Event) -> Result<(), NoMemory>
        ensures { OnOk result ((t : List EventFields) → HasSeen t self.old
            → HasSeen (event.now ∷ t) self.new) }
    {
        self.take_deeds(&event.deeds)?;
        note_stop(&mut self.stopped, event)
    }

    /// Takes in these events, the oldest first. Each deed costs a look-up or two by name. If memory runs out only a part of an
    /// event may be taken in, and what is kept is of no more use.
    pub(crate) fn take_events(&mut self, events: &[Event]) -> Result<(), NoMemory>
        ensures { OnOk result ((t : List EventFields) → HasSeen t self.old
            → HasSeen (reverse events.now ++ t) self.new) }
    {
        for event in events {
            self.take_event(event)?;
        }
        Ok(())
    }

    /// The view of an action; the unseen one where it has none.
    pub(crate) fn view_of<'a>(&'a self, name: &Name, unseen: &'a View) -> &'a View
        requires { unseen.now ≡ [] }
        ensures { (t : List EventFields) → HasSeen t self.now
            → result.now ≡ view (plain_all t) name.now }
    {
        prove!(name.depth() > 0);
        match self.views.get(name) {
            Some(view) => view,
            None => unseen,
        }
    }
}
