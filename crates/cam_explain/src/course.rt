//! The course of a run: what happened to each action, and when each node restarted last.
ghost use Rattle.std.specs.Prelude.{◌≡◌, ◌++◌, ℕ, None, Some, IfOk, OnOk, if◌then◌else◌};
ghost use Rattle.std.specs.List.{flat_map, list_any};
ghost use Rattle.std.specs.Ordering.{nat_cmp};
ghost use Rattle.std.specs.BTreeMap.{get};
ghost use Rattle.cam_names.specs.declared.name.Name.{Name as NameFields};
ghost use Rattle.cam_event.specs.History.{is_crash};
ghost use Rattle.cam_explain.specs.Moments.{kept, line_at, moments_from, moments_in, of_deed, of_event, restart_from, told, told_in};

use crate::moments::{Moment, Moments, What, of_parent, own, stopped};
use cam_base::NoMemory;
use cam_event::{Deed, Event, Trace};
use cam_names::Name;
use cam_scope::NamedEvents;
use std::alloc::Global;
use std::collections::BTreeMap;

/// The moments of each action that has some.
type AllMoments = BTreeMap<Name, Moments>;

/// The event in which each node restarted last.
type Restarts = BTreeMap<u8, usize>;

/// The course of a run.
#[derive(Drop)]
pub(crate) struct Course {
    moments: AllMoments,
    restarts: Restarts,
}

/// Where an event stands: its number and the line that made it.
#[derive(Clone, Copy)]
struct Place {
    event: usize,
    line: u32,
}

impl Course {
    /// What happened to an action.
    pub(crate) fn moments(&self, action: &Name) -> &[Moment]
        ensures { result.now ≡ (told_in self.now).moments action.now }
    {
        match self.moments.get(action) {
            Some(moments) => moments.as_slice(),
            None => &[],
        }
    }

    /// The event in which a node restarted last, if it restarted.
    pub(crate) fn restart(&self, node: u8) -> Option<usize>
        ensures { result ≡ (told_in self.now).restart node }
    {
        self.restarts.get(&node).copied()
    }
}

/// Adds a moment at the end of an action's.
fn add_moment(
    alloc: Global,
    all: &mut AllMoments,
    action: &Name,
    moment: &Moment,
) -> Result<(), NoMemory>
    ensures { OnOk result ((a : NameFields) → moments_in all.new a ≡ moments_in all.old a
        ++ kept a moment.now.event moment.now.line (Some (action.now, moment.now.what))) }
{
    let mut moments = all.remove(action).unwrap_or(Moments::new(alloc));
    moments.push_copy(moment)?;
    all.insert(*action, moments)?;
    Ok(())
}

/// Adds what happened to an action at a place, if something did.
fn add_given(
    alloc: Global,
    all: &mut AllMoments,
    place: Place,
    given: &Option<(Name, What)>,
) -> Result<(), NoMemory>
    ensures { OnOk result ((a : NameFields) → moments_in all.new a ≡ moments_in all.old a
        ++ kept a place.event place.line given.now) }
{
    match given {
        Some((action, what)) => {
            let moment = Moment {
                event: place.event,
                line: place.line,
                what: *what,
            };
            add_moment(alloc, all, action, &moment)
        }
        None => Ok(()),
    }
}

/// Adds what a deed is to actions.
fn add_deed(alloc: Global, all: &mut AllMoments, place: Place, deed: &Deed) -> Result<(), NoMemory>
    ensures { OnOk result ((a : NameFields) → moments_in all.new a ≡ moments_in all.old a
        ++ of_deed a place.event place.line deed.now) }
{
    add_given(alloc, all, place, &own(deed))?;
    add_given(alloc, all, place, &of_parent(deed))
}

/// Adds what the deeds of an event are to actions.
fn add_deeds(
    alloc: Global,
    all: &mut AllMoments,
    place: Place,
    deeds: &[Deed],
) -> Result<(), NoMemory>
    ensures { OnOk result ((a : NameFields) → moments_in all.new a ≡ moments_in all.old a
        ++ flat_map (of_deed a place.event place.line) deeds.now) }
{
    for deed in deeds {
        add_deed(alloc, all, place, deed)?;
    }
    Ok(())
}

/// Adds what an event is to actions.
fn add_event(
    alloc: Global,
    all: &mut AllMoments,
    place: Place,
    event: &Event,
) -> Result<(), NoMemory>
    ensures { OnOk result ((a : NameFields) → moments_in all.new a ≡ moments_in all.old a
        ++ of_event a place.event place.line event.now) }
{
    add_deeds(alloc, all, place, event.deeds.as_slice())?;
    add_given(alloc, all, place, &stopped(event.node, &event.note))
}

/// Notes the restart of a node, if the deed is one.
fn note_restart(restarts: &mut Restarts, event: usize, deed: &Deed) -> Result<(), NoMemory>
    ensures { OnOk result ((n : ℕ) → get nat_cmp restarts.new n
        ≡ (if is_crash n deed.now then Some event else get nat_cmp restarts.old n)) }
{
    if let Deed::Crash { site } = deed {
        restarts.insert(*site, event)?;
    }
    Ok(())
}

/// Notes the restarts of an event.
fn note_restarts(restarts: &mut Restarts, event: usize, deeds: &[Deed]) -> Result<(), NoMemory>
    ensures { OnOk result ((n : ℕ) → get nat_cmp restarts.new n
        ≡ (if list_any (is_crash n) deeds.now then Some event else get nat_cmp restarts.old n)) }
{
    for deed in deeds {
        note_restart(restarts, event, deed)?;
    }
    Ok(())
}

/// The line of an event, 0 where it has none.
fn line_at(events: &NamedEvents, number: usize) -> u32
    ensures { result ≡ line_at events.now number }
{
    match events.get(number) {
        Some(event) => event.line.unwrap_or(0),
        None => 0,
    }
}

/// The moments of all actions.
fn moments_of(alloc: Global, events: &NamedEvents, trace: &Trace) -> Result<AllMoments, NoMemory>
    ensures { IfOk result (λ all. (a : NameFields)
        → moments_in all a ≡ moments_from events.now 0 trace.now a) }
{
    let mut all = AllMoments::new(alloc);
    for (number, event) in trace.as_slice().iter().enumerate() {
        let place = Place {
            event: number,
            line: line_at(events, number),
        };
        add_event(alloc, &mut all, place, event)?;
    }
    Ok(all)
}

/// The last restarts of all nodes.
fn restarts_of(alloc: Global, trace: &Trace) -> Result<Restarts, NoMemory>
    ensures { IfOk result (λ restarts. (n : ℕ)
        → get nat_cmp restarts n ≡ restart_from 0 trace.now None n) }
{
    let mut restarts = Restarts::new(alloc);
    for (number, event) in trace.as_slice().iter().enumerate() {
        note_restarts(&mut restarts, number, event.deeds.as_slice())?;
    }
    Ok(restarts)
}

/// The course of a run whose events have these lines.
pub(crate) fn course_of(
    alloc: Global,
    events: &NamedEvents,
    trace: &Trace,
) -> Result<Course, NoMemory>
    ensures { IfOk result (λ course. told_in course ≡ told events.now trace.now) }
{
    let moments = moments_of(alloc, events, trace)?;
    let restarts = restarts_of(alloc, trace)?;
    Ok(Course { moments, restarts })
}
