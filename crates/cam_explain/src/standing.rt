//! How an action stands behind what happened to it.
ghost use Rattle.std.specs.Prelude.{◌≡◌, ℕ, Option, IfOk, OnOk};
ghost use Rattle.cam_names.specs.declared.name.Name.{Name as NameFields};
ghost use Rattle.cam_explain.specs.Moments.{told_in};
ghost use Rattle.cam_explain.specs.Standings.{before, behind, has_ended, has_restarted, held, held_behind, held_too, is_before, is_end_of, is_gone, is_new, last_object, nothing, open_at, open_child, or_later, standing};

use crate::course::Course;
use crate::moments::{Moment, What};
use cam_base::NoMemory;
use cam_names::Name;
use cam_type::Objects;
use std::alloc::Global;

/// What an action has asked of its home at last, and in which line.
#[derive(Clone, Copy, Debug)]
pub(crate) enum Asked {
    ToCommit(u32),
    ToAbort(u32),
}

/// A call that is not answered.
#[derive(Clone, Copy, Debug)]
pub(crate) struct OpenCall {
    pub(crate) line: u32,
    pub(crate) object: u8,
}

/// How an action stands.
#[derive(Clone, Copy, Debug)]
pub(crate) struct Standing {
    /// The event that created it.
    pub(crate) created_at: Option<usize>,
    pub(crate) asked: Option<Asked>,
    pub(crate) call: Option<OpenCall>,
    /// The value with which it asked to commit.
    pub(crate) value: Option<i64>,
    /// The event that stopped it at its home.
    pub(crate) stopped_at: Option<usize>,
}

impl Standing {
    /// Of an action to which nothing happened.
    fn nothing() -> Standing
        ensures { result ≡ nothing }
    {
        Standing {
            created_at: None,
            asked: None,
            call: None,
            value: None,
            stopped_at: None,
        }
    }

    /// Behind these moments.
    pub(crate) fn of(moments: &[Moment]) -> Standing
        ensures { result ≡ standing moments.now }
    {
        let mut standing = Standing::nothing();
        for moment in moments {
            standing = standing.behind(moment);
        }
        standing
    }

    /// Behind one moment more.
    fn behind(self, moment: &Moment) -> Standing
        ensures { result ≡ behind self moment.now.event moment.now.line moment.now.what }
    {
        let mut next = self;
        match moment.what {
            What::Created => next.created_at = Some(moment.event),
            What::Called(object, _) => {
                next.call = Some(OpenCall {
                    line: moment.line,
                    object,
                });
            }
            What::Got(_) => next.call = None,
            What::CommitAsked(value) => {
                next.asked = Some(Asked::ToCommit(moment.line));
                next.value = Some(value);
            }
            What::AbortAsked => next.asked = Some(Asked::ToAbort(moment.line)),
            What::Stopped => next.stopped_at = Some(moment.event),
            What::Asked(_) | What::ChildEnded(..) | What::Performed => {}
        }
        next
    }
}

/// What happened in lines before this one.
pub(crate) fn before(moments: &[Moment], line: u32) -> &[Moment]
    ensures { result.now ≡ before line moments.now }
{
    for (place, moment) in moments.iter().enumerate() {
        if moment.line >= line {
            return &moments[..place];
        }
    }
    moments
}

/// Whether this is the end of a child.
fn is_end_of(child: &Name, what: &What) -> bool
    ensures { result ≡ is_end_of child.now what.now }
{
    match what {
        What::ChildEnded(ended, _) => child == ended,
        _ => false,
    }
}

/// Whether a child has ended.
fn has_ended(moments: &[Moment], child: &Name) -> bool
    ensures { result ≡ has_ended moments.now child.now }
{
    for moment in moments {
        if is_end_of(child, &moment.what) {
            return true;
        }
    }
    false
}

/// The child that is asked for at a moment, unless it has ended.
fn open_at(moments: &[Moment], moment: &Moment) -> Option<(Name, u32)>
    ensures { (later : Option (NameFields × ℕ))
        → open_at moments.now moment.now.line moment.now.what later ≡ or_later result later }
{
    match moment.what {
        What::Asked(child) => if has_ended(moments, &child) {
            None
        } else {
            Some((child, moment.line))
        },
        _ => None,
    }
}

/// The first child that is asked for and not decided, with the line that asked for it.
pub(crate) fn open_child(moments: &[Moment]) -> Option<(Name, u32)>
    ensures { result ≡ open_child moments.now }
{
    for moment in moments {
        if let Some(open) = open_at(moments, moment) {
            return Some(open);
        }
    }
    None
}

/// Whether the one number is below the other, if both are there.
fn is_before(one: Option<usize>, other: Option<usize>) -> bool
    ensures { result ≡ is_before one other }
{
    match (one, other) {
        (Some(one), Some(other)) => one < other,
        _ => false,
    }
}

/// Whether the home of an action has restarted since the action was created.
pub(crate) fn has_restarted(course: &Course, action: &Name, standing: &Standing) -> bool
    ensures { result ≡ has_restarted (told_in course.now).restart action.now standing.now }
{
    let (home, _) = action.home();
    is_before(standing.created_at, course.restart(home))
}

/// Whether what was performed of an object at an event is gone, since its node has restarted.
fn is_gone(objects: &Objects, course: &Course, object: u8, event: usize) -> bool
    ensures { result ≡ is_gone objects.now (told_in course.now).restart object event }
{
    match objects.get(object as usize) {
        Some(declared) => is_before(Some(event), course.restart(declared.node)),
        None => false,
    }
}

/// Whether an object is held that was not held before: what was performed of it is not gone.
fn is_new(objects: &Objects, course: &Course, held: &[u8], event: usize, object: u8) -> bool
    ensures { result
        ≡ is_new objects.now (told_in course.now).restart held.now event object }
{
    !is_gone(objects, course, object, event) && !held.contains(&object)
}

/// Adds an object to those that are held, unless it is one of them or what was performed is gone.
fn hold(
    objects: &Objects,
    course: &Course,
    held: &mut Vec<u8>,
    event: usize,
    object: Option<u8>,
) -> Result<(), NoMemory>
    ensures { OnOk result (held.new.items
        ≡ held_too objects.now (told_in course.now).restart held.old.items event object) }
{
    if let Some(object) = object {
        if is_new(objects, course, held, event, object) {
            held.push(object)?;
        }
    }
    Ok(())
}

/// The object of the last call.
fn last_object(last: Option<u8>, what: &What) -> Option<u8>
    ensures { result ≡ last_object last what.now }
{
    match what {
        What::Called(object, _) => Some(*object),
        _ => last,
    }
}

/// Adds the object of the last call to those that are held, if the moment performed it.
fn hold_behind(
    objects: &Objects,
    course: &Course,
    held: &mut Vec<u8>,
    last: Option<u8>,
    moment: &Moment,
) -> Result<(), NoMemory>
    ensures { OnOk result (held.new.items ≡ held_behind objects.now
        (told_in course.now).restart held.old.items last moment.now.event moment.now.what) }
{
    match moment.what {
        What::Performed => hold(objects, course, held, moment.event, last),
        _ => Ok(()),
    }
}

/// The objects that an action holds, in the order in which it came to hold them.
pub(crate) fn held_by(
    alloc: Global,
    objects: &Objects,
    course: &Course,
    moments: &[Moment],
) -> Result<Vec<u8>, NoMemory>
    ensures { IfOk result (λ found. found.items
        ≡ held objects.now (told_in course.now).restart moments.now) }
{
    let mut held = Vec::new(alloc);
    let mut last = None;
    for moment in moments {
        hold_behind(objects, course, &mut held, last, moment)?;
        last = last_object(last, &moment.what);
    }
    Ok(held)
}
