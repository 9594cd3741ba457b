//! The operations of each family at each site, deed by deed.
ghost use Rattle.std.specs.Prelude.{◌≡◌, ◌∷◌, ◌++◌, [], false, if◌then◌else◌, ℕ, List, Some, OnOk};
ghost use Rattle.cam_type.specs.declared.Answer.{Answer as AnswerValue};
ghost use Rattle.cam_event.specs.declared.Deed.{Deed as DeedValue};
ghost use Rattle.cam_event.specs.declared.Deed.TheVariants.{Perform};
ghost use Rattle.cam_event.specs.History.{call_of};
ghost use Rattle.cam_live.specs.Ledger.{Keeps, addressed};
ghost use Rattle.cam_plain.specs.declared.marks.Place.{Place as PlaceValue};
ghost use Rattle.cam_plain.specs.Marks.{place_eq, marks_in, KeepsMarks};

use cam_base::{NoMemory, Sequence};
use cam_event::Deed;
use cam_live::{AddressedCall, Ledger};
use cam_names::Name;
use cam_type::{Objects, site_of};
use std::alloc::Global;
use std::collections::HashMap;

/// A family at a site.
#[derive(Clone, Copy, PartialEq, Eq, Hash)]
pub(crate) struct Place {
    pub(crate) site: u8,
    pub(crate) family: Name,
}

/// Whose operation it was, and the count of its site then.
#[derive(Clone, Copy)]
pub(crate) struct Mark {
    pub(crate) action: Name,
    pub(crate) count: u64,
}

/// Operations, in the order in which they were performed.
pub(crate) type Marks = Sequence<Mark>;

/// The operations of each family at each site.
pub(crate) type MarkTable = HashMap<Place, Marks>;

/// Takes out what is kept of a place.
fn take_out(table: &mut MarkTable, alloc: Global, place: &Place) -> Marks
    ensures value { result ≡ marks_in table.old place.now }
    ensures others { (q : PlaceValue) → place_eq place.now q ≡ false
        → marks_in table.new q ≡ marks_in table.old q }
{
    match table.remove(place) {
        Some(marks) => marks,
        None => Marks::new(alloc),
    }
}

/// Adds an operation at a place.
fn add_mark(
    table: &mut MarkTable,
    alloc: Global,
    place: &Place,
    mark: &Mark,
) -> Result<(), NoMemory>
    ensures { OnOk result ((q : PlaceValue) → marks_in table.new q
        ≡ (if place_eq place.now q then marks_in table.old place.now ++ mark.now ∷ []
        else marks_in table.old q)) }
{
    let mut marks = take_out(table, alloc, place);
    marks.push_copy(mark)?;
    table.insert(*place, marks)?;
    Ok(())
}

/// Keeps the operation of a call that is performed.
fn note_call(
    table: &mut MarkTable,
    alloc: Global,
    objects: &Objects,
    ledger: &Ledger,
    action: &Name,
    call: &AddressedCall,
) -> Result<(), NoMemory>
    ensures { OnOk result ((L : List DeedValue) (n : ℕ) (answer : AnswerValue)
        → Keeps objects.now L ledger.now
        → call_of L action.now n ≡ addressed (Some call.now)
        → KeepsMarks objects.now L table.old
        → KeepsMarks objects.now (Perform action.now n answer ∷ L) table.new) }
{
    let site = site_of(objects, call.object);
    let count = ledger.count(site);
    let family = action.family();
    let place = Place { site, family };
    let mark = Mark {
        action: *action,
        count,
    };
    add_mark(table, alloc, &place, &mark)
}

/// Keeps an operation that is performed, where its call was made.
fn note_performed(
    table: &mut MarkTable,
    alloc: Global,
    objects: &Objects,
    ledger: &Ledger,
    action: &Name,
    number: u32,
) -> Result<(), NoMemory>
    ensures { OnOk result ((L : List DeedValue) (answer : AnswerValue)
        → Keeps objects.now L ledger.now
        → KeepsMarks objects.now L table.old
        → KeepsMarks objects.now (Perform action.now number answer ∷ L) table.new) }
{
    match ledger.call(action, number) {
        Some(call) => note_call(table, alloc, objects, ledger, action, &call),
        None => Ok(()),
    }
}

/// Keeps what one more deed performs.
pub(crate) fn note_mark(
    table: &mut MarkTable,
    alloc: Global,
    objects: &Objects,
    ledger: &Ledger,
    deed: &Deed,
) -> Result<(), NoMemory>
    ensures { OnOk result ((L : List DeedValue) → Keeps objects.now L ledger.now
        → KeepsMarks objects.now L table.old → KeepsMarks objects.now (deed.now ∷ L) table.new) }
{
    match deed {
        Deed::Perform { action, number, .. } => {
            note_performed(table, alloc, objects, ledger, action, *number)
        }
        _ => Ok(()),
    }
}
