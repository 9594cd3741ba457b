//! The quiesce moments of a run by time, in a table.
ghost use Rattle.std.specs.Prelude.{◌≡◌, OnOk, IfOk, if◌then◌else◌, false, reverse};
ghost use Rattle.std.specs.List.{list_any};
ghost use Rattle.std.specs.Option.{option_copied, option_map_or};
ghost use Rattle.cam_names.specs.declared.name.Name.{Name as NameFields};
ghost use Rattle.cam_names.specs.Names.{name_eq};
ghost use Rattle.cam_timed.specs.Moments.{names_first};
ghost use Rattle.cam_timed.specs.Untils.{until_in, TellsUntils};

use crate::TimedTrace;
use cam_base::NoMemory;
use cam_event::{Deed, Deeds};
use cam_names::Name;
use std::alloc::Global;
use std::collections::BTreeMap;

/// The quiesce moment of each action that was named.
pub(crate) type Untils = BTreeMap<Name, u64>;

/// The action that a deed names first.
fn named_first(deed: &Deed) -> Option<&Name>
    ensures { (a : NameFields) → option_map_or (name_eq a) (option_copied result) false ≡ names_first a deed.now }
{
    match deed {
        Deed::Create { action } => {
            if action.depth() == 1 {
                Some(action)
            } else {
                None
            }
        }
        Deed::Ask { child, .. } => Some(child),
        _ => None,
    }
}

/// Notes the quiesce moment of each action that the deeds of an event name first.
pub(crate) fn note_named(untils: &mut Untils, deeds: &Deeds, until: u64) -> Result<(), NoMemory>
    ensures { OnOk result ((a : NameFields) → until_in untils.new a ≡ (if list_any (names_first a) deeds.now then until else until_in untils.old a)) }
{
    for deed in deeds.as_slice() {
        if let Some(action) = named_first(deed) {
            untils.insert(*action, until)?;
        }
    }
    Ok(())
}

/// The quiesce moment of each action that the events of a run name.
pub(crate) fn untils_of(alloc: Global, timed: &TimedTrace) -> Result<Untils, NoMemory>
    ensures { IfOk result (TellsUntils (reverse timed.now)) }
{
    let mut untils = Untils::new(alloc);
    for event in timed.as_slice() {
        note_named(&mut untils, &event.event.deeds, event.until)?;
    }
    Ok(untils)
}

/// The quiesce moment of an action, or 0 if it was not named.
pub(crate) fn until_of(untils: &Untils, action: &Name) -> u64
    ensures { result ≡ until_in untils.now action.now }
{
    untils.get(action).copied().unwrap_or(0)
}
