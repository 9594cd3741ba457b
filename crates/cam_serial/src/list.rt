//! Serial lists.
ghost use Rattle.std.specs.Prelude.{◌≡◌, ◌++◌, ◌∷◌, List, OnOk, IfOk};
ghost use Rattle.std.specs.Option.{option_copied};
ghost use Rattle.cam_event.specs.declared.Deed.{Deed};
ghost use Rattle.cam_plain.specs.Legal.{Legal, history};
ghost use Rattle.cam_serial.specs.Gathered.{joined, seen_of, own_of};
ghost use Rattle.cam_serial.specs.Law.{ViewIsCovered};
ghost use Rattle.cam_serial.specs.Serial.{serial, Replays};

use crate::SerialList;
use crate::committed::{Names, committed, is_seen};
use crate::groups::{Groups, group_of, grouped};
use cam_base::NoMemory;
use cam_event::{Deed, Deeds, Operation};
use cam_live::live;
use cam_names::Name;
use cam_type::Objects;
use std::alloc::Global;

/// The serial list of a list of deeds: the operations of the actions that committed up to the top,
/// grouped by top action in order of their Commits. With the name of an action whose top action has
/// not committed, the operations of its own family that it may see come last. The deeds may be
/// any list; the law holds of legal ones. It fails only if memory runs out.
pub fn serial(
    alloc: Global,
    deeds: &Deeds,
    objects: &Objects,
    name: Option<&Name>,
) -> Result<SerialList, NoMemory>
    ensures value { IfOk result
        (λ list. list ≡ serial objects.now (history deeds.now) (option_copied name.entry)) }
    ensures replays { IfOk result
        (λ list. Legal objects.now (history deeds.now) → Replays objects.now list) }
    ensures view_is_covered { IfOk result
        (λ list. Legal objects.now (history deeds.now)
        → ViewIsCovered objects.now (history deeds.now) (option_copied name.entry) list) }
{
    let operations = live(alloc, deeds, objects)?;
    let committed = committed(alloc, deeds.as_slice())?;
    let groups = grouped(alloc, &committed, operations.as_slice())?;
    let mut list = joined(alloc, &groups, deeds.as_slice())?;
    add_own(&mut list, &committed, name, operations.as_slice())?;
    Ok(list)
}

/// Adds the group of a top action that commits.
fn add_group(list: &mut SerialList, groups: &Groups, deed: &Deed) -> Result<(), NoMemory>
    ensures { OnOk result ((L : List Deed) → list.old ≡ joined groups.now L
        → list.new ≡ joined groups.now (deed.now ∷ L)) }
{
    if let Deed::Commit { action } = deed {
        if action.depth() == 1 {
            list.extend_from_slice(group_of(groups, action))?;
        }
    }
    Ok(())
}

/// The groups of the top actions, in order of their Commits.
fn joined(alloc: Global, groups: &Groups, deeds: &[Deed]) -> Result<SerialList, NoMemory>
    ensures { IfOk result (λ list. list ≡ joined groups.now (history deeds.now)) }
{
    let mut list = SerialList::new(alloc);
    for deed in deeds {
        add_group(&mut list, groups, deed)?;
    }
    Ok(list)
}

/// Adds those of the operations that the action may see of its own family.
fn add_seen(
    list: &mut SerialList,
    committed: &Names,
    action: &Name,
    operations: &[Operation],
) -> Result<(), NoMemory>
    ensures { OnOk result (list.new ≡ list.old ++ seen_of committed.now action.now operations.now) }
{
    let family = action.family();
    for operation in operations {
        if operation.action.family() == family
            && is_seen(committed, Some(action), &operation.action)
        {
            list.push_copy(operation)?;
        }
    }
    Ok(())
}

/// Adds what the action may see of its own family, where that has not committed.
fn add_own(
    list: &mut SerialList,
    committed: &Names,
    name: Option<&Name>,
    operations: &[Operation],
) -> Result<(), NoMemory>
    ensures { OnOk result (list.new ≡ list.old
        ++ own_of committed.now (option_copied name.entry) operations.now) }
{
    match name {
        Some(action) => {
            if committed.contains(&action.family()) {
                Ok(())
            } else {
                add_seen(list, committed, action, operations)
            }
        }
        None => Ok(()),
    }
}
