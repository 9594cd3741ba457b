//! Operations by their families.
ghost use Rattle.std.specs.Prelude.{◌≡◌, ◌++◌, ◌∷◌, ◌&&◌, [], List, OnOk, IfOk, filter, if◌then◌else◌};
ghost use Rattle.cam_names.specs.declared.name.Name.{Name as NameFields};
ghost use Rattle.cam_names.specs.Names.{name_eq};
ghost use Rattle.cam_serial.specs.Gathered.{group_in, is_seen, TellsGroups};

use crate::SerialList;
use crate::committed::{Names, is_seen};
use cam_base::NoMemory;
use cam_event::Operation;
use cam_names::Name;
use std::alloc::Global;
use std::collections::BTreeMap;

/// The operations of each family.
pub(crate) type Groups = BTreeMap<Name, SerialList>;

/// Adds an operation at the end of a family's.
fn add(
    alloc: Global,
    groups: &mut Groups,
    family: &Name,
    operation: &Operation,
) -> Result<(), NoMemory>
    ensures { OnOk result ((f : NameFields)
        → group_in groups.new f ≡ group_in groups.old f
        ++ (if name_eq f family.now then operation.now ∷ [] else [])) }
{
    let mut group = groups.remove(family).unwrap_or(SerialList::new(alloc));
    group.push_copy(operation)?;
    groups.insert(*family, group)?;
    Ok(())
}

/// The operations of each family that are committed up to the top, in their order.
pub(crate) fn grouped(
    alloc: Global,
    committed: &Names,
    operations: &[Operation],
) -> Result<Groups, NoMemory>
    ensures { IfOk result (TellsGroups committed.now operations.now) }
{
    let mut groups = Groups::new(alloc);
    for operation in operations {
        if is_seen(committed, None, &operation.action) {
            add(alloc, &mut groups, &operation.action.family(), operation)?;
        }
    }
    Ok(groups)
}

/// The operations of a family.
pub(crate) fn group_of<'a>(groups: &'a Groups, family: &Name) -> &'a [Operation]
    ensures { result.now ≡ group_in groups.now family.now }
{
    match groups.get(family) {
        Some(group) => group.as_slice(),
        None => &[],
    }
}
