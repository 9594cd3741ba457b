//! Which actions committed, and what an action sees of others.
ghost use Rattle.std.specs.Prelude.{◌≡◌, ◌∷◌, ◌||◌, List, OnOk, IfOk};
ghost use Rattle.std.specs.Option.{option_copied};
ghost use Rattle.std.specs.BTreeSet.{contains};
ghost use Rattle.cam_names.specs.Names.{name_cmp};
ghost use Rattle.cam_event.specs.declared.Deed.{Deed};
ghost use Rattle.cam_plain.specs.Legal.{history};
ghost use Rattle.cam_serial.specs.Gathered.{TellsCommitted, is_above, is_seen};

use cam_base::NoMemory;
use cam_event::Deed;
use cam_names::Name;
use std::alloc::Global;
use std::collections::BTreeSet;

/// Names of actions.
pub(crate) type Names = BTreeSet<Name>;

/// Keeps the action that a deed commits.
fn note_commit(names: &mut Names, deed: &Deed) -> Result<(), NoMemory>
    ensures { OnOk result ((L : List Deed) → TellsCommitted L names.old
        → TellsCommitted (deed.now ∷ L) names.new) }
{
    if let Deed::Commit { action } = deed {
        names.insert(*action)?;
    }
    Ok(())
}

/// The actions that committed.
pub(crate) fn committed(alloc: Global, deeds: &[Deed]) -> Result<Names, NoMemory>
    ensures { IfOk result (TellsCommitted (history deeds.now)) }
{
    let mut names = Names::new(alloc);
    for deed in deeds {
        note_commit(&mut names, deed)?;
    }
    Ok(names)
}

/// Whether the action is an ancestor of the reader, or in the set.
fn is_above_or_in(names: &Names, reader: Option<&Name>, action: &Name) -> bool
    ensures { result ≡ (is_above (option_copied reader.entry) action.now
        || contains name_cmp names.now action.now) }
{
    match reader {
        Some(reader) => action.is_ancestor(reader) || names.contains(action),
        None => names.contains(action),
    }
}

/// Whether every ancestor of the action is committed, but those that are also ancestors of the
/// reader.
pub(crate) fn is_seen(committed: &Names, reader: Option<&Name>, action: &Name) -> bool
    ensures { result ≡ is_seen committed.now (option_copied reader.entry) action.now }
{
    match action.parent() {
        Some(parent) => {
            is_seen(committed, reader, &parent) && is_above_or_in(committed, reader, action)
        }
        None => is_above_or_in(committed, reader, action),
    }
}
