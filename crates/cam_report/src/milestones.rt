//! How the actions of a run ended.
ghost use Rattle.std.specs.Prelude.{◌≡◌, IfOk, reverse};
ghost use Rattle.std.specs.Option.{option_copied, option_to_list};
ghost use Rattle.std.specs.List.{flat_map};
ghost use Rattle.cam_event.specs.Rules.{sorted_names};
ghost use Rattle.cam_report.specs.Gathered.{reached};

use cam_base::NoMemory;
use cam_event::Deed;
use cam_names::Name;
use std::alloc::Global;
use std::collections::BTreeSet;

/// What an action may reach.
#[derive(Clone, Copy)]
pub(crate) enum Milestone {
    Created,
    Committed,
    Aborted,
}

/// The action that reaches it by the deed.
fn reached(deed: &Deed, milestone: Milestone) -> Option<&Name>
    ensures { option_to_list (option_copied result) ≡ reached milestone deed.now }
{
    match (deed, milestone) {
        (Deed::Create { action }, Milestone::Created) => Some(action),
        (Deed::Commit { action }, Milestone::Committed) => Some(action),
        (Deed::Abort { action }, Milestone::Aborted) => Some(action),
        _ => None,
    }
}

/// The actions that reach it by the deeds, in order of names.
pub(crate) fn all_reached(
    alloc: Global,
    deeds: &[Deed],
    milestone: Milestone,
) -> Result<BTreeSet<Name>, NoMemory>
    ensures { IfOk result (λ names. names.keys
        ≡ sorted_names (flat_map (reached milestone) (reverse deeds.now))) }
{
    let mut names = BTreeSet::new(alloc);
    for deed in deeds {
        if let Some(name) = reached(deed, milestone) {
            names.insert(*name)?;
        }
    }
    Ok(names)
}
