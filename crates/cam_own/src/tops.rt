//! How many top actions each node has created in each of its counts, deed by deed.
ghost use Rattle.std.specs.Prelude.{◌≡◌, ◌∷◌, true, List, OnOk};
ghost use Rattle.cam_names.specs.Names.{is_top};
ghost use Rattle.cam_event.specs.declared.Deed.{Deed};
ghost use Rattle.cam_event.specs.declared.Deed.TheVariants.{Create};
ghost use Rattle.cam_own.specs.Tops.{tops_in, KeepsTops};

use crate::actions::one_more;
use cam_base::NoMemory;
use cam_event::Deed;
use cam_names::Name;
use std::collections::HashMap;

/// A node at one of its counts.
#[derive(Clone, Copy, PartialEq, Eq, Hash)]
pub(crate) struct Home {
    node: u8,
    count: u32,
}

/// How many top actions were created in each home.
pub(crate) type Tops = HashMap<Home, u64>;

/// How many top actions a node has created in one of its counts.
pub(crate) fn tops_in(tops: &Tops, node: u8, count: u32) -> u64
    ensures { result ≡ tops_in tops.now node count }
{
    match tops.get(&Home { node, count }) {
        Some(number) => *number,
        None => 0,
    }
}

/// Keeps what one more deed says of top actions.
pub(crate) fn note_top(tops: &mut Tops, deed: &Deed) -> Result<(), NoMemory>
    ensures { OnOk result ((L : List Deed) → KeepsTops L tops.old
        → KeepsTops (deed.now ∷ L) tops.new) }
{
    match deed {
        Deed::Create { action } => note_created(tops, action),
        _ => Ok(()),
    }
}

/// One more top action of its home, if it is one.
#[tactic(auto, using(crate::proofs::Topping::child_put))]
fn note_created(tops: &mut Tops, action: &Name) -> Result<(), NoMemory>
    ensures { OnOk result ((L : List Deed) → KeepsTops L tops.old
        → KeepsTops (Create action.now ∷ L) tops.new) }
{
    let is_top = action.depth() == 1;
    if is_top {
        note_top_action(tops, action)
    } else {
        Ok(())
    }
}

/// One more top action of its home.
fn note_top_action(tops: &mut Tops, action: &Name) -> Result<(), NoMemory>
    requires { is_top action.now ≡ true }
    ensures { OnOk result ((L : List Deed) → KeepsTops L tops.old
        → KeepsTops (Create action.now ∷ L) tops.new) }
{
    let home = action.home();
    let number = one_more(tops_in(tops, home.0, home.1))?;
    let place = Home {
        node: home.0,
        count: home.1,
    };
    tops.insert(place, number)?;
    Ok(())
}
