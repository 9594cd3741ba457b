//! The node that an action belongs to.
ghost use Rattle.std.specs.Prelude.{◌≡◌};
ghost use Rattle.cam_names.specs.Names.{home_node};
ghost use Rattle.cam_event.specs.Inputs.{decider};
ghost use Rattle.cam_event.specs.Runs.{IsNode};

use cam_names::Name;

/// The node that runs an action.
pub fn home_of(name: &Name) -> u8
    ensures value { result ≡ home_node name.now }
    ensures range { IsNode result }
{
    let parts = name.parts();
    let last = parts[parts.len() - 1];
    last.node
}

/// The node that decides an action: of a child its parent's home, of a top action its own.
pub(crate) fn decider(action: &Name) -> u8
    ensures value { result ≡ decider action.now }
    ensures range { IsNode result }
{
    match action.parent() {
        Some(parent) => home_of(&parent),
        None => home_of(action),
    }
}
