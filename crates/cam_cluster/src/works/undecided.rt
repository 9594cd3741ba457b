//! The halts of which no restart has told yet whether they are taken, the newest first.
ghost use Rattle.std.specs.Prelude.{◌≡◌, ◌<◌, ◌∷◌, eqb, filter, min, not, option_map, vec_capacity, vec_len};
ghost use Rattle.cam_cluster.specs.OpenHalts.{behind_event, open_beside, open_halt_of, renumbered};

use cam_event::LetterId;

/// A halt of which no restart has told yet whether the log took its event.
#[derive(Clone, Copy, Debug)]
pub(crate) struct OpenHalt {
    pub(crate) node: u8,
    /// How many events stood before it.
    pub(crate) before: usize,
    /// The letter that the node received in it.
    pub(crate) got: Option<LetterId>,
}

/// A letter, where an event was put in at a place: the events after it have numbers greater by one.
pub(super) fn renumbered(place: usize, got: Option<LetterId>) -> Option<LetterId>
    ensures { result ≡ option_map (renumbered place) got }
{
    let letter = got?;
    if letter.event < place as u64 {
        return Some(letter);
    }
    Some(LetterId {
        event: letter.event.saturating_add(1),
        place: letter.place,
    })
}

/// Adds a halt, for which there is room, before the others.
pub(super) fn open(halts: &mut Vec<OpenHalt>, halt: OpenHalt)
    requires { vec_len halts.old < vec_capacity halts.old }
    ensures { halts.new.items ≡ halt ∷ halts.old.items }
{
    match halts.insert(0, halt) {
        Ok(()) => {}
        // there is room
        Err(_) => unreachable!(),
    }
}

/// The newest halt of a node.
pub(super) fn newest_of(halts: &[OpenHalt], node: u8) -> Option<OpenHalt>
    ensures { result ≡ open_halt_of node halts.now }
{
    for halt in halts {
        if halt.node == node {
            return Some(*halt);
        }
    }
    None
}

/// A halt after an event that was put in at a place.
fn behind(halt: OpenHalt, place: usize) -> OpenHalt
    ensures { result ≡ behind_event place halt }
{
    OpenHalt {
        node: halt.node,
        before: halt.before.saturating_add(1),
        got: renumbered(place, halt.got),
    }
}

/// Takes out the newest halt of a node, whose event was put in at a place. The newer ones are after it.
pub(super) fn take_found(halts: &mut Vec<OpenHalt>, node: u8, place: usize)
    ensures { halts.new.items ≡ open_beside node place halts.old.items }
{
    for at in 0..halts.len() {
        if halts[at].node == node {
            halts.remove(at);
            return;
        }
        halts[at] = behind(halts[at], place);
    }
}

/// A node restarts: no halt of it is undecided.
pub(super) fn close(halts: &mut Vec<OpenHalt>, node: u8)
    ensures { halts.new.items ≡ filter (λ halt. not (eqb halt.node node)) halts.old.items }
{
    halts.retain(
        |halt: &OpenHalt| -> bool
            ensures { result ≡ not (eqb halt.now.node node) }
        { halt.node != node },
    );
}
