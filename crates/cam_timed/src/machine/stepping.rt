//! A node takes a turn: it makes the event of an input that comes to it.
ghost use Rattle.std.specs.Prelude.{◌≡◌, ◌∷◌, OnOk};
ghost use Rattle.cam_timed.specs.Here.{input_of};
ghost use Rattle.cam_timed.specs.Machine.{KeepsNode, KeepsShared, trace_of};
ghost use Rattle.cam_timed.specs.TimedRules.{timed_next};
ghost use Rattle.cam_timed.specs.Turns.{AreFirst, IsTurn};

use super::deciding::decide;
use super::taking::{note_all, take_over};
use super::{Node, Shared, Turn};
use cam_base::NoMemory;
use cam_event::Deeds;

/// A node takes a turn with these first Informs.
pub(crate) fn step(
    turn: &Turn,
    node: &mut Node,
    shared: &mut Shared,
    first: Deeds,
) -> Result<(), NoMemory>
    requires turn { IsTurn turn.now.objects.now (trace_of shared.old) turn.now.node turn.now.input.now
        turn.now.letter.now }
    requires first { AreFirst (trace_of shared.old) turn.now.node turn.now.input.now first }
    requires node { KeepsNode turn.now.objects.now (trace_of shared.old) turn.now.node node.old }
    requires shared { KeepsShared turn.now.objects.now (trace_of shared.old) shared.old }
    ensures node { OnOk result (KeepsNode turn.now.objects.now
        (timed_next turn.now.objects.now (trace_of shared.old) (input_of turn.now.input.now)
        ∷ trace_of shared.old) turn.now.node node.new) }
    ensures shared { OnOk result (KeepsShared turn.now.objects.now
        (timed_next turn.now.objects.now (trace_of shared.old) (input_of turn.now.input.now)
        ∷ trace_of shared.old) shared.new) }
    ensures trace { OnOk result (trace_of shared.new
        ≡ timed_next turn.now.objects.now (trace_of shared.old) (input_of turn.now.input.now)
        ∷ trace_of shared.old) }
{
    note_all(
        turn.alloc,
        turn.objects,
        &mut node.own,
        &mut shared.all_nodes,
        &first,
    )?;
    let decided = decide(turn, node, shared, &first)?;
    take_over(turn, node, shared, first, decided)
}
