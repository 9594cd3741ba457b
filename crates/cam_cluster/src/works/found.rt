//! The mark of a halt that a restart found to be taken.
ghost use Rattle.std.specs.Prelude.{◌≡◌};
ghost use Rattle.cam_histories.specs.Found.{as_taken, is_halt_of, with_mark_taken};

use cam_event::Mark;

/// Whether a mark tells of a halt of a node.
fn is_halt_of(mark: &Mark, node: u8) -> bool
    ensures { result ≡ is_halt_of node mark.now }
{
    match mark {
        Mark::Halted { node: halted, .. } => *halted == node,
        _ => false,
    }
}

/// The mark of a halt that was taken.
fn as_taken(mark: &Mark) -> Mark
    ensures { result ≡ as_taken mark.now }
{
    match mark {
        Mark::Halted { line, node, .. } => Mark::Halted {
            line: *line,
            node: *node,
            taken: true,
        },
        other => *other,
    }
}

/// The mark of the last halt of a node tells that it was taken.
pub(super) fn mark_taken(marks: &mut [Mark], node: u8)
    ensures { marks.new ≡ with_mark_taken node marks.old }
{
    let mut at = marks.len();
    while at > 0 {
        at -= 1;
        if is_halt_of(&marks[at], node) {
            marks[at] = as_taken(&marks[at]);
            return;
        }
    }
}
