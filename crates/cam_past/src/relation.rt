//! The clocks of a trace, and what they tell of two events.
ghost use Rattle.std.specs.Prelude.{◌≡◌, List};
ghost use Rattle.cam_event.specs.declared.Event.{Event};
ghost use Rattle.cam_event.specs.Pasts.{in_past};
ghost use Rattle.cam_past.specs.Relation.{AreClocksOf};
ghost use Rattle.cam_past.specs.Tables.{latest_in};

use crate::clock::Table;
use crate::seat::Seat;
use cam_base::Sequence;

/// The clocks of a trace's events, which tell of each two events whether one is in the past of the
/// other.
#[derive(Drop)]
pub struct Clocks {
    /// The node of each event.
    pub(crate) nodes: Vec<u8>,
    /// A table for each eight nodes up to the highest that has an event: one for a run.
    pub(crate) tables: Sequence<Table>,
}

/// One more than the number of the last event of the node in the past of event `j`, or 0.
fn latest(tables: &Sequence<Table>, node: u8, j: u64) -> u64
    ensures { result ≡ latest_in tables.now node j }
{
    let seat = Seat::of(node);
    let Some(table) = tables.get(seat.table) else {
        return 0;
    };
    match table.get(j as usize) {
        Some(clock) => clock.latest(seat.place),
        None => 0,
    }
}

impl Clocks {
    /// Whether event `i` is in the past of event `j`, with the events of the trace of these clocks
    /// numbered from 0 in their order. False where `i` or `j` is no event of it. It takes no memory,
    /// and constant time.
    pub fn in_past(&self, i: u64, j: u64) -> bool
        ensures exact { (t : List Event) → AreClocksOf t self.now → result ≡ in_past t i j }
    {
        match self.nodes.get(i as usize) {
            Some(node) => i < latest(&self.tables, *node, j),
            None => false,
        }
    }
}
