//! Where a node has its place in the tables of clocks.
ghost use Rattle.std.specs.Prelude.{◌≡◌, ◌<◌};
ghost use Rattle.cam_past.specs.Tables.{table_of, place_of};

/// Where the clocks have a node: in which table, and at which of its eight places.
#[derive(Clone, Copy)]
pub(crate) struct Seat {
    pub(crate) table: usize,
    pub(crate) place: usize,
}

impl Seat {
    /// The nodes of a run, 1 to 8, are those of the first table.
    pub(crate) fn of(node: u8) -> Seat
        ensures table { result.table ≡ table_of node }
        ensures place { result.place ≡ place_of node }
        ensures eight { result.place < 8 }
        ensures few { result.table < 32 }
    {
        let seat = if node == 0 { 255 } else { node as usize - 1 };
        Seat {
            table: seat / 8,
            place: seat % 8,
        }
    }
}
