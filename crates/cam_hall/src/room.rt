//! Room for what a hall leaves.
ghost use Rattle.std.specs.Prelude.{◌≡◌, ◌≤◌, [], vec_len};
ghost use Rattle.std.specs.Vec.{vec_capacity};

use cam_base::NoMemory;
use cam_journal::{Core, Seats};
use std::alloc::Global;

/// Empty lists with room for the cores and the seats of four nodes.
#[derive(Drop)]
pub(crate) struct Room<C: Core> {
    cores: Vec<C>,
    seats: Seats<C>,
    ghost empty: { (vec_len cores ≡ 0) × (vec_len seats ≡ 0) },
    ghost wide: { (4 ≤ vec_capacity cores) × (4 ≤ vec_capacity seats) },
}

impl<C: Core> Room<C> {
    /// It fails only when out of memory.
    pub(crate) fn new(alloc: Global) -> Result<Room<C>, NoMemory> {
        Ok(Room {
            cores: Vec::with_capacity(alloc, 4)?,
            seats: Vec::with_capacity(alloc, 4)?,
        })
    }

    /// The lists.
    pub(crate) fn into_lists(self) -> (Vec<C>, Seats<C>)
        ensures empty { (result.0.items ≡ []) × (result.1.items ≡ []) }
        ensures wide { (4 ≤ vec_capacity result.0) × (4 ≤ vec_capacity result.1) }
    {
        (self.cores, self.seats)
    }
}
