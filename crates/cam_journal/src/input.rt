//! What a core takes a step with, and why it may take none.
use thiserror::Error;

/// What a core may take its next step with.
#[derive(Drop)]
pub enum CoreInput<L> {
    /// A letter, with the number and the place of its sending.
    Letter { number: u64, place: u32, letter: L },
    /// Nothing from outside.
    Drive,
}

/// Why a core took no step.
#[derive(Clone, Copy, Debug, PartialEq, Eq, Error)]
pub enum CoreFault {
    /// The core's disk failed, and its count of faults rose.
    #[error("the disk failed")]
    DiskFault,
    /// The core ran out of memory.
    #[error("out of memory")]
    NoMemory,
}
