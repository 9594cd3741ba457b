//! A node without its disk.
ghost use Rattle.std.specs.Prelude.{◌≤◌};

use crate::knowing::Knowing;
use cam_commit::Families;
use cam_server::Server;
use cam_tranman::Homed;
use std::alloc::Global;

/// A node without its disk: its number and count, what it knows and has noted, and its three parts.
#[derive(Drop)]
pub(crate) struct Core {
    pub(crate) alloc: Global,
    pub(crate) number: u8,
    pub(crate) count: u32,
    pub(crate) knowing: Knowing,
    pub(crate) actions: Homed,
    pub(crate) families: Families,
    pub(crate) server: Server,
    ghost counted: { (1 ≤ count) × (count ≤ 1000000000) },
}
