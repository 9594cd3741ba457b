//! The actions that a node runs, in tables of hashes.
ghost use Rattle.cam_tranman.specs.OpenCall.{IsAddressed};

use crate::OpenCall;
use crate::action::Action;
use crate::children::Children;
use cam_names::Name;
use std::collections::HashMap;

/// The actions of a node's present incarnation: what each has done, its open call and its open
/// children.
#[derive(Drop)]
pub struct Homed {
    pub(crate) node: u8,
    pub(crate) count: u32,
    /// How many top actions were begun.
    pub(crate) tops: u32,
    pub(crate) actions: HashMap<Name, Action>,
    pub(crate) calls: HashMap<Name, OpenCall>,
    pub(crate) children: Children,
    ghost addressed: { IsAddressed node count },
}
