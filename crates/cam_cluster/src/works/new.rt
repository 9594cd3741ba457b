//! Works before the first line of a script.
ghost use Rattle.std.specs.Prelude.{◌≡◌, map};
ghost use Rattle.cam_cluster.specs.Founding.{new_works};

use super::{AsWorks, Failed, NumberedEvents, Works};
use crate::founding::AsPart;
use cam_ckpt::CheckpointLog;
use cam_net::Outbox;
use cam_node::Node;
use std::alloc::Global;

impl<L: CheckpointLog> Works<L> {
    /// The works over these nodes, where nothing has happened.
    pub(crate) fn new(alloc: Global, nodes: Vec<Node<L>>) -> Works<L>
        ensures { ⟦<Works<L> as AsWorks>⟧.fields result
            ≡ new_works (map (⟦<Node<L> as AsPart>⟧.part) nodes.items) }
    {
        Works {
            nodes,
            outbox: Outbox::new(alloc),
            halted: [false; 8],
            failed: Failed::nothing(),
            undecided: Vec::new(alloc),
            events: NumberedEvents::new(alloc),
            marks: Vec::new(alloc),
        }
    }
}
