//! The data server of queues.
use crate::table::apply_to_queue;
use crate::{Answer, DataType, Items, Kind, Op, State};
use cam_base::NoMemory;
use std::alloc::Global;

/// The data server of queues.
#[derive(Drop)]
pub struct QueueServer {
    items: Items,
}

impl QueueServer {
    ghost use Rattle.std.specs.Prelude.{◌≡◌, []};
    ghost use Rattle.cam_type.specs.declared.State.TheVariants.{Queue};

    /// A server that holds the empty queue.
    pub fn new(alloc: Global) -> QueueServer
        ensures { ⟦<QueueServer as DataType>⟧.held result ≡ Queue [] }
    {
        QueueServer {
            items: Items::new(alloc),
        }
    }
}

impl DataType for QueueServer {
    ghost use Rattle.std.specs.Prelude.{refl};
    ghost use Rattle.cam_type.specs.declared.Kind.TheVariants as kinds;
    ghost use Rattle.cam_type.specs.declared.State.TheVariants.{Queue};

    ghost kind = { λ _. kinds.Queue };

    ghost held = { λ server. Queue server.items };

    ghost held_is_of_its_kind = { λ server. refl };

    fn kind(&self) -> Kind {
        Kind::Queue
    }

    fn load(&mut self, state: &State) -> Result<(), NoMemory> {
        if let State::Queue(items) = state {
            self.items = items.copy()?;
        }
        Ok(())
    }

    fn apply(&mut self, op: &Op) -> Result<Answer, NoMemory> {
        apply_to_queue(&mut self.items, op)
    }

    fn save(&self) -> Result<State, NoMemory> {
        Ok(State::Queue(self.items.copy()?))
    }
}
