//! How often each letter was received.
ghost use Rattle.std.specs.Prelude.{◌≡◌, ◌∷◌, [], List, OnOk};
ghost use Rattle.cam_event.specs.declared.Event.{Event as EventFields};
ghost use Rattle.cam_storm_node.specs.Receipts.{AreReceipts, times_in};
ghost use Rattle.cam_storm_node.specs.Following.{HasFewReceipts};

use cam_base::NoMemory;
use cam_event::LetterId;
use std::alloc::Global;
use std::collections::BTreeMap;

/// How often each letter was received, by the number of the event that sent it and its place there.
#[derive(Drop)]
pub(crate) struct Receipts {
    pub(crate) times: BTreeMap<(u64, u32), u8>,
}

impl Receipts {
    /// None was. It takes no memory.
    pub(crate) fn new(alloc: Global) -> Receipts
        ensures { AreReceipts [] result }
    {
        Receipts {
            times: BTreeMap::new(alloc),
        }
    }

    /// How often a letter was received.
    pub(crate) fn times(&self, number: u64, place: u32) -> u8
        ensures { result ≡ times_in self.now number place }
    {
        self.times.get(&(number, place)).copied().unwrap_or(0)
    }

    /// Takes in the letter that an event received, if it received one. It came fewer than 255 times
    /// before.
    pub(crate) fn take_in(&mut self, got: Option<LetterId>) -> Result<(), NoMemory>
        requires { HasFewReceipts self.old got }
        ensures { OnOk result ((t : List EventFields) (e : EventFields) → e.got ≡ got
            → AreReceipts t self.old → AreReceipts (e ∷ t) self.new) }
    {
        if let Some(letter) = got {
            let times = self.times(letter.event, letter.place);
            self.times.insert((letter.event, letter.place), times + 1)?;
        }
        Ok(())
    }
}
