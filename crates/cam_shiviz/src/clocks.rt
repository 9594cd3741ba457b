//! The vector clocks of the events of a run.
ghost use Rattle.std.specs.Prelude.{◌≡◌, IfOk, length};

use cam_base::NoMemory;
use cam_event::{Event, Trace};
use std::alloc::Global;

/// How many events of each node stand in a past, by the node's number less one.
#[derive(Clone, Copy, Debug)]
pub(crate) struct Clock {
    pub(crate) counts: [u64; 8],
}

/// Before the first event.
const START: Clock = Clock { counts: [0; 8] };

impl Clock {
    /// The clock of what stands in one past or the other.
    fn joined(&self, other: &Clock) -> Clock {
        let mut counts = [0u64; 8];
        for node in 0..8usize {
            counts[node] = self.counts[node].max(other.counts[node]);
        }
        Clock { counts }
    }

    /// The clock with one more event of a node.
    fn risen(&self, node: u8) -> Clock {
        let mut counts = self.counts;
        if let Some(count) = counts.get_mut((node as usize).saturating_sub(1)) {
            *count = count.saturating_add(1);
        }
        Clock { counts }
    }
}

/// The clock of the event at a place.
fn clock_at(clocks: &[Clock], place: usize) -> Clock {
    match clocks.get(place) {
        Some(clock) => *clock,
        None => START,
    }
}

/// The clock of an event, by those of the events before it and the last one of its node.
fn clock_of(clocks: &[Clock], last: &Clock, event: &Event) -> Clock {
    let before = match event.got {
        Some(letter) => {
            let sender = usize::try_from(letter.event).unwrap_or(usize::MAX);
            last.joined(&clock_at(clocks, sender))
        }
        None => *last,
    };
    before.risen(event.node)
}

/// The clocks of the events of a trace, in order: one for each.
pub(crate) fn clocks_of(alloc: Global, trace: &Trace) -> Result<Vec<Clock>, NoMemory>
    ensures { IfOk result (λ clocks. length clocks.items ≡ length trace.now) }
{
    let mut clocks = Vec::new(alloc);
    let mut last = [START; 8];
    for event in trace.as_slice() {
        let seat = (event.node as usize).saturating_sub(1);
        let clock = clock_of(&clocks, &clock_at(&last, seat), event);
        clocks.push(clock)?;
        if let Some(place) = last.get_mut(seat) {
            *place = clock;
        }
    }
    Ok(clocks)
}
