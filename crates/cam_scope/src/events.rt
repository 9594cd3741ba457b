//! The events of a run, each with its line and the numbers of its letters.
ghost use Rattle.std.specs.Prelude.{◌≡◌, IfOk, map};

use crate::post::Post;
use cam_base::{NoMemory, Sequence};
use cam_event::{Event, Trace};
use std::alloc::Global;

/// An event of a run: where it happened, the line that made it, and its letters by their numbers,
/// which count from 1 in order of sending.
#[derive(Clone, Copy, Debug, PartialEq, Eq)]
pub struct NamedEvent {
    pub node: u8,
    /// The line of the script in which it happened; none where the run is not of this script.
    pub line: Option<u32>,
    /// The number of the letter that it received.
    pub received: Option<usize>,
    /// How many letters were sent before it: it sent those behind them.
    pub sent_before: usize,
    /// How many letters it sent.
    pub sent: usize,
}

/// The events of a run, in order.
pub type NamedEvents = Sequence<NamedEvent>;

/// The event of this number, which happened in a line.
fn named(post: &Post, number: usize, line: Option<u32>, event: &Event) -> NamedEvent
    ensures { result.node ≡ event.now.node }
{
    let received = match event.got {
        Some(id) => post.place(id).checked_add(1),
        None => None,
    };
    NamedEvent {
        node: event.node,
        line,
        received,
        sent_before: post.sent_before(number),
        sent: event.sent.len(),
    }
}

/// The events of a trace, each with its line: the lines are in order of events.
pub(crate) fn name_events(
    alloc: Global,
    trace: &Trace,
    post: &Post,
    lines: &[u32],
) -> Result<NamedEvents, NoMemory>
    ensures { IfOk result (λ events. map (λ e. e.node) events ≡ map (λ e. e.node) trace.now) }
{
    let mut events = NamedEvents::new(alloc);
    for (number, event) in trace.as_slice().iter().enumerate() {
        let line = lines.get(number).copied();
        events.push_copy(&named(post, number, line, event))?;
    }
    Ok(events)
}
