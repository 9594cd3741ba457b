//! The numbers of letters, in order of sending.
ghost use Rattle.std.specs.Prelude.{◌≡◌, ◌+◌, ◌≤◌, ◌^◌, List, IfOk, length, reverse, take};
ghost use Rattle.cam_event.specs.declared.Event.{Event};
ghost use Rattle.cam_report.specs.Traces.{sent_before, letter_number};
ghost use Rattle.cam_report.specs.Numbered.{IsNumbering, IsSmall};

use cam_base::NoMemory;
use cam_event::{LetterId, Trace};
use std::alloc::Global;

/// How many letters were sent before each event of a trace, and in all. No sum of the lengths of
/// lists passes 16 bytes.
#[derive(Drop)]
pub(crate) struct Numbering {
    before: Vec<u128>,
}

/// Counts the letters of a trace.
pub(crate) fn numbering_of(alloc: Global, trace: &Trace) -> Result<Numbering, NoMemory>
    ensures counted { IfOk result (IsNumbering (reverse trace.now)) }
    ensures small { IfOk result IsSmall }
{
    let events = trace.as_slice();
    let mut before = Vec::with_capacity(alloc, events.len() + 1)?;
    let mut sent = 0;
    before.push(sent)?;
    for event in events {
        sent += event.sent.len() as u128;
        before.push(sent)?;
    }
    Ok(Numbering { before })
}

impl Numbering {
    /// How many letters were sent before the event of this number.
    pub(crate) fn sent_before(&self, event: usize) -> u128
        requires small { IsSmall self.now }
        ensures value { (t : List Event) → IsNumbering t self.now → event ≤ length t
            → result ≡ sent_before t event }
        ensures small { result ≤ 2 ^ 127 }
    {
        match self.before.get(event) {
            Some(sent) => *sent,
            None => 0,
        }
    }

    /// The number of a letter among those that the first `events` events sent, from 1; 0 for none.
    pub(crate) fn number(&self, letter: Option<LetterId>, events: usize) -> u128
        requires small { IsSmall self.now }
        ensures { (es : List Event) → IsNumbering (reverse es) self.now → events ≤ length es
            → result ≡ letter_number (reverse (take events es)) letter }
    {
        match letter {
            Some(letter) => {
                let event = letter.event.min(events as u64);
                self.sent_before(event as usize) + letter.place as u128 + 1
            }
            None => 0,
        }
    }
}
