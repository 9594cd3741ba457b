//! The halts of nodes.
ghost use Rattle.std.specs.Prelude.{◌≡◌, ◌&&◌, ◌++◌, IfOk, OnOk, decimal, eqb, map, nat_le, reverse, string_bytes, unwrap_or};
ghost use Rattle.std.specs.List.{flat_map};
ghost use Rattle.cam_draw.specs.Surroundings.{above, halt, halt_of, halt_saying, halts_word, next_from, taken_word};

use cam_base::NoMemory;
use cam_diagram::{Halt, Halts};
use cam_event::{Mark, Marks};
use cam_scope::{NamedEvent, NamedEvents, push_number};
use std::alloc::Global;

/// Whether an event is of a node, and of this line or one before.
fn is_before(event: &NamedEvent, node: u8, line: u32) -> bool
    ensures { result ≡ (eqb event.now.node node && nat_le (unwrap_or event.now.line 0) line) }
{
    event.node == node && event.line.unwrap_or(0) <= line
}

/// How many events are above a halt: all up to the node's last one in this line or before it.
fn events_above(events: &NamedEvents, node: u8, line: u32) -> u64
    ensures { result ≡ above node line (reverse events.now) }
{
    let mut above = 0;
    for (number, event) in events.as_slice().iter().enumerate() {
        if is_before(event, node, line) {
            above = number as u64 + 1;
        }
    }
    above
}

/// The node's next event after so many; the number of all events where none follows.
fn next_event(events: &NamedEvents, node: u8, above: u64) -> u64
    ensures { result ≡ next_from node above 0 events.now }
{
    for (number, event) in events.as_slice().iter().enumerate() {
        if event.node == node && above <= number as u64 {
            return number as u64;
        }
    }
    events.len() as u64
}

/// How the words of a halt begin.
#[tactic(auto, unfolding(crate::specs::Surroundings::halts_word))]
fn halts_word() -> &'static str
    ensures { result.now ≡ halts_word }
{
    "halts in line "
}

/// Whether the log has the event at which a node halted, in words.
fn taken_word(taken: bool) -> &'static str
    ensures { result.now ≡ taken_word taken }
{
    if taken { ": logged" } else { ": not logged" }
}

/// The words of a halt.
fn halt_text(alloc: Global, line: u32, taken: bool) -> Result<String, NoMemory>
    ensures { IfOk result (λ text.
        string_bytes text ≡ halts_word ++ decimal line ++ taken_word taken) }
{
    let mut words = String::new(alloc);
    words.push_str(halts_word())?;
    push_number(&mut words, line as u64)?;
    words.push_str(taken_word(taken))?;
    Ok(words)
}

/// The halt of a node in a line.
fn halt(
    alloc: Global,
    events: &NamedEvents,
    line: u32,
    node: u8,
    taken: bool,
) -> Result<Halt, NoMemory>
    ensures { IfOk result (λ h. halt_saying h ≡ halt events.now line node taken) }
{
    let above = events_above(events, node, line);
    Ok(Halt {
        node,
        above,
        until: next_event(events, node, above),
        words: halt_text(alloc, line, taken)?,
    })
}

/// Adds the halt of which a mark tells, if it tells of one.
fn add_halt(
    alloc: Global,
    events: &NamedEvents,
    mark: &Mark,
    halts: &mut Halts,
) -> Result<(), NoMemory>
    ensures { OnOk result (map halt_saying halts.new
        ≡ map halt_saying halts.old ++ halt_of events.now mark.now) }
{
    if let Mark::Halted { line, node, taken } = mark {
        halts.push(halt(alloc, events, *line, *node, *taken)?)?;
    }
    Ok(())
}

/// The halts of a run, in order of lines.
pub(crate) fn halts_of(
    alloc: Global,
    events: &NamedEvents,
    marks: &Marks,
) -> Result<Halts, NoMemory>
    ensures { IfOk result (λ halts. map halt_saying halts
        ≡ flat_map (halt_of events.now) marks.now) }
{
    let mut halts = Halts::new(alloc);
    for mark in marks.as_slice() {
        add_halt(alloc, events, mark, &mut halts)?;
    }
    Ok(halts)
}
