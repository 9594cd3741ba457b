//! The dots and the arrows of a trace.
ghost use Rattle.std.specs.Prelude.{◌≡◌, ◌++◌, IfOk, OnOk, map, reverse};
ghost use Rattle.cam_diagram.specs.Picture.{arrow, arrows, dot, kind_at, kind_in, node_at};

use crate::kinds::kind_of;
use crate::signs::sign_of;
use crate::{Arrow, Arrows, Dot, Dots, Kind, Spot};
use cam_base::NoMemory;
use cam_event::{Event, LetterId, Trace};
use std::alloc::Global;

/// One dot for each event, in order, in the lane of its node.
pub fn dots_of(alloc: Global, trace: &Trace) -> Result<Dots, NoMemory>
    ensures { IfOk result (λ dots. dots ≡ map dot trace.now) }
{
    let mut dots = Dots::new(alloc);
    for event in trace.as_slice() {
        dots.push(Dot {
            node: event.node,
            sign: sign_of(event),
        })?;
    }
    Ok(dots)
}

/// The node of the event of this number; 0 where the trace has none.
fn node_at(trace: &Trace, number: u64) -> u8
    ensures { result ≡ node_at trace.now number }
{
    match trace.get(number as usize) {
        Some(event) => event.node,
        None => 0,
    }
}

/// The kind of the letter at this place of an event.
fn kind_in(event: &Event, place: u32) -> Kind
    ensures { result ≡ kind_in event.now place }
{
    match event.sent.get(place as usize) {
        Some(sent) => kind_of(&sent.body),
        None => Kind::News,
    }
}

/// The kind of a letter; news where the trace has no such letter.
pub fn kind_at(trace: &Trace, letter: LetterId) -> Kind
    ensures { result ≡ kind_at trace.now letter }
{
    match trace.get(letter.event as usize) {
        Some(event) => kind_in(event, letter.place),
        None => Kind::News,
    }
}

/// Adds the arrow to an event, if the event received a letter.
fn add_arrow(trace: &Trace, number: u64, event: &Event, arrows: &mut Arrows) -> Result<(), NoMemory>
    ensures { OnOk result (arrows.new ≡ arrows.old
        ++ arrow trace.now number event.now.node event.now.got) }
{
    if let Some(letter) = event.got {
        arrows.push(Arrow {
            letter,
            kind: kind_at(trace, letter),
            from: Spot {
                node: node_at(trace, letter.event),
                event: letter.event,
            },
            to: Spot {
                node: event.node,
                event: number,
            },
        })?;
    }
    Ok(())
}

/// An arrow to each event that received a letter, from the event that sent it, in order; and no other.
pub fn arrows_of(alloc: Global, trace: &Trace) -> Result<Arrows, NoMemory>
    ensures { IfOk result (λ found. found ≡ arrows trace.now (reverse trace.now)) }
{
    let mut arrows = Arrows::new(alloc);
    for (number, event) in trace.as_slice().iter().enumerate() {
        add_arrow(trace, number as u64, event, &mut arrows)?;
    }
    Ok(arrows)
}
