//! `cam_past`: the clocks of a trace against the past by its definition.
use crate::check::same;
use cam_base::NoMemory;
use cam_event::{Body, Deeds, Event, LetterId, Note, Sent, SentList, Trace};
use cam_past::{Clocks, clocks};
use std::alloc::Global;
use std::collections::BTreeSet;
use std::process::Abort;
use std::test::Fail;

const EVENTS: u64 = 100;

/// An event that sends news to each of eight nodes.
fn event(alloc: Global, node: u8, got: Option<LetterId>) -> Result<Event, NoMemory> {
    let mut sent = SentList::new(alloc);
    for to in 1..=8 {
        sent.push_copy(&Sent {
            to,
            body: Body::News,
        })?;
    }
    Ok(Event {
        node,
        got,
        deeds: Deeds::new(alloc),
        sent,
        note: Note::Plain,
    })
}

/// A hundred events of eight nodes with 66 letters: 40 pairs cross between two nodes that write to
/// each other, and of 66 pairs of one node to another the later letter comes first.
fn crossing(alloc: Global) -> Result<Trace, NoMemory> {
    let mut trace = Trace::new(alloc);
    for number in 0..EVENTS {
        let place = (number * 4 + number / 7) % 8;
        let back = 1 + (number * 17 + number / 7) % 30;
        let got = if number % 4 == 0 || number < back {
            None
        } else {
            Some(LetterId {
                event: number - back,
                place: place as u32,
            })
        };
        trace.push(event(alloc, place as u8 + 1, got)?)?;
    }
    Ok(trace)
}

fn node(trace: &Trace, number: u64) -> Option<u8> {
    trace.get(number as usize).map(|event| event.node)
}

fn sender(trace: &Trace, number: u64) -> Option<u64> {
    let letter = trace.get(number as usize)?.got?;
    Some(letter.event)
}

/// Brings in the earlier events of a member's node, and the sender of its letter.
fn add_before(trace: &Trace, member: u64, past: &mut BTreeSet<u64>) -> Result<(), Fail> {
    for earlier in 0..member {
        if node(trace, earlier) == node(trace, member) {
            past.insert(earlier)?;
        }
    }
    if let Some(sender) = sender(trace, member) {
        past.insert(sender)?;
    }
    Ok(())
}

/// The past of an event by its definition: from the last event back, each member brings in the
/// earlier events of its node, and the sender of its letter.
fn past_of(alloc: Global, trace: &Trace, last: u64) -> Result<BTreeSet<u64>, Fail> {
    let mut past = BTreeSet::new(alloc);
    past.insert(last)?;
    for member in (0..EVENTS).rev() {
        if past.contains(&member) {
            add_before(trace, member, &mut past)?;
        }
    }
    Ok(past)
}

/// The first event that the clocks put in the past of `last` and the definition does not, or the other way round.
fn first_unlike(clocks: &Clocks, past: &BTreeSet<u64>, last: u64) -> Option<u64> {
    for event in 0..EVENTS {
        if clocks.in_past(event, last) != past.contains(&event) {
            return Some(event);
        }
    }
    None
}

/// How many events are in the past of an event by the clocks.
fn count_in_past(clocks: &Clocks, last: u64) -> u32 {
    let mut count = 0u32;
    for event in 0..EVENTS {
        if clocks.in_past(event, last) {
            count = count.saturating_add(1);
        }
    }
    count
}

/// The clocks and the definition give each event the same past. It answers for how many pairs the one event is in the past of the other.
fn check_pasts(
    rt: &impl Abort,
    alloc: Global,
    trace: &Trace,
    clocks: &Clocks,
) -> Result<u32, Fail> {
    let mut pairs = 0u32;
    for last in 0..EVENTS {
        let past = past_of(alloc, trace, last)?;
        same(rt, (last, first_unlike(clocks, &past, last)), (last, None));
        pairs = pairs.saturating_add(count_in_past(clocks, last));
    }
    Ok(pairs)
}

#[test]
fn clocks_tell_the_past_that_its_definition_gives(rt: HostRuntime) -> Result<(), Fail> {
    let trace = crossing(rt.alloc())?;
    let clocks = clocks(rt.alloc(), &trace)?;
    let pairs = check_pasts(&rt, rt.alloc(), &trace, &clocks)?;
    same(&rt, pairs, 3313);
    let outside = (clocks.in_past(0, EVENTS), clocks.in_past(EVENTS, 0));
    same(&rt, outside, (false, false));
    Ok(())
}

/// Three events, of nodes that no run has: 0 gets a letter of 9, and 255 one of 0.
fn of_any_bytes(alloc: Global) -> Result<Trace, NoMemory> {
    let mut trace = Trace::new(alloc);
    for (number, node) in [(0, 9), (1, 0), (2, 255)] {
        let got = match number {
            0 => None,
            _ => Some(LetterId {
                event: number - 1,
                place: 0,
            }),
        };
        trace.push(event(alloc, node, got)?)?;
    }
    Ok(trace)
}

/// Each pair of those events, and whether the first is in the past of the second.
const PAIRS: [(u64, u64, bool); 9] = [
    (0, 0, true),
    (0, 1, true),
    (0, 2, true),
    (1, 0, false),
    (1, 1, true),
    (1, 2, true),
    (2, 0, false),
    (2, 1, false),
    (2, 2, true),
];

#[test]
fn any_byte_is_a_node(rt: HostRuntime) -> Result<(), Fail> {
    let trace = of_any_bytes(rt.alloc())?;
    let clocks = clocks(rt.alloc(), &trace)?;
    for (i, j, is_in_past) in PAIRS {
        same(&rt, (i, j, clocks.in_past(i, j)), (i, j, is_in_past));
    }
    Ok(())
}
