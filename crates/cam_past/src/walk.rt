//! Clocks made by walks over a trace.
ghost use Rattle.std.specs.Prelude.{◌≡◌, ℕ, ◌+◌, ◌^◌, ◌<◌, ◌≤◌, get_or, length, reverse, IfOk};
ghost use Rattle.cam_past.specs.Relation.{AreClocksOf};
ghost use Rattle.cam_past.specs.Tables.{latest_of, next_latest, AreNodes, AreTables, AreWithin, IsTable};

use crate::clock::{Clock, Table};
use crate::relation::Clocks;
use crate::seat::Seat;
use cam_base::{NoMemory, Sequence};
use cam_event::{Event, Trace};
use std::alloc::Global;

/// The clocks of a trace, which tell of each two events whether one is in the past of the other. Any
/// trace may be given: a letter that names no earlier event has no sender. Time and memory grow with
/// the length of the trace.
pub fn clocks(alloc: Global, trace: &Trace) -> Result<Clocks, NoMemory>
    ensures exact { IfOk result (AreClocksOf (reverse trace.now)) }
{
    let first = walk(alloc, trace, 0)?;
    let count = table_count(&first.nodes);
    Ok(Clocks {
        nodes: first.nodes,
        tables: tables(alloc, trace, first.clocks, count)?,
    })
}

/// How many tables it takes to have a place for each of the nodes.
fn table_count(nodes: &[u8]) -> usize
    ensures within { AreWithin result nodes.now }
    ensures few { result ≤ 32 }
{
    let mut count = 1;
    for node in nodes {
        count = count.max(Seat::of(*node).table + 1);
    }
    count
}

/// So many tables of the trace, of which the first one is given.
fn tables(
    alloc: Global,
    trace: &Trace,
    first: Table,
    count: usize,
) -> Result<Sequence<Table>, NoMemory>
    requires { IsTable (reverse trace.now) 0 first }
    ensures { IfOk result (λ tables. AreTables (reverse trace.now) count tables) }
{
    let mut tables = Sequence::new(alloc);
    tables.push(first)?;
    for number in 1..count {
        tables.push(walk(alloc, trace, number)?.clocks)?;
    }
    Ok(tables)
}

/// What a walk over a trace gives: the node of each event, and its clock over the eight nodes of a
/// table.
#[derive(Drop)]
struct Walked {
    nodes: Vec<u8>,
    clocks: Table,
}

/// One walk over the trace, for the eight nodes of a table.
fn walk(alloc: Global, trace: &Trace, table: usize) -> Result<Walked, NoMemory>
    ensures nodes { IfOk result (λ walked. AreNodes (reverse trace.now) walked.nodes.items) }
    ensures clocks { IfOk result (λ walked. IsTable (reverse trace.now) table walked.clocks) }
{
    let mut nodes = Vec::with_capacity(alloc, trace.len())?;
    let mut clocks = Vec::with_capacity(alloc, trace.len())?;
    let mut last = [None; 256];
    for event in trace.as_slice() {
        let node = event.node as usize;
        let clock = next(&clocks, table, last[node], event);
        last[node] = Some(clocks.len());
        nodes.push(event.node)?;
        clocks.push(clock)?;
    }
    Ok(Walked {
        nodes,
        clocks: Sequence::from_vec(clocks),
    })
}

/// The clock of the event that comes after those of `clocks`, where `last` is the last event of its
/// node among them.
fn next(clocks: &[Clock], table: usize, last: Option<usize>, event: &Event) -> Clock
    requires room { length clocks.now + 1 < 2 ^ 64 }
    ensures { (place : ℕ) → place < 8
        → get_or result.latest place 0 ≡ next_latest clocks.now table last event.now place }
{
    let own = clock_of(clocks, last);
    let sender = clock_of(clocks, event.got.map(|letter| letter.event as usize));
    let mut clock = own.join(&sender);
    let seat = Seat::of(event.node);
    if seat.table == table {
        clock.see(seat.place, clocks.len() as u64 + 1);
    }
    clock
}

/// The clock of an event, if there is one.
fn clock_of(clocks: &[Clock], event: Option<usize>) -> Clock
    ensures { (place : ℕ) → get_or result.latest place 0 ≡ latest_of clocks.now event place }
{
    let Some(number) = event else {
        return Clock::new();
    };
    match clocks.get(number) {
        Some(clock) => *clock,
        None => Clock::new(),
    }
}
