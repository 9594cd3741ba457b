//! The rows of the columns: one for each event.
ghost use Rattle.std.specs.Prelude.{◌≡◌, IfOk, map};
ghost use Rattle.cam_columns.specs.Rows.{place, places};

use crate::cell::cell_text;
use crate::wrapped::{CellLines, wrapped};
use cam_base::{NoMemory, Sequence};
use cam_event::{Event, RunRecord};
use cam_scope::{NamedEvent, Scope};
use cam_script::{Labels, Script};
use std::alloc::Global;

/// An event in the lane of its node.
#[derive(Drop)]
pub struct Row {
    /// The number of the event, from 0.
    pub event: usize,
    /// Its node, in whose lane it stands.
    pub node: u8,
    /// The line of the script in which it happened.
    pub line: Option<u32>,
    /// What its cell says, in lines.
    pub cell: Sequence<String>,
}

/// The rows of a run, in order of events.
pub type Rows = Sequence<Row>;

/// What the names say of an event; of one that they do not know, its node alone.
fn named_of(scope: &Scope, number: usize, event: &Event) -> NamedEvent {
    match scope.events.get(number) {
        Some(named) => *named,
        None => NamedEvent {
            node: event.node,
            line: None,
            received: None,
            sent_before: 0,
            sent: 0,
        },
    }
}

/// The row of an event.
fn row_of(
    alloc: Global,
    scope: &Scope,
    labels: &Labels,
    number: usize,
    event: &Event,
) -> Result<Row, NoMemory>
    ensures { IfOk result (λ row. place row ≡ (number, event.now.node)) }
{
    let named = named_of(scope, number, event);
    let text = cell_text(alloc, scope, labels, &named, event)?;
    let lines: CellLines = wrapped(alloc, &text)?;
    Ok(Row {
        event: number,
        node: event.node,
        line: named.line,
        cell: Sequence::from_vec(lines),
    })
}

/// A row for each event of the run: each event once, in order, in its node's lane.
pub fn rows_of(
    alloc: Global,
    script: &Script,
    run: &RunRecord,
    scope: &Scope,
) -> Result<Rows, NoMemory>
    ensures { IfOk result (λ rows. map place rows ≡ places 0 run.now.trace) }
{
    let mut rows = Rows::new(alloc);
    for (number, event) in run.trace.as_slice().iter().enumerate() {
        rows.push(row_of(alloc, scope, &script.labels, number, event)?)?;
    }
    Ok(rows)
}
