//! A run as text in columns: a lane for each node, time downwards, each event in the lane of its
//! node.
//!
//! [`rows_of`] makes a row of each event, and [`columns_text`] writes the rows. Their clauses say
//! that each event stands in them once, in order and in its node's lane, and what is written of a
//! row.
//!
//! It stands on `cam_scope` (the words for actions, letters and deeds), `cam_event`, `cam_script`
//! and `cam_base`.
#![tactic(auto)]

mod cell;
mod lanes;
mod rows;
mod text;
mod wrapped;

pub use rows::{Row, Rows, rows_of};
pub use text::columns_text;
