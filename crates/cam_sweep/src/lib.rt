//! To which ends many runs lead that are made from one script.
//!
//! [`sweep_of`] makes the scripts that have one fault more, at each moment of the run; [`orders_of`]
//! makes the orders of a script's lines. [`ends_of`] runs each of them to its end, and
//! [`tally`] counts the ends: its clause says how many runs lead to each, and which is the first.
//! Each run is judged besides by `check` of the plain machine and by the replay in commit order.
//!
//! It stands on `cam_whatif` (the run of a script), `cam_orders` (the orders), `cam_report`,
//! `cam_scope`, `cam_cut`, `cam_plain`, `cam_serial` and below.
#![tactic(auto)]

mod ends;
mod faults;
mod judging;
mod moments;
mod orders;
mod summary;
mod tallying;
mod variant;

pub use ends::{end_of, ends_of};
pub use faults::{Faults, sweep_of};
pub use orders::{NoOrders, Ordered, orders_of};
pub use summary::summary_text;
pub use tallying::{Tallied, tally};
pub use variant::{Variant, Variants};
