//! Workers that serve the halls of `cam_hall` in threads, and the last phase behind them.
//!
//! [`hall_of`] makes a hall of cores and seats. [`start`] lets the cores go on by themselves, and
//! [`work`] lets workers serve the hall in threads, round after round, until they find nothing more
//! to do. What they leave undone [`settle`] does alone.
//!
//! It stands on `cam_hall`, and like it is generic in the core. Its main clause is that of
//! [`settle`]: in the end no core has anything to do by itself, or with a letter of the histories,
//! unless its own history is full.
#![tactic(auto)]

mod hall;
mod rounds;
mod settling;

pub use hall::hall_of;
pub use rounds::{start, work};
pub use settling::settle;
