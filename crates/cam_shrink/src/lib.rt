//! The smallest list of lines that still passes a test, by taking lines away.
//!
//! [`shrink`] takes lines away alone and in groups, as delta debugging does (Zeller and Hildebrandt,
//! "Simplifying and Isolating Failure-Inducing Input", 2002), until none of them can go any more.
//!
//! It stands on `cam_base`.
#![tactic(auto)]

mod cuts;
mod shrinking;
mod test;

pub use cuts::{Cuts, Places};
pub use shrinking::shrink;
pub use test::Test;
