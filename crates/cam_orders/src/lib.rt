//! The orders of the lines of several families that keep each family's own order.
//!
//! An order says whose line comes next: a family is its number, from 0, and its lines come in their
//! own order. [`all_orders`] gives each order once.
//!
//! It stands on `cam_base`.
#![tactic(auto)]

mod orders;

pub use orders::{Order, Orders, all_orders};
