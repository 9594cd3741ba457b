//! Tests of `cam_hall` through its public calls, with a small core whose nodes talk in a ring.
#![tactic(auto)]

mod speaker;

pub use speaker::{Remark, Speaker, Speech};

#[cfg(test)]
mod check;
#[cfg(test)]
mod ends;
#[cfg(test)]
mod gates;
#[cfg(test)]
mod ring;
#[cfg(test)]
mod row;
#[cfg(test)]
mod workers;
