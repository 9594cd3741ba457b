//! Tests of `cam_timed` through its public calls.
#![tactic(auto)]

#[cfg(test)]
mod check;
#[cfg(test)]
mod parsing;
#[cfg(test)]
mod running;
#[cfg(test)]
mod timed;
