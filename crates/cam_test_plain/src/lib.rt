//! Tests of `cam_live`, `cam_plain`, `cam_past`, `cam_serial`, `cam_cut` and `cam_why` through their public calls, a module for each.
//!
//! Their lists of deeds are made of the builders of `cam_samples`.
#![tactic(auto)]

#[cfg(test)]
mod check;
#[cfg(test)]
mod cut;
#[cfg(test)]
mod live;
#[cfg(test)]
mod past;
#[cfg(test)]
mod plain;
#[cfg(test)]
mod serial;
#[cfg(test)]
mod why;
