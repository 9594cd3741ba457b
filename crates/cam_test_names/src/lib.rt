//! Tests of `cam_base`, `cam_io`, `cam_names`, `cam_type` and `cam_event` through their public calls, a module for each.
#![tactic(auto)]

#[cfg(test)]
mod base;
#[cfg(test)]
mod check;
#[cfg(test)]
mod events;
#[cfg(test)]
mod io;
#[cfg(test)]
mod names;
#[cfg(test)]
mod types;
