//! Tests of `cam_cluster`, `cam_journal` and `cam_run` through their public calls, a module for each.
#![tactic(auto)]

#[cfg(test)]
mod check;
#[cfg(test)]
mod cluster;
#[cfg(test)]
mod journal;
#[cfg(test)]
mod run;
