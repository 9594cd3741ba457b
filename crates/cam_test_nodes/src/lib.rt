//! Tests of `cam_tranman`, `cam_commit` and `cam_server` through their public calls, a module for each.
#![tactic(auto)]

#[cfg(test)]
mod check;
#[cfg(test)]
mod commit;
#[cfg(test)]
mod server;
#[cfg(test)]
mod tranman;
