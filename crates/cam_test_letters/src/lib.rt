//! Tests of `cam_know`, `cam_orphan`, `cam_comman`, `cam_wire` and `cam_net` through their public calls, a module for
//! each, and `check`, by which they assert.
#![tactic(auto)]

#[cfg(test)]
mod check;
#[cfg(test)]
mod comman;
#[cfg(test)]
mod know;
#[cfg(test)]
mod net;
#[cfg(test)]
mod orphan;
#[cfg(test)]
mod wire;
