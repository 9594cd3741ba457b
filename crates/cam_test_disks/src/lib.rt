//! Tests of `cam_bytes`, `cam_disk`, `cam_log`, `cam_ckpt` and `cam_recman` through their public calls, a module or
//! more for each.
#![tactic(auto)]

#[cfg(test)]
mod bytes;
#[cfg(test)]
mod check;
#[cfg(test)]
mod ckpt;
#[cfg(test)]
mod disk;
#[cfg(test)]
mod log;
#[cfg(test)]
mod migration;
#[cfg(test)]
mod recman;
#[cfg(test)]
mod recovery;
