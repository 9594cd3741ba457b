//! Tests of `cam_locks` through its public calls: scenes whose answers are worked out by hand, restarts, servers that
//! are counted or want memory, and long random histories beside a table that replays its list at each call.
#![tactic(auto)]

#[cfg(test)]
mod check;
#[cfg(test)]
mod locks;
