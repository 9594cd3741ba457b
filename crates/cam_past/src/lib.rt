//! What happened before what: Lamport's relation over the events of a trace, by clocks.
//!
//! An event is one step of a whole node. It is in its own past, and so are the earlier events of its
//! node, the event that sent the letter which it received, and the pasts of these (`in_past` of
//! `cam_event`, whose `pasts` proves that this is the least such set if each received letter names
//! an earlier event; one that names none has no sender). [`clocks`] walks over a trace and gives each
//! event a clock: for each node the last of its events in that past. With them [`Clocks::in_past`]
//! answers exactly `in_past` for any two events of any trace, in constant time.
//!
//! After Lamport, "Time, Clocks, and the Ordering of Events in a Distributed System", 1978, and the
//! vector clocks of Fidge, 1988, and Mattern, 1989. Here a clock has the number of a node's last event in
//! place of how many there were, so that a look at one clock answers.
//!
//! It uses `cam_event` (traces, pasts).
#![tactic(auto)]

mod clock;
mod relation;
mod seat;
mod walk;

pub use relation::Clocks;
pub use walk::clocks;
