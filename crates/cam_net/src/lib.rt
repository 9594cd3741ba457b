//! The network: letters in flight, as bytes.
//!
//! A letter is put once and stays as the bytes of its spelling, under its number in order of sending, from 1. It is handed out any number of
//! times, whole or cut, until it is lost; nothing else is ever handed out. Contracts see a network as the list of its letters in order of
//! sending, each with its receiver, its bytes, whether it is lost and whether it was delivered.
//!
//! An [`Outbox`] is a network with the letters of an event that are put next, so that an event in the run has its letters.
//!
//! Its main clauses are those of [`Net::whole`], [`Net::cut`], [`Net::next`] and [`Outbox::put_all`]. It uses `cam_wire` (spelling) and `cam_event` (letters).
#![tactic(auto)]

mod in_flight;
mod net;
mod outbox;

pub use net::Net;
pub use outbox::Outbox;
