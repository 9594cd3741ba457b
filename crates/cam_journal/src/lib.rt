//! The numbered run of several threads.
//!
//! A `Journal` numbers the events of up to eight nodes by one atomic word. Each node has a `NodeSeat`, which goes to the thread that
//! works for it. `record` puts an event under the next number after the history of its seat. A `Note` names a letter that an
//! event sent; another node takes it, and may record its receipt. `gather` gives the events of all seats in one order. What events
//! and letters are, and which event is lawful, a `Core` says.
//!
//! It uses `atomic_table`, whose rule each step keeps (`specs/Rule.antt`), and `cam_base`. Its main clause is that of
//! `Journal::gather`: the events of all seats are one run, numbered from 0 by the places of its steps; each step is lawful after its
//! node's history, and each received letter was sent under a smaller number.
#![tactic(auto)]

mod entry;
mod fault;
mod gathered;
mod input;
mod journal;
mod nodes;
mod note;
mod seat;
mod view;

pub use entry::{NumberedEvent, RunStep, SentLetter};
pub use fault::ReserveFault;
pub use gathered::Gathered;
pub use input::{CoreFault, CoreInput};
pub use journal::{Journal, Seats};
pub use nodes::Core;
pub use note::Note;
pub use seat::NodeSeat;
