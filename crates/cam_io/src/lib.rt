//! Sources and sinks of bytes, each with a count of its faults.
//!
//! A source and a sink are traits, so that a contract can name the bytes that are left and the bytes that
//! were written; those in memory show them, those over std's streams do not. Its main clauses: [`read_all`]
//! returns all the bytes that were left and [`write_all`] writes the whole text, or an error whose cause is
//! the count of faults that rose, or more bytes than the limit.
//!
//! It uses `cam_base`.
#![tactic(auto)]

mod fault;
mod memory;
mod sink;
mod source;
mod standard;

pub use fault::{Failed, ReadFault};
pub use memory::{MemorySink, MemorySource};
pub use sink::{Sink, write_all};
pub use source::{Source, read_all};
pub use standard::{StdSink, StdSource};
