//! The engine of the page: one exported call over bytes, for a host that has no files, no streams
//! and no threads.
//!
//! [`camelot_page`] takes a question, the words of `camelot` or of `camscope` with the program's
//! name before them, and a script; it puts the answer's text into the room that the host gives.
//! Its main clause is that of `obeyed`: for a command of `camelot` the answer is what that program
//! writes.
//!
//! It stands on `cam_run`, `cam_teller` and what reads the words of each, over streams in memory.
#![tactic(auto)]

mod engine;
mod words;

ghost use Rattle.std.specs.Prelude.{◌≡◌, ◌≤◌, ◌<◌, length, take};

use crate::engine::{Reply, answer};
use cam_base::NoMemory;
use std::alloc::Global;

/// The status where the text is longer than the room that the host gave for it.
const TOO_LITTLE_ROOM: u32 = 256;

/// The status where memory ran out.
const NO_MEMORY: u32 = 7;

/// Puts a reply into the room, and how many bytes its text has into `count`. The result is its
/// status; or 256 if the text is longer than the room, which then stays as it was.
fn put(reply: &Reply, room: &mut [u8], count: &mut u64) -> u32
    ensures count { count.new ≡ length reply.now.text.items }
    ensures put { length reply.now.text.items ≤ length room.old
        → (result ≡ reply.now.status) × (take count.new room.new ≡ reply.now.text.items) }
    ensures short { length room.old < length reply.now.text.items
        → (result ≡ 256) × (room.new ≡ room.old) }
{
    let bytes = reply.text.len();
    *count = bytes as u64;
    if bytes > room.len() {
        return TOO_LITTLE_ROOM;
    }
    room[..bytes].copy_from_slice(&reply.text);
    reply.status as u32
}

/// Puts the text of the answer to a question about a script into the room, and how many bytes it
/// has into `count`. The result is the answer's status; or 256 if the text is longer than the room,
/// which then stays as it was, or 7 if memory ran out.
#[unsafe(no_mangle)]
pub extern "C" fn camelot_page(
    alloc: Global,
    question: &[u8],
    script: &[u8],
    room: &mut [u8],
    count: &mut u64,
) -> u32 {
    match answer(alloc, question, script) {
        Ok(reply) => put(&reply, room, count),
        Err(NoMemory) => {
            *count = 0;
            NO_MEMORY
        }
    }
}
