// A log's bytes.
//
//     log      the header, the entries, a closed gate
//     header   the eight bytes CAMELOT and LF
//     entry    an open gate (the byte 1), the length of its bytes (eight bytes, big-endian), its bytes
//
// A closed gate is any other byte than 1; `format` and `append` write 0. What follows it has no meaning.
//
// To make a log: cut the disk to no bytes, write the header and the byte 0, sync. To append: write the
// length, the bytes and the byte 0 right after the closed gate, sync, write the byte 1 over the gate, sync.
// So the gate is closed, and outside the first write, until the whole entry is on the disk, and no
// checksum is needed: whatever a crash makes of the first write, the bytes are a log of the old entries.
//
// Bytes are no log at the first place that differs from the header or is missing in it; or at the first
// byte of a length that is not whole or that runs past the end; or at the end, if a gate is missing.
ghost use Rattle.std.specs.Prelude.{◌≡◌, ◌≤◌, ◌^◌, length, IfOk, OnErr};
ghost use Rattle.cam_log.specs.Image.{header, appended};

use cam_base::NoMemory;
use std::alloc::Global;

/// The first bytes of each log.
pub const HEADER: [u8; 8] = *b"CAMELOT\n";

/// A log without entries: the header and a closed gate.
pub const EMPTY: [u8; 9] = *b"CAMELOT\n\0";

/// A gate with an entry after it.
pub const OPEN: u8 = 1;

/// A gate with nothing after it yet, as it is written.
pub const CLOSED: u8 = 0;

/// What an append writes after the closed gate, before it opens that one.
pub fn appended(alloc: Global, entry: &[u8]) -> Result<Vec<u8>, NoMemory>
    ensures { IfOk result (λ text. text.items ≡ appended entry.now) }
{
    let mut text = (entry.len() as u64).to_be_bytes().to_vec(alloc)?;
    text.extend_from_slice(entry)?;
    text.push(CLOSED)?;
    Ok(text)
}
