//! Sources of bytes, and how one is read to its end.
ghost use Rattle.std.specs.Prelude.{◌≡◌, ◌≤◌, ◌<◌, ◌+◌, ◌++◌, ℕ, List, Option, length, take, vec_len, IfOk, OnOk, IsErrOf, MatchResult};
ghost use Rattle.cam_base.specs.Told.{IfTold};
ghost use Rattle.cam_base.specs.Causes.{HasCause, Rose};
ghost use Rattle.cam_io.specs.Moving.{Moves};
ghost use Rattle.cam_io.specs.Reading.{IsRead};

use crate::fault::{Failed, ReadFault};
use cam_base::NoMemory;
use std::alloc::Global;

/// A source of bytes.
pub trait Source {
    /// The bytes that are left, if contracts see them.
    ghost left: { Self → Option (List ℕ) };

    /// How often the source has failed.
    ghost faults: { Self → ℕ };

    /// Moves the next bytes to the beginning of `into`, and returns how many: none exactly at the end.
    /// A read that fails moves nothing. What `into` holds after the moved bytes, and after a failure, is
    /// left open.
    fn read(&mut self, into: &mut [u8]) -> Result<usize, Failed>
        requires { 0 < length into.old }
        ensures count { IfOk result (λ n. n ≤ length into.new) }
        ensures bytes { IfTold (left self.old) (left self.new)
            (λ old new. MatchResult result (λ n. Moves old new (take n into.new))
            (λ _. new ≡ old)) }
        ensures cause { HasCause (faults self.old) (faults self.new) result };
}

/// Reads all bytes that are left. Fails with `TooLarge` once more than `limit` bytes were read, with
/// `Failed` if a read failed, and with `NoMemory` if memory runs out. After a failure the bytes that
/// were not read are left.
pub fn read_all<S: Source>(
    alloc: Global,
    source: &mut S,
    limit: usize,
) -> Result<Vec<u8>, ReadFault>
    ensures read { IfTold (S.left source.old) (S.left source.new)
        (λ old new. IsRead limit old new result) }
    ensures within { IfOk result (λ bytes. vec_len bytes ≤ limit) }
    ensures failed { IsErrOf result ReadFault.Failed
        → Rose (S.faults source.old) (S.faults source.new) }
    ensures count { S.faults source.old ≤ S.faults source.new }
{
    let mut bytes = Vec::new(alloc);
    let mut piece = [0u8; 4096];
    loop {
        let count = source.read(&mut piece)?;
        if count == 0 {
            return Ok(bytes);
        }
        if count > limit - bytes.len() {
            return Err(ReadFault::TooLarge);
        }
        append(&mut bytes, &piece[..count])?;
    }
}

/// Adds a piece to the bytes that were read.
fn append(bytes: &mut Vec<u8>, piece: &[u8]) -> Result<(), NoMemory>
    ensures added { OnOk result (bytes.new.items ≡ bytes.old.items ++ piece.now) }
    ensures len { OnOk result (vec_len bytes.new ≡ vec_len bytes.old + length piece.now) }
{
    bytes.extend_from_slice(piece)?;
    Ok(())
}
