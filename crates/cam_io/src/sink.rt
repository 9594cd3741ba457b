//! Sinks of bytes, and how a whole text is written.
ghost use Rattle.std.specs.Prelude.{◌≡◌, ◌≤◌, ◌<◌, ◌++◌, ℕ, List, Option, length, take, IfOk, OnOk, MatchResult};
ghost use Rattle.cam_base.specs.Told.{IfTold};
ghost use Rattle.cam_base.specs.Causes.{HasCause};

use crate::fault::Failed;

/// A sink of bytes.
pub trait Sink {
    /// The bytes that were written, if contracts see them.
    ghost written: { Self → Option (List ℕ) };

    /// How often the sink has failed.
    ghost faults: { Self → ℕ };

    /// Takes the first bytes of the piece, and returns how many: at least one. A write that fails takes
    /// nothing.
    fn write(&mut self, piece: &[u8]) -> Result<usize, Failed>
        requires { 0 < length piece.now }
        ensures count { IfOk result (λ n. (1 ≤ n) × (n ≤ length piece.now)) }
        ensures bytes { IfTold (written self.old) (written self.new)
            (λ old new. MatchResult result (λ n. new ≡ old ++ take n piece.now) (λ _. new ≡ old)) }
        ensures cause { HasCause (faults self.old) (faults self.new) result };
}

/// Writes the whole text. It fails if a write fails, and then only the text before that was written.
/// It takes no memory.
pub fn write_all<K: Sink>(sink: &mut K, text: &[u8]) -> Result<(), Failed>
    ensures all { OnOk result (IfTold (K.written sink.old) (K.written sink.new)
        (λ old new. new ≡ old ++ text.now)) }
    ensures front { IfTold (K.written sink.old) (K.written sink.new)
        (λ old new. (n : ℕ) × (n ≤ length text.now) × (new ≡ old ++ take n text.now)) }
    ensures cause { HasCause (K.faults sink.old) (K.faults sink.new) result }
{
    let mut at = 0;
    while at < text.len() {
        at += sink.write(&text[at..])?;
    }
    Ok(())
}
