// How large a disk may be.
ghost use Rattle.std.specs.Prelude.{◌↔◌, ◌+◌, ◌≤◌, ◌^◌, length, IsTrue};

/// The most bytes of a disk.
pub const LIMIT: u64 = 1 << 62;

/// Whether a disk may reach as far as this write would.
pub fn fits(at: u64, bytes: &[u8]) -> bool
    ensures { IsTrue result ↔ (at + length bytes.now ≤ 2 ^ 62) }
{
    at <= LIMIT && bytes.len() as u64 <= LIMIT - at
}
