//! The digest of a report.

ghost use Rattle.std.specs.Prelude.{◌≡◌, IfOk, string_bytes};
ghost use Rattle.cam_gen.specs.Digest.{digest_text};

use cam_base::NoMemory;
use sha2::{Digest, Sha256};
use std::alloc::Global;

/// The SHA-256 of a report, as FIPS 180-4 has it, in 64 lower-case hexadecimal digits.
pub fn digest_text(alloc: Global, report: &[u8]) -> Result<String, NoMemory>
    ensures { IfOk result (λ text. string_bytes text ≡ digest_text report.now) }
{
    let digest = Sha256::digest(report);
    Ok(hex::encode(alloc, digest.as_slice())?)
}
