//! The image of a log, brought to version 2.
ghost use Rattle.std.specs.Prelude.{◌≡◌, ◌==◌, ◌++◌, ◌∷◌, ◌+◌, ◌<◌, ◌≤◌, length, take, if◌then◌else◌, Ok as Gives, IfOk, IfErr};
ghost use Rattle.cam_log.specs.Image.{appended};
ghost use Rattle.cam_recman.specs.Migrating.{version_entry};
ghost use Rattle.cam_image.specs.Images.{upgraded};
ghost use Rattle.cam_image.specs.Steps.{Refuses};

use crate::ImageFault;
use crate::reading::read_log;
use crate::version::{FIRST_VERSION, version_of};
use cam_base::NoMemory;
use cam_log::{OPEN, appended};
use cam_recman::{Record, Records, encode_entry};
use std::alloc::Global;

/// The bytes of an entry of a Version alone.
fn version_entry(alloc: Global) -> Result<Vec<u8>, NoMemory>
    ensures { IfOk result (λ bytes. bytes.items ≡ version_entry) }
{
    let mut records = Records::new(alloc);
    records.push(Record::Version)?;
    encode_entry(alloc, &records)
}

/// The image up to its closed gate, which stands at this place; and after version 1 with an entry of a Version alone in place of
/// the gate, and a new one after it.
fn in_version2(alloc: Global, image: &[u8], gate: usize, version: u8) -> Result<Vec<u8>, NoMemory>
    requires { gate < length image.now }
    ensures { IfOk result (λ bytes. bytes.items ≡ (if version == 1
        then take gate image.now ++ 1 ∷ appended version_entry
        else take (gate + 1) image.now)) }
{
    if version != FIRST_VERSION {
        return Ok(image[..=gate].to_vec(alloc)?);
    }
    let entry = version_entry(alloc)?;
    let mut bytes = image[..gate].to_vec(alloc)?;
    bytes.push(OPEN)?;
    bytes.extend_from_slice(&appended(alloc, &entry)?)?;
    Ok(bytes)
}

/// The image of a log, in version 2. One that is of version 2 already is left as it is, up to its closed gate; to one of version 1 an entry
/// of a Version alone is added.
///
/// `NotALog` and `BadRecord` come as those of [`crate::inspect_image`], but that of a log with checkpoints the fourth byte is wrong.
/// `NoMemory`: memory ran out.
#[tactic(auto, unfolding(crate::specs::Images::upgraded))]
pub fn upgrade_image(alloc: Global, image: &[u8]) -> Result<Vec<u8>, ImageFault>
    ensures upgraded { IfOk result (λ bytes. upgraded image.now ≡ Gives bytes.items) }
    ensures refused { IfErr result (λ fault. Refuses fault (upgraded image.now)) }
{
    let found = read_log(alloc, image)?;
    let version = version_of(alloc, &found.entries)?;
    Ok(in_version2(alloc, image, found.gate as usize, version)?)
}
