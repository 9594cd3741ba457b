//! How an image is read.
ghost use Rattle.std.specs.Prelude.{◌≡◌, ◌≤◌, length, Ok as Reads, IfOk, IfErr};
ghost use Rattle.cam_log.specs.Faults.{Refuses as RefusesLog};
ghost use Rattle.cam_log.specs.Image.{gate_place};
ghost use Rattle.cam_log.specs.Reading.{read_log as log_of};
ghost use Rattle.cam_ckpt.specs.Reading.{read_ckpt};
ghost use Rattle.cam_image.specs.Images.{ckpt_entries, is_checkpointed, log_entries};
ghost use Rattle.cam_image.specs.Steps.{Refuses};

use crate::ImageFault;
use cam_ckpt::Ckpt;
use cam_disk::{Disk, DiskError, MemoryDisk};
use cam_log::{EntryLog, Found, LogFault, header_from, read_from};
use std::alloc::Global;

/// The most bytes of an image.
pub const MOST_BYTES: usize = 262_144;

/// The first bytes of each log.
const HEADER: [u8; 8] = *b"CAMELOT\n";

/// Whether the fourth byte is that of a log with checkpoints.
pub(crate) fn is_checkpointed(image: &[u8]) -> bool
    ensures { result ≡ is_checkpointed image.now }
{
    image.len() > 3 && image[3] == b'C'
}

/// The entries of a log, with the place of the closed gate after them.
#[tactic(auto, unfolding(cam_log::specs::Reading::read_log))]
fn found_in(alloc: Global, bytes: &[u8]) -> Result<Found, LogFault>
    ensures read { IfOk result (λ found. log_of bytes.now ≡ Reads found.entries) }
    ensures refused { IfErr result (λ fault. RefusesLog fault (log_of bytes.now)) }
    ensures gate { IfOk result (λ found. found.gate ≡ gate_place found.entries) }
    ensures within { IfOk result (λ found. found.gate ≤ length bytes.now) }
{
    let at = header_from(&HEADER, bytes, 0)?;
    read_from(alloc, bytes, at)
}

/// The entries of the image of a log, with the place of the closed gate after them.
pub(crate) fn read_log(alloc: Global, image: &[u8]) -> Result<Found, ImageFault>
    ensures read { IfOk result (λ found. log_entries image.now ≡ Reads found.entries) }
    ensures refused { IfErr result (λ fault. Refuses fault (log_entries image.now)) }
    ensures log { IfOk result (λ found. log_of image.now ≡ Reads found.entries) }
    ensures gate { IfOk result (λ found. found.gate ≡ gate_place found.entries) }
    ensures within { IfOk result (λ found. found.gate ≤ length image.now) }
{
    if image.len() > MOST_BYTES {
        return Err(ImageFault::NotALog(MOST_BYTES as u64));
    }
    Ok(found_in(alloc, image)?)
}

/// A disk in memory that holds these bytes.
fn disk_of(alloc: Global, bytes: &[u8]) -> Result<MemoryDisk, DiskError>
    ensures { IfOk result (λ disk. ⟦<MemoryDisk as Disk>⟧.seen disk ≡ bytes.now) }
{
    let mut disk = MemoryDisk::new(alloc);
    disk.write_at(0, bytes)?;
    Ok(disk)
}

/// The log of these bytes, a log with checkpoints.
fn opened_in(alloc: Global, bytes: &[u8]) -> Result<Ckpt<MemoryDisk>, LogFault>
    ensures read { IfOk result
        (λ log. read_ckpt bytes.now ≡ Reads (⟦<Ckpt<MemoryDisk> as EntryLog>⟧.listed log)) }
    ensures refused { IfErr result (λ fault. RefusesLog fault (read_ckpt bytes.now)) }
{
    match Ckpt::open(alloc, disk_of(alloc, bytes)?) {
        Ok(log) => Ok(log),
        Err(refused) => Err(refused.fault),
    }
}

/// The log of the image of a log with checkpoints.
pub(crate) fn open_ckpt(alloc: Global, image: &[u8]) -> Result<Ckpt<MemoryDisk>, ImageFault>
    ensures read { IfOk result
        (λ log. ckpt_entries image.now ≡ Reads (⟦<Ckpt<MemoryDisk> as EntryLog>⟧.listed log)) }
    ensures refused { IfErr result (λ fault. Refuses fault (ckpt_entries image.now)) }
{
    if image.len() > MOST_BYTES {
        return Err(ImageFault::NotALog(MOST_BYTES as u64));
    }
    Ok(opened_in(alloc, image)?)
}
