//! What an image holds, in words.
ghost use Rattle.std.specs.Prelude.{◌≡◌, ◌+◌, ◌∷◌, ℕ, List, Ok as Shown, IfOk, IfErr, OnOk, string_bytes};
ghost use Rattle.cam_recman.specs.Refuses.{Refuses as RefusesRecords};
ghost use Rattle.cam_recman.specs.Inspect.{inspect_from, inspect_text};
ghost use Rattle.cam_image.specs.Images.{inspected};
ghost use Rattle.cam_image.specs.Steps.{Refuses};

use crate::ImageFault;
use crate::reading::{is_checkpointed, open_ckpt, read_log};
use crate::version::{FIRST_VERSION, version_behind};
use crate::words::write_entry;
use cam_log::{Entries, EntryLog};
use cam_recman::{RecFault, decode_entry};
use std::alloc::Global;

/// Appends the entry of this number, before which the format has this version, and makes it the version after the entry.
#[tactic(auto, unfolding(cam_recman::specs::Inspect::inspect_from))]
fn add_entry(
    alloc: Global,
    number: u64,
    entry: &[u8],
    version: &mut u8,
    text: &mut String,
) -> Result<(), RecFault>
    ensures shown { OnOk result ((entries : List (List ℕ))
        → inspect_from number version.old (string_bytes text.old) (entry.now ∷ entries)
        ≡ inspect_from (number + 1) version.new (string_bytes text.new) entries) }
    ensures refused { IfErr result (λ fault. (entries : List (List ℕ)) → RefusesRecords fault
        (inspect_from number version.old (string_bytes text.old) (entry.now ∷ entries))) }
{
    let records = decode_entry(alloc, number, entry, *version)?;
    write_entry(alloc, number, records.as_slice(), text)?;
    *version = version_behind(*version, records.as_slice());
    Ok(())
}

/// The records of the entries of a log, in words: each entry with its number, and a line for each of its records.
///
/// `BadRecord` comes as that of [`cam_recman::recover`], and `NoMemory` if memory runs out.
pub fn inspect_text(alloc: Global, entries: &Entries) -> Result<String, RecFault>
    ensures shown { IfOk result (λ text. inspect_text entries.now ≡ Shown (string_bytes text)) }
    ensures refused { IfErr result (λ fault. RefusesRecords fault (inspect_text entries.now)) }
{
    let mut text = String::new(alloc);
    let mut version = FIRST_VERSION;
    for (number, entry) in entries.as_slice().iter().enumerate() {
        add_entry(
            alloc,
            number as u64,
            entry.as_slice(),
            &mut version,
            &mut text,
        )?;
    }
    Ok(text)
}

/// The records of the image of a log, or of a log with checkpoints, in words.
///
/// `NotALog` names the first place at which the image is none, and `BadRecord` the first entry that is no list of records, with the
/// place of its first fault. An image of more than [`crate::MOST_BYTES`] is none from that place on. `NoMemory`: memory ran out.
#[tactic(auto, unfolding(crate::specs::Images::inspected))]
pub fn inspect_image(alloc: Global, image: &[u8]) -> Result<String, ImageFault>
    ensures shown { IfOk result (λ text. inspected image.now ≡ Shown (string_bytes text)) }
    ensures refused { IfErr result (λ fault. Refuses fault (inspected image.now)) }
{
    if is_checkpointed(image) {
        let log = open_ckpt(alloc, image)?;
        Ok(inspect_text(alloc, log.entries())?)
    } else {
        let found = read_log(alloc, image)?;
        Ok(inspect_text(alloc, &found.entries)?)
    }
}
