//! Which version of the format stands after entries.
ghost use Rattle.std.specs.Prelude.{◌≡◌, ◌+◌, ◌∷◌, ℕ, List, Ok as Says, IfOk, IfErr, OnOk};
ghost use Rattle.cam_recman.specs.Refuses.{Refuses};
ghost use Rattle.cam_recman.specs.Versions.{version_behind};
ghost use Rattle.cam_image.specs.Steps.{version_from};

use cam_log::Entries;
use cam_recman::{RecFault, Record, decode_entry};
use std::alloc::Global;

/// The version that a log begins with.
pub(crate) const FIRST_VERSION: u8 = 1;

/// The version after a Version.
const SECOND_VERSION: u8 = 2;

/// The version after records, before which the format has this one.
pub(crate) fn version_behind(mut version: u8, records: &[Record]) -> u8
    ensures { result ≡ version_behind version records.now }
{
    for one in records {
        if matches!(one, Record::Version) {
            version = SECOND_VERSION;
        }
    }
    version
}

/// The version after the entry of this number, before which the format has this one.
#[tactic(auto, unfolding(crate::specs::Steps::version_from))]
fn next_version(alloc: Global, number: u64, entry: &[u8], version: u8) -> Result<u8, RecFault>
    ensures next { IfOk result (λ next. (entries : List (List ℕ))
        → version_from number version (entry.now ∷ entries)
        ≡ version_from (number + 1) next entries) }
    ensures refused { IfErr result (λ fault. (entries : List (List ℕ))
        → Refuses fault (version_from number version (entry.now ∷ entries))) }
{
    let records = decode_entry(alloc, number, entry, version)?;
    Ok(version_behind(version, records.as_slice()))
}

/// The version after all entries of a log.
pub(crate) fn version_of(alloc: Global, entries: &Entries) -> Result<u8, RecFault>
    ensures read { IfOk result (λ version. version_from 0 1 entries.now ≡ Says version) }
    ensures refused { IfErr result (λ fault. Refuses fault (version_from 0 1 entries.now)) }
{
    let mut version = FIRST_VERSION;
    for (number, entry) in entries.as_slice().iter().enumerate() {
        version = next_version(alloc, number as u64, entry.as_slice(), version)?;
    }
    Ok(version)
}
