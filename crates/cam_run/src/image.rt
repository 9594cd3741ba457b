//! The answer to the image of a log that a source gives: what it holds in words, or the same log in version 2.
ghost use Rattle.std.specs.Prelude.{◌≡◌, ◌⊎◌, [], IfOk, IfErr, Ok as Makes, string_bytes};
ghost use Rattle.cam_base.specs.Causes.{Rose};
ghost use Rattle.cam_base.specs.Told.{IfTold};
ghost use Rattle.cam_image.specs.Steps.{Refuses};
ghost use Rattle.cam_run.specs.declared.status.Status.TheVariants as statuses;
ghost use Rattle.cam_run.specs.Status.{number};
ghost use Rattle.cam_run.specs.Told.{IsTelling};
ghost use Rattle.cam_run.specs.Answer.{IsOfFault};
ghost use Rattle.cam_run.specs.Image.{IsOfImage, IsRefusedImage, made, no_log_text, no_record_text};

use crate::answer::{Answer, read_fault};
use crate::status::Status;
use cam_base::NoMemory;
use cam_image::{ImageFault, MOST_BYTES, inspect_image, upgrade_image};
use cam_io::{ReadFault, Source, read_all};
use std::alloc::Global;

/// What is made of the image of a log.
#[derive(Clone, Copy, Debug)]
pub(crate) enum Making {
    /// Its records, in words.
    Text,
    /// The image of the same log in version 2.
    Version2,
}

impl Making {
    /// What is made of this image.
    fn make(self, alloc: Global, image: &[u8]) -> Result<Vec<u8>, ImageFault>
        ensures made { IfOk result (λ bytes. made self image.now ≡ Makes bytes.items) }
        ensures refused { IfErr result (λ fault. Refuses fault (made self image.now)) }
    {
        match self {
            Making::Text => Ok(inspect_image(alloc, image)?.into_bytes()),
            Making::Version2 => upgrade_image(alloc, image),
        }
    }
}

/// The answer by the image that the source gives.
pub(crate) fn of_image<S: Source>(
    alloc: Global,
    making: Making,
    source: &mut S,
) -> Result<Answer, NoMemory>
    ensures answer { IfTold (S.left source.old) (S.left source.new) (λ input _.
        IfOk result (λ a. (Rose (S.faults source.old) (S.faults source.new)
        × IsOfFault (number a.status) a.text.items)
        ⊎ IsOfImage (made making input) (number a.status) a.text.items)) }
    ensures statuses { IfOk result
        (λ a. IsTelling a.status
        ⊎ ((a.status ≡ statuses.Refused) ⊎ (a.status ≡ statuses.ReadFault))) }
    ensures read_fault { IfOk result
        (λ a. a.status ≡ statuses.ReadFault → Rose (S.faults source.old) (S.faults source.new)) }
    ensures read { IfTold (S.left source.old) (S.left source.new)
        (λ _ rest. IfOk result (λ a. IsTelling a.status → rest ≡ [])) }
{
    match read_all(alloc, source, MOST_BYTES) {
        Ok(image) => of_bytes(alloc, making, &image),
        Err(ReadFault::TooLarge) => refusal(alloc, ImageFault::NotALog(MOST_BYTES as u64)),
        Err(ReadFault::Failed) => read_fault(alloc),
        Err(ReadFault::NoMemory) => Err(NoMemory),
    }
}

/// The answer by an image.
fn of_bytes(alloc: Global, making: Making, image: &[u8]) -> Result<Answer, NoMemory>
    ensures answer { IfOk result
        (λ a. IsOfImage (made making image.now) (number a.status) a.text.items) }
    ensures statuses { IfOk result
        (λ a. IsTelling a.status ⊎ (a.status ≡ statuses.Refused)) }
{
    match making.make(alloc, image) {
        Ok(text) => Ok(Answer {
            status: Status::Done,
            text,
        }),
        Err(fault) => refusal(alloc, fault),
    }
}

/// The line of an image that is no log from this place on.
fn no_log_line(alloc: Global, at: u64) -> Result<String, NoMemory>
    ensures { IfOk result (λ text. string_bytes text ≡ no_log_text at) }
{
    Ok(format!(in alloc; "refused log {at}\n")?)
}

/// The line of an entry that is no list of records from this place on.
fn no_record_line(alloc: Global, entry: u64, at: u64) -> Result<String, NoMemory>
    ensures { IfOk result (λ text. string_bytes text ≡ no_record_text entry at) }
{
    Ok(format!(in alloc; "refused record {entry} {at}\n")?)
}

/// The answer to an image with this first fault.
fn refusal(alloc: Global, fault: ImageFault) -> Result<Answer, NoMemory>
    ensures answer { IfOk result
        (λ a. IsRefusedImage fault (number a.status) a.text.items) }
    ensures status { IfOk result (λ a. a.status ≡ statuses.Refused) }
{
    match fault {
        ImageFault::NotALog(at) => Ok(Answer {
            status: Status::Refused,
            text: no_log_line(alloc, at)?.into_bytes(),
        }),
        ImageFault::BadRecord { entry, at } => Ok(Answer {
            status: Status::Refused,
            text: no_record_line(alloc, entry, at)?.into_bytes(),
        }),
        ImageFault::NoMemory => Err(NoMemory),
    }
}
