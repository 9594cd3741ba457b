//! Answers: a status and its text, as bytes.
ghost use Rattle.std.specs.Prelude.{◌≡◌, IfOk, string_bytes};
ghost use Rattle.cam_words.specs.Causes.{cause_number};
ghost use Rattle.cam_run.specs.declared.status.Status.TheVariants as statuses;
ghost use Rattle.cam_run.specs.Status.{number};
ghost use Rattle.cam_run.specs.Texts.{disk_fault_text, refused_text};
ghost use Rattle.cam_run.specs.Answer.{IsOfFault, IsOfWords};

use crate::status::Status;
use cam_base::NoMemory;
use cam_script::Cause;
use std::alloc::Global;

/// A status and its text, as bytes.
#[derive(Drop)]
pub(crate) struct Answer {
    pub(crate) status: Status,
    pub(crate) text: Vec<u8>,
}

/// The answer to words that are no form.
pub(crate) fn usage(alloc: Global) -> Result<Answer, NoMemory>
    ensures { IfOk result (λ a. IsOfWords (number a.status) a.text.items) }
{
    let text = format!(in alloc;
        "usage: camelot run | trace | witness NAME | gen SEED SIZE | storm SEED ACTIONS THREADS MODE | inspect | upgrade | why EVENT | timed\n"
    )?;
    Ok(Answer {
        status: Status::Usage,
        text: text.into_bytes(),
    })
}

/// The answer where the source failed.
pub(crate) fn read_fault(alloc: Global) -> Result<Answer, NoMemory>
    ensures { IfOk result (λ a. IsOfFault (number a.status) a.text.items) }
{
    let text = format!(in alloc; "read fault\n")?;
    Ok(Answer {
        status: Status::ReadFault,
        text: text.into_bytes(),
    })
}

/// The answer where the disk of a node failed by itself.
pub(crate) fn disk_fault(alloc: Global, node: u8) -> Result<Answer, NoMemory>
    ensures status { IfOk result (λ a. a.status ≡ statuses.DiskFault) }
    ensures text { IfOk result (λ a. a.text.items ≡ disk_fault_text node) }
{
    let text = format!(in alloc; "disk fault {node}\n")?;
    Ok(Answer {
        status: Status::DiskFault,
        text: text.into_bytes(),
    })
}

/// The line of a fault of a script: its place and its cause.
pub(crate) fn refused_line(
    alloc: Global,
    line: u32,
    column: u32,
    cause: Cause,
) -> Result<String, NoMemory>
    ensures { IfOk result
        (λ text. string_bytes text ≡ refused_text line column (cause_number cause)) }
{
    Ok(format!(in alloc; "refused {line} {column} S{}\n", cause.number())?)
}
