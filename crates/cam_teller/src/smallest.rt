//! The smallest script whose report still has a line.
use crate::told::{Status, Told};
use cam_base::NoMemory;
use cam_whatif::shrink_text;
use std::alloc::Global;

/// What is told where the report does not have the line.
fn not_there(alloc: Global, file: &str, line: &str) -> Result<Told, NoMemory> {
    let mut text = String::new(alloc);
    text.push_str(file)?;
    text.push_str(": the report of `camelot run` has no line '")?;
    text.push_str(line)?;
    text.push_str("'.\n")?;
    Ok(Told {
        text,
        status: Status::Finding,
    })
}

/// The smallest script, by taking lines away, whose report still has a line. That its own report
/// does not have it is a finding.
pub(crate) fn shrunk(
    alloc: Global,
    file: &str,
    bytes: &[u8],
    line: &str,
) -> Result<Told, NoMemory> {
    match shrink_text(alloc, bytes, line.as_bytes())? {
        Some(script) => Ok(Told {
            text: String::from_utf8_lossy(alloc, &script)?,
            status: Status::Fine,
        }),
        None => not_there(alloc, file, line),
    }
}
