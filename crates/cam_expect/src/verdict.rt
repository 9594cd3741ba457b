//! Findings as text.
use crate::findings::{Finding, Findings};
use cam_base::NoMemory;
use cam_scope::push_number;
use std::alloc::Global;

/// Appends a finding: the file, the line, what was expected and what was found.
fn write_finding(file: &str, finding: &Finding, out: &mut String) -> Result<(), NoMemory> {
    out.push_str(file)?;
    out.push_str(":")?;
    push_number(out, u64::from(finding.line))?;
    match &finding.expected {
        Some(expected) => {
            out.push_str(": expected `")?;
            out.push_str(expected.as_str())?;
            out.push_str("`, found ")?;
        }
        None => out.push_str(": nothing expects that this line is refused, found ")?,
    }
    match &finding.found {
        Some(found) => {
            out.push_str("`")?;
            out.push_str(found.as_str())?;
            Ok(out.push_str("`\n")?)
        }
        None => Ok(out.push_str("nothing like it\n")?),
    }
}

/// The findings of a file as text, a line each.
pub fn findings_text(alloc: Global, file: &str, findings: &Findings) -> Result<String, NoMemory> {
    let mut text = String::new(alloc);
    for finding in findings.as_slice() {
        write_finding(file, finding, &mut text)?;
    }
    Ok(text)
}
