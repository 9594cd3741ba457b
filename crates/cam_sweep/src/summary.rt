//! The ends of many runs in words.
use crate::tallying::Tallied;
use crate::variant::Variants;
use cam_base::NoMemory;
use cam_scope::push_number;
use std::alloc::Global;

/// Appends a number of things.
fn write_count(count: usize, thing: &str, out: &mut String) -> Result<(), NoMemory> {
    push_number(out, count as u64)?;
    out.push_str(" ")?;
    out.push_str(thing)?;
    if count != 1 {
        out.push_str("s")?;
    }
    Ok(())
}

/// How many runs lead to each end, and the first run that does. A run is called a thing of this
/// name.
pub fn summary_text(
    alloc: Global,
    thing: &str,
    variants: &Variants,
    ends: &[String],
    tallied: &[Tallied],
) -> Result<String, NoMemory> {
    let mut out = String::new(alloc);
    write_count(variants.len(), thing, &mut out)?;
    out.push_str(", ")?;
    write_count(tallied.len(), "end", &mut out)?;
    out.push_str(".\n")?;
    for (number, led) in tallied.iter().enumerate() {
        out.push_str("\nEnd ")?;
        push_number(&mut out, number as u64 + 1)?;
        out.push_str(": ")?;
        write_count(led.runs, thing, &mut out)?;
        if let Some(first) = variants.get(led.first) {
            out.push_str(if led.runs == 1 { ": " } else { ", the first: " })?;
            out.push_str(first.made.as_str())?;
        }
        out.push_str("\n")?;
        if let Some(end) = ends.get(led.first) {
            out.push_str(end.as_str())?;
        }
    }
    Ok(out)
}
