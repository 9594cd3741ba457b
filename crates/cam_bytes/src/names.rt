// Names of actions: the number of parts, then each part.
ghost use Rattle.std.specs.Prelude.{◌≡◌, ◌+◌, ◌<◌, ◌≤◌, ◌++◌, length, IfOk, OnOk};
ghost use Rattle.cam_bytes.specs.Fields.{part as bytes_of_part, name as bytes_of_name};
ghost use Rattle.cam_bytes.specs.Ranges.{IsPartInRange, IsName, IsFamily};
ghost use Rattle.cam_bytes.specs.Reading.{part_at, parts_from, name_in, name_at, family_at};

use crate::WireFault;
use crate::numbers::{byte_in, number_in, write_byte, write_number};
use cam_base::NoMemory;
use cam_names::{Name, Part};

/// A part at a place, and the place after it.
#[tactic(auto, unfolding(crate::specs::Reading::part_at))]
fn part_at(bytes: &[u8], at: usize) -> Result<(Part, usize), WireFault>
    requires { at ≤ length bytes.now }
    ensures value { result ≡ part_at at bytes.now }
    ensures end { IfOk result (λ read. (at < read.1) × (read.1 ≤ length bytes.now)) }
{
    let (node, at) = byte_in(bytes, at, 1, 8)?;
    let (count, at) = number_in(bytes, at, 1, Part::LAST)?;
    let (number, at) = number_in(bytes, at, 1, Part::LAST)?;
    let part = Part::new(node, count, number).unwrap();
    Ok((part, at))
}

/// The name with so many more parts after it, and the place after it.
#[tactic(auto, unfolding(crate::specs::Reading::parts_from))]
fn parts_from(bytes: &[u8], at: usize, left: u8, name: Name) -> Result<(Name, usize), WireFault>
    requires place { at ≤ length bytes.now }
    requires room { left + length name ≤ 8 }
    ensures value { result ≡ parts_from left name at bytes.now }
    ensures end { IfOk result (λ read. (at ≤ read.1) × (read.1 ≤ length bytes.now)) }
{
    if left == 0 {
        return Ok((name, at));
    }
    let (part, at) = part_at(bytes, at)?;
    let longer = name.child(part).unwrap();
    parts_from(bytes, at, left - 1, longer)
}

/// A name of at most so many parts at a place, and the place after it.
#[tactic(auto, unfolding(crate::specs::Reading::name_in))]
fn name_in(bytes: &[u8], at: usize, most: u8) -> Result<(Name, usize), WireFault>
    requires place { at ≤ length bytes.now }
    requires most { most ≤ 8 }
    ensures value { result ≡ name_in most at bytes.now }
    ensures end { IfOk result (λ read. (at < read.1) × (read.1 ≤ length bytes.now)) }
{
    let (parts, at) = byte_in(bytes, at, 1, most)?;
    let (part, at) = part_at(bytes, at)?;
    parts_from(bytes, at, parts - 1, Name::top(part))
}

/// A name at a place, and the place after it. `Short` if a field of it is not whole; `BadNumber` at the first byte of the field that is
/// out of its range, which may be the number of parts.
pub fn name_at(bytes: &[u8], at: usize) -> Result<(Name, usize), WireFault>
    requires { at ≤ length bytes.now }
    ensures value { result ≡ name_at at bytes.now }
    ensures end { IfOk result (λ read. (at < read.1) × (read.1 ≤ length bytes.now)) }
{
    name_in(bytes, at, 8)
}

/// The name of a family, which has one part, at a place, and the place after it. `Short`, or `BadNumber`, as `name_at`; another number of
/// parts than 1 is `BadNumber` at its byte.
pub fn family_at(bytes: &[u8], at: usize) -> Result<(Name, usize), WireFault>
    requires { at ≤ length bytes.now }
    ensures value { result ≡ family_at at bytes.now }
    ensures end { IfOk result (λ read. (at < read.1) × (read.1 ≤ length bytes.now)) }
{
    name_in(bytes, at, 1)
}

/// A part, appended to what was written.
fn write_part(out: Vec<u8>, part: &Part) -> Result<Vec<u8>, NoMemory>
    ensures ok { IfOk result (λ text. text.items ≡ out.items ++ bytes_of_part part.now) }
    ensures range { OnOk result (IsPartInRange part.now) }
{
    let out = write_byte(out, part.node)?;
    let out = write_number(out, part.count)?;
    write_number(out, part.number)
}

/// A name, appended to what was written. Fails only if memory runs out.
pub fn write_name(out: Vec<u8>, name: &Name) -> Result<Vec<u8>, NoMemory>
    ensures ok { IfOk result (λ text. text.items ≡ out.items ++ bytes_of_name name.now) }
    ensures range { OnOk result (IsName name.now) }
{
    let mut out = write_byte(out, name.depth() as u8)?;
    for part in name.parts() {
        out = write_part(out, part)?;
    }
    Ok(out)
}

/// The name of a family, appended to what was written. It requires that the name has one part. Fails only if memory runs out.
pub fn write_family(out: Vec<u8>, family: &Name) -> Result<Vec<u8>, NoMemory>
    requires { length family.now ≡ 1 }
    ensures ok { IfOk result (λ text. text.items ≡ out.items ++ bytes_of_name family.now) }
    ensures range { OnOk result (IsFamily family.now) }
{
    write_name(out, family)
}
