//! Numbers as text.
ghost use Rattle.std.specs.Prelude.{◌≡◌, ◌++◌, OnOk, decimal, string_bytes};
ghost use Rattle.std.specs.Fmt.{signed_decimal};

use cam_base::NoMemory;
use std::fmt::Write;

/// Appends a number in decimal.
pub fn push_number(out: &mut String, number: u64) -> Result<(), NoMemory>
    ensures { OnOk result (string_bytes out.new ≡ string_bytes out.old ++ decimal number) }
{
    Ok(write!(out, "{number}")?)
}

/// Appends a value in decimal.
pub fn push_value(out: &mut String, value: i64) -> Result<(), NoMemory>
    ensures { OnOk result (string_bytes out.new ≡ string_bytes out.old ++ signed_decimal value) }
{
    Ok(write!(out, "{value}")?)
}
