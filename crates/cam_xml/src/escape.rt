//! How a byte stands in text.
ghost use Rattle.std.specs.Prelude.{◌≡◌, ◌++◌, OnOk, string_bytes};
ghost use Rattle.cam_xml.specs.WellFormed.{escaped_byte};

use cam_base::NoMemory;

/// Appends a byte of a text: as it is, or by a reference.
pub(crate) fn push_byte(byte: u8, out: &mut String) -> Result<(), NoMemory>
    ensures { OnOk result (string_bytes out.new ≡ string_bytes out.old ++ escaped_byte byte) }
{
    match byte {
        b'<' => out.push_str("&lt;")?,
        b'>' => out.push_str("&gt;")?,
        b'&' => out.push_str("&amp;")?,
        b'"' => out.push_str("&quot;")?,
        b'\'' => out.push_str("&apos;")?,
        b'\n' | b' '..=b'~' => out.push(byte as char)?,
        _ => out.push_str("&#xFFFD;")?,
    }
    Ok(())
}
