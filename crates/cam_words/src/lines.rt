//! The lines of a text, and the bytes that it may have.
ghost use Rattle.std.specs.Prelude.{◌≡◌, ◌≤◌, ◌<◌, ◌+◌, ◌∷◌, length, IfSome};
ghost use Rattle.cam_words.specs.Lines.{is_allowed, bad_byte, lines_of};
ghost use Rattle.cam_words.specs.FirstLine.{line_len, without_cr};

/// The first line of a text, and what comes after it.
pub fn first_line(text: &[u8]) -> (&[u8], &[u8])
    requires { 0 < length text.now }
    ensures value { lines_of text.now ≡ result.0.now ∷ lines_of result.1.now }
    ensures line { length result.0.now ≤ length text.now }
    ensures rest { length result.1.now < length text.now }
{
    let end = line_len(text);
    if end == text.len() {
        return (text, &[]);
    }
    (without_cr(&text[..end]), &text[end + 1..])
}

fn line_len(text: &[u8]) -> usize
    ensures value { result ≡ line_len text.now }
    ensures within { result ≤ length text.now }
{
    for (i, byte) in text.iter().enumerate() {
        if *byte == b'\n' {
            return i;
        }
    }
    text.len()
}

/// A line without a CR at its end.
#[tactic(auto, using(crate::proofs::FirstLine::cr_dropped, crate::proofs::FirstLine::cr_kept, crate::proofs::FirstLine::cr_of_none))]
fn without_cr(line: &[u8]) -> &[u8]
    ensures value { result.now ≡ without_cr line.now }
    ensures within { length result.now ≤ length line.now }
{
    match line.split_last() {
        None => line,
        Some((last, front)) => { if *last == b'\r' { front } else { line } }
    }
}

/// The first place of a byte that is not allowed.
pub fn bad_byte(line: &[u8]) -> Option<usize>
    ensures value { result ≡ bad_byte 0 line.now }
    ensures within { IfSome result (λ at. at < length line.now) }
{
    for (i, byte) in line.iter().enumerate() {
        if !is_allowed(*byte) {
            return Some(i);
        }
    }
    None
}

fn is_allowed(byte: u8) -> bool
    ensures { result ≡ is_allowed byte }
{
    byte == b'\t' || (byte == b'\n' || (byte == b'\r' || (b' ' <= byte && byte <= b'~')))
}
