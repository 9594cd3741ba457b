//! The sign of an event.
ghost use Rattle.std.specs.Prelude.{◌≡◌, reverse};
ghost use Rattle.cam_diagram.specs.Picture.{deed_sign, note_sign, sign, sign_word, sign_shape};

use crate::Sign;
use cam_event::{Deed, Event, Note};

/// The sign of a note alone.
fn note_sign(note: &Note) -> Sign
    ensures { result ≡ note_sign note.now }
{
    match note {
        Note::Plain | Note::Voted => Sign::Plain,
        Note::Preparing(_) => Sign::Asking,
        Note::Stopped(..) => Sign::Stop,
        Note::Missed | Note::Again | Note::Ended | Note::Late => Sign::Idle,
    }
}

/// The sign with one deed more: a decision shows, unless an orphan is stopped; a crash always does.
fn deed_sign(sign: Sign, deed: &Deed) -> Sign
    ensures { result ≡ deed_sign sign deed.now }
{
    match deed {
        Deed::Crash { .. } => Sign::Restart,
        Deed::Commit { .. } => match sign {
            Sign::Stop => Sign::Stop,
            _ => Sign::Commit,
        },
        Deed::Abort { .. } => match sign {
            Sign::Stop => Sign::Stop,
            _ => Sign::Abort,
        },
        _ => sign,
    }
}

/// The sign of an event, by its note and its deeds.
pub fn sign_of(event: &Event) -> Sign
    ensures { result ≡ sign event.now }
{
    let mut sign = note_sign(&event.note);
    for deed in event.deeds.as_slice() {
        sign = deed_sign(sign, deed);
    }
    sign
}

/// The class of a sign.
#[tactic(auto, unfolding(crate::specs::Picture::sign_word))]
pub(crate) fn sign_word(sign: Sign) -> &'static str
    ensures { result.now ≡ sign_word sign }
{
    match sign {
        Sign::Plain => "plain",
        Sign::Idle => "idle",
        Sign::Asking => "asking",
        Sign::Commit => "commit",
        Sign::Abort => "abort",
        Sign::Stop => "stop",
        Sign::Restart => "restart",
    }
}

/// The outline of a sign, about the place of its event.
#[tactic(auto, unfolding(crate::specs::Picture::sign_shape))]
pub(crate) fn sign_shape(sign: Sign) -> &'static str
    ensures { result.now ≡ sign_shape sign }
{
    match sign {
        Sign::Plain | Sign::Idle | Sign::Asking => "M-10 0a10 10 0 1 0 20 0a10 10 0 1 0 -20 0z",
        Sign::Commit => {
            "M-10 0a10 10 0 1 0 20 0a10 10 0 1 0 -20 0zM-13 0a13 13 0 1 0 26 0a13 13 0 1 0 -26 0z"
        }
        Sign::Abort => "M0 -14L14 0L0 14L-14 0z",
        Sign::Stop => "M-5 -12H5L12 -5V5L5 12H-5L-12 5V-5z",
        Sign::Restart => "M-13 -6h26v14h-26zM-11 -9l22 -4M-11 -13l22 -4",
    }
}
