//! The letters of an event, numbered after those of the events before.
ghost use Rattle.std.specs.Prelude.{◌≡◌, ◌++◌, OnOk};
ghost use Rattle.cam_timed.specs.Machine.{posted, posted_at};
ghost use Rattle.cam_timed.specs.Travelling.{brings_aborts};

use super::Letter;
use cam_base::{NoMemory, Sequence};
use cam_event::{Body, LetterId, Sent};
use cam_own::Mail;

/// What the letters of an event have in common: its number, its node, the node's moment, and of how
/// many commits and aborts the node was informed at its end.
#[derive(Clone, Copy)]
pub(crate) struct Sender {
    pub(crate) event: u64,
    pub(crate) node: u8,
    pub(crate) moment: u64,
    pub(crate) commits: usize,
    pub(crate) aborts: usize,
}

/// Whether a letter that says this brings aborts.
fn brings_aborts(body: &Body) -> bool
    ensures { result ≡ brings_aborts body.now }
{
    matches!(
        body,
        Body::Finish { .. } | Body::Prepare { .. } | Body::News
    )
}

/// The letter at a place of its event.
fn letter_of(sender: &Sender, place: u32, sent: &Sent) -> Letter
    ensures { result ≡ posted_at sender.now place sent.now }
{
    Letter {
        id: LetterId {
            event: sender.event,
            place,
        },
        mail: Mail {
            from: sender.node,
            to: sent.to,
            body: sent.body,
        },
        moment: sender.moment,
        commits: sender.commits,
        aborts: if brings_aborts(&sent.body) {
            sender.aborts
        } else {
            0
        },
    }
}

/// Adds the letters of an event. No memory holds so many that a place is out of its range.
pub(crate) fn post(
    letters: &mut Sequence<Letter>,
    sender: &Sender,
    sent: &[Sent],
) -> Result<(), NoMemory>
    ensures { OnOk result (letters.new ≡ letters.old ++ posted sender.now 0 sent.now) }
{
    let mut place = 0;
    for one in sent {
        letters.push_copy(&letter_of(sender, place, one))?;
        if place == u32::MAX {
            return Err(NoMemory);
        }
        place += 1;
    }
    Ok(())
}
