//! Up to where each node is known to have been informed of the outcomes of which another was
//! informed: so each outcome costs each pair of nodes once, however many letters bring it.
ghost use Rattle.std.specs.Prelude.{◌≡◌, ◌≤◌, length, min, slice_range, OnOk};
ghost use Rattle.cam_timed.specs.Reaches.{Hears, raised, reach_in};

use super::Letter;
use cam_base::NoMemory;
use cam_names::Name;
use std::collections::HashMap;

/// From which node to which.
#[derive(Clone, Copy, PartialEq, Eq, Hash)]
pub(crate) struct Road {
    from: u8,
    to: u8,
}

/// How many commits and how many aborts, in the order in which their sender was informed of them.
#[derive(Clone, Copy)]
pub(crate) struct Reach {
    pub(crate) commits: usize,
    pub(crate) aborts: usize,
}

/// Of no outcome.
const NOWHERE: Reach = Reach {
    commits: 0,
    aborts: 0,
};

/// Up to where each node was informed of what each other was informed of.
pub(crate) type Heard = HashMap<Road, Reach>;

/// Up to where a node was informed of what another was informed of.
pub(crate) fn reach_in(heard: &Heard, from: u8, to: u8) -> Reach
    ensures { result ≡ reach_in heard.now from to }
{
    match heard.get(&Road { from, to }) {
        Some(reach) => *reach,
        None => NOWHERE,
    }
}

/// As far as before, and as the letter.
fn raised(old: &Reach, letter: &Letter) -> Reach
    ensures { result ≡ raised letter.now old.now }
{
    Reach {
        commits: old.commits.max(letter.commits),
        aborts: old.aborts.max(letter.aborts),
    }
}

/// A node has received a letter, if one has come: it was informed of all that the letter brought.
pub(crate) fn hear(heard: &mut Heard, to: u8, letter: &Option<Letter>) -> Result<(), NoMemory>
    ensures { OnOk result (Hears to letter.now heard.old heard.new) }
{
    let Some(letter) = letter else {
        return Ok(());
    };
    let from = letter.mail.from;
    let reach = raised(&reach_in(heard, from, to), letter);
    heard.insert(Road { from, to }, reach)?;
    Ok(())
}

/// Those of the first so many names that stand after the heard ones.
pub(crate) fn unheard(names: &[Name], heard: usize, brought: usize) -> &[Name]
    requires { brought ≤ length names.now }
    ensures { result.now ≡ slice_range names.now (min heard brought) brought }
{
    &names[heard.min(brought)..brought]
}
