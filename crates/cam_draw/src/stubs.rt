//! The letters that no event received.
ghost use Rattle.std.specs.Prelude.{◌≡◌, IfOk, OnOk, ◌++◌, reverse};
ghost use Rattle.std.specs.Option.{option_copied};
ghost use Rattle.cam_draw.specs.Stubs.{above, fate_of, stub_of, stubs, with_letter};

use crate::light::Light;
use cam_base::NoMemory;
use cam_diagram::{Fate, Spot, Stub, Stubs, kind_at};
use cam_event::Trace;
use cam_scope::{NamedLetter, NamedLetters};
use std::alloc::Global;

/// What became of a letter that no event received; none where one did.
fn fate_of(letter: &NamedLetter) -> Option<Fate>
    ensures { result ≡ fate_of letter.now.fate }
{
    match letter.fate {
        cam_scope::Fate::Received => None,
        cam_scope::Fate::Waiting => Some(Fate::Waiting),
        cam_scope::Fate::Lost(_) => Some(Fate::Lost),
        cam_scope::Fate::MetHalt(_) => Some(Fate::MetHalt),
    }
}

/// How many stubs of an event are above the next one of it, by the stub before that.
fn above(before: Option<&Stub>, event: u64) -> u32
    ensures { result ≡ above (option_copied before.entry) event }
{
    match before {
        Some(stub) => {
            if stub.from.event == event {
                stub.above.saturating_add(1)
            } else {
                0
            }
        }
        None => 0,
    }
}

/// The stub of a letter that came to nothing so, below so many of the same event.
fn stub_of(trace: &Trace, light: &Light, letter: &NamedLetter, fate: Fate, above: u32) -> Stub
    ensures { result ≡ stub_of trace.now light.now letter.now fate above }
{
    Stub {
        letter: letter.id,
        kind: kind_at(trace, letter.id),
        from: Spot {
            node: letter.from,
            event: letter.id.event,
        },
        to: letter.to,
        fate,
        above,
        lit: light.are_stubs_lit(letter.id.event),
    }
}

/// Adds the stub of a letter, if no event received it.
fn add_stub(
    trace: &Trace,
    light: &Light,
    letter: &NamedLetter,
    stubs: &mut Stubs,
) -> Result<(), NoMemory>
    ensures { OnOk result (stubs.new ≡ with_letter trace.now light.now letter.now stubs.old) }
{
    if let Some(fate) = fate_of(letter) {
        let above = above(stubs.as_slice().last(), letter.id.event);
        stubs.push(stub_of(trace, light, letter, fate, above))?;
    }
    Ok(())
}

/// The stubs of the letters that no event received, in order of sending.
pub(crate) fn stubs_of(
    alloc: Global,
    trace: &Trace,
    letters: &NamedLetters,
    light: &Light,
) -> Result<Stubs, NoMemory>
    ensures { IfOk result (λ found. found ≡ stubs trace.now light.now (reverse letters.now)) }
{
    let mut stubs = Stubs::new(alloc);
    for letter in letters.as_slice() {
        add_stub(trace, light, letter, &mut stubs)?;
    }
    Ok(stubs)
}
