//! One builder for each deed.
ghost use Rattle.std.specs.Prelude.{◌≡◌};
ghost use Rattle.cam_event.specs.declared.Deed.TheVariants.{Create, Ask, Call, Perform, Bounce, Got, AskCommit, AskAbort};
ghost use Rattle.cam_event.specs.declared.Deed.TheVariants.{Commit, Abort, Secure, Inform, Crash};
ghost use Rattle.cam_event.specs.declared.Seen.TheVariants.{Done};

use cam_event::{Deed, Seen};
use cam_names::Name;
use cam_type::{Answer, Op};

/// An action is created.
pub fn create(action: Name) -> Deed
    ensures { result ≡ Create action }
{
    Deed::Create { action }
}

/// An action asks for a child.
pub fn ask(action: Name, child: Name) -> Deed
    ensures { result ≡ Ask action child }
{
    Deed::Ask { action, child }
}

/// An action calls an object whose site is at its first count.
pub fn call(action: Name, number: u32, object: u8, op: Op) -> Deed
    ensures { result ≡ Call action number object op 1 }
{
    call_at_count(action, number, object, op, 1)
}

/// An action calls an object whose site is at this count.
pub fn call_at_count(action: Name, number: u32, object: u8, op: Op, count: u32) -> Deed
    ensures { result ≡ Call action number object op count }
{
    Deed::Call {
        action,
        number,
        object,
        op,
        count,
    }
}

/// A call is performed.
pub fn perform(action: Name, number: u32, answer: Answer) -> Deed
    ensures { result ≡ Perform action number answer }
{
    Deed::Perform {
        action,
        number,
        answer,
    }
}

/// A call is turned away, since the holder is in its way.
pub fn bounce(action: Name, number: u32, holder: Name) -> Deed
    ensures { result ≡ Bounce action number holder }
{
    Deed::Bounce {
        action,
        number,
        holder,
    }
}

/// An action sees what came of its call.
pub fn got(action: Name, number: u32, seen: Seen) -> Deed
    ensures { result ≡ Got action number seen }
{
    Deed::Got {
        action,
        number,
        seen,
    }
}

/// An action sees the answer to its call.
pub fn got_done(action: Name, number: u32, answer: Answer) -> Deed
    ensures { result ≡ Got action number (Done answer) }
{
    got(action, number, Seen::Done(answer))
}

/// An action asks to commit with a value.
pub fn ask_commit(action: Name, value: i64) -> Deed
    ensures { result ≡ AskCommit action value }
{
    Deed::AskCommit { action, value }
}

/// An action asks to abort.
pub fn ask_abort(action: Name) -> Deed
    ensures { result ≡ AskAbort action }
{
    Deed::AskAbort { action }
}

/// An action commits.
pub fn commit(action: Name) -> Deed
    ensures { result ≡ Commit action }
{
    Deed::Commit { action }
}

/// An action aborts.
pub fn abort(action: Name) -> Deed
    ensures { result ≡ Abort action }
{
    Deed::Abort { action }
}

/// A family is secured at a site that is at its first count.
pub fn secure(family: Name, site: u8) -> Deed
    ensures { result ≡ Secure family site 1 }
{
    Deed::Secure {
        family,
        site,
        count: 1,
    }
}

/// A site is informed of an outcome.
pub fn inform(site: u8, name: Name, committed: bool) -> Deed
    ensures { result ≡ Inform site name committed }
{
    Deed::Inform {
        site,
        name,
        committed,
    }
}

/// A site crashes.
pub fn crash(site: u8) -> Deed
    ensures { result ≡ Crash site }
{
    Deed::Crash { site }
}
