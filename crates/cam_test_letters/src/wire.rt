// Letters as bytes. What is expected was worked out from the format's text.
mod changes;
mod kinds;

ghost use Rattle.std.specs.Prelude.{◌<◌};
ghost use Rattle.cam_wire.specs.Writable.{IsWritable, IsWritableBody};

use crate::check::same;
use cam_base::NoMemory;
use cam_event::{Body, Letter, Reply};
use cam_know::{Know, Outcome};
use cam_names::{Deps, Name, Part};
use cam_type::{Answer, Op};
use cam_wire::{WireFault, decode, encode};
use std::alloc::Global;
use std::test::Fail;

/// News from node 1 at count 1 to node 2, with nothing known.
const NEWS: [u8; 33] = [
    2, 1, 0, 0, 0, 1, 2, 0, 0, 0, 0, 0, 0, 0, 0, 0, 0, 0, 0, 0, 0, 0, 0, 0, 0, 0, 0, 0, 0, 0, 0, 0,
    9,
];

/// The first call of the top action 1.1.1, to write 5 on the first object.
const CALL: [u8; 67] = [
    2, 1, 0, 0, 0, 1, 2, 0, 0, 0, 0, 0, 0, 0, 0, 0, 0, 0, 0, 0, 0, 0, 0, 0, 0, 0, 0, 0, 0, 0, 0, 0,
    2, 1, 1, 0, 0, 0, 1, 0, 0, 0, 1, 0, 0, 0, 1, 0, 2, 0, 0, 0, 0, 0, 0, 0, 5, 0, 0, 0, 1, 1, 1, 0,
    0, 0, 1,
];

/// A Quit of 1.1.2 from node 2 at count 3 to node 1. Node 4 is known at count 2, 1.1.1 and 1.1.2 aborted, 2.3.1
/// committed.
const QUIT: [u8; 89] = [
    2, 2, 0, 0, 0, 3, 1, 0, 0, 0, 0, 0, 0, 0, 3, 0, 0, 0, 0, 0, 0, 0, 4, 2, 2, 0, 0, 0, 3, 4, 0, 0,
    0, 2, 0, 0, 0, 2, 1, 1, 0, 0, 0, 1, 0, 0, 0, 1, 1, 1, 0, 0, 0, 1, 0, 0, 0, 2, 0, 0, 0, 1, 1, 2,
    0, 0, 0, 3, 0, 0, 0, 1, 1, 2, 0, 0, 0, 3, 5, 1, 1, 0, 0, 0, 1, 0, 0, 0, 2,
];

/// A letter of node 1 at count 1 to node 2, with nothing known.
fn letter_of(alloc: Global, body: Body) -> Letter
    requires { IsWritableBody body }
    ensures { IsWritable result }
{
    Letter {
        from: 1,
        count: 1,
        to: 2,
        have: 0,
        place: 0,
        know: Know::new(alloc),
        body,
    }
}

/// These bytes, one part after another.
fn join(alloc: Global, parts: &[&[u8]]) -> Result<Vec<u8>, NoMemory> {
    let mut bytes = Vec::new(alloc);
    for part in parts {
        bytes.extend_from_slice(part)?;
    }
    Ok(bytes)
}

/// The bytes of a letter of node 1 at count 1 to node 2 with this body, and with nothing known.
fn bytes_of(alloc: Global, body: Body) -> Result<Vec<u8>, NoMemory>
    requires { IsWritableBody body }
{
    let letter = letter_of(alloc, body);
    encode(alloc, &letter)
}

#[test]
fn letters_with_nothing_known_are_spelled_as_the_format_says(rt: HostRuntime) -> Result<(), Fail> {
    let alloc = rt.alloc();
    let call = Body::Call {
        action: Name::parse("1.1.1")?,
        number: 1,
        object: 0,
        op: Op::Write(5),
        count: 1,
        deps: Deps::none().with(1, 1),
    };
    same(
        &rt,
        bytes_of(alloc, Body::News)?.as_slice(),
        NEWS.as_slice(),
    );
    same(&rt, bytes_of(alloc, call)?.as_slice(), CALL.as_slice());
    Ok(())
}

/// What is known in `QUIT`, learnt in another order.
fn known_in_quit(alloc: Global) -> Result<Know, Fail> {
    let top = Name::parse("1.1.1")?;
    let second = Name::parse("1.1.2")?;
    let committed = Name::parse("2.3.1")?;
    let mut know = Know::new(alloc);
    for outcome in [
        Outcome::Aborted(second),
        Outcome::Committed(committed, Deps::none().with(2, 3)),
        Outcome::Aborted(top),
    ] {
        know.add(&outcome)?;
    }
    know.raise(2, 3);
    know.raise(4, 2);
    Ok(know)
}

#[test]
fn what_is_known_is_spelled_as_the_format_says(rt: HostRuntime) -> Result<(), Fail> {
    let action = Name::parse("1.1.2")?;
    let letter = Letter {
        from: 2,
        count: 3,
        to: 1,
        have: 3,
        place: 4,
        know: known_in_quit(rt.alloc())?,
        body: Body::Quit { action },
    };
    same(
        &rt,
        encode(rt.alloc(), &letter)?.as_slice(),
        QUIT.as_slice(),
    );
    Ok(())
}

#[test]
fn a_letter_is_read_as_the_format_says(rt: HostRuntime) -> Result<(), Fail> {
    let top = Name::parse("1.1.1")?;
    let committed = Name::parse("2.3.1")?;
    let letter = decode(rt.alloc(), &QUIT)?;
    same(&rt, (letter.from, letter.count, letter.to), (2, 3, 1));
    same(&rt, (letter.know.len(), letter.know.count(4)), (3, 2));
    let ended = (
        letter.know.is_aborted(&top),
        letter.know.is_committed(&committed),
    );
    same(&rt, ended, (true, true));
    Ok(())
}

/// Whether a letter as `NEWS` but with this body is spelled as the first 32 bytes of `NEWS`, the tag, the name 1.1.1
/// and these bytes.
fn is_spelled(alloc: Global, body: Body, tag: u8, fields: &[u8]) -> Result<bool, NoMemory>
    requires { IsWritableBody body }
{
    let name = [1, 1, 0, 0, 0, 1, 0, 0, 0, 1];
    let bytes = join(alloc, &[&NEWS[..32], &[tag], &name, fields])?;
    Ok(bytes_of(alloc, body)?.as_slice() == bytes.as_slice())
}

#[test]
fn start_finish_prepare_and_query_are_spelled_as_the_format_says(
    rt: HostRuntime,
) -> Result<(), Fail> {
    let alloc = rt.alloc();
    let name = Name::top(Part::new(1, 1, 1).ok_or("no part")?);
    let start = Body::Start {
        child: name,
        deps: Deps::none().with(1, 1),
    };
    let spelled = is_spelled(alloc, start, 1, &[1, 1, 0, 0, 0, 1])?;
    same(&rt, ("Start", spelled), ("Start", true));
    let finish = Body::Finish {
        action: name,
        value: -1,
        deps: Deps::none(),
    };
    let fields = [255, 255, 255, 255, 255, 255, 255, 255, 0];
    let spelled = is_spelled(alloc, finish, 4, &fields)?;
    same(&rt, ("Finish", spelled), ("Finish", true));
    let prepare = Body::Prepare {
        family: name,
        count: 1,
    };
    let spelled = is_spelled(alloc, prepare, 6, &[0, 0, 0, 1])?;
    same(&rt, ("Prepare", spelled), ("Prepare", true));
    let query = Body::Query { family: name };
    let spelled = is_spelled(alloc, query, 8, &[])?;
    same(&rt, ("Query", spelled), ("Query", true));
    Ok(())
}

#[test]
fn each_vote_is_spelled_as_the_format_says(rt: HostRuntime) -> Result<(), Fail> {
    let alloc = rt.alloc();
    let name = Name::top(Part::new(1, 1, 1).ok_or("no part")?);
    let yes = Body::Vote {
        family: name,
        count: 1,
        yes: true,
    };
    let spelled = is_spelled(alloc, yes, 7, &[0, 0, 0, 1, 1])?;
    same(&rt, ("yes", spelled), ("yes", true));
    let no = Body::Vote {
        family: name,
        count: 1,
        yes: false,
    };
    let spelled = is_spelled(alloc, no, 7, &[0, 0, 0, 1, 0])?;
    same(&rt, ("no", spelled), ("no", true));
    Ok(())
}

/// Whether an Answer of 1.1.1 to its call 1 has these bytes as its reply.
fn is_answered(alloc: Global, reply: Reply, fields: &[u8]) -> Result<bool, Fail> {
    let action = Name::top(Part::new(1, 1, 1).ok_or("no part")?);
    let bytes = join(alloc, &[&[0, 0, 0, 1], fields])?;
    let body = Body::Answer {
        action,
        number: 1,
        reply,
    };
    Ok(is_spelled(alloc, body, 3, &bytes)?)
}

#[test]
fn each_reply_is_spelled_as_the_format_says(rt: HostRuntime) -> Result<(), Fail> {
    let holder = Name::parse("1.1.1")?;
    for (reply, fields) in [
        (Reply::Done(Answer::Ok), [1].as_slice()),
        (
            Reply::Done(Answer::Value(258)),
            [2, 0, 0, 0, 0, 0, 0, 1, 2].as_slice(),
        ),
        (Reply::Done(Answer::Empty), [3].as_slice()),
        (
            Reply::Busy(holder),
            [4, 1, 1, 0, 0, 0, 1, 0, 0, 0, 1].as_slice(),
        ),
        (Reply::Missed, [5].as_slice()),
        (Reply::Refused, [6].as_slice()),
    ] {
        let answered = is_answered(rt.alloc(), reply, fields)?;
        same(&rt, (fields, answered), (fields, true));
    }
    Ok(())
}

/// The letter that these bytes are read as, which is spelled again as they are, or the fault that is answered.
fn read(alloc: Global, bytes: &[u8]) -> Result<Result<Letter, WireFault>, Fail> {
    let letter = match decode(alloc, bytes) {
        Ok(letter) => letter,
        Err(fault) => return Ok(Err(fault)),
    };
    if encode(alloc, &letter)?.as_slice() == bytes {
        Ok(Ok(letter))
    } else {
        Err("another spelling".into())
    }
}

/// The fault that is answered. None where a letter is read, and is spelled again as these bytes.
fn fault_of(alloc: Global, bytes: &[u8]) -> Result<Option<WireFault>, Fail> {
    Ok(read(alloc, bytes)?.err())
}

/// `NEWS` with another byte at a place.
fn news_with(place: usize, byte: u8) -> [u8; 33]
    requires { place < 33 }
{
    let mut bytes = NEWS;
    bytes[place] = byte;
    bytes
}

/// The fault that is answered of these bytes, one part after another.
fn fault_of_parts(alloc: Global, parts: &[&[u8]]) -> Result<Option<WireFault>, Fail> {
    let bytes = join(alloc, parts)?;
    fault_of(alloc, bytes.as_slice())
}

#[test]
fn letters_are_read_and_other_bytes_refused(rt: HostRuntime) -> Result<(), Fail> {
    let alloc = rt.alloc();
    for (bytes, fault) in [
        (NEWS.as_slice(), None),
        (CALL.as_slice(), None),
        (QUIT.as_slice(), None),
        (news_with(0, 1).as_slice(), Some(WireFault::BadTag(0))),
        (news_with(1, 9).as_slice(), Some(WireFault::BadNumber(1))),
        (news_with(32, 10).as_slice(), Some(WireFault::BadTag(32))),
        (&NEWS[..0], Some(WireFault::Short(0))),
    ] {
        same(&rt, fault_of(alloc, bytes)?, fault);
    }
    let rest = fault_of_parts(alloc, &[&NEWS, &[0]])?;
    same(&rt, rest, Some(WireFault::Rest(33)));
    Ok(())
}
