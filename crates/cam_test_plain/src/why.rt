//! `cam_why`: the cause of a stop, and the letters that lead from there, on traces worked by hand.
use crate::check::same;
use cam_base::NoMemory;
use cam_event::{Body, Deed, Deeds, Event, LetterId, Note, Sent, Trace};
use cam_know::Reason;
use cam_names::Name;
use cam_samples::{abort, crash, deeds_of, sent_of};
use cam_why::{Link, Why, WhyFault, chain};
use std::alloc::Global;
use std::process::Abort;
use std::test::Fail;

/// Of an event its node, the event whose letter it received, its deed, and its note.
type Told = (u8, Option<u64>, Option<Deed>, Note);

/// A trace whose events each send one letter.
fn trace(alloc: Global, events: &[Told]) -> Result<Trace, NoMemory> {
    let mut trace = Trace::new(alloc);
    for told in events {
        trace.push(event(alloc, told)?)?;
    }
    Ok(trace)
}

/// An event without a letter or a deed.
fn plain(node: u8) -> Told {
    (node, None, None, Note::Plain)
}

/// An event that received the letter of another.
fn reached(node: u8, sender: u64) -> Told {
    (node, Some(sender), None, Note::Plain)
}

/// An event with a deed.
fn does(node: u8, deed: Deed) -> Told {
    (node, None, Some(deed), Note::Plain)
}

fn event(alloc: Global, (node, sender, deed, note): &Told) -> Result<Event, NoMemory> {
    let got = sender.map(|event| LetterId { event, place: 0 });
    let news = Sent {
        to: 1,
        body: Body::News,
    };
    let deeds = match deed {
        Some(deed) => deeds_of(alloc, &[*deed])?,
        None => Deeds::new(alloc),
    };
    Ok(Event {
        node: *node,
        got,
        deeds,
        sent: sent_of(alloc, &[news])?,
        note: *note,
    })
}

fn letter(from: u64, to: u64) -> Link {
    Link {
        letter: LetterId {
            event: from,
            place: 0,
        },
        from,
        to,
    }
}

fn links(why: &Why) -> &[Link] {
    why.links.as_slice()
}

fn stopped_by_abort(name: Name) -> Note {
    Note::Stopped(name, Reason::Abort(name))
}

/// A trace in which the parent of a child, at node 1, gives it up and tells node 2 so, where the child's call then comes; the last two
/// events stop `child`.
fn given_up(alloc: Global, child: Name) -> Result<Trace, NoMemory> {
    let events = [
        plain(1),
        plain(1),
        reached(3, 1),
        does(1, abort(child)),
        plain(1),
        reached(2, 4),
        plain(3),
        (2, Some(6), None, stopped_by_abort(child)),
        (3, Some(7), None, stopped_by_abort(child)),
    ];
    trace(alloc, &events)
}

/// The stop of an event has this cause, and these letters lead from the cause to the stop.
fn check_chain(
    rt: &impl Abort,
    alloc: Global,
    trace: &Trace,
    event: u32,
    cause: u64,
    wanted: &[Link],
) -> Result<(), Fail> {
    let why = chain(alloc, trace, event)?;
    same(rt, (event, why.cause, links(&why)), (event, cause, wanted));
    Ok(())
}

#[test]
fn an_abort_leads_to_a_stop_over_the_fewest_letters(rt: HostRuntime) -> Result<(), Fail> {
    let chained = [letter(4, 5), letter(7, 8)];
    let trace = given_up(rt.alloc(), Name::parse("1.1.1/3.1.1")?)?;
    check_chain(&rt, rt.alloc(), &trace, 8, 3, &chained)?;
    check_chain(&rt, rt.alloc(), &trace, 7, 3, &chained[..1])
}

/// Of an event that stopped no action, and of one that there is not.
#[test]
fn where_nothing_was_stopped_there_is_no_chain(rt: HostRuntime) -> Result<(), Fail> {
    let trace = given_up(rt.alloc(), Name::parse("1.1.1/3.1.1")?)?;
    for event in [6, 9] {
        let fault = chain(rt.alloc(), &trace, event).err();
        same(&rt, (event, fault), (event, Some(WhyFault::NoSuchStop)));
    }
    Ok(())
}

/// A trace in which node 2 restarts twice and tells node 3 of the first time, and node 3 restarts too; the last event stops `action`.
fn restarted(alloc: Global, action: Name) -> Result<Trace, NoMemory> {
    let reason = Reason::Crash {
        node: 2,
        old: 1,
        new: 2,
    };
    let events = [
        plain(1),
        plain(1),
        reached(2, 1),
        reached(1, 2),
        does(2, crash(2)),
        plain(2),
        reached(3, 5),
        does(3, crash(3)),
        plain(1),
        (3, Some(8), None, Note::Missed),
        does(2, crash(2)),
        (1, Some(9), None, Note::Stopped(action, reason)),
    ];
    trace(alloc, &events)
}

#[test]
fn a_crash_leads_to_a_stop_through_a_node_that_restarted(rt: HostRuntime) -> Result<(), Fail> {
    let chained = [letter(5, 6), letter(9, 11)];
    let trace = restarted(rt.alloc(), Name::parse("1.1.1")?)?;
    check_chain(&rt, rt.alloc(), &trace, 11, 4, &chained)
}

#[test]
fn a_letter_that_stopped_nothing_has_no_chain(rt: HostRuntime) -> Result<(), Fail> {
    let trace = restarted(rt.alloc(), Name::parse("1.1.1")?)?;
    let fault = chain(rt.alloc(), &trace, 3).err();
    same(&rt, fault, Some(WhyFault::NoSuchStop));
    Ok(())
}
