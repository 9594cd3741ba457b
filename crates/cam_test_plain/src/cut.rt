//! `cam_cut`: cuts and witnesses of a run in which an orphan runs on.
use crate::check::same;
use cam_base::NoMemory;
use cam_cut::{CutFault, cut_deeds, witness};
use cam_event::{Deed, Deeds, Event, LetterId, Note, Trace};
use cam_names::Name;
use cam_samples::{
    abort, ask, ask_commit, call, commit, create, event, got_done, inform, perform, secure,
};
use cam_type::{Answer, Op};
use std::alloc::Global;
use std::test::Fail;

/// A run in which the child C of P runs on after P has aborted it: the node of each event, and the letter that it received, by the number
/// of its sender and its place there. P and D are at home at node 1, C at node 4, x at node 2 and y at node 3.
const EVENTS: [(u8, Option<(u64, u32)>); 27] = [
    (1, None),
    (1, None),
    (4, Some((1, 0))),
    (4, None),
    (2, Some((3, 0))),
    (4, Some((4, 0))),
    (1, None),
    (1, None),
    (1, None),
    (2, Some((8, 0))),
    (1, Some((9, 0))),
    (1, None),
    (3, Some((11, 0))),
    (1, Some((12, 0))),
    (1, None),
    (1, Some((14, 0))),
    (1, Some((15, 0))),
    (2, Some((15, 1))),
    (3, Some((15, 2))),
    (1, Some((16, 0))),
    (1, Some((17, 0))),
    (1, Some((18, 0))),
    (2, Some((21, 0))),
    (3, Some((21, 1))),
    (4, None),
    (3, Some((24, 0))),
    (4, Some((25, 0))),
];

/// A deed and the number of its event.
type Dated = (u64, Deed);

/// The deeds of that run until P has aborted C.
fn first_deeds(p: Name, c: Name) -> [Dated; 8] {
    [
        (0, create(p)),
        (1, ask(p, c)),
        (2, create(c)),
        (3, call(c, 1, 0, Op::Read)),
        (4, perform(c, 1, Answer::Value(1))),
        (5, got_done(c, 1, Answer::Value(1))),
        (6, abort(c)),
        (6, inform(1, c, false)),
    ]
}

/// Its deeds from there until D has got its answers.
fn middle_deeds(c: Name, d: Name) -> [Dated; 9] {
    [
        (7, create(d)),
        (8, call(d, 1, 0, Op::Write(2))),
        (9, inform(2, c, false)),
        (9, perform(d, 1, Answer::Ok)),
        (10, got_done(d, 1, Answer::Ok)),
        (11, call(d, 2, 1, Op::Write(2))),
        (12, inform(3, c, false)),
        (12, perform(d, 2, Answer::Ok)),
        (13, got_done(d, 2, Answer::Ok)),
    ]
}

/// Its deeds from there to its end.
fn last_deeds(c: Name, d: Name) -> [Dated; 11] {
    [
        (14, ask_commit(d, 0)),
        (16, secure(d, 1)),
        (17, secure(d, 2)),
        (18, secure(d, 3)),
        (21, commit(d)),
        (21, inform(1, d, true)),
        (22, inform(2, d, true)),
        (23, inform(3, d, true)),
        (24, call(c, 2, 1, Op::Read)),
        (26, inform(4, c, false)),
        (26, inform(4, d, true)),
    ]
}

/// Adds those of these deeds that are of the event of a number.
fn add_own(own: &mut Deeds, deeds: &[Dated], number: u64) -> Result<(), NoMemory> {
    for (event, deed) in deeds {
        if *event == number {
            own.push_copy(deed)?;
        }
    }
    Ok(())
}

/// The deeds of the events that are kept, where there is a flag for each event.
fn kept_deeds(alloc: Global, trace: &Trace, keep: &[bool]) -> Result<Deeds, Fail> {
    if keep.len() != trace.len() {
        return Err(Fail::new("not a flag for each event"));
    }
    Ok(cut_deeds(alloc, trace, keep)?)
}

/// The names of P, C and D.
#[derive(Clone, Copy)]
struct Names {
    p: Name,
    c: Name,
    d: Name,
}

impl Names {
    /// The top actions P and D, at home at node 1, and P's child C, at home at node 4.
    fn new() -> Result<Names, Fail> {
        Ok(Names {
            p: Name::parse("1.1.1")?,
            c: Name::parse("1.1.1/4.1.1")?,
            d: Name::parse("1.1.2")?,
        })
    }

    /// The deeds of the event of a number.
    fn own_deeds(&self, alloc: Global, number: u64) -> Result<Deeds, NoMemory> {
        let mut own = Deeds::new(alloc);
        add_own(&mut own, &first_deeds(self.p, self.c), number)?;
        add_own(&mut own, &middle_deeds(self.c, self.d), number)?;
        add_own(&mut own, &last_deeds(self.c, self.d), number)?;
        Ok(own)
    }

    /// The event of a number, at a node, which received a letter or none.
    fn event(
        &self,
        alloc: Global,
        number: u64,
        node: u8,
        got: Option<(u64, u32)>,
    ) -> Result<Event, NoMemory> {
        let own = self.own_deeds(alloc, number)?;
        let got = got.map(|(event, place)| LetterId { event, place });
        event(alloc, node, got, own.as_slice(), Note::Plain)
    }

    /// The trace of the run. What its events sent and noted is left out, since nothing here looks at it.
    fn trace(&self, alloc: Global) -> Result<Trace, NoMemory> {
        let mut trace = Trace::new(alloc);
        for (number, (node, got)) in EVENTS.iter().enumerate() {
            trace.push(self.event(alloc, number as u64, *node, *got)?)?;
        }
        Ok(trace)
    }
}

/// The deeds of C's witness.
fn witness_of_c(p: Name, c: Name) -> [Deed; 7] {
    [
        create(p),
        ask(p, c),
        create(c),
        call(c, 1, 0, Op::Read),
        perform(c, 1, Answer::Value(1)),
        got_done(c, 1, Answer::Value(1)),
        call(c, 2, 1, Op::Read),
    ]
}

/// C asks for y after D has committed. In the past of that call, the last step of C's view, stands neither C's abort nor anything of D.
#[test]
fn the_witness_of_an_orphan_has_no_abort(rt: HostRuntime) -> Result<(), Fail> {
    let names = Names::new()?;
    let expected = witness_of_c(names.p, names.c);
    let trace = names.trace(rt.alloc())?;
    let found = witness(rt.alloc(), &trace, &names.c)?;
    same(&rt, found.as_slice(), expected.as_slice());
    Ok(())
}

/// No third top action was created.
#[test]
fn what_was_not_created_has_no_witness(rt: HostRuntime) -> Result<(), Fail> {
    let third = Name::parse("1.1.3")?;
    let trace = Names::new()?.trace(rt.alloc())?;
    let found = witness(rt.alloc(), &trace, &third).err();
    same(&rt, found, Some(CutFault::NoSuchAction));
    Ok(())
}

/// A flag for each event: whether it is one of the last six, and not C's call of y.
fn last_but_the_call() -> [bool; 27] {
    let mut keep = [false; 27];
    for number in 21..27 {
        keep[number] = number != 24;
    }
    keep
}

/// The deeds of the events with that flag.
fn deeds_but_the_call(c: Name, d: Name) -> [Deed; 6] {
    [
        commit(d),
        inform(1, d, true),
        inform(2, d, true),
        inform(3, d, true),
        inform(4, c, false),
        inform(4, d, true),
    ]
}

/// Of the last six events, without C's call of y: of all four nodes, and one of them has no deeds.
#[test]
fn a_cut_keeps_the_order_of_the_trace(rt: HostRuntime) -> Result<(), Fail> {
    let names = Names::new()?;
    let expected = deeds_but_the_call(names.c, names.d);
    let trace = names.trace(rt.alloc())?;
    same(&rt, trace.len(), 27);
    let kept = kept_deeds(rt.alloc(), &trace, &last_but_the_call())?;
    same(&rt, kept.as_slice(), expected.as_slice());
    Ok(())
}
