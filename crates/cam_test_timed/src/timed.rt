//! The report of a run by time, and the witness of an orphan in it.
use crate::check::same;
use cam_base::NoMemory;
use cam_cut::CutFault;
use cam_event::{Deed, LetterId, LineRefusal, Note};
use cam_names::{Name, NameFault};
use cam_samples::{abort, ask, call, create, event, got_done, inform, perform};
use cam_script::{Bodies, Label, Labels, Script, Steps};
use cam_timed::{
    Pause, TimedEvent, TimedMark, TimedMarks, TimedRecord, TimedScript, TimedSteps, TimedTrace,
    timed_text, timed_witness,
};
use cam_type::{Answer, ObjectDecl, Objects, Op, State};
use std::alloc::Global;
use std::test::Fail;

/// A script that declares a register `x` at node 2, which begins with 1.
fn declared(alloc: Global) -> Result<TimedScript, NoMemory> {
    let mut objects = Objects::new(alloc);
    objects.push(ObjectDecl {
        node: 2,
        start: State::Register(1),
    })?;
    let mut labels = Labels::new(alloc);
    labels.push(Label::new(String::from_str(alloc, "x")?))?;
    Ok(TimedScript {
        script: Script {
            nodes: 2,
            objects,
            labels,
            bodies: Bodies::new(alloc),
            steps: Steps::new(alloc),
        },
        steps: TimedSteps::new(alloc),
    })
}

/// An event: its node, the event whose letter it received, its deeds, its moment, and the quiesce moment that it gives,
/// or 0.
type Row<'a> = (u8, Option<u64>, &'a [Deed], u64, u64);

/// The event of a row, and why it paused.
fn event_of(alloc: Global, row: Row<'_>, pause: Option<Pause>) -> Result<TimedEvent, NoMemory> {
    let (node, got, deeds, moment, until) = row;
    let got = got.map(|event| LetterId { event, place: 0 });
    Ok(TimedEvent {
        event: event(alloc, node, got, deeds, Note::Plain)?,
        moment,
        until,
        pause,
    })
}

/// The events of these rows, none of which paused.
fn trace_of(alloc: Global, rows: &[Row<'_>]) -> Result<TimedTrace, NoMemory> {
    let mut trace = TimedTrace::new(alloc);
    for row in rows {
        trace.push(event_of(alloc, *row, None)?)?;
    }
    Ok(trace)
}

/// These marks.
fn marks_of(alloc: Global, marks: &[TimedMark]) -> Result<TimedMarks, NoMemory> {
    let mut list = TimedMarks::new(alloc);
    list.extend_from_slice(marks)?;
    Ok(list)
}

/// A parent at node 1 and its child at node 2.
#[derive(Clone, Copy)]
struct Pair {
    parent: Name,
    child: Name,
}

/// 1.1.1 and its child 1.1.1/2.1.1.
fn parent_and_child() -> Result<Pair, NameFault> {
    Ok(Pair {
        parent: Name::parse("1.1.1")?,
        child: Name::parse("1.1.1/2.1.1")?,
    })
}

/// A parent at node 1 asks for a child at node 2, which writes 4; the parent gives it up at its quiesce moment, 50. The child's next call
/// reads x, and its answer comes when node 2 has heard of the moment.
fn given_up(alloc: Global, pair: Pair) -> Result<TimedTrace, NoMemory> {
    let Pair { parent, child } = pair;
    let mut trace = trace_of(
        alloc,
        &[
            (1, None, &[create(parent)], 0, 100),
            (1, None, &[ask(parent, child)], 0, 50),
            (2, Some(1), &[create(child)], 0, 0),
            (2, None, &[call(child, 1, 0, Op::Write(4))], 0, 0),
            (2, Some(3), &[perform(child, 1, Answer::Ok)], 0, 0),
            (2, Some(4), &[got_done(child, 1, Answer::Ok)], 0, 0),
            (1, None, &[], 50, 0),
            (1, None, &[abort(child), inform(1, child, false)], 50, 0),
            (2, None, &[call(child, 2, 0, Op::Read)], 0, 0),
            (1, None, &[], 50, 0),
            (2, Some(8), &[perform(child, 2, Answer::Value(4))], 0, 0),
            (2, Some(9), &[inform(2, child, false)], 50, 0),
        ],
    )?;
    let last = event_of(alloc, (2, Some(10), &[], 50, 0), Some(Pause::Quiet(child)))?;
    trace.push(last)?;
    Ok(trace)
}

/// The giving up in line 8 comes too early; the child is refused in line 14, since its moment has come. Its read of 4 is no step of its view,
/// its write is gone, and the value is the first one.
#[test]
fn a_quiet_answer_is_shown(rt: HostRuntime) -> Result<(), Fail> {
    let alloc = rt.alloc();
    let marks = [
        TimedMark::TooEarly {
            line: 8,
            moment: 0,
            until: 50,
        },
        TimedMark::Quiesced {
            line: 14,
            moment: 50,
            until: 50,
        },
    ];
    let pair = parent_and_child()?;
    let run = TimedRecord {
        trace: given_up(alloc, pair)?,
        marks: marks_of(alloc, &marks)?,
    };
    let text = timed_text(alloc, &declared(alloc)?, &run)?;
    same(
        &rt,
        text.as_str(),
        "action 1.1.1 open\n  created\n  asked 1.1.1/2.1.1\n  child 1.1.1/2.1.1 aborted\naction 1.1.1/2.1.1 aborted\n  created\n  called 1 x write 4\n  got 1 ok\n  called 2 x read\nquiet 12 1.1.1/2.1.1 50 50\nrefused 8 L11 0 50\nrefused 14 L10 50 50\nvalue x 1\n",
    );
    Ok(())
}

/// The run of a parent and its child that is given up, with no marks.
fn unmarked(alloc: Global, pair: Pair) -> Result<TimedRecord, NoMemory> {
    Ok(TimedRecord {
        trace: given_up(alloc, pair)?,
        marks: TimedMarks::new(alloc),
    })
}

/// The child's last step is its second call, in event 8. Its abort, in event 7, is not in the past of that.
#[test]
fn the_witness_has_no_abort(rt: HostRuntime) -> Result<(), Fail> {
    let alloc = rt.alloc();
    let pair = parent_and_child()?;
    let Pair { parent, child } = pair;
    let deeds = [
        create(parent),
        ask(parent, child),
        create(child),
        call(child, 1, 0, Op::Write(4)),
        perform(child, 1, Answer::Ok),
        got_done(child, 1, Answer::Ok),
        call(child, 2, 0, Op::Read),
    ];
    let run = unmarked(alloc, pair)?;
    let witness = timed_witness(alloc, &run, &child)?;
    same(&rt, witness.as_slice(), deeds.as_slice());
    Ok(())
}

#[test]
fn an_action_that_is_not_created_has_no_witness(rt: HostRuntime) -> Result<(), Fail> {
    let alloc = rt.alloc();
    let other = Name::parse("1.1.2")?;
    let run = unmarked(alloc, parent_and_child()?)?;
    let fault = timed_witness(alloc, &run, &other).err();
    same(&rt, fault, Some(CutFault::NoSuchAction));
    Ok(())
}

/// A script of one node that declares no object.
fn bare(alloc: Global) -> TimedScript {
    TimedScript {
        script: Script {
            nodes: 1,
            objects: Objects::new(alloc),
            labels: Labels::new(alloc),
            bodies: Bodies::new(alloc),
            steps: Steps::new(alloc),
        },
        steps: TimedSteps::new(alloc),
    }
}

/// A top action is begun and expires at its quiesce moment, 5.
fn expired(alloc: Global, top: Name) -> Result<TimedTrace, NoMemory> {
    trace_of(
        alloc,
        &[
            (1, None, &[create(top)], 0, 5),
            (1, None, &[], 5, 0),
            (1, None, &[abort(top), inform(1, top, false)], 5, 0),
        ],
    )
}

/// A top action expires at its quiesce moment; a second expiry, and a moment that does not rise, are refused.
#[test]
fn an_expiry_is_shown(rt: HostRuntime) -> Result<(), Fail> {
    let alloc = rt.alloc();
    let top = Name::parse("1.1.1")?;
    let refusal = LineRefusal::NothingToDo;
    let marks = [
        TimedMark::Refused { line: 5, refusal },
        TimedMark::Refused { line: 6, refusal },
    ];
    let run = TimedRecord {
        trace: expired(alloc, top)?,
        marks: marks_of(alloc, &marks)?,
    };
    let text = timed_text(alloc, &bare(alloc), &run)?;
    same(
        &rt,
        text.as_str(),
        "action 1.1.1 aborted\n  created\nrefused 5 L9\nrefused 6 L9\n",
    );
    Ok(())
}
