//! `cam_report`: traces, witnesses, chains and summaries, byte for byte.

use crate::check::same;
use crate::letters::each_letter_and_note;
use crate::report::{declared, each_kind};
use crate::traces::{first_path, given_up};
use cam_base::NoMemory;
use cam_cut::CutFault;
use cam_event::RunRecord;
use cam_names::Name;
use cam_report::{summary_text, trace_text, why_text, witness_text};
use cam_why::WhyFault;
use std::alloc::Global;
use std::test::Fail;

const FIRST_PATH: &str = "event 0 node 1 letter 0 note plain
  create 1.1.1
event 1 node 1 letter 0 note plain
  create 1.1.2
event 2 node 1 letter 0 note plain
  call 1.1.1 1 x write 5 1
  sent 1 to 1 call
event 3 node 1 letter 1 note plain
  perform 1.1.1 1 ok
  sent 2 to 1 answer
event 4 node 1 letter 2 note plain
  got 1.1.1 1 ok
event 5 node 1 letter 0 note plain
  call 1.1.2 1 x read 1
  sent 3 to 1 call
event 6 node 1 letter 3 note plain
  bounce 1.1.2 1 1.1.1
  sent 4 to 1 answer
event 7 node 1 letter 4 note plain
  got 1.1.2 1 busy 1.1.1
event 8 node 1 letter 0 note plain
  call 1.1.1 2 x read 1
  sent 5 to 1 call
";

/// The trace of a run with the declared objects.
fn traced(alloc: Global, run: &RunRecord) -> Result<String, NoMemory> {
    let script = declared(alloc)?;
    trace_text(alloc, &script, run)
}

#[test]
fn the_first_path_is_traced(rt: HostRuntime) -> Result<(), Fail> {
    let run = first_path(rt.alloc())?;
    let text = traced(rt.alloc(), &run)?;
    same(&rt, text.as_str(), FIRST_PATH);
    Ok(())
}

const WITNESS: &str = "create 1.1.1
create 1.1.2
call 1.1.1 1 x write 5 1
perform 1.1.1 1 ok
got 1.1.1 1 ok
call 1.1.2 1 x read 1
bounce 1.1.2 1 1.1.1
got 1.1.2 1 busy 1.1.1
legal
";

/// The witness of an action in a run with the declared objects.
fn witness_in(alloc: Global, run: &RunRecord, action: &Name) -> Result<String, CutFault> {
    let script = declared(alloc)?;
    witness_text(alloc, &script, run, action)
}

/// The witness of an action in the first path.
fn witnessed(alloc: Global, action: &Name) -> Result<Result<String, CutFault>, Fail> {
    let run = first_path(alloc)?;
    Ok(witness_in(alloc, &run, action))
}

#[test]
fn the_deeds_that_an_action_saw_are_its_witness(rt: HostRuntime) -> Result<(), Fail> {
    let reader = Name::parse("1.1.2")?;
    let text = witnessed(rt.alloc(), &reader)??;
    same(&rt, text.as_str(), WITNESS);
    Ok(())
}

#[test]
fn what_was_not_created_has_no_witness(rt: HostRuntime) -> Result<(), Fail> {
    let nobody = Name::parse("1.1.3")?;
    let fault = witnessed(rt.alloc(), &nobody)?.err();
    same(&rt, fault, Some(CutFault::NoSuchAction));
    Ok(())
}

const EACH_LETTER_AND_NOTE: &str = "event 0 node 1 letter 0 note preparing
  sent 1 to 2 finish
  sent 2 to 2 quit
  sent 3 to 2 prepare
  sent 4 to 2 vote
  sent 5 to 2 query
  sent 6 to 2 news
  sent 7 to 2 start
event 1 node 2 letter 1 note missed
event 2 node 2 letter 2 note again
event 3 node 2 letter 3 note ended
event 4 node 2 letter 4 note late
";

#[test]
fn each_letter_and_each_note_is_traced(rt: HostRuntime) -> Result<(), Fail> {
    let run = each_letter_and_note(rt.alloc())?;
    let text = traced(rt.alloc(), &run)?;
    same(&rt, text.as_str(), EACH_LETTER_AND_NOTE);
    Ok(())
}

const EACH_DEED: &str = "event 0 node 1 letter 0 note plain
  create 1.1.1
  ask 1.1.1 1.1.1/2.1.1
  create 1.1.1/2.1.1
  call 1.1.1/2.1.1 1 x swap 7 1
  perform 1.1.1/2.1.1 1 value 0
  got 1.1.1/2.1.1 1 value 0
  call 1.1.1/2.1.1 2 q put -4 1
  perform 1.1.1/2.1.1 2 ok
  got 1.1.1/2.1.1 2 ok
  askcommit 1.1.1/2.1.1 9
  commit 1.1.1/2.1.1
event 1 node 1 letter 0 note stopped
  ask 1.1.1 1.1.1/1.1.2
  create 1.1.1/1.1.2
  call 1.1.1/1.1.2 1 q take 1
  perform 1.1.1/1.1.2 1 value 1
  askabort 1.1.1/1.1.2
  abort 1.1.1/1.1.2
  inform 2 abort 1.1.1/1.1.2
event 2 node 1 letter 0 note voted
  call 1.1.1 1 q take 1
  perform 1.1.1 1 value 1
  got 1.1.1 1 gone
  call 1.1.1 2 c add -4 1
  perform 1.1.1 2 ok
  got 1.1.1 2 ok
  askcommit 1.1.1 -3
  secure 1.1.1 1 1
  commit 1.1.1
  inform 1 commit 1.1.1/2.1.1
  inform 1 commit 1.1.1
  inform 2 commit 1.1.1/2.1.1
  inform 2 commit 1.1.1
event 3 node 1 letter 0 note stopped
  create 1.1.2
  call 1.1.2 1 x write 8 1
  perform 1.1.2 1 ok
  got 1.1.2 1 busy 1.1.1
  call 1.1.2 2 q put 6 1
  perform 1.1.2 2 ok
  got 1.1.2 2 empty
  call 1.1.2 3 q size 1
  crash 1
refused 3 L7
cut 4 2 rest 17
halted 5 2 taken
halted 6 1 lost
";

#[test]
fn each_deed_and_each_mark_is_traced(rt: HostRuntime) -> Result<(), Fail> {
    let run = each_kind(rt.alloc())?;
    let text = traced(rt.alloc(), &run)?;
    same(&rt, text.as_str(), EACH_DEED);
    Ok(())
}

const WHY: &str = "stop 8 1.1.1/3.1.1 abort 1.1.1/3.1.1
cause 3
letter 2 from 4 to 5
letter 4 from 7 to 8
";

#[test]
fn a_stop_is_told_with_the_letters_that_led_there(rt: HostRuntime) -> Result<(), Fail> {
    let run = given_up(rt.alloc())?;
    let text = why_text(rt.alloc(), &run, 8)?;
    same(&rt, text.as_str(), WHY);
    Ok(())
}

/// The abort itself stops nothing.
#[test]
fn where_nothing_was_stopped_nothing_is_told(rt: HostRuntime) -> Result<(), Fail> {
    let run = given_up(rt.alloc())?;
    let fault = why_text(rt.alloc(), &run, 3).err();
    same(&rt, fault, Some(WhyFault::NoSuchStop));
    Ok(())
}

/// The SHA-256 of `abc`, as FIPS 180-4 gives it.
const DIGEST: &str = "ba7816bf8f01cfea414140de5dae2223b00361a396177a9cb410ff61f20015ad";

const SUMMARY: &str = "steps 9
events 9
letters 5
actions 2
committed 0
stops 0
report ba7816bf8f01cfea414140de5dae2223b00361a396177a9cb410ff61f20015ad
";

#[test]
fn the_first_path_is_summed_up(rt: HostRuntime) -> Result<(), Fail> {
    let run = first_path(rt.alloc())?;
    let text = summary_text(rt.alloc(), &run, 9, DIGEST)?;
    same(&rt, text.as_str(), SUMMARY);
    Ok(())
}

const SUMMARY_OF_EACH: &str = "steps 40
events 4
letters 0
actions 4
committed 1
stops 2
report ba7816bf8f01cfea414140de5dae2223b00361a396177a9cb410ff61f20015ad
";

/// Of two actions that committed one is a top action; refused, cut and halted lines count as nothing.
#[test]
fn commits_and_stops_are_summed_up(rt: HostRuntime) -> Result<(), Fail> {
    let run = each_kind(rt.alloc())?;
    let text = summary_text(rt.alloc(), &run, 40, DIGEST)?;
    same(&rt, text.as_str(), SUMMARY_OF_EACH);
    Ok(())
}
