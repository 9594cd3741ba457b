//! How long the run of a script can be.
//!
//! A line gives a node one input at most, or goes on with what waits: letters, and requests of
//! bodies, which count among the steps of a script. An input makes one event; what its letters lead
//! to is bounded by their weight. [`runs_are_short`] is the law, a function with an empty body:
//! the run of each accepted script, whichever inputs are halts, has at most 41,984 events.
//!
//! It uses `cam_runs` (runs, weights, what is left of the requests of bodies) and below.
#![tactic(auto)]

ghost use Rattle.cam_bounds.specs.Bounds.{BeginningsAreShort, HaltedRunsAreShort, LettersAreFew, InputsOnlyGrow, RunsAreShort};

/// Of each accepted script the run is short: after each of its lines nodes have accepted at most
/// 41,984 inputs, and there are no more events than accepted inputs. So it is whichever inputs are
/// halts, and by both readings. Within a line their number only grows.
pub fn runs_are_short()
    ensures beginnings { BeginningsAreShort }
    ensures moments { InputsOnlyGrow }
    ensures halted { HaltedRunsAreShort }
    ensures whole { RunsAreShort }
{}

/// An event of a run sends at most 81 letters, so a run of a script has fewer than four million.
pub fn letters_are_few()
    ensures { LettersAreFew }
{}
