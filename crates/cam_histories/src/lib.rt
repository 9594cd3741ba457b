//! The nodes and the network of a run: what each run gives of the history of each node, of each letter that was sent, and of each input that
//! may come.
//!
//! A node's step has a precondition over its own history (`cam_node`). Here it is proved that a run meets it: the history of each node is
//! lawful ([`histories`]), each letter that was sent may be delivered to its receiver, whenever it comes ([`letters`]), and each input that may
//! come may be given to its node ([`inputs`]). A network that has the letters of the run goes on to have them ([`flights`]), and with one more
//! input all nodes stand for the run again ([`run_inputs`]). Laws alone; they use `cam_node`, whose definitions they speak of, and `cam_agree`,
//! `cam_delta` and `cam_runs`, which say the same of runs by what nodes hold and by pasts.
#![tactic(auto)]

ghost use Rattle.cam_histories.specs.Addressees.{InputsStayAmong, LettersGoAmong};
ghost use Rattle.cam_histories.specs.Laws.{HaltedInputsMayBePut, HaltedLettersMayBePut, HistoriesAreLawful, HistoriesGoThrough, HistoriesMayEnd, InputsMayBePut, LettersMayBePut, NodesMakeRuns, PutsMayCome, StepsAreNodes, WholeLettersMayBePut};
ghost use Rattle.cam_histories.specs.Network.{NextWaits, HasRunLetters};
ghost use Rattle.cam_histories.specs.Ranges.{LettersAreInRange, NumbersAreFew, PerformsAreFew};
ghost use Rattle.cam_histories.specs.Scripts.{BeginningsHold, HaltedScriptsHold, StandingsHold};
ghost use Rattle.cam_histories.specs.Sending.{LettersAreSent, LettersStay};

mod flight;
mod found;
mod steps;

pub use crate::flight::{flights, spelled};
pub use crate::found::{
    events_put_in, halts_found, histories_alike, undecided_halts, wholes_found,
};
pub use crate::steps::{
    letters_read, line_tests, log_entries, node_steps, numbers_left, run_halts, run_inputs,
    run_lines,
};

/// In a run the history of each node is lawful. In a run in which nodes halt it goes through the halts, and where the node's last event was a
/// taken one it is that of a halted node.
pub fn histories()
    ensures lawful { HistoriesAreLawful }
    ensures through { HistoriesGoThrough }
    ensures ended { HistoriesMayEnd }
{}

/// Each letter of a run may be put to the node to which it was sent, with what it carries: it is for that node, and no count in its
/// dependencies or in those of its commits is above the count of that node in its knowledge.
pub fn letters()
    ensures plain { LettersMayBePut }
    ensures halted { HaltedLettersMayBePut }
    ensures whole { WholeLettersMayBePut }
{}

/// An input that may come in a run may be put to its node, and the next event of the run is the node's step. And back: where an input may be
/// put to a node it may come, and the node's step may come next, so a trace that is made of steps of its nodes is a run.
pub fn inputs()
    ensures plain { InputsMayBePut }
    ensures halted { HaltedInputsMayBePut }
    ensures steps { StepsAreNodes }
    ensures come { PutsMayCome }
    ensures next { NodesMakeRuns }
{}

/// A letter is what its event sent, with what the history of its node up to it lets it carry, and stays so, whatever comes after.
pub fn sending()
    ensures sent { LettersAreSent }
    ensures stay { LettersStay }
{}

/// So it is in the run of each script in the grammar's ranges by what nodes hold: after each number of its lines, and, whichever inputs are
/// halts, after each line and at the end; a node that is not halted has a history through halts.
pub fn scripts()
    ensures beginnings { BeginningsHold }
    ensures standings { StandingsHold }
    ensures halted { HaltedScriptsHold }
{}

/// In a run of fewer than a thousand million events, over 64 objects at most, each letter goes from a node to a node, and each number in it is
/// in its range: those of calls and answers, the counts, the object; a family has one part, and the child of a start two or more. A node has
/// performed no more operations than it has events; no count and no number of an action or a call is above the number of events and 1.
pub fn ranges()
    ensures letters { LettersAreInRange }
    ensures performs { PerformsAreFew }
    ensures numbers { NumbersAreFew }
{}

/// Where a network (`cam_net`) has the letters of a run, each with its receiver and whether it was lost or delivered, and the same nodes are
/// halted, the letter that it names next is the run's least that waits for a node that is not halted, and it has exactly the letters of the run that
/// are not lost.
pub fn network()
    ensures next { NextWaits }
    ensures letters { HasRunLetters }
{}

/// In a run whose inputs name none but so many nodes, over objects at these, each letter goes from one of them to one of them; and with one more
/// such input, a halt too, it is such a run again.
pub fn addressees()
    ensures letters { LettersGoAmong }
    ensures inputs { InputsStayAmong }
{}
