//! Letters that carry only what their receivers have not acknowledged, and why that is enough.
//!
//! Each node keeps the outcomes that it knows as a list, in the order in which it learnt them. A
//! letter carries the outcomes from the place on that its receiver has acknowledged, all counts,
//! the length of the sender's list, and how much of the receiver's list the sender has. Here it is
//! proved that so each node knows the same as if letters carried all ([`same_knowledge`]), hence
//! goes by the same and does the same, and that no letter claims more than there is ([`places`]).
//! What letters carry is defined by pasts too, and is the same ([`loads`]).
//!
//! Laws alone. They use `cam_agree`, which says the same of letters that carry all.
#![tactic(auto)]

ghost use Rattle.cam_delta.specs.Halted.{HaltedEventsAgree, HaltedKnownIsThePast, HaltedLettersSpelledAlike, HaltedLoadsAreThoseOfPasts, HaltedQueryRefusalsAgree, HaltedRefusalsAgree};
ghost use Rattle.cam_delta.specs.Row.{IsToldOnce};
ghost use Rattle.cam_delta.specs.Program.{EventsAgree, LettersSpelledAlike, QueryRefusalsAgree, RefusalsAgree};
ghost use Rattle.cam_delta.specs.Laws.{EventsAreThoseOfPasts, HaltedRunsAreAddressed, KnownIsThePast, ListsAreTheInforms, LettersAreNoted, LettersClaimNoMore, LoadsAreThoseOfPasts, LoadsFollow, NodesGoByTheSame, NodesKnowTheSame, NothingIsNotedAfterCrash, NothingIsNotedAtFirst, NothingIsNotedWithoutLetter, OrderGoesBySet, PlacesAreWithin, RunsAreAddressed, StepsAreTheSame};

/// Where letters carry only what their receivers have not acknowledged, each node knows after each
/// event the same outcomes, each commit with the same dependencies, and the same counts as where
/// letters carry all; on runs it is what stands in the past of the node's last event, and a node's
/// list names the outcomes in the order of its Informs. So each node goes by the same, and each
/// input gives the same event, which on runs is the event by the pasts.
pub fn same_knowledge()
    ensures addressed { RunsAreAddressed }
    ensures halted { HaltedRunsAreAddressed }
    ensures known { NodesKnowTheSame }
    ensures past { KnownIsThePast }
    ensures informs { ListsAreTheInforms }
    ensures sights { NodesGoByTheSame }
    ensures steps { StepsAreTheSame }
    ensures events { EventsAreThoseOfPasts }
{}

/// What a node has noted of another's list that list has, and what another has acknowledged of a
/// node's list that one has; no letter claims to have more of its receiver's list than that list
/// has. What is noted, and what letters carry, follows step by step.
pub fn places()
    ensures within { PlacesAreWithin }
    ensures claims { LettersClaimNoMore }
    ensures first { NothingIsNotedAtFirst }
    ensures crash { NothingIsNotedAfterCrash }
    ensures without { NothingIsNotedWithoutLetter }
    ensures letter { LettersAreNoted }
    ensures loads { LoadsFollow }
    ensures order { OrderGoesBySet }
{}

/// On runs each letter carries what the definition by pasts says: how many outcomes stand in the
/// past of its event, which of them do not stand in the past of the first event that had as many as
/// the receiver has acknowledged, and all counts.
pub fn loads()
    ensures same { LoadsAreThoseOfPasts }
{}

/// So the reading by which the program works and the reading by pasts agree: each input that may
/// come gives the same event, the same requests and queries are refused, and each letter has the
/// same bytes.
pub fn readings_agree()
    ensures events { EventsAgree }
    ensures refusals { RefusalsAgree }
    ensures queries { QueryRefusalsAgree }
    ensures spellings { LettersSpelledAlike }
{}

/// The same of runs in which nodes halt, taken events among theirs: what a node knows is what
/// stands in the past of its last event, letters carry what the definition by pasts says, in the
/// same bytes, and each input that may come gives the same event and the same is refused.
pub fn halted_runs_agree()
    ensures known { HaltedKnownIsThePast }
    ensures loads { HaltedLoadsAreThoseOfPasts }
    ensures spellings { HaltedLettersSpelledAlike }
    ensures events { HaltedEventsAgree }
    ensures refusals { HaltedRefusalsAgree }
    ensures queries { HaltedQueryRefusalsAgree }
{}

/// In a run of eight events an abort is told once each way, and not again.
pub fn worked_row()
    ensures told_once { IsToldOnce }
{}
