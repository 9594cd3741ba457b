// A halt that is found to be taken, as laws.
ghost use Rattle.cam_histories.specs.Alike.{HaltedLogsKeepAlike, HaltsStandAlike};
ghost use Rattle.cam_histories.specs.Alike.{HistoriesGoThroughAlike, LogsKeepAlike, NodesStandAlike};
ghost use Rattle.cam_histories.specs.Alike.{OtherHistoriesStay, TakenEventsAreAlike};
ghost use Rattle.cam_histories.specs.Found.{LinesKeepTheEvent, LinesLeadToTheHalt};
ghost use Rattle.cam_histories.specs.FoundWhole.{HistoriesHaveTheEvent, LogsHaveTheEvent};
ghost use Rattle.cam_histories.specs.FoundWhole.{RestartsFindTheEvent, StopsStay, ViewsStay};
ghost use Rattle.cam_histories.specs.FoundWhole.{WholesStand};
ghost use Rattle.cam_histories.specs.PutIn.{EventsAreMoved, HistoriesAreMoved, LettersAreMoved};
ghost use Rattle.cam_histories.specs.PutIn.{LoadsAreMoved, QueryRefusalsStay, RefusalsStay};
ghost use Rattle.cam_histories.specs.Undecided.{FoundEventsAreUndecided, FoundEventsHaveTheirPlace};
ghost use Rattle.cam_histories.specs.Undecided.{FoundHaltsAreDecided, NewHaltsAreUndecided};
ghost use Rattle.cam_histories.specs.Undecided.{NewHaltsKeepLogs, OthersStayUndecided};
ghost use Rattle.cam_histories.specs.Undecided.{UndecidedAreHalts, UndecidedStay};

/// An event is put into a trace, one that sent no letter and whose node did nothing after it. The
/// events after it then have numbers greater by one, and so have their letters. Nothing else
/// differs: the letters are what they were and carry the same; each other node has the same history
/// but for the numbers of its letters, refuses the same, and does the same at each input.
pub fn events_put_in()
    ensures letters { LettersAreMoved }
    ensures loads { LoadsAreMoved }
    ensures histories { HistoriesAreMoved }
    ensures refusals { RefusalsStay }
    ensures queries { QueryRefusalsStay }
    ensures events { EventsAreMoved }
{}

/// Two runs of the same lines, of which one loses the event at which a node halts and the other has
/// it taken. Until that input the same stands. From then on, until a restart of the node, what
/// stands in the other is what stands in the one, with that event put in at its place and the mark
/// of the halt changed.
pub fn halts_found()
    ensures leads { LinesLeadToTheHalt }
    ensures keeps { LinesKeepTheEvent }
{}

/// So nodes, logs and network that stand for the run in which the event is lost stand for the one in
/// which it is taken, where the history of the halted node has the taken event besides; the views of
/// the other nodes' actions and what was stopped are the same. A restart that finds the event in
/// the log goes on from there.
pub fn wholes_found()
    ensures stand { WholesStand }
    ensures own { HistoriesHaveTheEvent }
    ensures history { LogsHaveTheEvent }
    ensures views { ViewsStay }
    ensures stops { StopsStay }
    ensures restart { RestartsFindTheEvent }
{}

/// Nothing of a node goes by the numbers of its letters: a node, its log and a taken event stand for
/// a history as for one that differs in these alone, and so does a node that halted. So they stand
/// for the histories of the other nodes where a halt is found to be taken.
pub fn histories_alike()
    ensures nodes { NodesStandAlike }
    ensures logs { LogsKeepAlike }
    ensures taken { TakenEventsAreAlike }
    ensures through { HistoriesGoThroughAlike }
    ensures halts { HaltsStandAlike }
    ensures halted_logs { HaltedLogsKeepAlike }
    ensures others { OtherHistoriesStay }
{}

/// A run keeps of each halt that is undecided which event it was and where it stood: at first what
/// was taken of the step in which its node halted, which the log may have. What that adds to the
/// history of the node stays the same, whatever comes after. Where the halt is found to be taken,
/// exactly that stands in the history besides, at that place, and the halt is undecided no more; the
/// others are what they were, but for the numbers of letters.
pub fn undecided_halts()
    ensures new { NewHaltsAreUndecided }
    ensures logs { NewHaltsKeepLogs }
    ensures halts { UndecidedAreHalts }
    ensures stay { UndecidedStay }
    ensures place { FoundEventsHaveTheirPlace }
    ensures history { FoundEventsAreUndecided }
    ensures decided { FoundHaltsAreDecided }
    ensures others { OthersStayUndecided }
{}
