//! The headline: from the bytes of a script to the views of its actions. And what every run
//! promises of outcomes and of crashes.
//!
//! For every script that the grammar accepts, the run that the program makes is the one run of the
//! step rules; for each action, orphan or not, the events before its last event, read as plain
//! nested transactions, are a legal execution in which it is no orphan and has the same view;
//! committed top actions replay serially in order of their commits; and no two nodes hold different
//! outcomes ([`headline`]). `docs/HEADLINE.md` shows it on a scene.
//!
//! Laws alone. They put together those of the crates below: `cam_cut` (closed sets are legal,
//! views), `cam_serial` (the serial law), `cam_agree` and `cam_runs` (the run by what nodes hold is
//! the run by pasts, and a run), `cam_script` (what the grammar accepts).
#![tactic(auto)]

ghost use Rattle.cam_headline.specs.Counters.{CountersAreReported};
ghost use Rattle.cam_headline.specs.Halted.{HaltedCommitNeeds, HaltedDecidedOnce, HaltedEventsAgree, HaltedReplay, HaltedStays, HaltedViews};
ghost use Rattle.cam_headline.specs.HaltedHeld.{HaltedCommittedIsCovered, HaltedCommittedIsSecured, HaltedCrashKeepsOthers, HaltedCrashKeepsSecured, HaltedHeldIsThePast, HaltedHeldWasDecided, HaltedNodesAgree, HaltedNoneIsAborted, HaltedSecuredStays};
ghost use Rattle.cam_headline.specs.HaltedRows.{AreWorked};
ghost use Rattle.cam_headline.specs.Headline.{HaltedHeadline, HaltedRunsKeepPromises, Headline, NoStopIsTheRun, RunsKeepPromises};
ghost use Rattle.cam_headline.specs.KeptLog.{LogsKeep, LogsKeepKnowledge, LogsKeepOrder, LogsKeepSecured};
ghost use Rattle.cam_headline.specs.Outcomes.{CommitNeedsSecured, CommittedIsSecured, EachIsDecidedOnce, HeldWasDecided, NoTwoEventsDiffer, NoTwoNodesDiffer};
ghost use Rattle.cam_headline.specs.Scene.{IsWorked};
ghost use Rattle.cam_headline.specs.Recovery.{CommittedIsCovered, CommittedStays, CrashKeepsOthers, CrashKeepsSecured, NoneIsAborted, SecuredStays};

/// For all bytes that spell a script: the program's run is the one run of the step rules; for each
/// action, orphan or not, the events before its last event are a legal execution in which it is no
/// orphan and has the same view; committed top actions replay serially in commit order; no two
/// nodes hold different outcomes of an action; a log that keeps a node's history of it gives what
/// the node keeps over a restart; and the report is that of this run. Its halts are those that the
/// script's stop lines make; without such a line it is the run without halts.
pub fn headline()
    ensures holds { Headline }
    ensures none { NoStopIsTheRun }
{}

/// Each run keeps what runs promise, whatever made it: its deeds are a legal history, committed top
/// actions replay serially in commit order, each action has its view in a legal history in which it
/// is no orphan, no two nodes hold different outcomes, and logs give what nodes keep.
pub fn promises_of_runs()
    ensures runs { RunsKeepPromises }
    ensures halted { HaltedRunsKeepPromises }
{}

/// In a run each action is decided once at most, no two events and no two nodes differ on it, and
/// of a committed top action all that it depends on is secured.
pub fn agreement()
    ensures once { EachIsDecidedOnce }
    ensures events { NoTwoEventsDiffer }
    ensures known { HeldWasDecided }
    ensures nodes { NoTwoNodesDiffer }
    ensures secured { CommittedIsSecured }
    ensures before { CommitNeedsSecured }
{}

/// After a crash the live operations at a site are those of families that were secured there, less
/// the aborted ones, and such an operation stays live through all later crashes, unless an ancestor
/// is aborted; and one whose answer an action got is live for good once the action has committed
/// with all its ancestors: so the list of what has committed has each such answer.
pub fn recovery_of_runs()
    ensures crash { CrashKeepsSecured }
    ensures others { CrashKeepsOthers }
    ensures secured { SecuredStays }
    ensures aborted { NoneIsAborted }
    ensures stays { CommittedStays }
    ensures covered { CommittedIsCovered }
{}

/// The same of runs in which nodes halt, taken events among them: views, the serial order, one
/// decision of each action, commits of what is secured, and what stays for good.
pub fn halted_laws()
    ensures replay { HaltedReplay }
    ensures views { HaltedViews }
    ensures once { HaltedDecidedOnce }
    ensures events { HaltedEventsAgree }
    ensures needs { HaltedCommitNeeds }
    ensures stays { HaltedStays }
{}

/// In runs in which nodes halt a node holds what stands in the past of its last event, a taken one
/// too; so no two nodes differ on an action, and a crash leaves what it leaves without halts.
pub fn halted_nodes()
    ensures past { HaltedHeldIsThePast }
    ensures known { HaltedHeldWasDecided }
    ensures nodes { HaltedNodesAgree }
    ensures secured { HaltedCommittedIsSecured }
    ensures crash { HaltedCrashKeepsSecured }
    ensures others { HaltedCrashKeepsOthers }
    ensures aborted { HaltedNoneIsAborted }
    ensures stays { HaltedSecuredStays }
    ensures covered { HaltedCommittedIsCovered }
{}

/// At the end of each run, with halts or without, a log that keeps the node's history, a taken
/// event at its end with it, gives what the node keeps over a restart: its count, what it knows,
/// and for each of its Secures the family's operations that were live just before.
pub fn kept_logs()
    ensures knowledge { LogsKeepKnowledge }
    ensures secured { LogsKeepSecured }
    ensures order { LogsKeepOrder }
    ensures kept { LogsKeep }
{}

/// For all bytes that spell a script, whichever inputs are halts, taken or lost: the same holds of
/// the run in which they are.
pub fn halted_headline()
    ensures { HaltedHeadline }
{}

/// A worked scene: an action that runs on after its parent has given it up. From the bytes of its
/// script to its report and to its witness, computed from the definitions alone.
pub fn worked_scene()
    ensures { IsWorked }
{}

/// Two worked scenes with counters: adders that stand in the way of a reader alone, and a sum that
/// wraps. From the bytes of their scripts to their reports, computed from the definitions alone.
pub fn worked_counters()
    ensures { CountersAreReported }
{}

/// Worked runs in which a node halts: a stop at each device call of the append of a commit, lost at
/// the first three, taken at the fourth, none after it.
pub fn worked_halts()
    ensures { AreWorked }
{}
