//! The laws of families in commit: they answer as the node's history does, event for event.
ghost use Rattle.cam_commit.specs.Events.{KeepsOverEvent, QuietKeeps, PrepareKeeps, VoteKeeps};
ghost use Rattle.cam_commit.specs.Events.{SecureKeeps, RecoversFamilies};
ghost use Rattle.cam_commit.specs.Stepping.{FinishStepKeeps, PrepareStepKeeps, VoteStepKeeps};
ghost use Rattle.cam_commit.specs.Stepping.{OtherStepKeeps};
ghost use Rattle.cam_commit.specs.Steps.{SightIsAnswered, TopFinishIsRule, TopQuitIsRule};
ghost use Rattle.cam_commit.specs.Steps.{AskedIsRule, VotedIsRule, QueriedIsRule, StepsAreOfKind};

/// After one more event, which is no restart, the families answer as the node's history does: where
/// each is what the event made of it.
pub fn one_more_event()
    ensures { KeepsOverEvent }
{}

/// The same by the call that the node makes at an event: none, or `prepare`, `vote` or `secured`.
pub fn one_more_call()
    ensures none { QuietKeeps }
    ensures prepare { PrepareKeeps }
    ensures vote { VoteKeeps }
    ensures secured { SecureKeeps }
{}

/// After one more step the families answer as the longer history does: at a finish of a top action,
/// a prepare and a vote where the node made the call that stands for it, or none if it is late,
/// and else where it made none. What a node is preparing is of its present count.
pub fn one_more_step()
    ensures finish { FinishStepKeeps }
    ensures prepare { PrepareStepKeeps }
    ensures vote { VoteStepKeeps }
    ensures other { OtherStepKeeps }
{}

/// After a restart the families that the log recovered answer as the node's history does.
pub fn after_restart()
    ensures { RecoversFamilies }
{}

/// Families that answer as a node's history does answer as what the node goes by, whatever a letter
/// brings; and then what the node does with a finish or a quit of a top action, with a prepare, a
/// vote or a query is what they answer.
pub fn calls_are_rules()
    ensures sight { SightIsAnswered }
    ensures finish { TopFinishIsRule }
    ensures quit { TopQuitIsRule }
    ensures asked { AskedIsRule }
    ensures voted { VotedIsRule }
    ensures queried { QueriedIsRule }
{}

/// Only a restart crashes a node, only a finish begins a family there, only a prepare secures one,
/// and its Secures are its own.
pub fn kinds_of_steps()
    ensures { StepsAreOfKind }
{}
