// What a node's log keeps, as laws.
ghost use Rattle.cam_node.specs.RestartLaws.{LogsOfHistoriesRestart};
ghost use Rattle.cam_node.specs.LogLaws.{FormattedKeeps, EntryKeeps, NoEntryKeeps, TakenIsTheSame, TakenMayBeLogged, StepsAreOwn, RestartKeeps, RestartKnows};

/// What a node's log says keeps the node's history: at first none; with the entry of an event the longer one, and so with the entry and what
/// was taken of the event; and where an event has no entry, without one.
pub fn logs_keep_histories()
    ensures formatted { FormattedKeeps }
    ensures entry { EntryKeeps }
    ensures none { NoEntryKeeps }
    ensures taken { TakenIsTheSame }
    ensures taken_may { TakenMayBeLogged }
    ensures own { StepsAreOwn }
{}

/// What a restart leaves in the log keeps the history with the restart: the entry of all that is kept, alone, or the raised count after the
/// rest; and the node knows then what is recovered with the raised count.
pub fn restarts_keep_histories()
    ensures keeps { RestartKeeps }
    ensures knows { RestartKnows }
{}

/// A restart takes the log of each history of the node, where numbers are left: its count can be raised, and no index is above 499,999,999.
pub fn logs_of_histories_restart()
    ensures { LogsOfHistoriesRestart }
{}
