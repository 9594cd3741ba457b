//! What the lines of a script come to, what a halt that is found to be taken changes, and which actions a play may pass over, as laws.
ghost use Rattle.cam_cluster.specs.FoundHalts.{FoundHaltsDiffer, FoundLinesPutIn, LaterHaltsStay};
ghost use Rattle.cam_cluster.specs.FoundHalts.{LinesAreUnderHalts};
ghost use Rattle.cam_cluster.specs.Over.{OverGoesNotOn, OverStays, RoundsPassOver};
ghost use Rattle.cam_cluster.specs.Seen.{AllLinesAreTheRun, LinesMakeTheRun};

/// All lines of a script, one after another, are its run, whichever inputs are halts. So a cluster
/// that has taken all of them has run it.
pub fn all_lines()
    ensures lines { LinesMakeTheRun }
    ensures run { AllLinesAreTheRun }
{}

/// A node is halted since its last input, and a restart finds that its log took that event. This
/// changes only the halts at that input, the event, and the mark of the halt. Both runs are under
/// way. Halts at later inputs change nothing of them.
pub fn found_halts()
    ensures differ { FoundHaltsDiffer }
    ensures lines { FoundLinesPutIn }
    ensures under { LinesAreUnderHalts }
    ensures later { LaterHaltsStay }
{}

/// An action is over once it has asked to commit or to abort, or was stopped at its home, or its home
/// has crashed. It stays so, and makes no request in a round. So a round may leave out those that are
/// over before it.
pub fn over_for_good()
    ensures stays { OverStays }
    ensures rests { OverGoesNotOn }
    ensures rounds { RoundsPassOver }
{}
