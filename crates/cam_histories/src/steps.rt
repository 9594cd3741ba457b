// One more input of a run, as laws.
ghost use Rattle.cam_histories.specs.Counted.{AskedMayRun, NodesCountFew};
ghost use Rattle.cam_histories.specs.InputLaws.{InputsLeadOn, InputsStand};
ghost use Rattle.cam_histories.specs.LineLaws.{DeliveriesStand, LossesStand, LostHaltsStand};
ghost use Rattle.cam_histories.specs.LineLaws.{NextsAreLetters, NoneIsNext, OthersStand};
ghost use Rattle.cam_histories.specs.LineLaws.{RestartsStand};
ghost use Rattle.cam_histories.specs.Lines.{LinesAreTested};
ghost use Rattle.cam_histories.specs.LogEntries.{AddsAlike, EntriesAdd, EntriesAreAppended};
ghost use Rattle.cam_histories.specs.ReadBack.{LettersAreReadBack, LogsKeepAsGood};
ghost use Rattle.cam_histories.specs.ReadBack.{NodesStandAsGood};
ghost use Rattle.cam_histories.specs.Stepping.{LettersArePut, OwnInputsArePut, RestartsLeadOn};
ghost use Rattle.cam_histories.specs.Stepping.{StepsLeadOn};

/// What is read from the bytes of a letter is the letter that was sent, but for the order of its
/// outcomes, and may be put to its receiver. That order changes nothing of what a node, or its log,
/// stands for then.
pub fn letters_read()
    ensures back { LettersAreReadBack }
    ensures nodes { NodesStandAsGood }
    ensures logs { LogsKeepAsGood }
{}

/// What is put to a node is its own input that may come, or a letter that was read back from its
/// bytes. Then the step of a node that is not halted, and a restart, are the run's next event. The
/// node then stands for what it has done, and no other node has done more.
pub fn node_steps()
    ensures steps { StepsLeadOn }
    ensures restarts { RestartsLeadOn }
    ensures letters { LettersArePut }
    ensures own { OwnInputsArePut }
{}

/// An input that may come leads on to what is under way. Where it is no halt the nodes and their
/// logs stand for the run then, and the letters of the event are put next.
pub fn run_inputs()
    ensures lead { InputsLeadOn }
    ensures stand { InputsStand }
{}

/// The letter that the network names next is the run's that waits, and none if none waits. A
/// delivery that is no halt leaves the nodes, their logs and the network standing for the run, and
/// so does a loss, and what changes neither events nor letters nor which nodes are halted.
pub fn run_lines()
    ensures next { NextsAreLetters }
    ensures none { NoneIsNext }
    ensures delivery { DeliveriesStand }
    ensures loss { LossesStand }
    ensures others { OthersStand }
{}

/// Where an input is a halt that is lost, its node is no longer asked until it restarts. A restart
/// from a log that keeps its history in the run leaves the nodes, their logs and the network
/// standing for the run.
pub fn run_halts()
    ensures lost { LostHaltsStand }
    ensures restart { RestartsStand }
{}

/// A line is refused by the first of its tests that fails, whichever inputs are halts.
pub fn line_tests()
    ensures { LinesAreTested }
{}

/// A node of a run has counted no more than there are events, so in a run that is not too long
/// numbers are left for what it begins, asks for and calls. An action of which a request is not
/// refused may run at its home.
pub fn numbers_left()
    ensures few { NodesCountFew }
    ensures runs { AskedMayRun }
{}

/// The event of an input has a log entry exactly if the run says that it appends one. Such an event
/// of a node that is not restarted adds to what the log keeps: an outcome, a count or a secured
/// family that it did not have. So the log tells whether the entry reached it.
pub fn log_entries()
    ensures appended { EntriesAreAppended }
    ensures add { EntriesAdd }
    ensures alike { AddsAlike }
{}
