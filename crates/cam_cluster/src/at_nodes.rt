//! Where the actions are that the variables of a script's lines stand for, and those that work at a body, as laws.
ghost use Rattle.cam_cluster.specs.AtNodes.{LinesStayAtNodes, RunsAreAtNodes};
ghost use Rattle.cam_cluster.specs.BodiesAtNodes.{BodiesStayAtNodes, RunsHaveBodiesAtNodes};

/// The variables of a script's lines stand for actions whose homes are among the script's nodes:
/// this stays so with each line, and it is so after each number of lines, whichever inputs are
/// halts.
pub fn variables_at_nodes()
    ensures stay { LinesStayAtNodes }
    ensures runs { RunsAreAtNodes }
{}

/// The actions that work at a body have their homes among the script's nodes: this stays so with
/// each line, and it is so after each number of lines, whichever inputs are halts.
pub fn bodies_at_nodes()
    ensures stay { BodiesStayAtNodes }
    ensures runs { RunsHaveBodiesAtNodes }
{}
