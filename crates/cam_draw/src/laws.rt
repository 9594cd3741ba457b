//! What an action sees, and its view.
ghost use Rattle.cam_draw.specs.Light.{StepsAreSeen};

/// What gives a step of an action's view is among what it sees: so the past of its last step is lit.
#[tactic(auto, using(crate::proofs::Sights::steps_are_seen))]
pub fn seen()
    ensures { StepsAreSeen }
{}
