//! Worked answers.
ghost use Rattle.cam_run.specs.Worked.{AreWorked};

/// The answers to worked scripts are their worked texts: computed from the definitions alone, from the bytes of each script.
pub fn worked_answers()
    ensures { AreWorked }
{}
