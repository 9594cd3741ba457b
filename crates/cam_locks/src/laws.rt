//! What is proved of what was secured along the run of a site.
ghost use Rattle.cam_locks.specs.Secured.{GrantsLeadOn, OutcomesLeadOn, LaterLeadsOn, SecuredAlongCanBeRestored};

/// A grant, a commit and an abort lead to a later moment of a site's run, and from there on to later ones. What was secured of several
/// families between two restarts, of each once, can be restored together.
pub fn secured_along_a_run()
    ensures grants { GrantsLeadOn }
    ensures outcomes { OutcomesLeadOn }
    ensures later { LaterLeadsOn }
    ensures restorable { SecuredAlongCanBeRestored }
{}
