//! What is proved of pasts, of letters, and of the readings of a run.
ghost use Rattle.cam_event.specs.Agreement.{AbortsAgree, CommitsAgree, CountsAgree};
ghost use Rattle.cam_event.specs.Agreement.{KnowledgeIsThePast, InformsAgree, RefusalsAgree, OwnEventsAgree};
ghost use Rattle.cam_event.specs.Pasts.{PastsAreClosed, PastsAreLeast, PastsHaveTheirs, SetsWithPastsAreClosed};

/// The past of an event is the least set that has the event and is closed under pasts.
pub fn pasts()
    ensures theirs { PastsHaveTheirs }
    ensures closed { PastsAreClosed }
    ensures least { PastsAreLeast }
    ensures closes { SetsWithPastsAreClosed }
{}

/// A letter that carries all that its sender holds carries the aborts, the commits and the counts in the
/// past of the event that sent it.
pub fn letters_carry_their_past()
    ensures aborts { AbortsAgree }
    ensures commits { CommitsAgree }
    ensures counts { CountsAgree }
{}

/// If letters carry all that their senders hold, a node does the same by what it holds as by the
/// pasts of events: in runs what it goes by is what is in its base, the first Informs and the
/// refusals of requests are the same, and so are the events for which its own deeds are enough.
pub fn readings()
    ensures knowledge { KnowledgeIsThePast }
    ensures informs { InformsAgree }
    ensures refusals { RefusalsAgree }
    ensures own_events { OwnEventsAgree }
{}
