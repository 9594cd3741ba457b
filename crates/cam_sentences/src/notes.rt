//! What an event says beside its deeds.
ghost use Rattle.std.specs.Prelude.{◌≡◌};
ghost use Rattle.cam_sentences.specs.Sentences.{note_text};

use cam_event::Note;

const STOPPED: &str = "The action is an orphan, so it is stopped.";

const MISSED: &str = "The letter was meant for the node before its restart.";

const AGAIN: &str = "The letter came before: what was done then is not done again.";

const ENDED: &str = "The action or an ancestor is known to have committed: the call is old.";

const LATE: &str = "The letter comes too late to change anything.";

const PREPARING: &str = "The nodes on which the family depends are asked for their votes.";

const VOTED: &str = "A vote is counted; more are needed.";

/// What a note says; nothing where it is plain.
pub fn note_sentence(note: &Note) -> &'static str
    ensures { result.now ≡ note_text note.now }
{
    match note {
        Note::Plain => "",
        Note::Stopped(..) => STOPPED,
        Note::Missed => MISSED,
        Note::Again => AGAIN,
        Note::Ended => ENDED,
        Note::Late => LATE,
        Note::Preparing(_) => PREPARING,
        Note::Voted => VOTED,
    }
}
