//! The words that begin the lines of a script by time.
ghost use Rattle.std.specs.Prelude.{◌≡◌};
ghost use Rattle.cam_words.specs.Words.{looked_up};
ghost use Rattle.cam_timed.specs.TimedGrammar.{timed_forms, timed_may_stand};

use cam_script::{Form, Section, find};

/// The lines of a script by time, each named by its first word.
#[derive(Clone, Copy)]
pub(crate) enum TimedForm {
    Nodes,
    Object,
    Begin,
    Ask,
    Tick,
    Expire,
    /// A step that is read as in a script without time.
    Untimed(Form),
}

/// The lines, each with the word that begins it.
const FORMS: [(&str, TimedForm); 15] = [
    ("nodes", TimedForm::Nodes),
    ("object", TimedForm::Object),
    ("begin", TimedForm::Begin),
    ("ask", TimedForm::Ask),
    ("tick", TimedForm::Tick),
    ("expire", TimedForm::Expire),
    ("call", TimedForm::Untimed(Form::Call)),
    ("commit", TimedForm::Untimed(Form::Commit)),
    ("abort", TimedForm::Untimed(Form::Abort)),
    ("giveup", TimedForm::Untimed(Form::GiveUp)),
    ("deliver", TimedForm::Untimed(Form::Deliver)),
    ("lose", TimedForm::Untimed(Form::Lose)),
    ("drain", TimedForm::Untimed(Form::Drain)),
    ("tell", TimedForm::Untimed(Form::Tell)),
    ("query", TimedForm::Untimed(Form::Query)),
];

/// The line that a word begins.
pub(crate) fn form_of(word: &[u8]) -> Option<TimedForm>
    ensures { result ≡ looked_up timed_forms word.now }
{
    find(&FORMS, word)
}

/// Which lines may come where.
pub(crate) fn may_stand(section: Section, form: TimedForm) -> bool
    ensures { result ≡ timed_may_stand section form }
{
    match (section, form) {
        (Section::AtNodes, TimedForm::Nodes) => true,
        (Section::AtDeclarations, TimedForm::Nodes) => false,
        (Section::AtDeclarations, _) => true,
        (Section::AtSteps, TimedForm::Nodes | TimedForm::Object) => false,
        (Section::AtSteps, _) => true,
        _ => false,
    }
}
