//! Why a line of a script makes no event.
ghost use Rattle.std.specs.Prelude.{◌≡◌};
ghost use Rattle.cam_sentences.specs.Labels.{label};
ghost use Rattle.cam_sentences.specs.Sentences.{refusal_text};

use cam_event::LineRefusal;

const UNBOUND: &str =
    "The variable stands for no action: the line that binds it was refused or stopped.";

const NO_LETTER: &str = "There is no such letter: none of this number was sent, or it was lost.";

const HALTED: &str = "The node that would act is halted until its next restart line.";

const ENDED: &str = "The action has asked to commit or abort, or its home has restarted since.";

const OPEN_CALL: &str = "A call of the action is not answered yet.";

const OPEN_CHILD: &str = "A child of the action is not decided yet.";

const NOT_OPEN: &str = "The action is not created yet; or the child is not an open child of it.";

const TOO_DEEP: &str = "The action's name has 8 parts, and a child's would have one more.";

const NOTHING_TO_DO: &str =
    "A node tells itself nothing, and asks only after a family whose outcome it misses.";

/// The label by which the report and the pages call a refusal: `L1` to `L9`.
pub fn refusal_label(refusal: LineRefusal) -> &'static str
    ensures { result.now ≡ label refusal }
{
    match refusal {
        LineRefusal::Unbound => "L1",
        LineRefusal::NoLetter => "L2",
        LineRefusal::Halted => "L3",
        LineRefusal::Ended => "L4",
        LineRefusal::OpenCall => "L5",
        LineRefusal::OpenChild => "L6",
        LineRefusal::NotOpen => "L7",
        LineRefusal::TooDeep => "L8",
        LineRefusal::NothingToDo => "L9",
    }
}

/// What a refusal says.
pub fn refusal_sentence(refusal: LineRefusal) -> &'static str
    ensures { result.now ≡ refusal_text refusal }
{
    match refusal {
        LineRefusal::Unbound => UNBOUND,
        LineRefusal::NoLetter => NO_LETTER,
        LineRefusal::Halted => HALTED,
        LineRefusal::Ended => ENDED,
        LineRefusal::OpenCall => OPEN_CALL,
        LineRefusal::OpenChild => OPEN_CHILD,
        LineRefusal::NotOpen => NOT_OPEN,
        LineRefusal::TooDeep => TOO_DEEP,
        LineRefusal::NothingToDo => NOTHING_TO_DO,
    }
}
