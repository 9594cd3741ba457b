//! Why a line of a run by time makes no event.
use cam_event::LineRefusal;

/// A refusal without time; or the home's moment is not below the action's quiesce moment; or it is
/// still below that of the action that would be aborted. The last two with both moments.
#[derive(Clone, Copy, Debug)]
pub(crate) enum TimedRefusal {
    Untimed(LineRefusal),
    Quiesced { moment: u64, until: u64 },
    TooEarly { moment: u64, until: u64 },
}
