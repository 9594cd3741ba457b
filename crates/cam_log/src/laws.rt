//! What is proved of the bytes of logs.
ghost use Rattle.cam_log.specs.Laws.{LogsAreRead, WrittenIsRead, ClosedIsNotThere, OpenedIsThere, ReadIsLog};

/// A log that was written is read again. An entry is there once its gate is open, and not before. What is
/// read is a log of exactly these entries.
pub fn images()
    ensures logs { LogsAreRead }
    ensures written { WrittenIsRead }
    ensures closed { ClosedIsNotThere }
    ensures opened { OpenedIsThere }
    ensures exactly { ReadIsLog }
{}
