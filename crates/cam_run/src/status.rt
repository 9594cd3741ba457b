//! How the program ends.
ghost use Rattle.std.specs.Prelude.{◌≡◌};
ghost use Rattle.cam_run.specs.Status.{number};

/// How the program ended.
#[derive(Clone, Copy, Debug, PartialEq, Eq)]
pub enum Status {
    /// The text of the command was written.
    Done,
    /// The words are no form.
    Usage,
    /// The script, or the image of a log, was refused.
    Refused,
    /// The source failed.
    ReadFault,
    /// The sink failed.
    WriteFault,
    /// The disk of a node failed by itself.
    DiskFault,
    /// Out of memory.
    NoMemory,
    /// The run has no such action, or no such stop.
    Missing,
}

impl Status {
    /// The number with which the program ends.
    pub fn number(self) -> u8
        ensures { result ≡ number self }
    {
        match self {
            Status::Done => 0,
            Status::Usage => 2,
            Status::Refused => 3,
            Status::ReadFault => 4,
            Status::WriteFault => 5,
            Status::DiskFault => 6,
            Status::NoMemory => 7,
            Status::Missing => 8,
        }
    }
}
