//! The kinds of deeds, by which a fault tells the line that a deed does not meet.
ghost use Rattle.std.specs.Prelude.{◌≡◌};
ghost use Rattle.cam_plain.specs.Legal.{kind_of, number_of_kind};

use cam_event::Deed;

/// The kind of a deed. Each has a line of the plain machine, which says what such a deed needs of those before it.
#[derive(Clone, Copy, Debug, PartialEq, Eq)]
pub enum DeedKind {
    Create = 1,
    Ask,
    Call,
    Perform,
    Bounce,
    Got,
    AskCommit,
    AskAbort,
    Commit,
    Abort,
    Secure,
    Inform,
    Crash,
}

impl DeedKind {
    /// The kind of a deed.
    pub fn of(deed: &Deed) -> DeedKind
        ensures { result ≡ kind_of deed.now }
    {
        match deed {
            Deed::Create { .. } => DeedKind::Create,
            Deed::Ask { .. } => DeedKind::Ask,
            Deed::Call { .. } => DeedKind::Call,
            Deed::Perform { .. } => DeedKind::Perform,
            Deed::Bounce { .. } => DeedKind::Bounce,
            Deed::Got { .. } => DeedKind::Got,
            Deed::AskCommit { .. } => DeedKind::AskCommit,
            Deed::AskAbort { .. } => DeedKind::AskAbort,
            Deed::Commit { .. } => DeedKind::Commit,
            Deed::Abort { .. } => DeedKind::Abort,
            Deed::Secure { .. } => DeedKind::Secure,
            Deed::Inform { .. } => DeedKind::Inform,
            Deed::Crash { .. } => DeedKind::Crash,
        }
    }

    /// The number of the kind's line: its place in the list above, from 1.
    pub fn number(self) -> u8
        ensures { result ≡ number_of_kind self }
    {
        self as u8
    }
}
