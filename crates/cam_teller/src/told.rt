//! What is told of a script.

/// How the telling ended.
#[derive(Clone, Copy, Debug, PartialEq, Eq)]
pub enum Status {
    /// All is told, and all expectations hold.
    Fine,
    /// The script is refused, or an expectation does not hold.
    Finding,
}

/// What is told.
#[derive(Drop)]
pub struct Told {
    pub text: String,
    pub status: Status,
}
