//! What may be asked of a script.

/// What is asked of a script.
#[derive(Clone, Copy, Debug, PartialEq, Eq)]
pub enum Question<'a> {
    /// The run in words.
    Explain,
    /// The run in columns.
    Columns,
    /// The run as a picture, in which this is lit.
    Draw(Lit<'a>),
    /// The run as a log of ShiViz.
    Shiviz,
    /// Whether the run keeps the script's expectations.
    Check,
    /// The smallest script by taking lines away, whose report still has this line.
    Shrink(&'a str),
    /// To what ends the orders of the lines lead.
    Orders,
    /// To what ends one fault more leads, at each place: which faults, and at which nodes, say these
    /// options.
    Sweep(&'a [String]),
    /// In what the runs of two scripts differ.
    Compare,
}

/// What a picture lights up, in words.
#[derive(Clone, Copy, Debug, PartialEq, Eq)]
pub enum Lit<'a> {
    /// All of the run.
    All,
    /// What the action of this name saw, and all that happened before that.
    Action(&'a str),
    /// How the event of this number, which is written in digits, came to stop an action.
    Stop(&'a str),
}
