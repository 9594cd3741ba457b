//! Worked runs by topic, and scripts that are refused.
//!
//! A topic is one text. A run begins with a line that says, after `== `, what it shows. Then come the lines of its script, and after `--` those of
//! its report.

mod actions;
mod bodies;
mod commits;
mod crash_orphans;
mod cuts;
mod disks;
mod late;
mod locks;
mod objects;
mod orphans;
mod repeats;
mod restarts;

/// The topics.
pub(super) const ROWS: &[&str] = &[
    actions::ROWS,
    locks::ROWS,
    objects::ROWS,
    orphans::ROWS,
    crash_orphans::ROWS,
    repeats::ROWS,
    late::ROWS,
    cuts::ROWS,
    commits::ROWS,
    restarts::ROWS,
    disks::ROWS,
    bodies::ROWS,
];

/// How many runs stand there.
pub(super) const COUNT: usize = 70;

/// Scripts, each with the line that tells the place and the cause of its first fault.
pub(super) const REFUSED: &[(&str, &str)] = &[
    // no line at all
    ("", "refused 1 1 S10\n"),
    // more than eight nodes
    ("nodes 9", "refused 1 7 S6\n"),
    // a word after the end of a line
    ("nodes 2 3", "refused 1 9 S5\n"),
    // a line that there is not, after an empty one
    ("nodes 1\n\nfoo\n", "refused 3 1 S3\n"),
    // a word is missing
    ("nodes 1\nbegin A", "refused 2 8 S4\n"),
    // a node that there is not
    ("nodes 1\nbegin A 2", "refused 2 9 S11\n"),
    // an action that no line has begun
    ("nodes 1\ncall A x read", "refused 2 6 S9\n"),
    // an object that no line has declared: the fault of the later line does not count
    (
        "nodes 1\nobject x 1 register 0\n# a comment\nbegin A 1\ncall A y read\nfoo\n",
        "refused 5 8 S9\n",
    ),
];
