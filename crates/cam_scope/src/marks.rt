//! The marks that one line left.
use cam_base::NoMemory;
use cam_event::Mark;
use std::alloc::Global;

/// How the step of a halted node ended.
#[derive(Clone, Copy, Debug, PartialEq, Eq)]
pub(crate) enum Halt {
    Taken,
    Lost,
}

/// The marks of one line, in order.
#[derive(Drop)]
pub(crate) struct LineMarks {
    pub(crate) marks: Vec<Mark>,
}

/// The line that left a mark.
fn line_of(mark: &Mark) -> u32 {
    match mark {
        Mark::Refused { line, .. } | Mark::Cut { line, .. } | Mark::Halted { line, .. } => *line,
    }
}

impl LineMarks {
    /// The marks of a line, which begin at a place of the list, and the place behind them.
    pub(crate) fn of(
        alloc: Global,
        marks: &[Mark],
        from: usize,
        line: u32,
    ) -> Result<(LineMarks, usize), NoMemory> {
        let mut found = Vec::new(alloc);
        let mut behind = from;
        for at in from..marks.len() {
            let mark = &marks[at];
            if line_of(mark) != line {
                break;
            }
            found.push(*mark)?;
            behind = at + 1;
        }
        Ok((LineMarks { marks: found }, behind))
    }

    /// Whether the line, if it is one of one event, made none.
    pub(crate) fn are_blocking(&self) -> bool {
        for mark in &self.marks {
            match mark {
                Mark::Refused { .. } | Mark::Cut { .. } => return true,
                Mark::Halted { taken, .. } => if !*taken {
                    return true;
                },
            }
        }
        false
    }

    /// Whether a node halted in this line and its step was lost.
    pub(crate) fn has_lost_halt(&self) -> bool {
        for mark in &self.marks {
            if let Mark::Halted { taken, .. } = mark {
                if !*taken {
                    return true;
                }
            }
        }
        false
    }

    /// How the halt of a node ended, if the node halted in this line.
    pub(crate) fn halt_of(&self, node: u8) -> Option<Halt> {
        for mark in &self.marks {
            if let Mark::Halted {
                node: halted,
                taken,
                ..
            } = mark
            {
                if *halted == node {
                    return Some(if *taken { Halt::Taken } else { Halt::Lost });
                }
            }
        }
        None
    }
}
