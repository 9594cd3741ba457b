//! The lines of a script by time that are not read as without time.
ghost use Rattle.std.specs.Prelude.{◌≡◌, ◌≤◌, length, Ok, Err, IfOk, IsTrue};
ghost use Rattle.cam_words.specs.Words.{text_of, IsFurther, IsInLine};
ghost use Rattle.cam_words.specs.Numbers.{is_name};
ghost use Rattle.cam_script.specs.Parse.{IsWithin};
ghost use Rattle.cam_timed.specs.TimedLines.{moment_word, begin_by_time, ask_by_time, tick_line, expire_line, with_time, untimed_line, timed_act_line};

use crate::TimedAct;
use crate::forms::TimedForm;
use cam_script::{Act, Form, SoFar, Use};
use cam_words::{Cause, Line, ScriptFault, Word};

/// The last moment that a script names.
const LAST_MOMENT: u32 = 1_000_000_000;

/// A moment, and the place after it.
fn moment_word(line: &Line, at: usize) -> Result<(u64, usize), ScriptFault>
    requires { at ≤ length line.now.bytes.now }
    ensures value { result ≡ moment_word line.now.number at line.now.bytes.now }
    ensures end { IfOk result (λ read. IsFurther at line.now.bytes.now read.1) }
{
    let (moment, at) = line.number_at(at, 1, LAST_MOMENT)?;
    Ok((u64::from(moment), at))
}

/// `begin A NODE UNTIL`: the word of the variable, and the step.
#[tactic(auto, unfolding(crate::specs::TimedLines::begin_by_time))]
pub(crate) fn begin_line(
    declared: &SoFar,
    line: &Line,
    at: usize,
) -> Result<(Word, TimedAct), ScriptFault>
    requires { at ≤ length line.now.bytes.now }
    ensures value { result ≡ begin_by_time declared.now line.now.number at line.now.bytes.now }
    ensures word { IfOk result (λ said. IsInLine line.now.bytes.now said.0) }
    ensures name { IfOk result (λ said. IsTrue (is_name (text_of said.0 line.now.bytes.now))) }
{
    let name = declared.new_variable_at(line, at)?;
    let (node, at) = declared.node_at(line, name.end)?;
    let (until, at) = moment_word(line, at)?;
    line.end_at(at)?;
    Ok((name, TimedAct::Begin { node, until }))
}

/// `ask A B NODE UNTIL`: the word of the variable, and the step.
#[tactic(auto, unfolding(crate::specs::TimedLines::ask_by_time))]
pub(crate) fn ask_line(
    declared: &SoFar,
    line: &Line,
    at: usize,
) -> Result<(Word, TimedAct), ScriptFault>
    requires { at ≤ length line.now.bytes.now }
    ensures value { result ≡ ask_by_time declared.now line.now.number at line.now.bytes.now }
    ensures word { IfOk result (λ said. IsInLine line.now.bytes.now said.0) }
    ensures name { IfOk result (λ said. IsTrue (is_name (text_of said.0 line.now.bytes.now))) }
{
    let (parent, at) = declared.variable_at(line, at, Use::Request)?;
    let name = declared.new_variable_at(line, at)?;
    let (node, at) = declared.node_at(line, name.end)?;
    let (until, at) = moment_word(line, at)?;
    line.end_at(at)?;
    Ok((
        name,
        TimedAct::Ask {
            parent,
            node,
            until,
        },
    ))
}

/// The step of a line that binds no variable.
pub(crate) fn act_line(
    declared: &SoFar,
    form: TimedForm,
    line: &Line,
    at: usize,
) -> Result<TimedAct, ScriptFault>
    requires within { IsWithin declared.now }
    requires place { at ≤ length line.now.bytes.now }
    ensures { result ≡ timed_act_line declared.now form line.now.number at line.now.bytes.now }
{
    match form {
        TimedForm::Tick => tick_line(declared, line, at),
        TimedForm::Expire => expire_line(declared, line, at),
        TimedForm::Untimed(form) => untimed_line(declared, form, line, at),
        _ => Err(line.fault(0, Cause::Misplaced)),
    }
}

/// `tick NODE MOMENT`
#[tactic(auto, unfolding(crate::specs::TimedLines::tick_line))]
fn tick_line(declared: &SoFar, line: &Line, at: usize) -> Result<TimedAct, ScriptFault>
    requires { at ≤ length line.now.bytes.now }
    ensures { result ≡ tick_line declared.now line.now.number at line.now.bytes.now }
{
    let (node, at) = declared.node_at(line, at)?;
    let (moment, at) = moment_word(line, at)?;
    line.end_at(at)?;
    Ok(TimedAct::Tick { node, moment })
}

/// `expire A`
#[tactic(auto, unfolding(crate::specs::TimedLines::expire_line))]
fn expire_line(declared: &SoFar, line: &Line, at: usize) -> Result<TimedAct, ScriptFault>
    requires { at ≤ length line.now.bytes.now }
    ensures { result ≡ expire_line declared.now line.now.number at line.now.bytes.now }
{
    let (action, at) = declared.variable_at(line, at, Use::Begun)?;
    line.end_at(at)?;
    Ok(TimedAct::Expire { action })
}

/// A step that is read as without time.
#[tactic(auto, unfolding(crate::specs::TimedLines::untimed_line))]
fn untimed_line(
    declared: &SoFar,
    form: Form,
    line: &Line,
    at: usize,
) -> Result<TimedAct, ScriptFault>
    requires within { IsWithin declared.now }
    requires place { at ≤ length line.now.bytes.now }
    ensures { result ≡ untimed_line declared.now form line.now.number at line.now.bytes.now }
{
    let act = declared.act_line(form, line, at)?;
    match with_time(act) {
        Some(act) => Ok(act),
        None => Err(line.fault(0, Cause::Misplaced)),
    }
}

/// A step without time, if scripts by time have it.
fn with_time(act: Act) -> Option<TimedAct>
    ensures { result ≡ with_time act }
{
    match act {
        Act::Call { action, object, op } => Some(TimedAct::Call { action, object, op }),
        Act::Commit { action, value } => Some(TimedAct::Commit { action, value }),
        Act::Abort { action } => Some(TimedAct::Abort { action }),
        Act::GiveUp { action, child } => Some(TimedAct::GiveUp { action, child }),
        Act::Deliver { letter } => Some(TimedAct::Deliver { letter }),
        Act::Lose { letter } => Some(TimedAct::Lose { letter }),
        Act::Drain => Some(TimedAct::Drain),
        Act::Tell { node, to } => Some(TimedAct::Tell { node, to }),
        Act::Query { node, action } => Some(TimedAct::Query { node, action }),
        _ => None,
    }
}
