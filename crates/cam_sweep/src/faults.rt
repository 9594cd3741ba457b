//! Scripts with one fault more than another.
use crate::moments::{Moment, Moments, moments_of};
use crate::variant::{Variant, Variants};
use cam_base::NoMemory;
use cam_event::{Mark, RunRecord};
use cam_scope::{Lines, Scope, push_number, scope_of};
use cam_script::{Script, ScriptFault, parse};
use cam_whatif::record_of;
use std::alloc::Global;

/// Which faults come, and at which nodes.
#[derive(Drop)]
pub struct Faults {
    pub restarts: bool,
    pub stops: bool,
    pub losses: bool,
    pub repeats: bool,
    /// The nodes that restart, or whose disks stop; all if there are none.
    pub nodes: Vec<u8>,
}

/// The most calls of a disk before it stops.
const MOST_CALLS: u32 = 1000;

/// Scripts while they are made from one: its lines, and what was made so far.
#[derive(Drop)]
struct Making<'a, 'b> {
    alloc: Global,
    source: &'a Lines<'b>,
    variants: Variants,
}

/// Whether a node is one of these, or none is named.
fn is_named(nodes: &[u8], node: u8) -> bool {
    nodes.is_empty() || nodes.contains(&node)
}

/// A word and up to two numbers, as a line of a script.
fn line_of(alloc: Global, word: &str, numbers: &[u64]) -> Result<String, NoMemory> {
    let mut line = String::new(alloc);
    line.push_str(word)?;
    for number in numbers {
        line.push_str(" ")?;
        push_number(&mut line, *number)?;
    }
    Ok(line)
}

/// Appends the lines of these numbers.
fn push_lines(
    source: &Lines<'_>,
    first: usize,
    behind: usize,
    text: &mut Vec<u8>,
) -> Result<(), NoMemory> {
    for number in first..behind {
        text.extend_from_slice(source.line(u32::try_from(number).unwrap_or(u32::MAX)))?;
        text.push(b'\n')?;
    }
    Ok(())
}

impl<'a, 'b> Making<'a, 'b> {
    /// How a script is made that has a line more at a moment, in words.
    fn made(&self, line: &str, moment: &Moment) -> Result<String, NoMemory> {
        let mut made = String::new(self.alloc);
        made.push_str("`")?;
        made.push_str(line)?;
        made.push_str("` behind line ")?;
        push_number(&mut made, u64::from(moment.line))?;
        match moment.unfolded.as_str().lines().last() {
            Some(last) => {
                made.push_str(" and `")?;
                made.push_str(last)?;
                made.push_str("`")?;
            }
            None => {}
        }
        Ok(made)
    }

    /// The script with a line more at a moment. What the next line has made before it stands there as
    /// lines of their own.
    fn with_line(&mut self, line: &str, moment: &Moment) -> Result<(), NoMemory> {
        let mut text = Vec::new(self.alloc);
        let behind = (moment.line as usize).saturating_add(1);
        push_lines(self.source, 1, behind, &mut text)?;
        text.extend_from_slice(moment.unfolded.as_bytes())?;
        text.extend_from_slice(line.as_bytes())?;
        text.push(b'\n')?;
        push_lines(
            self.source,
            behind,
            self.source.count().saturating_add(1),
            &mut text,
        )?;
        let made = self.made(line, moment)?;
        self.variants.push(Variant { made, text })
    }

    /// The restart of a node at each moment.
    fn restart(&mut self, moments: &Moments, node: u8) -> Result<(), NoMemory> {
        let line = line_of(self.alloc, "restart", &[u64::from(node)])?;
        for moment in moments {
            self.with_line(line.as_str(), moment)?;
        }
        Ok(())
    }

    /// The loss of each letter, right behind the event that sends it.
    fn lose(&mut self, moments: &Moments, scope: &Scope) -> Result<(), NoMemory> {
        for moment in moments {
            let Some(number) = moment.event else {
                continue;
            };
            if let Some(event) = scope.events.get(number) {
                for sent in 0..event.sent {
                    let letter = event.sent_before.saturating_add(sent).saturating_add(1);
                    let line = line_of(self.alloc, "lose", &[letter as u64])?;
                    self.with_line(line.as_str(), moment)?;
                }
            }
        }
        Ok(())
    }

    /// The repeat of each letter, right behind the event that receives it.
    fn repeat(&mut self, moments: &Moments, scope: &Scope) -> Result<(), NoMemory> {
        for moment in moments {
            let Some(number) = moment.event else {
                continue;
            };
            if let Some(event) = scope.events.get(number) {
                if let Some(letter) = event.received {
                    let line = line_of(self.alloc, "deliver", &[letter as u64])?;
                    self.with_line(line.as_str(), moment)?;
                }
            }
        }
        Ok(())
    }

    /// The lines, with one more before the first step.
    fn with_first(&self, first: usize, line: &str) -> Result<Vec<u8>, NoMemory> {
        let mut text = Vec::new(self.alloc);
        push_lines(self.source, 1, first, &mut text)?;
        text.extend_from_slice(line.as_bytes())?;
        text.push(b'\n')?;
        push_lines(
            self.source,
            first,
            self.source.count().saturating_add(1),
            &mut text,
        )?;
        Ok(text)
    }

    /// The stop of a node's disk before the first step, after each number of calls until it halts no
    /// more. The node restarts behind the line in which it halts.
    fn stop(&mut self, first: usize, node: u8) -> Result<(), NoMemory> {
        for calls in 0..MOST_CALLS {
            let line = line_of(self.alloc, "stop", &[u64::from(node), u64::from(calls)])?;
            let text = self.with_first(first, line.as_str())?;
            let Some(halted) = halting_line(self.alloc, &text, node)? else {
                return Ok(());
            };
            let text = with_restart(self.alloc, &text, halted, node)?;
            let mut made = String::new(self.alloc);
            made.push_str("`")?;
            made.push_str(line.as_str())?;
            made.push_str("`, and a restart behind the line in which it halts")?;
            self.variants.push(Variant { made, text })?;
        }
        Ok(())
    }
}

/// The line in which a node halts in the run of a text.
fn halting_line(alloc: Global, text: &[u8], node: u8) -> Result<Option<u32>, NoMemory> {
    let script = match parse(alloc, text) {
        Ok(script) => script,
        Err(ScriptFault::Bad { .. }) => return Ok(None),
        Err(ScriptFault::NoMemory) => return Err(NoMemory),
    };
    let run = record_of(alloc, &script)?;
    for mark in run.marks.as_slice() {
        if let Mark::Halted {
            line,
            node: halted,
            ..
        } = mark
        {
            if *halted == node {
                return Ok(Some(*line));
            }
        }
    }
    Ok(None)
}

/// A text with the restart of a node behind a line, after which the letters arrive that waited.
fn with_restart(alloc: Global, text: &[u8], line: u32, node: u8) -> Result<Vec<u8>, NoMemory> {
    let lines = Lines::of(alloc, text)?;
    let behind = (line as usize).saturating_add(1);
    let mut longer = Vec::new(alloc);
    push_lines(&lines, 1, behind, &mut longer)?;
    longer.extend_from_slice(line_of(alloc, "restart", &[u64::from(node)])?.as_bytes())?;
    longer.extend_from_slice(b"\ndrain\n")?;
    push_lines(&lines, behind, lines.count().saturating_add(1), &mut longer)?;
    Ok(longer)
}

/// The scripts that are made from one by one fault: at each moment of its run, at each of the nodes,
/// of each letter.
pub fn sweep_of(
    alloc: Global,
    faults: &Faults,
    source: &Lines<'_>,
    script: &Script,
    run: &RunRecord,
) -> Result<Variants, NoMemory> {
    let scope = scope_of(alloc, source, script, run)?;
    let moments = moments_of(alloc, script, run, &scope)?;
    let first = match script.steps.get(0) {
        Some(step) => step.line as usize,
        None => source.count().saturating_add(1),
    };
    let mut making = Making {
        alloc,
        source,
        variants: Variants::new(alloc),
    };
    for before in 0..script.nodes {
        let node = before.saturating_add(1);
        if is_named(&faults.nodes, node) {
            if faults.restarts {
                making.restart(&moments, node)?;
            }
            if faults.stops {
                making.stop(first, node)?;
            }
        }
    }
    if faults.losses {
        making.lose(&moments, &scope)?;
    }
    if faults.repeats {
        making.repeat(&moments, &scope)?;
    }
    Ok(making.variants)
}
