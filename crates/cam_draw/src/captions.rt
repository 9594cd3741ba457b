//! The captions of events.
ghost use Rattle.std.specs.Prelude.{◌≡◌, ℕ, IfOk, List, Option, map, option_map, reverse, string_bytes};
ghost use Rattle.cam_draw.specs.Captions.{caption, captions, line_of, saying, sent_before};

use crate::counts::Restarts;
use crate::deeds::deeds_of;
use crate::light::Light;
use crate::subject::action_of;
use crate::words::words_of;
use cam_base::NoMemory;
use cam_diagram::{Caption, Captions};
use cam_event::{Event, Trace};
use cam_scope::Scope;
use cam_script::Labels;
use std::alloc::Global;

/// The line in which the event of this number happened; 0 where it has none.
fn line_of(scope: &Scope, number: usize) -> u32
    ensures { result ≡ line_of scope.now number }
{
    match scope.events.get(number) {
        Some(event) => event.line.unwrap_or(0),
        None => 0,
    }
}

/// How many letters were sent before the event of this number.
fn sent_before(scope: &Scope, number: usize) -> u64
    ensures { result ≡ sent_before scope.now number }
{
    match scope.events.get(number) {
        Some(event) => event.sent_before as u64,
        None => 0,
    }
}

/// The caption of the event of this number, with what stands beside it.
fn caption_of(
    alloc: Global,
    scope: &Scope,
    labels: &Labels,
    light: &Light,
    number: usize,
    event: &Event,
    beside: Option<String>,
) -> Result<Caption, NoMemory>
    ensures { IfOk result (λ c. saying c ≡ caption scope.now labels.now light.now number event.now
        (option_map string_bytes beside)) }
{
    Ok(Caption {
        line: line_of(scope, number),
        sent_before: sent_before(scope, number),
        action: action_of(alloc, scope, event)?,
        words: words_of(alloc, scope, labels, number, event)?,
        deeds: deeds_of(alloc, scope, labels, number, event)?,
        beside,
        lit: light.is_lit(number as u64),
        lit_letter: light.is_letter_lit(number as u64),
    })
}

/// The captions of a trace's events, in order.
pub(crate) fn captions_of(
    alloc: Global,
    scope: &Scope,
    labels: &Labels,
    trace: &Trace,
    light: &Light,
) -> Result<Captions, NoMemory>
    ensures { IfOk result (λ found. map saying found
        ≡ captions scope.now labels.now light.now (reverse trace.now)) }
{
    let mut captions = Captions::new(alloc);
    let mut restarts = Restarts::new();
    for (number, event) in trace.as_slice().iter().enumerate() {
        let beside = restarts.take(alloc, event)?;
        captions.push(caption_of(alloc, scope, labels, light, number, event, beside)?)?;
    }
    Ok(captions)
}

/// How many bytes the longest words of captions have.
pub(crate) fn widest(captions: &Captions) -> u32 {
    let mut widest = 24;
    for caption in captions.as_slice() {
        widest = widest.max(u32::try_from(caption.words.len()).unwrap_or(u32::MAX));
    }
    widest
}
