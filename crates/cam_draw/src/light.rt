//! What is lit.
ghost use Rattle.std.specs.Prelude.{◌≡◌, ℕ, ◌<◌, IfErr, IfOk, length, reverse};
ghost use Rattle.std.specs.List.{list_any};
ghost use Rattle.cam_event.specs.Pasts.{holds, in_past};
ghost use Rattle.cam_why.specs.Causes.{IsWhole};
ghost use Rattle.cam_why.specs.Passes.{Refuses};
ghost use Rattle.cam_draw.specs.Light.{IsLight, IsPastOf, IsRefusal, IsWayTo, are_stubs_lit, is_end, is_letter_lit, is_lit, is_on_way, is_receipt, is_seen, is_set, last_seen};

use cam_base::NoMemory;
use cam_event::{Deed, Deeds, Trace};
use cam_names::Name;
use cam_past::clocks;
use cam_why::{Links, Why, WhyFault, chain};
use std::alloc::Global;

/// What a picture lights up. The rest of it is dim.
#[derive(Clone, Copy, Debug, PartialEq, Eq)]
pub enum Highlight {
    Nothing,
    /// What this action saw, and all that happened before it.
    Action(Name),
    /// How the event of this number came to stop an orphan: the cause, and the letters that led
    /// from there.
    Stop(u32),
}

/// What is lit of a trace.
#[derive(Drop)]
pub(crate) enum Light {
    All,
    /// The events that are marked, and their letters.
    Past(Vec<bool>),
    /// The way to a stop.
    Way { stop: u64, why: Why },
}

impl Light {
    /// Whether the event of this number is lit.
    pub(crate) fn is_lit(&self, number: u64) -> bool
        ensures { result ≡ is_lit self.now number }
    {
        match self {
            Light::All => true,
            Light::Past(flags) => is_set(flags.as_slice(), number),
            Light::Way { stop, why } => is_on_way(why, *stop, number),
        }
    }

    /// Whether the letter is lit that the event of this number received.
    pub(crate) fn is_letter_lit(&self, number: u64) -> bool
        ensures { result ≡ is_letter_lit self.now number }
    {
        match self {
            Light::All => true,
            Light::Past(flags) => is_set(flags.as_slice(), number),
            Light::Way { why, .. } => is_receipt(&why.links, number),
        }
    }

    /// Whether the letters are lit that the event of this number sent, and that no event received.
    pub(crate) fn are_stubs_lit(&self, number: u64) -> bool
        ensures { result ≡ are_stubs_lit self.now number }
    {
        match self {
            Light::All => true,
            Light::Past(flags) => is_set(flags.as_slice(), number),
            Light::Way { .. } => false,
        }
    }
}

/// Whether the flag of this number is set.
fn is_set(flags: &[bool], number: u64) -> bool
    ensures { result ≡ is_set flags.now number }
{
    match flags.get(number as usize) {
        Some(flag) => *flag,
        None => false,
    }
}

/// Whether an event is on the way to a stop.
fn is_on_way(why: &Why, stop: u64, number: u64) -> bool
    ensures { result ≡ is_on_way why.now stop number }
{
    why.cause == number || stop == number || is_end(&why.links, number)
}

/// Whether an event sent or received a letter of a chain.
fn is_end(links: &Links, number: u64) -> bool
    ensures { result ≡ list_any (is_end number) links.now }
{
    let mut found = false;
    for link in links.as_slice() {
        found = found || link.from == number || link.to == number;
    }
    found
}

/// Whether an event received a letter of a chain.
fn is_receipt(links: &Links, number: u64) -> bool
    ensures { result ≡ list_any (is_receipt number) links.now }
{
    let mut found = false;
    for link in links.as_slice() {
        found = found || link.to == number;
    }
    found
}

/// What is lit of a trace.
pub(crate) fn light_of(
    alloc: Global,
    trace: &Trace,
    highlight: &Highlight,
) -> Result<Light, WhyFault>
    ensures lit { IfOk result (IsLight (reverse trace.now) highlight.now) }
    ensures refused { IfErr result (IsRefusal (reverse trace.now) highlight.now) }
{
    match highlight {
        Highlight::Nothing => Ok(Light::All),
        Highlight::Action(action) => Ok(past_of(alloc, trace, action)?),
        Highlight::Stop(event) => way_to(alloc, trace, *event),
    }
}

/// The past of the last event of which an action sees a deed; nothing where it sees none.
fn past_of(alloc: Global, trace: &Trace, action: &Name) -> Result<Light, NoMemory>
    ensures { IfOk result (IsPastOf (reverse trace.now) action.now) }
{
    match last_seen(trace, action) {
        Some(last) => Ok(Light::Past(past_of_event(alloc, trace, last)?)),
        None => Ok(Light::Past(Vec::new(alloc))),
    }
}

/// Of each event whether it is in the past of this one.
fn past_of_event(alloc: Global, trace: &Trace, last: u64) -> Result<Vec<bool>, NoMemory>
    ensures { IfOk result (λ flags. (i : ℕ) → i < length trace.now
        → is_set flags.items i ≡ in_past (reverse trace.now) i last) }
{
    let clocks = clocks(alloc, trace)?;
    let mut flags = Vec::with_capacity(alloc, trace.len())?;
    for number in 0..trace.len() {
        flags.push(clocks.in_past(number as u64, last))?;
    }
    Ok(flags)
}

/// The last event of which an action sees a deed.
fn last_seen(trace: &Trace, action: &Name) -> Option<u64>
    ensures { result ≡ last_seen (reverse trace.now) action.now }
{
    let mut last = None;
    for (number, event) in trace.as_slice().iter().enumerate() {
        if sees_any(&event.deeds, action) {
            last = Some(number as u64);
        }
    }
    last
}

/// Whether an action sees one of these deeds.
fn sees_any(deeds: &Deeds, action: &Name) -> bool
    ensures { result ≡ list_any (is_seen action.now) deeds.now }
{
    let mut found = false;
    for deed in deeds.as_slice() {
        found = found || sees(deed, action);
    }
    found
}

/// Whether an action sees a deed: its own request or what came of it, or the decision on a child.
fn sees(deed: &Deed, action: &Name) -> bool
    ensures { result ≡ is_seen action.now deed.now }
{
    match deed {
        Deed::Create { action: own }
        | Deed::Ask { action: own, .. }
        | Deed::Call { action: own, .. }
        | Deed::Got { action: own, .. }
        | Deed::AskCommit { action: own, .. }
        | Deed::AskAbort { action: own } => action == own,
        Deed::Commit { action: child } | Deed::Abort { action: child } => action.is_parent(child),
        Deed::Perform { .. }
        | Deed::Bounce { .. }
        | Deed::Secure { .. }
        | Deed::Inform { .. }
        | Deed::Crash { .. } => false,
    }
}

/// The way to a stop.
fn way_to(alloc: Global, trace: &Trace, event: u32) -> Result<Light, WhyFault>
    ensures way { IfOk result (IsWayTo (reverse trace.now) event) }
    ensures refused { IfErr result (λ fault. IsWhole (reverse trace.now)
        → Refuses (reverse trace.now) event fault) }
{
    let why = chain(alloc, trace, event)?;
    Ok(Light::Way {
        stop: event as u64,
        why,
    })
}
