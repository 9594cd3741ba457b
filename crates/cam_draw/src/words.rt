//! The words in the rows of events.
ghost use Rattle.std.specs.Prelude.{◌≡◌, ◌++◌, IfOk, None, OnOk, string_bytes};
ghost use Rattle.cam_scope.specs.Deeds.{deed_text};
ghost use Rattle.cam_draw.specs.Words.{
  decided,
  first_sent,
  is_news_of,
  joined,
  no_outcome,
  or_else,
  sending,
  sent_words,
  with_deed,
  with_deeds,
  words,
};

use crate::notes::{write_note, write_numbered};
use cam_base::NoMemory;
use cam_event::{Deed, Deeds, Event};
use cam_names::Name;
use cam_scope::{NamedEvent, NamedLetter, Scope, write_deed};
use cam_script::Labels;
use std::alloc::Global;

/// The action that a deed decides.
fn decided(deed: &Deed) -> Option<Name>
    ensures { result ≡ decided deed.now }
{
    match deed {
        Deed::Commit { action } | Deed::Abort { action } => Some(*action),
        _ => None,
    }
}

/// Whether a deed is what a node hears of an action that it has just decided itself.
fn is_news_of(decided: Option<Name>, deed: &Deed) -> bool
    ensures { result ≡ is_news_of decided deed.now }
{
    match (decided, deed) {
        (Some(action), Deed::Inform { name, .. }) => *name == action,
        _ => false,
    }
}

/// Appends a deed, behind others.
fn add_deed(
    alloc: Global,
    scope: &Scope,
    labels: &Labels,
    deed: &Deed,
    words: &mut String,
) -> Result<(), NoMemory>
    ensures { OnOk result (string_bytes words.new ≡ joined (string_bytes words.old)
        (deed_text scope.now.names labels.now deed.now)) }
{
    if !words.is_empty() {
        words.push_str("; ")?;
    }
    write_deed(alloc, &scope.names, labels, deed, words)
}

/// Appends a deed, behind others, unless a node hears by it of its own decision.
fn add_deed_or_news(
    alloc: Global,
    scope: &Scope,
    labels: &Labels,
    last: Option<Name>,
    deed: &Deed,
    words: &mut String,
) -> Result<(), NoMemory>
    ensures { OnOk result (string_bytes words.new
        ≡ with_deed scope.now.names labels.now (string_bytes words.old) last deed.now) }
{
    if is_news_of(last, deed) {
        Ok(())
    } else {
        add_deed(alloc, scope, labels, deed, words)
    }
}

/// Appends deeds, but for what a node hears of its own decisions.
fn add_deeds(
    alloc: Global,
    scope: &Scope,
    labels: &Labels,
    deeds: &Deeds,
    words: &mut String,
) -> Result<(), NoMemory>
    ensures { OnOk result (string_bytes words.new
        ≡ with_deeds scope.now.names labels.now (string_bytes words.old) None deeds.now) }
{
    let mut last = None;
    for deed in deeds.as_slice() {
        add_deed_or_news(alloc, scope, labels, last, deed, words)?;
        last = decided(deed);
    }
    Ok(())
}

/// Appends that a letter is sent.
fn add_letter(letter: &NamedLetter, words: &mut String) -> Result<(), NoMemory>
    ensures { OnOk result (string_bytes words.new ≡ string_bytes words.old ++ sending letter.now) }
{
    words.push_str("sends ")?;
    words.push_str(letter.kind.words())?;
    write_numbered(words, " to node ", letter.to as u64)
}

/// Appends the kind of an event's first letter, if the event sent one.
fn add_first(scope: &Scope, event: &NamedEvent, words: &mut String) -> Result<(), NoMemory>
    ensures { OnOk result (string_bytes words.new ≡ string_bytes words.old
        ++ first_sent scope.now.letters event.now) }
{
    if event.sent == 0 {
        return Ok(());
    }
    match scope.letters.get(event.sent_before) {
        Some(letter) => add_letter(letter, words),
        None => Ok(()),
    }
}

/// Appends the kind of the first letter that an event sent, if it sent one.
fn add_sent(scope: &Scope, number: usize, words: &mut String) -> Result<(), NoMemory>
    ensures { OnOk result (string_bytes words.new ≡ string_bytes words.old
        ++ sent_words scope.now number) }
{
    match scope.events.get(number) {
        Some(event) => add_first(scope, event, words),
        None => Ok(()),
    }
}

/// Writes what an event sent, where nothing is written.
fn sent_or_else(scope: &Scope, number: usize, words: &mut String) -> Result<(), NoMemory>
    ensures { OnOk result (string_bytes words.new
        ≡ or_else (string_bytes words.old) (sent_words scope.now number)) }
{
    if words.is_empty() {
        add_sent(scope, number, words)
    } else {
        Ok(())
    }
}

/// Writes, where nothing is written, that a node hears of no action by what it received.
#[tactic(auto, unfolding(crate::specs::Words::no_outcome))]
fn no_outcome_or_else(words: &mut String) -> Result<(), NoMemory>
    ensures { OnOk result (string_bytes words.new ≡ or_else (string_bytes words.old) no_outcome) }
{
    if words.is_empty() {
        words.push_str("hears no outcome")?;
    }
    Ok(())
}

/// What happened at the event of this number, in one line: its note and its deeds, or else what it
/// sent. What a node hears of its own decision is left out.
pub(crate) fn words_of(
    alloc: Global,
    scope: &Scope,
    labels: &Labels,
    number: usize,
    event: &Event,
) -> Result<String, NoMemory>
    ensures { IfOk result (λ text.
        string_bytes text ≡ words scope.now labels.now number event.now) }
{
    let mut words = String::new(alloc);
    write_note(alloc, &scope.names, &event.note, &mut words)?;
    add_deeds(alloc, scope, labels, &event.deeds, &mut words)?;
    sent_or_else(scope, number, &mut words)?;
    no_outcome_or_else(&mut words)?;
    Ok(words)
}
