//! The words of `camscope`.
use crate::check::same;
use cam_scope_args::{Lit, Question, Request, read_words};
use std::alloc::Global;
use std::test::Fail;

/// What words ask for, in short: a question of so many files.
enum Asked {
    Tell(Question<'static>, usize),
    /// A sweep with so many options, of so many files.
    Sweep(usize, usize),
    Gen(&'static str, &'static str),
    Help,
    Version,
    Nothing,
}

/// Whether this was asked for.
fn is_asked(wanted: &Asked, found: &Option<Request<'_>>) -> bool {
    match (wanted, found) {
        (Asked::Sweep(many, count), Some(Request::Tell(Question::Sweep(options), files))) => {
            options.len() == *many && files.len() == *count
        }
        (Asked::Gen(seed, size), Some(Request::Gen(from, long))) => *seed == *from
            && *size == *long,
        (Asked::Tell(question, count), Some(Request::Tell(asked, files))) => {
            *question == *asked && files.len() == *count
        }
        (Asked::Help, Some(Request::Help)) => true,
        (Asked::Version, Some(Request::Version)) => true,
        (Asked::Nothing, None) => true,
        _ => false,
    }
}

/// Whether words, which are written with blanks between them, ask for this.
fn asks_for(alloc: Global, text: &str, wanted: &Asked) -> Result<bool, Fail> {
    let mut words = Vec::new(alloc);
    for word in text.split_whitespace() {
        words.push(String::from_str(alloc, word)?)?;
    }
    Ok(is_asked(wanted, &read_words(&words)))
}

/// Words, and what they ask for.
const FORMS: [(&str, Asked); 29] = [
    ("", Asked::Nothing),
    ("explain", Asked::Tell(Question::Explain, 0)),
    ("explain a.cam", Asked::Tell(Question::Explain, 1)),
    ("explain a.cam b.cam", Asked::Nothing),
    ("columns a.cam", Asked::Tell(Question::Columns, 1)),
    ("draw a.cam", Asked::Tell(Question::Draw(Lit::All), 1)),
    (
        "draw --action T/2",
        Asked::Tell(Question::Draw(Lit::Action("T/2")), 0),
    ),
    (
        "draw a.cam --action T",
        Asked::Tell(Question::Draw(Lit::Action("T")), 1),
    ),
    (
        "draw --stop 25 a.cam",
        Asked::Tell(Question::Draw(Lit::Stop("25")), 1),
    ),
    ("draw --stop T", Asked::Nothing),
    ("draw --action", Asked::Nothing),
    ("draw a.cam b.cam", Asked::Nothing),
    ("shiviz", Asked::Tell(Question::Shiviz, 0)),
    ("check a.cam b.cam c.cam", Asked::Tell(Question::Check, 3)),
    ("check --strict a.cam", Asked::Nothing),
    ("gen 7 40", Asked::Gen("7", "40")),
    ("gen 7", Asked::Nothing),
    (
        "shrink --keep line a.cam",
        Asked::Tell(Question::Shrink("line"), 1),
    ),
    ("shrink a.cam", Asked::Nothing),
    ("orders", Asked::Tell(Question::Orders, 0)),
    ("sweep --lose --show 2 3 a.cam", Asked::Sweep(4, 1)),
    ("sweep a.cam --lose", Asked::Nothing),
    ("compare a.cam b.cam", Asked::Tell(Question::Compare, 2)),
    ("compare a.cam", Asked::Nothing),
    ("--help", Asked::Help),
    ("--version", Asked::Version),
    ("--version 2", Asked::Nothing),
    ("Explain", Asked::Nothing),
    ("run", Asked::Nothing),
];

#[test]
fn words_ask_for_what_their_form_says(rt: HostRuntime) -> Result<(), Fail> {
    for (text, wanted) in &FORMS {
        same(
            &rt,
            (*text, asks_for(rt.alloc(), text, wanted)?),
            (*text, true),
        );
    }
    Ok(())
}
