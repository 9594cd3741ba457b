//! The command of the words.

ghost use Rattle.std.specs.Prelude.{◌≡◌, ◌↔◌, [], ◌∷◌, false, Err, IfOk, IfErr, codes, map, string_bytes};
ghost use Rattle.std.specs.List.{list_any};
ghost use Rattle.clap.specs.Words.{found_of, kind_of, rows_of, subcommand_rows_of};
ghost use Rattle.cam_args.specs.declared.ArgsFault.TheVariants.{Usage, NoMemory as OutOfMemory};
ghost use Rattle.cam_args.specs.Forms.{IsForm, IsNoForm, Finds, UnlessNoMemory, five};
ghost use Rattle.cam_args.specs.Line.{fault_of_kind, is_dashed, value_at, words_in};

use crate::line::command_line;
use crate::numbers::number;
use crate::{ArgsFault, Command};
use cam_names::Name;
use clap::error::ErrorKind;
use clap::{ArgMatches, Error};
use std::alloc::Global;

/// The command of the words behind the program's name: the one whose form they are, and `Usage`
/// where they are no form.
#[tactic(auto, using(crate::proofs::Refusing::refused))]
pub fn read_words(alloc: Global, words: &[String]) -> Result<Command, ArgsFault>
    ensures read { IfOk result (IsForm (map string_bytes words.now)) }
    ensures each { Finds (map string_bytes words.now) result }
    ensures usage { UnlessNoMemory result
        (result ≡ Err Usage ↔ IsNoForm (map string_bytes words.now)) }
{
    if has_dashed(words) {
        return Err(ArgsFault::Usage);
    }
    let matches = matches_of(alloc, words)?;
    command_of(&matches)
}

/// Whether a word begins with `-`.
fn has_dashed(words: &[String]) -> bool
    ensures { result ≡ list_any is_dashed (map string_bytes words.now) }
{
    for word in words {
        if is_dashed(word.as_bytes()) {
            return true;
        }
    }
    false
}

/// Whether the word begins with `-`.
fn is_dashed(word: &[u8]) -> bool
    ensures { result ≡ is_dashed word.now }
{
    match word.first() {
        Some(first) => *first == b'-',
        None => false,
    }
}

/// The matches of words of which none begins with `-`: a command with its values.
fn matches_of<'a>(alloc: Global, words: &'a [String]) -> Result<ArgMatches<'a>, ArgsFault>
    ensures read { list_any is_dashed (map string_bytes words.now) ≡ false
        → IfOk result (λ m. words_in (subcommand_rows_of m) ≡ map string_bytes words.now) }
    ensures each { IfErr result (λ e. Finds (map string_bytes words.now) (Err e)) }
{
    match command_line(alloc)?.try_get_matches_from(words) {
        Ok(matches) => Ok(matches),
        Err(error) => Err(fault_of(&error)),
    }
}

/// What an error of clap's is here.
fn fault_of(error: &Error) -> ArgsFault
    ensures { result ≡ fault_of_kind (kind_of error.now) }
{
    match error.kind() {
        ErrorKind::OutOfMemory => ArgsFault::NoMemory,
        _ => ArgsFault::Usage,
    }
}

/// The command that was matched, where its values are of their forms.
fn command_of(matches: &ArgMatches<'_>) -> Result<Command, ArgsFault>
    ensures read { IfOk result (IsForm (words_in (subcommand_rows_of matches.now))) }
    ensures each { Finds (words_in (subcommand_rows_of matches.now)) result }
{
    let Some((name, values)) = matches.subcommand() else {
        return Err(ArgsFault::Usage);
    };
    match name {
        "witness" => witness(value(values, "name")),
        "why" => why(value(values, "event")),
        "gen" => generate(value(values, "seed"), value(values, "size")),
        "storm" => storm(
            value(values, "seed"),
            value(values, "actions"),
            value(values, "threads"),
            value(values, "mode"),
        ),
        _ => alone(name),
    }
}

/// A value of the command that was matched.
fn value<'a>(values: &ArgMatches<'a>, id: &str) -> &'a str
    ensures { result.now ≡ value_at (rows_of (found_of values.now)) id.now }
{
    match values.get_str(id) {
        Some(value) => value,
        None => "",
    }
}

/// The command of one word.
fn alone(word: &str) -> Result<Command, ArgsFault>
    ensures read { IfOk result (IsForm (word.now ∷ [])) }
    ensures each { Finds (word.now ∷ []) result }
{
    match word {
        "run" => Ok(Command::Run),
        "trace" => Ok(Command::Trace),
        "inspect" => Ok(Command::Inspect),
        "upgrade" => Ok(Command::Upgrade),
        "timed" => Ok(Command::Timed),
        _ => Err(ArgsFault::Usage),
    }
}

/// `witness NAME`.
fn witness(name: &str) -> Result<Command, ArgsFault>
    ensures read { IfOk result (IsForm (codes "witness" ∷ name.now ∷ [])) }
    ensures each { Finds (codes "witness" ∷ name.now ∷ []) result }
{
    match Name::parse(name) {
        Ok(name) => Ok(Command::Witness(name)),
        Err(_) => Err(ArgsFault::Usage),
    }
}

/// `why EVENT`.
fn why(event: &str) -> Result<Command, ArgsFault>
    ensures read { IfOk result (IsForm (codes "why" ∷ event.now ∷ [])) }
    ensures each { Finds (codes "why" ∷ event.now ∷ []) result }
{
    Ok(Command::Why(number(event, 0, 4_294_967_295)? as u32))
}

/// `gen SEED SIZE`.
fn generate(seed: &str, size: &str) -> Result<Command, ArgsFault>
    ensures read { IfOk result (IsForm (codes "gen" ∷ seed.now ∷ size.now ∷ [])) }
    ensures each { Finds (codes "gen" ∷ seed.now ∷ size.now ∷ []) result }
{
    Ok(Command::Gen {
        seed: number(seed, 0, u64::MAX)?,
        size: number(size, 1, 400)? as u32,
    })
}

/// `storm SEED ACTIONS THREADS MODE`.
fn storm(seed: &str, actions: &str, threads: &str, mode: &str) -> Result<Command, ArgsFault>
    ensures read { IfOk result
        (IsForm (five (codes "storm") seed.now actions.now threads.now mode.now)) }
    ensures each { Finds (five (codes "storm") seed.now actions.now threads.now mode.now) result }
{
    let calm = match mode {
        "calm" => true,
        "rough" => false,
        _ => return Err(ArgsFault::Usage),
    };
    Ok(Command::Storm {
        seed: number(seed, 0, u64::MAX)?,
        actions: number(actions, 1, 64)? as u32,
        threads: number(threads, 1, 4)? as u32,
        calm,
    })
}
