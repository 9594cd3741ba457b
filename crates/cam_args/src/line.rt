//! The command line as clap is told it.

ghost use Rattle.std.specs.Prelude.{◌≡◌, ◌∷◌, [], false, IfOk, map};
ghost use Rattle.clap.specs.Words.{app_of};
ghost use Rattle.clap.specs.declared.builder.command.Command.TheViews.{out-Command as fields_of};
ghost use Rattle.cam_args.specs.Line.{command_app, command_line, empty_line, with_command};

use clap::{Arg, Command};
use std::alloc::{AllocError, Global};

static NO_VALUES: [&str; 0] = [];

static WITNESS: [&str; 1] = ["name"];

static GEN: [&str; 2] = ["seed", "size"];

static STORM: [&str; 4] = ["seed", "actions", "threads", "mode"];

static WHY: [&str; 1] = ["event"];

/// The line with all its commands.
pub(crate) fn command_line<'a>(alloc: Global) -> Result<Command<'a>, AllocError>
    ensures { IfOk result (λ r. app_of r ≡ command_line) }
{
    let line = empty_line(alloc);
    let line = with_command(alloc, line, "run", NO_VALUES.as_slice())?;
    let line = with_command(alloc, line, "trace", NO_VALUES.as_slice())?;
    let line = with_command(alloc, line, "witness", WITNESS.as_slice())?;
    let line = with_command(alloc, line, "gen", GEN.as_slice())?;
    let line = with_command(alloc, line, "storm", STORM.as_slice())?;
    let line = with_command(alloc, line, "inspect", NO_VALUES.as_slice())?;
    let line = with_command(alloc, line, "upgrade", NO_VALUES.as_slice())?;
    let line = with_command(alloc, line, "why", WHY.as_slice())?;
    with_command(alloc, line, "timed", NO_VALUES.as_slice())
}

/// A line with no command yet.
fn empty_line<'a>(alloc: Global) -> Command<'a>
    ensures { app_of result ≡ empty_line }
{
    Command::new(alloc, "camelot")
        .no_binary_name(true)
        .disable_help_flag(true)
        .disable_help_subcommand(true)
        .subcommand_required(true)
}

/// The line with one more command, and its values in order.
fn with_command<'a>(
    alloc: Global,
    line: Command<'a>,
    name: &'a str,
    values: &[&'static str],
) -> Result<Command<'a>, AllocError>
    ensures { IfOk result (λ r.
        app_of r ≡ with_command (app_of line.entry) name.entry.now (map (λ s. s.now) values.now)) }
{
    line.subcommand(command(alloc, name, values)?)
}

/// A command with its values in order.
fn command<'a>(
    alloc: Global,
    name: &'a str,
    values: &[&'static str],
) -> Result<Command<'a>, AllocError>
    ensures app { IfOk result (λ r.
        app_of r ≡ command_app name.entry.now (map (λ s. s.now) values.now)) }
    ensures local { IfOk result (λ r. (fields_of r).has_globals ≡ false) }
{
    let mut command = Command::new(alloc, name);
    for value in values {
        command = command.arg(Arg::new(alloc, value).required(true))?;
    }
    Ok(command)
}
