//! The command that `clap` judges words by, from a table of its subcommands.
ghost use Rattle.std.specs.Prelude.{◌≡◌, IfErr, IfOk, map, true};
ghost use Rattle.clap.specs.Words.{app_of, takes};
ghost use Rattle.iso_cli.specs.CommandLine.{FollowsRule, IsCommand, bare_app, clear_rule, iso_alone, name_rule};
ghost use Rattle.iso_cli.specs.Subcommands.{AddsRow, named_app, subcommand_app, with_subcommands};
ghost use Rattle.iso_cli.specs.declared.words.WordsFault.{WordsFault};

use crate::words::WordsFault;
use clap::error::ErrorKind;
use clap::{Arg, ArgAction, Command};
use std::alloc::{AllocError, Global};

/// A subcommand.
pub struct Subcommand {
    /// Its name.
    pub name: &'static str,
    /// The names of its arguments, each of which has to be given.
    pub arguments: &'static [&'static str],
    /// Whether it has the flag `--clear`.
    pub clear: bool,
}

/// The argument of this name, which has to be given.
fn name_argument<'a>(alloc: Global, id: &'a str) -> Arg<'a>
    ensures { FollowsRule (name_rule id.now) result }
{
    Arg::new(alloc, id).required(true)
}

fn clear_flag<'a>(alloc: Global) -> Arg<'a>
    ensures { FollowsRule clear_rule result }
{
    Arg::new(alloc, "clear")
        .long("clear")
        .action(ArgAction::SetTrue)
}

/// A command with no help and no version of its own.
fn bare_command<'a>(alloc: Global, name: &'static str) -> Command<'a>
    ensures { IsCommand (bare_app name.now) result }
{
    Command::new(alloc, name)
        .disable_help_flag(true)
        .disable_help_subcommand(true)
        .disable_version_flag(true)
}

/// A command of this name with these arguments.
fn named_command<'a>(
    alloc: Global,
    name: &'static str,
    arguments: &[&'static str],
) -> Result<Command<'a>, AllocError>
    ensures { IfOk result (IsCommand (named_app name.now arguments.now)) }
{
    let mut command = bare_command(alloc, name);
    for argument in arguments {
        command = command.arg(name_argument(alloc, argument))?;
    }
    Ok(command)
}

/// A subcommand as `clap` has it.
fn built_subcommand<'a>(alloc: Global, row: &Subcommand) -> Result<Command<'a>, AllocError>
    ensures { IfOk result (IsCommand (subcommand_app row.now)) }
{
    let named = named_command(alloc, row.name, row.arguments)?;
    if row.clear {
        named.arg(clear_flag(alloc))
    } else {
        Ok(named)
    }
}

/// The command before its subcommands.
fn iso_alone<'a>(alloc: Global) -> Command<'a>
    ensures { IsCommand iso_alone result }
{
    bare_command(alloc, "iso")
        .no_binary_name(true)
        .subcommand_required(true)
}

/// The command with one subcommand more.
fn with_row<'a>(
    alloc: Global,
    command: Command<'a>,
    row: &Subcommand,
) -> Result<Command<'a>, AllocError>
    ensures { IfOk result (AddsRow row.now command.entry) }
{
    let next = built_subcommand(alloc, row)?;
    command.subcommand(next)
}

/// The command with these subcommands.
fn command<'a>(alloc: Global, subcommands: &[Subcommand]) -> Result<Command<'a>, AllocError>
    ensures { IfOk result (IsCommand (with_subcommands iso_alone subcommands.now)) }
{
    let mut command = iso_alone(alloc);
    for row in subcommands {
        command = with_row(alloc, command, row)?;
    }
    Ok(command)
}

/// Whether `clap` lets the words of this command pass.
fn judge_by<'a>(command: Command<'a>, words: &'a [&'a str]) -> Result<(), WordsFault>
    ensures passes { IfErr result
        (λ fault. takes (app_of command.entry) (map (λ w. w.now) words.now) ≡ true
        → fault ≡ WordsFault.Memory) }
{
    match command.try_get_matches_from(words) {
        Ok(_found) => Ok(()),
        Err(error) if error.kind() == ErrorKind::OutOfMemory => Err(WordsFault::Memory),
        Err(_error) => Err(WordsFault::Refused),
    }
}

/// Whether `clap` lets the words of the command with these subcommands pass.
pub fn judge_words<'a>(
    alloc: Global,
    subcommands: &[Subcommand],
    words: &'a [&'a str],
) -> Result<(), WordsFault>
    // Words that the command with these subcommands takes are refused only for want of memory.
    ensures passes { IfErr result (λ fault.
        takes (with_subcommands iso_alone subcommands.now) (map (λ w. w.now) words.now) ≡ true
        → fault ≡ WordsFault.Memory) }
{
    let Ok(command) = command(alloc, subcommands) else {
        return Err(WordsFault::Memory);
    };
    judge_by(command, words)
}
