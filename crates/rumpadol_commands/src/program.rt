//! The program's command line.

use crate::books::journal_command;
use crate::drive::drive_command;
use crate::front::front_command;
use crate::host::host_command;
use crate::messages::with_messages;
use crate::page::page_command;
use crate::tables::table_command;
use clap::Command;
use std::alloc::{AllocError, Global};

/// What stands behind the help of the program.
const EXAMPLES: &str = "Examples:
  rumpadol explain ascii87 message.bin     a message piece by piece
  rumpadol explain bcd87 --hex dump.txt    the same of a dump in hexadecimal digits
  rumpadol decode ascii87 --json           one JSON object for the message on the input
  rumpadol table check mine.json           all that is wrong with a table
  rumpadol journal show day.journal        the entries of a journal

Ends with status 0 where all was done, 1 where an input is refused, 2 where the command line is,
and 3 where a file, a stream or memory failed.";

/// A command that also answers frames.
fn with_hosts<'a>(alloc: Global, command: Command<'a>) -> Result<Command<'a>, AllocError> {
    command
        .subcommand(host_command(alloc)?)?
        .subcommand(front_command(alloc)?)
}

/// A command that also drives a host, looks into journals, and serves a page.
fn with_books<'a>(alloc: Global, command: Command<'a>) -> Result<Command<'a>, AllocError> {
    command
        .subcommand(drive_command(alloc)?)?
        .subcommand(journal_command(alloc)?)?
        .subcommand(page_command(alloc)?)
}

/// The program's command line.
pub fn command<'a>(alloc: Global) -> Result<Command<'a>, AllocError> {
    let command = Command::new(alloc, "rumpadol")
        .bin_name("rumpadol")?
        .version("1.0.0")
        .about(
            "Looks at ISO 8583 messages, builds, converts and answers them, drives hosts, and looks into tables and journals.",
        )
        .after_help(EXAMPLES);
    let command = with_messages(alloc, command)?;
    let command = command.subcommand(table_command(alloc)?)?;
    let command = with_hosts(alloc, command)?;
    with_books(alloc, command)
}
