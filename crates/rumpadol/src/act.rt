//! What the program does.

ghost use Rattle.std.specs.Prelude.{◌≡◌, ◌≤◌, IfOk};
ghost use Rattle.rumpadol.specs.Jobs.{Performs};

use clap::error::ErrorKind;
use clap::{ArgMatches, Error};
use iso_service::Journals;
use rumpadol_commands::command;
use rumpadol_copies::perform_journal;
use rumpadol_drive::{Diaries, perform_drive};
use rumpadol_front::perform_before_shards;
use rumpadol_host::perform_host;
use rumpadol_import::perform_import;
use rumpadol_jobs::{Job, job_of};
use rumpadol_messages::perform_messages;
use rumpadol_page::perform_page;
use rumpadol_ports::System;
use rumpadol_tables::{Source, Stop, perform_table, tell, write_output};
use rumpadol_terminals::Terminals;
use std::alloc::Global;
use std::io::{Read, Write};

/// What is told where standard input is a terminal.
const HINT: &str =
    "rumpadol: standard input is this terminal; type, and end it with Ctrl-D, or name a file\n";

/// What stands before what `clap` says of a mistake.
const CLAP_MARK: &str = "error: ";

/// Writes the help or the version that the words ask for, or says what is wrong with the words.
fn answer<O: Write>(alloc: Global, error: &Error, output: &mut O) -> Result<u8, Stop>
    ensures { IfOk result (λ status. status ≡ 0) }
{
    if error.kind() == ErrorKind::OutOfMemory {
        return Err(Stop::Memory);
    }
    let text = format!(in alloc; "{error}")?;
    if !error.use_stderr() {
        write_output(output, text.as_bytes())?;
        return Ok(0);
    }
    match text.as_str().strip_prefix(CLAP_MARK) {
        Some(rest) => Err(Stop::Words(format!(in alloc; "rumpadol: {rest}")?)),
        None => Err(Stop::Words(text)),
    }
}

/// Says that the input is read, where a terminal waits for it.
fn hint_at<F: Write>(job: &Job<'_>, terminals: Terminals, faults: &mut F) -> Result<(), Stop> {
    if terminals.input && job.reads_input() && faults.write_all(HINT.as_bytes()).is_err() {
        return Err(Stop::Output);
    }
    Ok(())
}

/// Does what a job asks.
fn perform<S: Source + Journals + Diaries + System, I: Read, O: Write, F: Write>(
    alloc: Global,
    job: &Job<'_>,
    source: &S,
    terminals: Terminals,
    input: &mut I,
    output: &mut O,
    faults: &mut F,
) -> Result<u8, Stop>
    ensures done { IfOk result (Performs job.now
        (record { file = S.file source.now; input = I.remaining input.old })
        (record { old = O.contents output.old; new = O.contents output.new })) }
    ensures range { IfOk result (λ status. status ≤ 1) }
{
    hint_at(job, terminals, faults)?;
    let (runtime, on_screen) = (source.runtime(), terminals.faults);
    match job {
        Job::Messages(job) => perform_messages(
            alloc, *job, source, terminals, input, output, faults,
        ),
        Job::Tables(job) => perform_table(alloc, job, source, input, output),
        Job::Host(words) => perform_host(alloc, words, source, terminals, input, output, faults),
        Job::Front(job) => perform_before_shards(alloc, job, source, terminals, input, faults),
        Job::Drive(job) => perform_drive(
            alloc, *job, runtime, source, on_screen, input, output, faults,
        ),
        Job::Books(job) => perform_journal(alloc, *job, source, runtime, on_screen, output, faults),
        Job::Import(words) => perform_import(alloc, *words, source, input, output, faults),
        Job::Page(words) => perform_page(alloc, runtime, *words, faults),
    }
}

/// Does what the words ask that `clap` let pass.
fn perform_asked<S: Source + Journals + Diaries + System, I: Read, O: Write, F: Write>(
    alloc: Global,
    matches: &ArgMatches<'_>,
    source: &S,
    terminals: Terminals,
    input: &mut I,
    output: &mut O,
    faults: &mut F,
) -> Result<u8, Stop>
    ensures { IfOk result (λ status. status ≤ 1) }
{
    match job_of(alloc, matches)? {
        Some(job) => perform(alloc, &job, source, terminals, input, output, faults),
        None => Err(Stop::Words(String::from_str(
            alloc,
            "rumpadol: no subcommand; see rumpadol help\n",
        )?)),
    }
}

/// Does what the words ask, of which the first is the program's name.
fn perform_words<S: Source + Journals + Diaries + System, I: Read, O: Write, F: Write>(
    alloc: Global,
    words: &[String],
    source: &S,
    terminals: Terminals,
    input: &mut I,
    output: &mut O,
    faults: &mut F,
) -> Result<u8, Stop>
    ensures { IfOk result (λ status. status ≤ 1) }
{
    match command(alloc)?.try_get_matches_from(words) {
        Ok(matches) => perform_asked(alloc, &matches, source, terminals, input, output, faults),
        Err(error) => answer(alloc, &error, output),
    }
}

/// Does what the words ask, of which the first is the program's name, and gives the status: 0 done, 1 an input is refused
/// or two tables differ, 2 the command line is refused, 3 a device or memory failed.
pub fn act<S: Source + Journals + Diaries + System, I: Read, O: Write, F: Write>(
    alloc: Global,
    words: &[String],
    source: &S,
    terminals: Terminals,
    input: &mut I,
    output: &mut O,
    faults: &mut F,
) -> u8
    // The status is at most 3.
    ensures { result ≤ 3 }
{
    match perform_words(alloc, words, source, terminals, input, output, faults) {
        Ok(status) => status,
        Err(stop) => tell(faults, &stop),
    }
}
