//! What is done with messages: the tables, names and streams of each job are opened here.

ghost use Rattle.std.specs.Prelude.{◌≡◌, ◌≤◌, IfOk};

use crate::words::{ConvertWords, MessageJob, MessageWords};
use iso_explain::Style;
use iso_jobs::{Form, Work, make_messages, work_on};
use iso_names::Names;
use iso_table::Table;
use rumpadol_tables::{
    STANDARD_INPUT, Source, SourceFault, Stop, failed, misused, names_named, refused, table_named,
};
use rumpadol_terminals::Terminals;
use std::alloc::Global;
use std::io::{Read, Write};

/// What a job about messages under one table has beside its streams.
#[derive(Drop)]
pub struct Opened<'a> {
    /// What was asked.
    pub words: MessageWords<'a>,
    /// The table.
    pub table: Table,
    /// The names of its elements.
    pub names: Names,
    /// Which streams are terminals.
    pub terminals: Terminals,
}

/// What a job about messages under two tables has beside its streams.
#[derive(Drop)]
pub struct Converting<'a> {
    /// What was asked.
    pub words: ConvertWords<'a>,
    /// The table that messages are read by.
    pub from: Table,
    /// The table that they are written by.
    pub to: Table,
    /// Which streams are terminals.
    pub terminals: Terminals,
}

/// A job whose tables and names are there.
#[derive(Drop)]
enum Task<'a> {
    Explain(Opened<'a>),
    Decode(Opened<'a>),
    Encode(Opened<'a>),
    Convert(Converting<'a>),
}

/// An input of messages.
#[derive(Clone, Copy)]
struct Place<'a> {
    /// Its name, as complaints tell it.
    name: &'a str,
    /// How many bytes it has, where the progress is to be told.
    total: Option<u64>,
}

/// How the messages of a job lie in its input.
fn form_of(words: MessageWords<'_>) -> Form {
    Form {
        is_hex: words.is_hex,
        header: words.header,
        skip: usize::from(words.skip),
    }
}

/// What is explained.
fn explaining<'a>(opened: &'a Opened<'a>) -> Work<'a> {
    let (table, names) = (&opened.table, &opened.names);
    let is_clear = opened.words.is_clear;
    if opened.words.is_json {
        return Work::ExplainJson {
            table,
            names,
            is_clear,
        };
    }
    Work::Explain {
        table,
        names,
        style: Style {
            is_clear,
            is_coloured: opened.terminals.is_coloured(),
        },
    }
}

/// What is decoded.
fn decoding<'a>(opened: &'a Opened<'a>) -> Work<'a> {
    let (table, names) = (&opened.table, &opened.names);
    let is_clear = opened.words.is_clear;
    if opened.words.is_json {
        return Work::Json { table, is_clear };
    }
    Work::Lines {
        table,
        names,
        is_clear,
    }
}

/// How the program stops where work on messages did.
fn stopped(alloc: Global, place: Place<'_>, stop: iso_jobs::Stop) -> Stop {
    let name = place.name;
    match stop {
        iso_jobs::Stop::Read => failed(format!(in alloc; "rumpadol: {name}: {stop}\n")),
        iso_jobs::Stop::TooLong => refused(format!(in alloc; "rumpadol: {name}: {stop}\n")),
        iso_jobs::Stop::Write => Stop::Output,
        iso_jobs::Stop::Faults => Stop::Output,
        iso_jobs::Stop::Memory => Stop::Memory,
    }
}

/// The status of work that was done to its end.
fn status_of(is_good: bool) -> u8
    ensures { result ≤ 1 }
{
    if is_good { 0 } else { 1 }
}

/// Tells messages, or writes them under another table.
fn tell<R: Read, O: Write, F: Write>(
    alloc: Global,
    work: Work<'_>,
    form: Form,
    place: Place<'_>,
    input: &mut R,
    output: &mut O,
    faults: &mut F,
) -> Result<u8, Stop>
    ensures { IfOk result (λ status. status ≤ 1) }
{
    let (name, total) = (place.name, place.total);
    match work_on(alloc, work, form, name, total, input, output, faults) {
        Ok(is_good) => Ok(status_of(is_good)),
        Err(stop) => Err(stopped(alloc, place, stop)),
    }
}

/// Writes messages from JSON or field lines.
fn encode<R: Read, O: Write, F: Write>(
    alloc: Global,
    opened: &Opened<'_>,
    place: Place<'_>,
    input: &mut R,
    output: &mut O,
    faults: &mut F,
) -> Result<u8, Stop>
    ensures { IfOk result (λ status. status ≤ 1) }
{
    let (form, name) = (form_of(opened.words), place.name);
    match make_messages(alloc, &opened.table, form, name, input, output, faults) {
        Ok(is_good) => Ok(status_of(is_good)),
        Err(stop) => Err(stopped(alloc, place, stop)),
    }
}

/// Writes messages under another table.
fn convert<R: Read, O: Write, F: Write>(
    alloc: Global,
    opened: &Converting<'_>,
    place: Place<'_>,
    input: &mut R,
    output: &mut O,
    faults: &mut F,
) -> Result<u8, Stop>
    ensures { IfOk result (λ status. status ≤ 1) }
{
    let work = Work::Convert {
        from: &opened.from,
        to: &opened.to,
    };
    let form = Form {
        is_hex: opened.words.is_hex,
        header: opened.words.header,
        skip: usize::from(opened.words.skip),
    };
    tell(alloc, work, form, place, input, output, faults)
}

/// A table and the messages can't both be on standard input.
fn one_input(alloc: Global, table: &str, input: &str) -> Result<(), Stop> {
    if table == STANDARD_INPUT && input == STANDARD_INPUT {
        return Err(misused(format!(in alloc;
            "rumpadol: -: the table and what is read under it can't both be standard input; name a file for one of them\n"
        )));
    }
    Ok(())
}

/// Opens the table and the names of a job under one table.
fn open_table<'a, S: Source, I: Read>(
    alloc: Global,
    words: MessageWords<'a>,
    source: &S,
    terminals: Terminals,
    input: &mut I,
) -> Result<Opened<'a>, Stop> {
    one_input(alloc, words.table, words.input)?;
    let table = table_named(alloc, source, input, words.table)?;
    let names = names_named(alloc, source, words.names, table.version())?;
    Ok(Opened {
        words,
        table,
        names,
        terminals,
    })
}

/// Opens the tables of a job under two tables.
fn open_tables<'a, S: Source, I: Read>(
    alloc: Global,
    words: ConvertWords<'a>,
    source: &S,
    terminals: Terminals,
    input: &mut I,
) -> Result<Converting<'a>, Stop> {
    one_input(alloc, words.from, words.input)?;
    one_input(alloc, words.to, words.input)?;
    one_input(alloc, words.from, words.to)?;
    let from = table_named(alloc, source, input, words.from)?;
    let to = table_named(alloc, source, input, words.to)?;
    Ok(Converting {
        words,
        from,
        to,
        terminals,
    })
}

/// Opens what a job needs beside its streams.
fn task_of<'a, S: Source, I: Read>(
    alloc: Global,
    job: MessageJob<'a>,
    source: &S,
    terminals: Terminals,
    input: &mut I,
) -> Result<Task<'a>, Stop> {
    match job {
        MessageJob::Explain(words) => Ok(Task::Explain(open_table(
            alloc, words, source, terminals, input,
        )?)),
        MessageJob::Decode(words) => Ok(Task::Decode(open_table(
            alloc, words, source, terminals, input,
        )?)),
        MessageJob::Encode(words) => Ok(Task::Encode(open_table(
            alloc, words, source, terminals, input,
        )?)),
        MessageJob::Convert(words) => Ok(Task::Convert(open_tables(
            alloc, words, source, terminals, input,
        )?)),
    }
}

/// Does a task on an opened input.
fn perform_task<R: Read, O: Write, F: Write>(
    alloc: Global,
    task: &Task<'_>,
    place: Place<'_>,
    input: &mut R,
    output: &mut O,
    faults: &mut F,
) -> Result<u8, Stop>
    ensures { IfOk result (λ status. status ≤ 1) }
{
    match task {
        Task::Explain(opened) => {
            let form = form_of(opened.words);
            let explaining = explaining(opened);
            tell(alloc, explaining, form, place, input, output, faults)
        }
        Task::Decode(opened) => {
            let form = form_of(opened.words);
            tell(alloc, decoding(opened), form, place, input, output, faults)
        }
        Task::Encode(opened) => encode(alloc, opened, place, input, output, faults),
        Task::Convert(opened) => convert(alloc, opened, place, input, output, faults),
    }
}

/// The file of messages at a path.
fn file_at<S: Source>(alloc: Global, source: &S, path: &str) -> Result<S::File, Stop> {
    match source.open(path) {
        Ok(file) => Ok(file),
        Err(SourceFault::Memory) => Err(Stop::Memory),
        Err(SourceFault::Unread) => Err(failed(format!(in alloc;
            "rumpadol: {path}: no such input; name a file that is there and may be read, or - for standard input\n"
        ))),
    }
}

/// The place of a file of messages, with its size where progress is shown.
fn place_at<'a, S: Source>(source: &S, path: &'a str, is_shown: bool) -> Place<'a> {
    Place {
        name: path,
        total: if is_shown { source.size(path) } else { None },
    }
}

/// Does what is asked about messages, and gives the status: 0, or 1 where an input was refused and the rest was done.
pub fn perform_messages<S: Source, I: Read, O: Write, F: Write>(
    alloc: Global,
    job: MessageJob<'_>,
    source: &S,
    terminals: Terminals,
    input: &mut I,
    output: &mut O,
    faults: &mut F,
) -> Result<u8, Stop>
    // Where it ends with a status, it is 0 or 1.
    ensures { IfOk result (λ status. status ≤ 1) }
{
    let path = job.input();
    let task = task_of(alloc, job, source, terminals, input)?;
    if path == STANDARD_INPUT {
        let place = Place {
            name: "the input",
            total: None,
        };
        return perform_task(alloc, &task, place, input, output, faults);
    }
    let mut file = file_at(alloc, source, path)?;
    let place = place_at(source, path, terminals.faults);
    perform_task(alloc, &task, place, &mut file, output, faults)
}
