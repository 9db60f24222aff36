//! A run, from its words to its report.
ghost use Rattle.std.specs.Prelude.{◌≤◌, IfOk};

use crate::asked::asked_of;
use crate::day::perform_day;
use crate::diary::{Diaries, make_diary, no_diary, open_diary};
use crate::picture::{draw, picture_asked};
use crate::progress::ProgressLine;
use crate::ready::Ready;
use crate::told::{Happened, report_of};
use crate::unkept::Unkept;
use iso_diary::Opened;
use iso_drive::Driver;
use iso_report::Report;
use iso_restarts::{Fault, Note, NoteLog};
use iso_table::Table;
use iso_tally::{Latencies, Tally};
use iso_traffic::{TrafficFault, drive};
use rumpadol_buying::{DiaryFault, buyers_of};
use rumpadol_drive_words::{DriveJob, DriveWords, MOST_ACQUIRER};
use rumpadol_journals::accounts_at;
use rumpadol_tables::{Source, Stop, failed, misused, refused, table_named, write_output};
use std::alloc::Global;
use std::io::{Read, Write};
use std::net::Net;
use std::rt::Files;
use std::time::Clock;

/// How the program stops where a run does before its end.
fn stopped(alloc: Global, words: &DriveWords<'_>, fault: TrafficFault) -> Stop {
    match fault {
        TrafficFault::Memory => Stop::Memory,
        TrafficFault::Plan(fault) => misused(format!(in alloc; "rumpadol: {fault}\n")),
        TrafficFault::Unwritten(_) | TrafficFault::TooLong => {
            let table = words.table;
            refused(format!(in alloc;
                "rumpadol: {table}: {fault}; name the table and the header that the host has\n"
            ))
        }
        TrafficFault::Wait => failed(format!(in alloc; "rumpadol: {fault}\n")),
        TrafficFault::Notes => {
            let path = words.journal.unwrap_or("");
            failed(format!(in alloc;
                "rumpadol: {path}: a note couldn't be kept, and nothing more is sent; see that its device is well and has room, and run it again without --new: it goes on with what is open\n"
            ))
        }
    }
}

/// The table of the host's messages: one that a host can serve under.
fn table_of<S: Source, I: Read>(
    alloc: Global,
    source: &S,
    input: &mut I,
    word: &str,
) -> Result<Table, Stop> {
    let table = table_named(alloc, source, input, word)?;
    match table.host_ready() {
        Ok(()) => Ok(table),
        Err(fault) => Err(refused(format!(in alloc;
            "rumpadol: {word}: no host can serve under it: {fault}; see what its rows are to be in docs/TABLES.md\n"
        ))),
    }
}

/// All that a run is done with.
fn ready_for<'a, S: Source, I: Read>(
    alloc: Global,
    words: DriveWords<'a>,
    source: &S,
    input: &mut I,
) -> Result<Ready<'a>, Stop> {
    let asked = asked_of(alloc, &words)?;
    let table = table_of(alloc, source, input, words.table)?;
    let (accounts, _) = accounts_at(alloc, source, words.accounts)?;
    Ok(Ready {
        words,
        asked,
        table,
        buyers: buyers_of(alloc, accounts)?,
    })
}

/// Whether a host was wanted, and no connection was taken.
fn is_missed(words: &DriveWords<'_>, report: &Report<'_>) -> bool {
    let wants = words.count > 0 || words.checks || report.tally.resumed > 0;
    wants && report.tally.connected == 0
}

/// Says on the error stream that no connection was taken.
fn tell_no_connection<F: Write>(
    alloc: Global,
    report: &Report<'_>,
    faults: &mut F,
) -> Result<(), Stop> {
    let (address, seconds) = (report.settings.address, report.micros / 1_000_000);
    let line = format!(in alloc;
        "rumpadol: {address}: no connection was taken in {seconds} s: is the host there?\n"
    )?;
    write_output(faults, line.as_bytes())
}

/// Tells the report on the output, and draws the picture where one is asked. The status: 0 where all is closed, and both ends
/// agree where that was asked.
fn tell_report<O: Write, P: Write>(
    alloc: Global,
    words: &DriveWords<'_>,
    report: &Report<'_>,
    output: &mut O,
    picture: &mut Option<P>,
) -> Result<u8, Stop>
    ensures { IfOk result (λ status. status ≤ 1) }
{
    if words.is_json {
        let mut text = report.to_json(alloc)?;
        text.push('\n')?;
        write_output(output, text.as_bytes())?;
    } else {
        write_output(output, report.to_text(alloc)?.as_bytes())?;
    }
    if let (Some(file), Some(path)) = (picture, words.picture) {
        draw(alloc, path, file, report.to_svg(alloc)?.as_str())?;
    }
    if report.is_good() { Ok(0) } else { Ok(1) }
}

/// Drives the host with an acquirer over the log of its notes: what happened.
fn happened<L: NoteLog, R: Net + Clock, F: Write>(
    alloc: Global,
    runtime: &R,
    ready: &Ready<'_>,
    driver: &mut Driver<L>,
    line: &mut ProgressLine<'_, F>,
) -> Result<Happened, TrafficFault> {
    let mut tally = Tally::NONE;
    let mut latencies = Latencies::new(alloc);
    let plan = ready.plan();
    let outcome = drive(
        runtime,
        alloc,
        &plan,
        driver,
        line,
        &mut tally,
        &mut latencies,
    )?;
    Ok(Happened {
        tally,
        latencies,
        outcome,
    })
}

/// Drives the host with an acquirer over the log of its notes, and gives the report.
fn drive_over<'a, R: Net + Clock, L: NoteLog, F: Write>(
    alloc: Global,
    runtime: &R,
    ready: &Ready<'a>,
    driver: &mut Driver<L>,
    is_terminal: bool,
    faults: &mut F,
) -> Result<Report<'a>, Stop> {
    let mut line = ProgressLine::new(faults, is_terminal);
    let driven = happened(alloc, runtime, ready, driver, &mut line);
    line.clear();
    match driven {
        Ok(happened) => Ok(report_of(alloc, ready, driver, happened)?),
        Err(fault) => Err(stopped(alloc, &ready.words, fault)),
    }
}

/// Drives the host with an acquirer that goes on with these notes, and gives the report.
fn drive_with<'a, R: Net + Clock, L: NoteLog + Drop, F: Write>(
    alloc: Global,
    runtime: &R,
    ready: &Ready<'a>,
    notes: &[Note],
    log: L,
    is_terminal: bool,
    faults: &mut F,
) -> Result<Report<'a>, Stop> {
    let words = &ready.words;
    let path = words.journal.unwrap_or("");
    let acquirer = words.acquirer.min(MOST_ACQUIRER);
    match Driver::start(alloc, acquirer, notes, log, words.patience) {
        Ok(mut driver) => drive_over(alloc, runtime, ready, &mut driver, is_terminal, faults),
        Err((Fault::Memory, _)) => Err(Stop::Memory),
        Err(_) => Err(no_diary(alloc, path, DiaryFault::Notes)),
    }
}

/// Drives the host, with a diary where one is named, and gives the report.
fn driven<'a, R: Net + Clock, D: Diaries, F: Write>(
    alloc: Global,
    runtime: &R,
    ready: &Ready<'a>,
    diaries: &D,
    is_terminal: bool,
    faults: &mut F,
) -> Result<Report<'a>, Stop> {
    let words = &ready.words;
    let Some(path) = words.journal else {
        return drive_with(alloc, runtime, ready, &[], Unkept, is_terminal, faults);
    };
    if words.is_new
        && let Err(fault) = make_diary(diaries, path, words.acquirer)
    {
        return Err(no_diary(alloc, path, fault));
    }
    match open_diary(alloc, diaries, path, words.acquirer) {
        Ok(Opened { notes, log }) => {
            drive_with(alloc, runtime, ready, &notes, log, is_terminal, faults)
        }
        Err(fault) => Err(no_diary(alloc, path, fault)),
    }
}

/// Buys from a host as the words ask, and tells the report on the output. The status is 0 where all transactions are closed,
/// and both ends agree where that was asked, and else 1, as where no connection was taken.
fn perform_purchases<R: Net + Clock + Files, S: Source + Diaries, I: Read, O: Write, F: Write>(
    alloc: Global,
    words: DriveWords<'_>,
    runtime: &R,
    source: &S,
    is_terminal: bool,
    input: &mut I,
    output: &mut O,
    faults: &mut F,
) -> Result<u8, Stop>
    ensures { IfOk result (λ status. status ≤ 1) }
{
    let ready = ready_for(alloc, words, source, input)?;
    let mut picture = picture_asked(alloc, runtime, words.picture)?;
    let report = driven(alloc, runtime, &ready, source, is_terminal, faults)?;
    let status = tell_report(alloc, &words, &report, output, &mut picture)?;
    if is_missed(&words, &report) {
        tell_no_connection(alloc, &report, faults)?;
        return Ok(1);
    }
    Ok(status)
}

/// Drives a host as is asked, and tells on the output what came of it. The status is 0 where all is well, and else 1: where a
/// transaction stays open, the ends differ, no connection was taken, or an answer isn't the one that is expected.
pub fn perform_drive<R: Net + Clock + Files, S: Source + Diaries, I: Read, O: Write, F: Write>(
    alloc: Global,
    job: DriveJob<'_>,
    runtime: &R,
    source: &S,
    is_terminal: bool,
    input: &mut I,
    output: &mut O,
    faults: &mut F,
) -> Result<u8, Stop>
    // Where it ends with a status, it is 0 or 1.
    ensures { IfOk result (λ status. status ≤ 1) }
{
    match job {
        DriveJob::Buy(words) => perform_purchases(
            alloc,
            words,
            runtime,
            source,
            is_terminal,
            input,
            output,
            faults,
        ),
        DriveJob::Again(words) => perform_day(alloc, words, runtime, source, input, output),
    }
}
