//! A day whose frames are sent again.
ghost use Rattle.std.specs.Prelude.{◌≤◌, IfOk};

use crate::asked::address_of;
use iso_compare::Telling;
use iso_names::Names;
use iso_replay::{Day, DayFault, Part, replay_day};
use iso_table::Table;
use rumpadol_drive_words::DayWords;
use rumpadol_tables::{Source, Stop, failed, names_named, refused, table_named, write_output};
use std::alloc::Global;
use std::io::{ErrorKind, Read, Write};
use std::net::{Net, SocketAddr};
use std::time::Clock;

/// How the program stops where a file of frames can't be read.
fn unread(alloc: Global, path: &str) -> Stop {
    failed(format!(in alloc;
        "rumpadol: {path}: the frames can't be read; name a file that is there and may be read\n"
    ))
}

/// All bytes of a file of frames.
fn frames_at<S: Source>(alloc: Global, source: &S, path: &str) -> Result<Vec<u8>, Stop> {
    let Ok(mut file) = source.open(path) else {
        return Err(unread(alloc, path));
    };
    let mut bytes = Vec::new(alloc);
    match file.read_to_end(&mut bytes) {
        Ok(_) => Ok(bytes),
        Err(error) if error.kind() == ErrorKind::OutOfMemory => Err(Stop::Memory),
        Err(_) => Err(unread(alloc, path)),
    }
}

/// How the program stops where a day isn't sent again.
fn not_sent(alloc: Global, words: &DayWords<'_>, fault: DayFault) -> Stop {
    match fault {
        DayFault::Memory => Stop::Memory,
        DayFault::Replay(_) => failed(format!(in alloc; "rumpadol: {fault}\n")),
        DayFault::NotFrames { part, .. } => {
            let path = match part {
                Part::Frames => words.frames,
                Part::Expected => words.expected,
            };
            refused(format!(in alloc; "rumpadol: {path}: {fault}\n"))
        }
    }
}

/// What is sent again, and how it is told.
fn day_of<'a>(
    words: &DayWords<'_>,
    address: SocketAddr,
    table: &'a Table,
    names: &'a Names,
    frames: &'a [u8],
    expected: &'a [u8],
) -> Day<'a> {
    let telling = Telling {
        table,
        names,
        is_clear: words.is_clear,
    };
    Day {
        address,
        header: words.header,
        frames,
        expected,
        patience: words.patience,
        telling,
        is_json: words.is_json,
    }
}

/// Sends the frames of a day to a host again, and tells on the output where its answers aren't those that are expected. The
/// status is 0 where all are, and else 1.
pub fn perform_day<R: Net + Clock, S: Source, I: Read, O: Write>(
    alloc: Global,
    words: DayWords<'_>,
    runtime: &R,
    source: &S,
    input: &mut I,
    output: &mut O,
) -> Result<u8, Stop>
    // Where it ends with a status, it is 0 or 1.
    ensures { IfOk result (λ status. status ≤ 1) }
{
    let address = address_of(alloc, words.address)?;
    let table = table_named(alloc, source, input, words.table)?;
    let names = names_named(alloc, source, None, table.version())?;
    let frames = frames_at(alloc, source, words.frames)?;
    let expected = frames_at(alloc, source, words.expected)?;
    let day = day_of(&words, address, &table, &names, &frames, &expected);
    let mut told = Vec::new(alloc);
    match replay_day(runtime, alloc, &day, &mut told) {
        Ok(is_same) => {
            write_output(output, &told)?;
            if is_same { Ok(0) } else { Ok(1) }
        }
        Err(fault) => Err(not_sent(alloc, &words, fault)),
    }
}
