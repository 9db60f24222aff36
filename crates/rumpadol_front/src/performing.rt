//! A front, from its words to its end.

ghost use Rattle.std.specs.Prelude.{◌≡◌, IfOk};

use crate::words::FrontWords;
use iso_front::{Shards, ShardsFault};
use iso_front_loop::{Front, Port, serve_front};
use iso_lines::{Control, LoopFault};
use iso_loop::NoWait;
use iso_table::Table;
use rumpadol_tables::{Source, Stop, document_at, failed, refused, write_output};
use std::alloc::{AllocError, Global};
use std::io::Write;
use std::net::Net;
use std::time::Clock;

/// What is said of shards that can't be read.
const NO_SHARDS: &str = "the shards can't be read; name a document that is there and may be read";

/// The number of the error stream.
const ERROR_STREAM: i32 = 2;

/// The shards of a document.
pub fn shards_at<S: Source>(alloc: Global, source: &S, path: &str) -> Result<Shards, Stop> {
    let text = document_at(alloc, source, path, NO_SHARDS)?;
    match Shards::from_json(alloc, &text) {
        Ok(shards) => Ok(shards),
        Err(ShardsFault::Memory) => Err(Stop::Memory),
        Err(fault) => Err(refused(format!(in alloc; "rumpadol: {path}: {fault}\n"))),
    }
}

/// How the program stops where the loop does.
fn stopped(alloc: Global, fault: LoopFault) -> Stop {
    match fault {
        LoopFault::Memory => Stop::Memory,
        fault => failed(format!(in alloc; "rumpadol: {fault}\n")),
    }
}

/// Adds the names of the shards and where they listen.
fn add_shards(text: &mut String, shards: &Shards) -> Result<(), AllocError> {
    for shard in shards.as_slice() {
        write!(text, " {} ({})", shard.name, shard.address)?;
    }
    Ok(())
}

/// What is said when the front starts: where it listens, and which shards it has.
fn sentence(alloc: Global, shards: &Shards, port: &Port) -> Result<String, AllocError> {
    let mut text = String::new(alloc);
    match port.address() {
        Some(address) => write!(text, "rumpadol: the front listens on {address}, before")?,
        None => write!(text, "rumpadol: the front listens, before")?,
    }
    add_shards(&mut text, shards)?;
    text.push('\n')?;
    Ok(text)
}

/// Serves the acquirers that come on the port.
fn serve<R: Net + Clock, C: Control, F: Write>(
    alloc: Global,
    runtime: &R,
    front: Front<'_>,
    port: &mut Port,
    control: &mut C,
    faults: &mut F,
) -> Result<(), LoopFault> {
    let told = NoWait::new(runtime, alloc, ERROR_STREAM, faults)?;
    serve_front(runtime, alloc, front, port, control, told)
}

/// Serves acquirers on a port: what they ask goes to the shards by account number, and the shards' answers come back. What
/// happens is told on the error stream.
pub fn perform_front<R: Net + Clock, C: Control, F: Write>(
    alloc: Global,
    runtime: &R,
    words: FrontWords<'_>,
    shards: &Shards,
    table: &Table,
    control: &mut C,
    faults: &mut F,
) -> Result<u8, Stop>
    // A front that served to its end has status 0.
    ensures { IfOk result (λ status. status ≡ 0) }
{
    let mut port = match Port::open(runtime, alloc, words.address) {
        Ok(port) => port,
        Err(fault) => return Err(stopped(alloc, fault)),
    };
    let front = Front {
        shards,
        table,
        header: words.header,
        bounds: words.bounds,
    };
    write_output(faults, sentence(alloc, shards, &port)?.as_bytes())?;
    match serve(alloc, runtime, front, &mut port, control, faults) {
        Ok(()) => Ok(0),
        Err(fault) => Err(stopped(alloc, fault)),
    }
}
