//! A host with rules, from its words to its end.

ghost use Rattle.std.specs.Prelude.{◌≡◌, IfOk};

use crate::words::ScriptWords;
use iso_host::Link;
use iso_issuer::{Accounts, Issuer};
use iso_lines::{Control, LoopFault};
use iso_loop::NoWait;
use iso_script::{Script, ScriptFault, Scripted};
use iso_script_loop::{Port, serve_script};
use rumpadol_tables::{Source, Stop, document_at, failed, refused, write_output};
use std::alloc::{AllocError, Global};
use std::io::Write;
use std::net::Net;
use std::time::Clock;

/// What is said of rules that can't be read.
const NO_RULES: &str = "the rules can't be read; name a document that is there and may be read";

/// How many orders its books take.
const MOST_ORDERS: u32 = 999_999;

/// The number of the error stream.
const ERROR_STREAM: i32 = 2;

/// The rules of a document.
pub fn script_at<S: Source>(alloc: Global, source: &S, path: &str) -> Result<Script, Stop> {
    let text = document_at(alloc, source, path, NO_RULES)?;
    match Script::from_text(alloc, &text) {
        Ok(script) => Ok(script),
        Err(ScriptFault::Memory) => Err(Stop::Memory),
        Err(fault) => Err(refused(format!(in alloc; "rumpadol: {path}: {fault}\n"))),
    }
}

/// How the program stops where the loop does.
fn stopped(alloc: Global, fault: LoopFault) -> Stop {
    match fault {
        LoopFault::Memory => Stop::Memory,
        fault => failed(format!(in alloc; "rumpadol: {fault}\n")),
    }
}

/// What is said when the host starts.
fn sentences(alloc: Global, path: &str, port: &Port) -> Result<String, AllocError> {
    let mut text = format!(in alloc;
        "rumpadol: THIS HOST MISBEHAVES ON PURPOSE by the rules of {path}, and forgets all when it ends\n"
    )?;
    if let Some(address) = port.address() {
        writeln!(text, "rumpadol: it listens on {address}")?;
    }
    Ok(text)
}

/// Serves the peers that come on the port.
fn serve<R: Net + Clock, C: Control, F: Write>(
    alloc: Global,
    runtime: &R,
    words: ScriptWords<'_>,
    scripted: &mut Scripted,
    link: &Link,
    port: &mut Port,
    control: &mut C,
    faults: &mut F,
) -> Result<(), LoopFault> {
    let told = NoWait::new(runtime, alloc, ERROR_STREAM, faults)?;
    serve_script(
        runtime,
        alloc,
        scripted,
        link,
        words.bounds,
        port,
        control,
        told,
    )
}

/// The port that the words name, once it is told.
fn opened<R: Net, F: Write>(
    alloc: Global,
    runtime: &R,
    words: &ScriptWords<'_>,
    faults: &mut F,
) -> Result<Port, Stop> {
    match Port::open(runtime, alloc, words.address) {
        Ok(port) => {
            write_output(faults, sentences(alloc, words.path, &port)?.as_bytes())?;
            Ok(port)
        }
        Err(fault) => Err(stopped(alloc, fault)),
    }
}

/// Serves peers on a port by rules, on books of these accounts that are forgotten at the end. What happens is told on the error
/// stream.
pub fn perform_script<R: Net + Clock, C: Control, F: Write>(
    alloc: Global,
    runtime: &R,
    words: ScriptWords<'_>,
    script: Script,
    accounts: Accounts,
    link: &Link,
    control: &mut C,
    faults: &mut F,
) -> Result<u8, Stop>
    // A host that served to its end has status 0.
    ensures { IfOk result (λ status. status ≡ 0) }
{
    let mut port = opened(alloc, runtime, &words, faults)?;
    let mut scripted = Scripted::new(alloc, Issuer::new(accounts, MOST_ORDERS), script);
    match serve(
        alloc,
        runtime,
        words,
        &mut scripted,
        link,
        &mut port,
        control,
        faults,
    ) {
        Ok(()) => Ok(0),
        Err(fault) => Err(stopped(alloc, fault)),
    }
}
