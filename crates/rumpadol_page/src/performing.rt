//! The page, from its words to its end.

ghost use Rattle.std.specs.Prelude.{◌≡◌, IfOk};

use crate::ports::{Ports, serve};
use crate::site::Site;
use iso_lines::LoopFault;
use rumpadol_tables::{Stop, failed, write_output};
use std::alloc::Global;
use std::hash::RandomState;
use std::io::Write;
use std::net::Net;
use std::random::RandomSource;
use std::time::Clock;

/// The words about a page.
#[derive(Clone, Copy, Debug)]
pub struct PageWords {
    /// The port on which it is served.
    pub port: u16,
}

/// How the program stops where the page can't be served.
fn stopped(alloc: Global, fault: LoopFault) -> Stop {
    match fault {
        LoopFault::Memory => Stop::Memory,
        fault => failed(format!(in alloc; "rumpadol: {fault}\n")),
    }
}

/// Listens, says where the page is, and serves it.
fn serve_page<R: Net + Clock, F: Write>(
    alloc: Global,
    runtime: &R,
    keys: RandomState,
    port: u16,
    faults: &mut F,
) -> Result<u8, Stop>
    ensures { IfOk result (λ status. status ≡ 0) }
{
    let mut ports = match Ports::open(runtime, alloc, port) {
        Ok(ports) => ports,
        Err(fault) => return Err(stopped(alloc, fault)),
    };
    let sentence = format!(in alloc;
        "rumpadol: the page is at http://127.0.0.1:{port}/ until the program is ended, as by Ctrl-C\n"
    )?;
    write_output(faults, sentence.as_bytes())?;
    let mut site = Site::new(alloc, port)?;
    match serve(runtime, alloc, keys, &mut ports, &mut site) {
        Ok(()) => Ok(0),
        Err(fault) => Err(stopped(alloc, fault)),
    }
}

/// Serves the page on 127.0.0.1 and, where the system has it, on [::1]. Nothing is kept, and nothing is written but the sentence
/// that tells where the page is.
pub fn perform_page<R: Net + Clock + RandomSource, F: Write>(
    alloc: Global,
    runtime: &R,
    words: PageWords,
    faults: &mut F,
) -> Result<u8, Stop>
    // A page that was served to its end has status 0.
    ensures { IfOk result (λ status. status ≡ 0) }
{
    match RandomState::new(runtime) {
        Ok(keys) => serve_page(alloc, runtime, keys, words.port, faults),
        Err(_) => Err(failed(format!(in alloc; "rumpadol: the system gives no random numbers\n"))),
    }
}
