//! The program for people: looks at ISO 8583 messages, builds and converts them, checks tables, drives hosts, and looks into journals.
//!
//! - `explain TABLE [INPUT]`: messages piece by piece, and where one stops being a message, why
//! - `decode TABLE [INPUT]`: messages element by element, as lines or as JSON
//! - `encode TABLE [INPUT]`: messages from such lines or such JSON
//! - `convert FROM TO [INPUT]`: messages under another table
//! - `table check`, `show`, `list`, `new`, `diff` and `import`: tables
//! - `host`: answers frames as an issuer, of a stream or of many peers on ports, and keeps each order before it is answered
//! - `front`: stands before hosts that each have some of the account numbers
//! - `drive`: drives a host as an acquirer, through what networks do
//! - `page`: serves a page on this machine, on which messages are looked at, built and played with
//! - `journal show`, `check`, `export` and `balance`: a journal in a file or on etcd; `journal copy`: from one to the other
#![tactic(auto)]

mod act;

use act::act;
use rumpadol_journals::Disk;
use rumpadol_tables::{Stop, tell};
use rumpadol_terminals::{Terminals, asks_for_no_colours};
use std::alloc::{AllocError, Global};
use std::env;
use std::env::Env;
use std::io::{ErrorKind, IsTerminal};
use std::process::ExitCode;

/// The words that the program is given, the first of which is its name.
fn given_words<R: Env>(alloc: Global, given: &R) -> Result<Vec<String>, Stop> {
    match env::args(&(given, alloc)) {
        Ok(words) => {
            let words: Result<Vec<String>, AllocError> = words.collect(alloc);
            Ok(words?)
        }
        Err(error) if error.kind() == ErrorKind::OutOfMemory => Err(Stop::Memory),
        Err(_) => Err(Stop::Words(String::from_str(
            alloc,
            "rumpadol: a word isn't UTF-8 text; write it so\n",
        )?)),
    }
}

fn main(rt: HostRuntime) -> ExitCode {
    let (mut input, mut output, mut faults) = (rt.stdin(), rt.stdout(), rt.stderr());
    let alloc = rt.alloc();
    let terminals = Terminals {
        input: input.is_terminal(),
        output: output.is_terminal(),
        faults: faults.is_terminal(),
        is_plain: asks_for_no_colours(alloc, &rt),
    };
    let disk = Disk { rt: &rt };
    let status = match given_words(alloc, &rt) {
        Ok(words) => act(
            alloc,
            &words,
            &disk,
            terminals,
            &mut input,
            &mut output,
            &mut faults,
        ),
        Err(stop) => tell(&mut faults, &stop),
    };
    ExitCode::from(status)
}
