//! The command: reads an ISO 8583 message and answers it, shows it, or writes it under another table.
//!
//! - no words: the echo, the lines of the message on the input and then the line of its answer
//! - `check TABLE`: whether a table is good
//! - `show TABLE [--clear]`: the lines of the message on the input
//! - `convert FROM TO`: the message on the input under another table
//! - `run TABLE ACCOUNTS HEADER`: an issuer host, frames on the input and the frames of their responses
//! - `serve TABLE ACCOUNTS HEADER PORT COUNT`: the same on a port of this machine, one connection after the other
#![tactic(auto)]

mod act;
mod arguments;
mod check;
mod connections;
mod convert;
mod describe;
mod documents;
mod echo;
mod listening;
mod port;
mod prepare;
mod refusal;
mod report;
mod run;
mod show;
mod source;
mod stop;
mod streaming;
mod subcommands;
mod tables;
mod words;

use arguments::act_as_given;
use iso_host::Std;
use source::Disk;
use std::process::ExitCode;

fn main(rt: HostRuntime) -> ExitCode {
    let mut input = Std::new(rt.stdin());
    let mut output = Std::new(rt.stdout());
    let mut faults = Std::new(rt.stderr());
    let disk = Disk { rt: &rt };
    let status = act_as_given(
        rt.alloc(),
        &rt,
        &rt,
        &disk,
        &mut input,
        &mut output,
        &mut faults,
    );
    ExitCode::from(status)
}
