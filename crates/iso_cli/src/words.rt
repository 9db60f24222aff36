//! The command line.
//!
//! `clap` judges the words, and what it lets pass is matched word by word, so that contracts can speak of the words.
ghost use Rattle.std.specs.Prelude.{◌≡◌, IfOk, IfSome, IfNone, IfErr, IsErrOf, map, true};
ghost use Rattle.clap.specs.Words.{takes};
ghost use Rattle.iso_cli.specs.Words.{Asks, AsksNothing, header_name, is_name};
ghost use Rattle.iso_cli.specs.NoJob.{AsksNoCodec, AsksNoRun};
ghost use Rattle.iso_cli.specs.CommandLine.{iso_app};

use crate::subcommands::{Subcommand, judge_words};
use iso_wire::Header;
use std::alloc::Global;

/// What the words ask.
#[derive(Clone, Copy, PartialEq, Eq, Drop)]
pub enum Job<'a> {
    /// No words: one message in, its answer out.
    Echo,
    /// `check TABLE`
    Check {
        /// The table's path or name.
        table: &'a str,
    },
    /// `show TABLE`, with `--clear` before or after the table, once at most.
    Show {
        /// The table's path or name.
        table: &'a str,
        /// Whether `--clear` is given.
        clear: bool,
    },
    /// `convert FROM TO`
    Convert {
        /// The path or name of the table that is read by.
        from: &'a str,
        /// The path or name of the table that is written by.
        to: &'a str,
    },
    /// `run TABLE ACCOUNTS HEADER`
    Run {
        /// The table's path or name.
        table: &'a str,
        /// The path of the accounts.
        accounts: &'a str,
        /// How a frame counts its body.
        header: Header,
    },
}

/// Why the words ask nothing.
#[derive(Clone, Copy, PartialEq, Eq, Drop)]
pub enum WordsFault {
    /// They are no command line.
    Refused,
    /// There is no memory to judge them.
    Memory,
}

/// The subcommands but for a host on a port.
const SUBCOMMANDS: &[Subcommand] = &[
    Subcommand {
        name: "check",
        arguments: &["table"],
        clear: false,
    },
    Subcommand {
        name: "show",
        arguments: &["table"],
        clear: true,
    },
    Subcommand {
        name: "convert",
        arguments: &["from", "to"],
        clear: false,
    },
    Subcommand {
        name: "run",
        arguments: &["table", "accounts", "header"],
        clear: false,
    },
];

/// Whether `clap` lets the words pass.
fn judge<'a>(alloc: Global, words: &'a [&'a str]) -> Result<(), WordsFault>
    ensures passes { IfErr result (λ fault. takes iso_app (map (λ w. w.now) words.now) ≡ true
        → fault ≡ WordsFault.Memory) }
{
    judge_words(alloc, SUBCOMMANDS, words)
}

/// Whether a word is taken for a name, and not for an option: it doesn't start with a dash.
pub fn is_name(word: &str) -> bool
    ensures { result ≡ is_name word.now }
{
    !word.starts_with('-')
}

/// The header of this name.
pub fn header_of_word(word: &str) -> Option<Header>
    // A header that is found has this word for its name.
    ensures found { IfSome result (λ header. word.now ≡ header_name header) }
    // Where none is found, no header has this name.
    ensures none { IfNone result ((header : Header) → word.now ≡ header_name header → ⊥) }
{
    match word {
        "binary2" => Some(Header::Binary2),
        "ascii4" => Some(Header::Ascii4),
        "bcd2" => Some(Header::Bcd2),
        _ => None,
    }
}

/// What the words of a host on a stream ask.
fn run_of<'a>(words: &'a [&'a str]) -> Option<Job<'a>>
    ensures found { IfSome result (Asks (map (λ w. w.now) words.now)) }
    ensures none { IfNone result (AsksNoRun (map (λ w. w.now) words.now)) }
{
    match words {
        ["run", table, accounts, header] if is_name(table) && is_name(accounts) => Some(Job::Run {
            table,
            accounts,
            header: header_of_word(header)?,
        }),
        _ => None,
    }
}

/// What the words of every other job ask.
fn codec_job_of<'a>(words: &'a [&'a str]) -> Option<Job<'a>>
    ensures found { IfSome result (Asks (map (λ w. w.now) words.now)) }
    ensures none { IfNone result (AsksNoCodec (map (λ w. w.now) words.now)) }
{
    match words {
        [] => Some(Job::Echo),
        ["check", table] if is_name(table) => Some(Job::Check { table }),
        ["show", table] if is_name(table) => Some(Job::Show {
            table,
            clear: false,
        }),
        ["show", "--clear", table] if is_name(table) => Some(Job::Show { table, clear: true }),
        ["show", table, "--clear"] if is_name(table) => Some(Job::Show { table, clear: true }),
        ["convert", from, to] if is_name(from) && is_name(to) => Some(Job::Convert { from, to }),
        _ => None,
    }
}

/// What the words ask, by the words alone.
fn job_of<'a>(words: &'a [&'a str]) -> Option<Job<'a>>
    ensures found { IfSome result (Asks (map (λ w. w.now) words.now)) }
    ensures none { IfNone result (AsksNothing (map (λ w. w.now) words.now)) }
{
    match codec_job_of(words) {
        Some(job) => Some(job),
        None => run_of(words),
    }
}

/// What the words ask, if they are a command line. The words are those behind the program's name.
///
/// No name of a table and no path of accounts starts with a dash.
pub fn parse<'a>(alloc: Global, words: &'a [&'a str]) -> Result<Job<'a>, WordsFault>
    // The job that is found is the one that the words spell.
    ensures found { IfOk result (Asks (map (λ w. w.now) words.now)) }
    // Words are refused only where they spell no job.
    ensures refused { IsErrOf result WordsFault.Refused → AsksNothing (map (λ w. w.now) words.now) }
{
    if words.is_empty() {
        return Ok(Job::Echo);
    }
    if let Err(fault) = judge(alloc, words) {
        return Err(fault);
    }
    job_of(words).ok_or(WordsFault::Refused)
}
