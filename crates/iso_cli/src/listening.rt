//! The command line of a host on a port.
//!
//! `clap` judges the words, and what it lets pass is matched word by word, so that contracts can speak of the words.
ghost use Rattle.std.specs.Prelude.{◌≡◌, ℕ, IfErr, IfNone, IfOk, IfSome, IsErrOf, map, true};
ghost use Rattle.clap.specs.Words.{takes};
ghost use Rattle.iso_cli.specs.CommandLine.{port_app};
ghost use Rattle.iso_cli.specs.Listening.{AsksNoServe, AsksServe, IsWholeNumber, Listens, host_words};
ghost use Rattle.iso_cli.specs.declared.listening.Listening.{Listening};

use crate::subcommands::{Subcommand, judge_words};
use crate::words::{WordsFault, header_of_word, is_name};
use iso_wire::Header;
use std::alloc::Global;

/// What the words of a host on a port ask.
#[derive(Clone, Copy, PartialEq, Eq, Drop)]
pub struct Listening<'a> {
    /// The table's path or name.
    pub table: &'a str,
    /// The path of the accounts.
    pub accounts: &'a str,
    /// How a frame counts its body.
    pub header: Header,
    /// The port, 1 to 65,535.
    pub port: u16,
    /// How many connections are served, 1 to 1,000.
    pub count: u16,
}

/// The one subcommand of a host on a port.
const SERVE: &[Subcommand] = &[Subcommand {
    name: "serve",
    arguments: &["table", "accounts", "header", "port", "count"],
    clear: false,
}];

/// Whether `clap` lets the words pass.
fn judge<'a>(alloc: Global, words: &'a [&'a str]) -> Result<(), WordsFault>
    ensures passes { IfErr result (λ fault. takes port_app (map (λ w. w.now) words.now) ≡ true
        → fault ≡ WordsFault.Memory) }
{
    judge_words(alloc, SERVE, words)
}

/// The number that a word is, if it is 1 to `most`: decimal digits, with a plus in front or none.
fn whole_number(word: &str, most: u16) -> Option<u16>
    ensures found { IfSome result (IsWholeNumber 1 most word.now) }
    ensures none { IfNone result ((n : ℕ) → IsWholeNumber 1 most word.now n → ⊥) }
{
    match word.parse::<u16>() {
        Ok(number) if 1 <= number && number <= most => Some(number),
        _ => None,
    }
}

/// A host on a port, by the words that name its table, its accounts, its header, its port and its connections.
fn listening_by<'a>(
    table: &'a str,
    accounts: &'a str,
    header: &str,
    port: &str,
    count: &str,
) -> Option<Listening<'a>>
    ensures found { IfSome result
        (Listens (host_words table.now accounts.now header.now port.now count.now)) }
    ensures none { IfNone result ((l : Listening)
        → Listens (host_words table.now accounts.now header.now port.now count.now) l → ⊥) }
{
    if !is_name(table) || !is_name(accounts) {
        return None;
    }
    Some(Listening {
        table,
        accounts,
        header: header_of_word(header)?,
        port: whole_number(port, 65_535)?,
        count: whole_number(count, 1_000)?,
    })
}

/// What the words ask, by the words alone.
fn listening_of<'a>(words: &'a [&'a str]) -> Option<Listening<'a>>
    ensures found { IfSome result (AsksServe (map (λ w. w.now) words.now)) }
    ensures none { IfNone result (AsksNoServe (map (λ w. w.now) words.now)) }
{
    match words {
        ["serve", table, accounts, header, port, count] => {
            listening_by(table, accounts, header, port, count)
        }
        _ => None,
    }
}

/// What the words `serve TABLE ACCOUNTS HEADER PORT COUNT` ask, if they are that command line.
///
/// No name of a table and no path of accounts starts with a dash.
pub fn parse_serve<'a>(alloc: Global, words: &'a [&'a str]) -> Result<Listening<'a>, WordsFault>
    // The host that is found is the one that the words spell: `serve`, and then a table, accounts,
    // a header, a port and a count.
    ensures found { IfOk result (AsksServe (map (λ w. w.now) words.now)) }
    // Words are refused only where they spell no host on a port.
    ensures refused { IsErrOf result WordsFault.Refused → AsksNoServe (map (λ w. w.now) words.now) }
{
    if let Err(fault) = judge(alloc, words) {
        return Err(fault);
    }
    match listening_of(words) {
        Some(listening) => Ok(listening),
        None => Err(WordsFault::Refused),
    }
}
