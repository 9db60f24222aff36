//! The subcommand that drives a host.

use crate::words::{HEADERS, Rule, Subcommand, Takes, Word, command_of};
use clap::Command;
use rumpadol_drive_words::{
    MOST_ACQUIRER, MOST_CONNECTIONS, MOST_COUNT, MOST_OPEN, MOST_PATIENCE, MOST_RATE, MOST_TIME,
};
use std::alloc::{AllocError, Global};

/// The words that say which host it is, and how it writes.
const PLACE: &[Word] = &[
    Word {
        id: "address",
        takes: Takes::Place("ADDRESS"),
        help: "Where the host listens, as 127.0.0.1:8583 or [::1]:8583",
        rules: &[Rule::Required],
    },
    Word {
        id: "table",
        takes: Takes::Text("TABLE"),
        help: "How messages are written: ascii87, bcd87, or a table's document",
        rules: &[Rule::Required],
    },
    Word {
        id: "header",
        takes: Takes::OneOf("HEADER", HEADERS),
        help: "How each frame counts the bytes of its message",
        rules: &[Rule::Required],
    },
];

/// The words that say who buys, with which accounts, what, and how much.
const BUYING: &[Word] = &[
    Word {
        id: "acquirer",
        takes: Takes::Number("NUMBER", 0, MOST_ACQUIRER),
        help: "The acquirer's number (element 32)",
        rules: &[Rule::Without("frames"), Rule::Unless("frames")],
    },
    Word {
        id: "accounts",
        takes: Takes::Text("FILE"),
        help: "The host's document of accounts, all of which are bought with",
        rules: &[Rule::Without("frames"), Rule::Unless("frames")],
    },
    Word {
        id: "count",
        takes: Takes::Number("N", 0, MOST_COUNT as u64),
        help: "So many transactions at most; 0 closes what an earlier run left open",
        rules: &[Rule::Without("frames"), Rule::Default("1000")],
    },
    Word {
        id: "amount",
        takes: Takes::Text("LEAST..MOST"),
        help: "What a purchase or a hold costs, in minor units",
        rules: &[Rule::Without("frames"), Rule::Default("100..10000")],
    },
    Word {
        id: "mix",
        takes: Takes::Text("SHARES"),
        help: "So many of 100 transactions are no purchases, as hold=20,complete=10,inquiry=5,undo=5",
        rules: &[Rule::Without("frames")],
    },
];

/// The words that say how fast it is bought, how long, and how long waited for.
const PACE: &[Word] = &[
    Word {
        id: "peers",
        takes: Takes::Number("N", 1, MOST_CONNECTIONS),
        help: "Over so many connections",
        rules: &[Rule::Without("frames"), Rule::Default("1")],
    },
    Word {
        id: "rate",
        takes: Takes::Number("N", 1, MOST_RATE as u64),
        help: "So many transactions begin in a second; without it, as many as may be open",
        rules: &[Rule::Without("frames")],
    },
    Word {
        id: "open",
        takes: Takes::Number("N", 1, MOST_OPEN),
        help: "So many transactions may be open at once; without it, 16 a connection",
        rules: &[Rule::Without("frames")],
    },
    Word {
        id: "seconds",
        takes: Takes::Number("S", 1, MOST_TIME),
        help: "The whole run takes so long at most",
        rules: &[Rule::Without("frames"), Rule::Default("600")],
    },
    Word {
        id: "patience",
        takes: Takes::Number("MILLISECONDS", 1, MOST_PATIENCE),
        help: "An answer is waited for so long",
        rules: &[Rule::Default("2000")],
    },
];

/// The words that say what is done to the traffic on purpose.
const FAULTS: &[Word] = &[
    Word {
        id: "lose",
        takes: Takes::Text("CHANCE"),
        help: "How likely each frame is lost, of both directions, from 0 to 1, as 0.05",
        rules: &[Rule::Without("frames"), Rule::Default("0")],
    },
    Word {
        id: "repeat",
        takes: Takes::Text("CHANCE"),
        help: "How likely each frame comes twice",
        rules: &[Rule::Without("frames"), Rule::Default("0")],
    },
    Word {
        id: "cut",
        takes: Takes::Text("CHANCE"),
        help: "How likely the connection is cut behind a frame",
        rules: &[Rule::Without("frames"), Rule::Default("0")],
    },
    Word {
        id: "delay",
        takes: Takes::Text("A..B"),
        help: "How many milliseconds each frame is held back",
        rules: &[Rule::Without("frames"), Rule::Default("0..0")],
    },
    Word {
        id: "seed",
        takes: Takes::Number("NUMBER", 0, u64::MAX),
        help: "From it amounts, accounts and faults are drawn; the same seed draws the same",
        rules: &[Rule::Without("frames"), Rule::Default("1")],
    },
];

/// The words that say what is told and kept.
const FILES: &[Word] = &[
    Word {
        id: "check",
        takes: Takes::Nothing,
        help: "Asks the host for each balance in the end, and compares: no one else may use the accounts meanwhile",
        rules: &[Rule::Without("frames")],
    },
    Word {
        id: "json",
        takes: Takes::Nothing,
        help: "Tells the report as JSON",
        rules: &[],
    },
    Word {
        id: "picture",
        takes: Takes::Text("FILE"),
        help: "Draws the histogram of the times as SVG",
        rules: &[Rule::Without("frames")],
    },
    Word {
        id: "journal",
        takes: Takes::Text("FILE"),
        help: "The acquirer's diary, where each order is kept before it is sent",
        rules: &[Rule::Without("frames")],
    },
    Word {
        id: "new",
        takes: Takes::Nothing,
        help: "Makes the diary, where nothing has its name yet",
        rules: &[Rule::Without("frames"), Rule::With("journal")],
    },
];

/// The words about a day whose frames are sent again.
const DAY: &[Word] = &[
    Word {
        id: "frames",
        takes: Takes::Text("FILE"),
        help: "Sends the frames of this file again, in place of buying",
        rules: &[Rule::With("expect")],
    },
    Word {
        id: "expect",
        takes: Takes::Text("FILE"),
        help: "The frames that the host is expected to answer them with",
        rules: &[Rule::With("frames")],
    },
    Word {
        id: "clear",
        takes: Takes::Nothing,
        help: "Shows account numbers, tracks, PIN data and chip data in full",
        rules: &[Rule::With("frames")],
    },
];

/// `drive`
const DRIVE: Subcommand = Subcommand {
    name: "drive",
    about: "Drives a host as an acquirer, over many connections and through what networks do",
    after_help: "An order that gets no answer in time is sent again, then reversed, until the transaction is closed. With --journal each
order is kept before it is sent, and the next run with the same file goes on with what a crash left open; without it, all is
forgotten at the end of the run. The table, the header and the accounts are those that the host has.

Examples:
  rumpadol drive 127.0.0.1:8583 --table bcd87 --header binary2 --acquirer 12345 --accounts accounts.json --peers 8
      1,000 purchases over 8 connections, as fast as they are answered, and how long answers took
  rumpadol drive 127.0.0.1:8583 --table bcd87 --header binary2 --acquirer 12345 --accounts accounts.json \\
      --rate 200 --seconds 60 --count 10000 --lose 0.05 --repeat 0.05 --delay 50..200 --cut 0.01 --seed 7 --check
      what networks do, to 200 purchases a second; in the end both ends have to agree on every account
  rumpadol drive 127.0.0.1:8583 --table bcd87 --header binary2 --acquirer 12345 --accounts accounts.json \\
      --journal day.diary --new --json --picture day.svg
      an acquirer that outlives its own crashes, its report as JSON and the histogram as a picture
  rumpadol drive 127.0.0.1:8583 --table bcd87 --header binary2 --acquirer 12345 --accounts accounts.json \\
      --mix hold=20,complete=10,inquiry=5,undo=5 --lose 0.05 --check
      of 100 transactions 20 holds, 10 completions and 5 partial reversals of holds, and 5 inquiries; 60 are purchases
  rumpadol drive 127.0.0.1:8583 --table bcd87 --header binary2 --frames day.frames --expect answers.frames
      a day that is sent again, and where the answers of the host aren't those of a host before

Ends with status 0 where all transactions are closed, both ends agree where --check asks, and each answer is the one that is
expected, and with 1 where not.",
    words: &[PLACE, BUYING, PACE, FAULTS, FILES, DAY],
};

/// The command `drive`.
pub fn drive_command<'a>(alloc: Global) -> Result<Command<'a>, AllocError> {
    command_of(alloc, &DRIVE)
}
