//! The subcommand that stands before shards.

use crate::words::{HEADERS, Rule, Subcommand, Takes, Word, command_of};
use clap::Command;
use iso_links::{MOST_PEERS, MOST_SECONDS, MOST_WAITING};
use std::alloc::{AllocError, Global};

/// The words that must be given.
const PLACES: &[Word] = &[
    Word {
        id: "listen",
        takes: Takes::Text("ADDRESS"),
        help: "Serves acquirers at this address and port, as 0.0.0.0:8583 or [::]:8583",
        rules: &[Rule::Required],
    },
    Word {
        id: "shards",
        takes: Takes::Text("FILE"),
        help: "The document of the shards: where each listens, and its account numbers",
        rules: &[Rule::Required],
    },
    Word {
        id: "table",
        takes: Takes::Text("TABLE"),
        help: "How messages are written: ascii87, bcd87, or a table's document",
        rules: &[Rule::Required],
    },
    Word {
        id: "header",
        takes: Takes::OneOf("HEADER", HEADERS),
        help: "How each frame counts the bytes of its message",
        rules: &[Rule::Required],
    },
];

/// The limits of the acquirers, and what stops the front.
const LIMITS: &[Word] = &[
    Word {
        id: "acquirers",
        takes: Takes::Number("N", 1, MOST_PEERS as u64),
        help: "So many acquirers may be connected at once",
        rules: &[Rule::Default("1000")],
    },
    Word {
        id: "idle",
        takes: Takes::Number("SECONDS", 1, MOST_SECONDS as u64),
        help: "An acquirer is closed of which nothing comes for so long",
        rules: &[Rule::Default("600")],
    },
    Word {
        id: "waiting",
        takes: Takes::Number("BYTES", 1, MOST_WAITING as u64),
        help: "Nothing more is taken for a connection while so many bytes wait for it",
        rules: &[Rule::Default("1048576")],
    },
    Word {
        id: "stop-file",
        takes: Takes::Text("FILE"),
        help: "Stops the front once this file is there",
        rules: &[],
    },
];

/// `front`
const FRONT: Subcommand = Subcommand {
    name: "front",
    about: "Stands before hosts that each have some of the account numbers, and sends each message to its own",
    after_help: "Each acquirer gets connections of its own to the shards' hosts. What names an account number goes to its shard, a reversal to
all shards, and its answer comes back once all of them gave the same one.
A front stops once its stop file is there, or once standard input ends where that is a pipe.

Example:
  rumpadol front --listen 0.0.0.0:8583 --shards shards.json --table bcd87 --header binary2
      one port before the hosts of a document, each with account numbers of its own",
    words: &[PLACES, LIMITS],
};

/// The command `front`.
pub fn front_command<'a>(alloc: Global) -> Result<Command<'a>, AllocError> {
    command_of(alloc, &FRONT)
}
