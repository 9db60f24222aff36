//! The subcommands that read or write messages.

use crate::words::{HEADERS, Rule, Subcommand, Takes, Word, with_subcommands};
use clap::Command;
use std::alloc::{AllocError, Global};

/// The table that messages are read or written by, and what is read.
const TABLE_AND_INPUT: &[Word] = &[
    Word {
        id: "table",
        takes: Takes::Place("TABLE"),
        help: "A built-in table, as ascii87 or bcd87, or the path of a table's JSON document",
        rules: &[Rule::Required],
    },
    INPUT,
];

/// What is read.
const INPUT: Word = Word {
    id: "input",
    takes: Takes::Place("INPUT"),
    help: "The path of what is read; - or nothing is standard input",
    rules: &[Rule::Default("-"), Rule::HidesDefault],
};

/// In which form messages are read.
const INPUT_FORM: &[Word] = &[
    Word {
        id: "hex",
        takes: Takes::Nothing,
        help: "The input is in hexadecimal digits, spaced anyhow, or a dump",
        rules: &[],
    },
    Word {
        id: "frames",
        takes: Takes::OneOf("HEADER", HEADERS),
        help: "A stream of frames: how each counts the bytes of its message",
        rules: &[],
    },
    Word {
        id: "skip",
        takes: Takes::Short("N"),
        help: "So many bytes stand before the type of each message, as 5 of a TPDU",
        rules: &[],
    },
];

/// In which form messages are written.
const OUTPUT_FORM: &[Word] = &[
    Word {
        id: "hex",
        takes: Takes::Nothing,
        help: "Writes hexadecimal digits, a line a message",
        rules: &[],
    },
    Word {
        id: "frames",
        takes: Takes::OneOf("HEADER", HEADERS),
        help: "Writes a stream of frames: how each counts the bytes of its message",
        rules: &[],
    },
];

/// Whether what is protected is shown.
const CLEAR: &[Word] = &[Word {
    id: "clear",
    takes: Takes::Nothing,
    help: "Shows account numbers, tracks, PIN data and chip data in full",
    rules: &[],
}];

/// A network's own names of elements.
pub const NAMES: Word = Word {
    id: "names",
    takes: Takes::Text("FILE"),
    help: "A network's own names, a JSON object as {\"48\":\"Merchant data\"}",
    rules: &[],
};

/// How `explain` tells messages.
const EXPLAINING: &[Word] = &[
    Word {
        id: "json",
        takes: Takes::Nothing,
        help: "Gives the pieces as JSON",
        rules: &[],
    },
    NAMES,
];

/// How `decode` tells messages.
const DECODING: &[Word] = &[
    Word {
        id: "json",
        takes: Takes::Nothing,
        help: "Gives each message as a JSON object, a line each",
        rules: &[],
    },
    NAMES,
];

/// The tables that `convert` reads and writes by, and what it reads.
const CONVERTING: &[Word] = &[
    Word {
        id: "from",
        takes: Takes::Place("FROM"),
        help: "The table that messages are read by",
        rules: &[Rule::Required],
    },
    Word {
        id: "to",
        takes: Takes::Place("TO"),
        help: "The table that they are written by",
        rules: &[Rule::Required],
    },
    INPUT,
];

/// `explain`, `decode`, `encode` and `convert`
const OF_MESSAGES: &[Subcommand] = &[
    Subcommand {
        name: "explain",
        about: "Tells messages piece by piece, and where one stops being a message, why",
        after_help: "Example:
  rumpadol explain ascii87 --hex dump.txt
      the message of a dump: the offset, the bytes, the element and the meaning of each piece",
        words: &[TABLE_AND_INPUT, INPUT_FORM, CLEAR, EXPLAINING],
    },
    Subcommand {
        name: "decode",
        about: "Tells messages element by element, as lines or as JSON",
        after_help: "Example:
  rumpadol decode ascii87 --frames ascii4 --json day.txt
      each message of a stream of frames as a JSON object, a line each",
        words: &[TABLE_AND_INPUT, INPUT_FORM, CLEAR, DECODING],
    },
    Subcommand {
        name: "encode",
        about: "Writes messages from JSON lines or field lines",
        after_help: "Example:
  printf 'MTI=0800\\nDE011=000001\\nDE070=301\\n' | rumpadol encode ascii87
      the bytes of an echo request",
        words: &[TABLE_AND_INPUT, OUTPUT_FORM],
    },
    Subcommand {
        name: "convert",
        about: "Writes messages under another table",
        after_help: "Example:
  rumpadol convert ascii87 bcd87 --frames ascii4 day.txt
      each message of a stream of frames in BCD, in frames as before",
        words: &[CONVERTING, INPUT_FORM],
    },
];

/// A command that also reads and writes messages.
pub fn with_messages<'a>(alloc: Global, command: Command<'a>) -> Result<Command<'a>, AllocError> {
    with_subcommands(alloc, command, OF_MESSAGES)
}
