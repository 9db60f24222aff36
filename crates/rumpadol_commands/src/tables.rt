//! `table` and its subcommands.

use crate::messages::NAMES;
use crate::words::{Rule, Subcommand, Takes, Word, command_of, with_subcommands};
use clap::Command;
use std::alloc::{AllocError, Global};

/// One table; standard input is a choice.
const TABLE_WORD: Word = Word {
    id: "table",
    takes: Takes::Place("TABLE"),
    help: "A built-in table, as ascii87, the path of a table's JSON document, or - for standard input",
    rules: &[Rule::Required],
};

/// How a table is made.
const MAKING: &[Word] = &[
    Word {
        id: "from",
        takes: Takes::Text("TABLE"),
        help: "The table to begin with",
        rules: &[Rule::Default("ascii87")],
    },
    Word {
        id: "set",
        takes: Takes::Texts("ROW"),
        help: "Changes a row or adds one, as '48 class=ANS length=LLLL max=9999'",
        rules: &[],
    },
    Word {
        id: "drop",
        takes: Takes::Shorts("N"),
        help: "Leaves out the row of an element, before any row is set",
        rules: &[],
    },
];

/// The two tables that are compared.
const COMPARED: &[Word] = &[
    Word {
        id: "first",
        takes: Takes::Place("A"),
        help: "A built-in table, as ascii87, the path of a table's JSON document, or - for standard input",
        rules: &[Rule::Required],
    },
    Word {
        id: "second",
        takes: Takes::Place("B"),
        help: "The other one",
        rules: &[Rule::Required],
    },
];

/// A table of another program.
const IMPORTED: &[Word] = &[
    Word {
        id: "file",
        takes: Takes::Place("FILE"),
        help: "A packager of jPOS (XML) or a specification of moov-io/iso8583 (JSON), or - for standard input",
        rules: &[Rule::Required],
    },
    Word {
        id: "edition",
        takes: Takes::OneOf("DIGIT", &["0", "1", "2", "9"]),
        help: "The first digit of the message types: 0 is 1987, 1 is 1993, 2 is 2003, 9 is private",
        rules: &[Rule::Default("0")],
    },
    Word {
        id: "bytes",
        takes: Takes::OneOf("HOW", &["hex", "raw"]),
        help: "How the bytes of IFA_LLBINARY and IFA_LLLBINARY stand: as hexadecimal digits, or raw",
        rules: &[],
    },
];

/// `table`
const TABLE: Subcommand = Subcommand {
    name: "table",
    about: "Checks, shows, lists, makes and compares tables",
    after_help: "Example:
  rumpadol table check mine.json
      all that is wrong with a table",
    words: &[],
};

/// The subcommands of `table`.
const OF_TABLE: &[Subcommand] = &[
    Subcommand {
        name: "check",
        about: "Tells all that is wrong with a table's document",
        after_help: "Example:
  rumpadol table check mine.json
      what the table is, or each complaint with its row, element and member, and what is allowed",
        words: &[&[TABLE_WORD]],
    },
    Subcommand {
        name: "show",
        about: "Shows a table row by row, with the elements' names",
        after_help: "Example:
  rumpadol table show bcd87 --names names.json
      the rows of the built-in table in BCD, with a network's own names",
        words: &[&[TABLE_WORD, NAMES]],
    },
    Subcommand {
        name: "list",
        about: "Lists the built-in tables",
        after_help: "Example:
  rumpadol table list
      a line each: its name, version, codings and how many rows it has",
        words: &[],
    },
    Subcommand {
        name: "new",
        about: "Writes the document of a table that is made from another one",
        after_help: "Example:
  rumpadol table new --from bcd87 --drop 120 --set '48 class=ANS length=LLLL max=9999' > mine.json
      the built-in table in BCD without element 120, and with up to 9,999 characters in element 48",
        words: &[MAKING],
    },
    Subcommand {
        name: "import",
        about: "Writes the document of another program's table: a packager of jPOS, or a specification of moov-io/iso8583",
        after_help: "A field becomes a row only where its bytes are those of the row. Each other one is named on the error stream with why,
and the status is 1 then.

Example:
  rumpadol table import packager.xml > mine.json
      the table of a packager of jPOS, to be looked at with rumpadol table show",
        words: &[IMPORTED],
    },
    Subcommand {
        name: "diff",
        about: "Tells how two tables differ: status 0 where they are equal, 1 where they differ",
        after_help: "Example:
  rumpadol table diff ascii87 mine.json
      a line for each member that differs, as '48 max: 999 -> 9999'",
        words: &[COMPARED],
    },
];

/// The command `table`.
pub fn table_command<'a>(alloc: Global) -> Result<Command<'a>, AllocError> {
    with_subcommands(alloc, command_of(alloc, &TABLE)?, OF_TABLE)
}
