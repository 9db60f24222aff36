//! `journal` and its subcommands.

use crate::words::{Rule, Subcommand, Takes, Word, command_of, with_subcommands};
use clap::Command;
use std::alloc::{AllocError, Global};

/// The longest time that one call may take, in milliseconds: ten minutes.
const MOST_TIMEOUT: u64 = 600_000;

/// The journal that is looked into.
const JOURNAL_FILE: &[Word] = &[Word {
    id: "file",
    takes: Takes::Place("FILE"),
    help: "The path of a journal's file, or etcd://HOST:PORT,HOST:PORT/NAME; it is only read",
    rules: &[Rule::Required],
}];

/// The words about the members of etcd.
const ETCD: &[Word] = &[
    Word {
        id: "etcd-timeout",
        takes: Takes::Number("MILLISECONDS", 1, MOST_TIMEOUT),
        help: "On etcd: how long one call may take [default: 5000]",
        rules: &[],
    },
    Word {
        id: "etcd-user",
        takes: Takes::Text("NAME"),
        help: "On etcd: the user's name",
        rules: &[Rule::With("etcd-password")],
    },
    Word {
        id: "etcd-password",
        takes: Takes::Text("FILE"),
        help: "On etcd: the path of the file that has the user's password",
        rules: &[Rule::With("etcd-user")],
    },
];

/// How entries are told.
const TELLING_ENTRIES: &[Word] = &[
    Word {
        id: "json",
        takes: Takes::Nothing,
        help: "Gives each entry as a JSON object, a line each",
        rules: &[],
    },
    CLEAR,
];

/// How accounts are told.
const TELLING_ACCOUNTS: &[Word] = &[
    Word {
        id: "json",
        takes: Takes::Nothing,
        help: "Gives each account as a JSON object, a line each",
        rules: &[],
    },
    CLEAR,
];

/// Whether account numbers are shown in full.
const CLEAR: Word = Word {
    id: "clear",
    takes: Takes::Nothing,
    help: "Shows account numbers in full",
    rules: &[],
};

/// The accounts by which each answer is decided again.
const ACCOUNTS_AGAIN: &[Word] = &[Word {
    id: "accounts",
    takes: Takes::Text("FILE"),
    help: "The document of the journal's accounts: each answer is decided again",
    rules: &[],
}];

/// The accounts of which the balances are told.
const ACCOUNTS: &[Word] = &[Word {
    id: "accounts",
    takes: Takes::Text("FILE"),
    help: "The document of the journal's accounts",
    rules: &[Rule::Required],
}];

/// Whether a journal is told as CSV.
const CSV: &[Word] = &[Word {
    id: "csv",
    takes: Takes::Nothing,
    help: "Gives each entry as comma-separated values, a line each, behind a line with their names",
    rules: &[Rule::Without("json"), Rule::Unless("json")],
}];

/// What is copied, and where.
const COPYING: &[Word] = &[
    Word {
        id: "from",
        takes: Takes::Place("FROM"),
        help: "The path of a journal's file, or etcd://HOST:PORT,HOST:PORT/NAME; it is only read",
        rules: &[Rule::Required],
    },
    Word {
        id: "to",
        takes: Takes::Place("TO"),
        help: "The same, of the copy; nothing may have that name yet",
        rules: &[Rule::Required],
    },
];

/// `journal`
const JOURNAL: Subcommand = Subcommand {
    name: "journal",
    about: "Looks into a journal: its entries, whether it is whole, and its balances; and copies one",
    after_help: "Example:
  rumpadol journal show day.journal
      the entries of a journal",
    words: &[],
};

/// The subcommands of `journal`.
const OF_JOURNAL: &[Subcommand] = &[
    Subcommand {
        name: "show",
        about: "Shows the entries of a journal, a line each",
        after_help: "Example:
  rumpadol journal show day.journal
      each order with its place, its key, what it asks, its code and the balance that was shown",
        words: &[JOURNAL_FILE, TELLING_ENTRIES, ETCD],
    },
    Subcommand {
        name: "check",
        about: "Tells whether a journal is whole: status 0 where it is, or is torn at its end, 1 where it is damaged",
        after_help: "Example:
  rumpadol journal check day.journal --accounts accounts.json
      whether the file is whole, and whether each answer in it is the one that a host gives again",
        words: &[JOURNAL_FILE, ACCOUNTS_AGAIN, ETCD],
    },
    Subcommand {
        name: "export",
        about: "Gives the entries of a journal to another program, as CSV or as JSON",
        after_help: "Example:
  rumpadol journal export day.journal --csv > day.csv
      a line with the names of the columns, and a line for each entry",
        words: &[JOURNAL_FILE, CSV, TELLING_ENTRIES, ETCD],
    },
    Subcommand {
        name: "balance",
        about: "Tells what is on each account after the orders of a journal",
        after_help: "Example:
  rumpadol journal balance day.journal --accounts accounts.json
      each account: its opening amount, its ledger, what is available, and the holds that are open",
        words: &[JOURNAL_FILE, ACCOUNTS, TELLING_ACCOUNTS, ETCD],
    },
    Subcommand {
        name: "copy",
        about: "Copies a journal from a file to etcd, back, or on etcd, where nothing has its name yet",
        after_help: "Example:
  rumpadol journal copy day.journal etcd://127.0.0.1:2379,127.0.0.1:2381/day
      the orders of a file as a journal on etcd, which hosts go on with",
        words: &[COPYING, ETCD],
    },
];

/// The command `journal`.
pub fn journal_command<'a>(alloc: Global) -> Result<Command<'a>, AllocError> {
    with_subcommands(alloc, command_of(alloc, &JOURNAL)?, OF_JOURNAL)
}
