//! The subcommand that answers frames.

use crate::words::{HEADERS, Rule, Subcommand, Takes, Word, command_of};
use clap::Command;
use iso_links::{MOST_PEERS, MOST_SECONDS, MOST_WAITING};
use std::alloc::{AllocError, Global};

/// The most seconds or milliseconds of a time.
const MOST_TIME: u64 = 86_400_000;

/// The words that say where the peers of a host are, and how they write.
const PLACES: &[Word] = &[
    Word {
        id: "listen",
        takes: Takes::Text("ADDRESS"),
        help: "Serves many peers at this address and port, as 0.0.0.0:8583 or [::]:8583",
        rules: &[Rule::In("ports"), Rule::Without("links")],
    },
    Word {
        id: "links",
        takes: Takes::Text("FILE"),
        help: "Serves many peers on the links of this document",
        rules: &[
            Rule::In("ports"),
            Rule::Without("table"),
            Rule::Without("header"),
        ],
    },
    Word {
        id: "table",
        takes: Takes::Text("TABLE"),
        help: "How messages are written: ascii87, bcd87, or a table's document",
        rules: &[Rule::Unless("links")],
    },
    Word {
        id: "header",
        takes: Takes::OneOf("HEADER", HEADERS),
        help: "How each frame counts the bytes of its message",
        rules: &[Rule::Unless("links")],
    },
];

/// The words that name the files of a host.
const FILES: &[Word] = &[
    Word {
        id: "accounts",
        takes: Takes::Text("FILE"),
        help: "The document of the accounts",
        rules: &[Rule::Required],
    },
    Word {
        id: "journal",
        takes: Takes::Text("FILE"),
        help: "Where each order is kept before it is answered: a file, or etcd://A:2379,B:2379,C:2379/NAME",
        rules: &[Rule::Unless("script")],
    },
    Word {
        id: "new",
        takes: Takes::Nothing,
        help: "Makes the journal, where nothing has its name yet",
        rules: &[],
    },
];

/// The words about the log of a host on ports, its metrics and what stops it.
const OUTSIDE: &[Word] = &[
    Word {
        id: "log",
        takes: Takes::Text("FILE"),
        help: "Where what happens is told, a line of JSON each; without it on the error stream",
        rules: &[Rule::With("ports")],
    },
    Word {
        id: "metrics",
        takes: Takes::Text("ADDRESS"),
        help: "Tells /metrics and /health over HTTP at this address and port",
        rules: &[Rule::With("ports")],
    },
    Word {
        id: "stop-file",
        takes: Takes::Text("FILE"),
        help: "Stops the host once this file is there",
        rules: &[Rule::With("ports")],
    },
];

/// The word for a host that misbehaves.
const SCRIPT: &[Word] = &[Word {
    id: "script",
    takes: Takes::Text("FILE"),
    help: "Misbehaves on purpose by the rules of this document, and keeps nothing",
    rules: &[
        Rule::With("listen"),
        Rule::Without("links"),
        Rule::Without("journal"),
        Rule::Without("new"),
        Rule::Without("log"),
        Rule::Without("metrics"),
        Rule::Without("idle"),
        Rule::Without("frame"),
        Rule::Without("unread"),
    ],
}];

/// The limits of the link by words.
const LIMITS: &[Word] = &[
    Word {
        id: "peers",
        takes: Takes::Number("N", 1, MOST_PEERS as u64),
        help: "So many peers of --listen may be connected at once",
        rules: &[
            Rule::Default("1000"),
            Rule::Without("links"),
            Rule::With("listen"),
        ],
    },
    Word {
        id: "idle",
        takes: Takes::Number("SECONDS", 1, MOST_SECONDS as u64),
        help: "A peer is closed of which nothing comes for so long",
        rules: &[
            Rule::Default("600"),
            Rule::Without("links"),
            Rule::With("listen"),
        ],
    },
    Word {
        id: "frame",
        takes: Takes::Number("SECONDS", 1, MOST_SECONDS as u64),
        help: "A peer is closed whose frame stays unfinished for so long",
        rules: &[
            Rule::Default("30"),
            Rule::Without("links"),
            Rule::With("listen"),
        ],
    },
    Word {
        id: "unread",
        takes: Takes::Number("SECONDS", 1, MOST_SECONDS as u64),
        help: "A peer is closed that takes no byte of its answers for so long",
        rules: &[
            Rule::Default("30"),
            Rule::Without("links"),
            Rule::With("listen"),
        ],
    },
    Word {
        id: "waiting",
        takes: Takes::Number("BYTES", 1, MOST_WAITING as u64),
        help: "A peer isn't read from while so many bytes wait for it",
        rules: &[
            Rule::Default("1048576"),
            Rule::Without("links"),
            Rule::With("listen"),
        ],
    },
];

/// The words of a host whose journal is on etcd.
const REPLICAS: &[Word] = &[
    Word {
        id: "standby",
        takes: Takes::Nothing,
        help: "Reads on in a journal on etcd, answers nothing, and takes over when nobody is active",
        rules: &[Rule::Without("new")],
    },
    Word {
        id: "control",
        takes: Takes::Text("ADDRESS"),
        help: "Has a standby take over once it is sent the line: take over",
        rules: &[Rule::With("standby")],
    },
    Word {
        id: "lease",
        takes: Takes::Number("SECONDS", 1, MOST_TIME),
        help: "Another host may take over so long after this one was last heard of [5]",
        rules: &[],
    },
    Word {
        id: "etcd-timeout",
        takes: Takes::Number("MILLISECONDS", 1, MOST_TIME),
        help: "One call of a member of etcd may take so long [1000]",
        rules: &[],
    },
    Word {
        id: "give-up",
        takes: Takes::Number("SECONDS", 1, MOST_TIME),
        help: "The host ends where it isn't known for so long whether orders were kept [30]",
        rules: &[],
    },
    Word {
        id: "etcd-user",
        takes: Takes::Text("NAME"),
        help: "Asks the members of etcd as this user",
        rules: &[Rule::With("etcd-password")],
    },
    Word {
        id: "etcd-password",
        takes: Takes::Text("FILE"),
        help: "The file that has the user's password",
        rules: &[Rule::With("etcd-user")],
    },
];

/// `host`
const HOST: Subcommand = Subcommand {
    name: "host",
    about: "Answers frames as an issuer, and keeps each order before it is answered",
    after_help: "Without --listen and --links the frames of one peer come on the input, and the frames of the answers go to the output.
A host on ports stops once its stop file is there, or once standard input ends where that is a pipe.

Examples:
  rumpadol host --listen 0.0.0.0:8583 --table bcd87 --header binary2 --accounts accounts.json --journal day.journal --new
      a host for many peers at once; killed and started again without --new, it remembers all it answered
  rumpadol host --links links.json --accounts accounts.json --journal day.journal --log host.log
      the same on the addresses of a document, each with a table and a header of its own
  rumpadol host --listen 0.0.0.0:8583 --table bcd87 --header binary2 --accounts accounts.json --script rules.json
      a host for the tests of an acquirer: it misbehaves by rules, and forgets all when it ends
  rumpadol host --table ascii87 --header ascii4 --accounts accounts.json --journal day.journal < day.txt
      the answers to the frames of a file
  rumpadol host --listen 0.0.0.0:8583 --table bcd87 --header binary2 --accounts accounts.json --journal etcd://10.0.0.1:2379,10.0.0.2:2379,10.0.0.3:2379/day --standby
      a host that reads on in a journal on etcd, and takes over when no other host of it is active",
    words: &[PLACES, FILES, OUTSIDE, SCRIPT, LIMITS, REPLICAS],
};

/// The command `host`.
pub fn host_command<'a>(alloc: Global) -> Result<Command<'a>, AllocError> {
    command_of(alloc, &HOST)
}
