//! The subcommand that serves a page.

use crate::words::{Rule, Subcommand, Takes, Word, command_of};
use clap::Command;
use std::alloc::{AllocError, Global};

/// Where the page is served.
const PLACES: &[Word] = &[Word {
    id: "port",
    takes: Takes::Number("PORT", 1024, 65_535),
    help: "The port of 127.0.0.1 and [::1] on which it is served",
    rules: &[Rule::Default("8580")],
}];

/// `page`
const PAGE: Subcommand = Subcommand {
    name: "page",
    about: "Serves a page of this machine's own on which messages are looked at, built and played with",
    after_help: "Open the page in a browser at the address that is told. Nothing leaves this machine, and nothing is kept.
It is served until the program is ended, as by Ctrl-C.

Example:
  rumpadol page
      the page at http://127.0.0.1:8580/",
    words: &[PLACES],
};

/// The command `page`.
pub fn page_command<'a>(alloc: Global) -> Result<Command<'a>, AllocError> {
    command_of(alloc, &PAGE)
}
