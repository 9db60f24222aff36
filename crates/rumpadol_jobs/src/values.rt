//! The values of arguments that several subcommands share.

use clap::ArgMatches;
use iso_wire::Header;

/// The text of an argument that must be given or has a default.
pub fn text_of<'a>(matches: &ArgMatches<'a>, id: &str) -> &'a str {
    matches.get_str(id).unwrap_or("")
}

/// The header of a word.
pub fn header_named(word: &str) -> Header {
    match word {
        "binary2" => Header::Binary2,
        "ascii4" => Header::Ascii4,
        _ => Header::Bcd2,
    }
}

/// The number of a limit; each limit has a default, so none is missing.
pub fn limit_of(matches: &ArgMatches<'_>, id: &str) -> u32 {
    matches.get_one::<u32>(id).unwrap_or(1)
}
