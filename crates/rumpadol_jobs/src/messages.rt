//! What the words about messages ask.

use crate::values::{header_named, text_of};
use clap::ArgMatches;
use iso_wire::Header;
use rumpadol_messages::{ConvertWords, MessageWords};

/// The header of frames that is given, if one is.
fn header_of(matches: &ArgMatches<'_>) -> Option<Header> {
    match matches.get_str("frames") {
        Some(word) => Some(header_named(word)),
        None => None,
    }
}

/// How many bytes are skipped.
fn skip_of(matches: &ArgMatches<'_>) -> u16 {
    matches.get_one::<u16>("skip").unwrap_or(0)
}

/// The words about messages under one table.
pub fn message_words<'a>(matches: &ArgMatches<'a>) -> MessageWords<'a> {
    MessageWords {
        table: text_of(matches, "table"),
        input: text_of(matches, "input"),
        is_hex: matches.get_flag("hex"),
        header: header_of(matches),
        skip: skip_of(matches),
        is_clear: matches.get_flag("clear"),
        is_json: matches.get_flag("json"),
        names: matches.get_str("names"),
    }
}

/// The words about messages that are written under another table.
pub fn convert_words<'a>(matches: &ArgMatches<'a>) -> ConvertWords<'a> {
    ConvertWords {
        from: text_of(matches, "from"),
        to: text_of(matches, "to"),
        input: text_of(matches, "input"),
        is_hex: matches.get_flag("hex"),
        header: header_of(matches),
        skip: skip_of(matches),
    }
}
