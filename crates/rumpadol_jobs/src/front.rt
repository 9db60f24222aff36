//! What the words about a front ask.

use crate::values::{header_named, limit_of, text_of};
use clap::ArgMatches;
use iso_relay::Bounds;
use rumpadol_front::FrontJob;

/// What the words about a front tell.
pub fn front_words<'a>(matches: &ArgMatches<'a>) -> FrontJob<'a> {
    FrontJob {
        address: text_of(matches, "listen"),
        shards: text_of(matches, "shards"),
        table: text_of(matches, "table"),
        header: header_named(text_of(matches, "header")),
        bounds: Bounds {
            acquirers: limit_of(matches, "acquirers") as usize,
            waiting: limit_of(matches, "waiting") as usize,
            idle: u64::from(limit_of(matches, "idle")) * 1_000,
        },
        stop_file: matches.get_str("stop-file"),
    }
}
