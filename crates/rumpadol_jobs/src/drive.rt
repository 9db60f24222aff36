//! What the words about an acquirer ask.

use crate::values::{header_named, limit_of, text_of};
use clap::ArgMatches;
use rumpadol_drive_words::{DayWords, DriveJob, DriveWords};

/// What the words about a run tell; each number that isn't optional must be given or has a default.
fn drive_words<'a>(matches: &ArgMatches<'a>) -> DriveWords<'a> {
    DriveWords {
        address: text_of(matches, "address"),
        table: text_of(matches, "table"),
        header: header_named(text_of(matches, "header")),
        acquirer: matches.get_one::<u64>("acquirer").unwrap_or(0),
        accounts: text_of(matches, "accounts"),
        peers: limit_of(matches, "peers") as usize,
        most_open: matches.get_one::<usize>("open"),
        rate: matches.get_one::<u32>("rate"),
        count: matches.get_one::<u32>("count").unwrap_or(0),
        seconds: matches.get_one::<u64>("seconds").unwrap_or(1),
        amount: text_of(matches, "amount"),
        mix: matches.get_str("mix"),
        patience: matches.get_one::<u64>("patience").unwrap_or(1),
        lose: text_of(matches, "lose"),
        repeat: text_of(matches, "repeat"),
        cut: text_of(matches, "cut"),
        delay: text_of(matches, "delay"),
        seed: matches.get_one::<u64>("seed").unwrap_or(1),
        checks: matches.get_flag("check"),
        is_json: matches.get_flag("json"),
        picture: matches.get_str("picture"),
        journal: matches.get_str("journal"),
        is_new: matches.get_flag("new"),
    }
}

/// What the words ask of an acquirer.
pub fn drive_job<'a>(matches: &ArgMatches<'a>) -> DriveJob<'a> {
    match matches.get_str("frames") {
        Some(frames) => DriveJob::Again(DayWords {
            address: text_of(matches, "address"),
            table: text_of(matches, "table"),
            header: header_named(text_of(matches, "header")),
            frames,
            expected: text_of(matches, "expect"),
            patience: matches.get_one::<u64>("patience").unwrap_or(1),
            is_json: matches.get_flag("json"),
            is_clear: matches.get_flag("clear"),
        }),
        None => DriveJob::Buy(drive_words(matches)),
    }
}
