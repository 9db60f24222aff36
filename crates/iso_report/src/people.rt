//! What a run tells, for people.

use crate::agreement::add_books;
use crate::drawing::add_histogram;
use crate::mixed::{add_mix, add_mixed};
use crate::numbers::{chance, millis, per_second, seconds};
use crate::report::Report;
use crate::settings::Settings;
use crate::traffic::{add_row, add_traffic};
use iso_meaning::response_code;
use iso_tally::{Declined, Ended, Mixed, Summary};
use std::alloc::{AllocError, Global};

/// Adds what the run was to do.
fn add_settings(text: &mut String, of: &Settings<'_>) -> Result<(), AllocError> {
    let Settings {
        address,
        table,
        header,
        acquirer,
        peers,
        seed,
        ..
    } = *of;
    write!(
        text,
        "{address}: table {table}, header {header}, acquirer {acquirer}, "
    )?;
    write!(
        text,
        "connections {peers}, seed {seed}, patience {} ms",
        of.patience
    )
}

/// Adds what was done to the traffic on purpose, if anything was.
fn add_chances(text: &mut String, alloc: Global, of: &Settings<'_>) -> Result<(), AllocError> {
    for (word, millionths) in [("lost", of.lose), ("repeated", of.repeat), ("cut", of.cut)] {
        if millionths > 0 {
            let shown = chance(alloc, millionths)?;
            write!(text, ", {} {word}", shown.as_str())?;
        }
    }
    let (least, most) = of.delay;
    if most > 0 {
        write!(text, ", delayed {least} to {most} ms")?;
    }
    text.push_str("\n")
}

/// Adds how many transactions began, in which time.
fn add_pace(
    text: &mut String,
    alloc: Global,
    what: &str,
    begun: u64,
    micros: u64,
) -> Result<(), AllocError> {
    let time = seconds(alloc, micros)?;
    let pace = per_second(begun, micros);
    write!(
        text,
        "{begun} {what} in {} s, {pace} a second\n",
        time.as_str()
    )
}

/// Adds the purchases that were declined with one code, and what the code means.
fn add_declined(text: &mut String, of: &Declined) -> Result<(), AllocError> {
    let Declined { code, count } = *of;
    write!(text, "    {code:02}{count:>32}")?;
    match response_code(&[b'0' + code / 10, b'0' + code % 10]) {
        Some(meaning) => write!(text, "  {meaning}\n"),
        None => text.push_str("\n"),
    }
}

/// Adds how far the transactions got.
fn add_ended(text: &mut String, ended: &Ended) -> Result<(), AllocError> {
    text.push_str("\nTransactions\n")?;
    add_row(text, "approved", ended.approved as u64)?;
    add_row(text, "declined", ended.all_declined() as u64)?;
    for of in &ended.declined {
        add_declined(text, of)?;
    }
    add_row(text, "reversed", ended.reversed as u64)?;
    add_row(text, "still open", ended.open as u64)
}

/// Adds the percentiles.
fn add_summary(
    text: &mut String,
    alloc: Global,
    timed: usize,
    of: &Summary,
) -> Result<(), AllocError> {
    write!(text, "\nLatency of {timed} answers, in milliseconds\n")?;
    for (label, micros) in [
        ("least", of.least),
        ("p50", of.p50),
        ("p90", of.p90),
        ("p99", of.p99),
        ("p99.9", of.p999),
        ("most", of.most),
    ] {
        let shown = millis(alloc, micros)?;
        write!(text, "  {label:<24}{:>12}\n", shown.as_str())?;
    }
    text.push_str("\n")
}

/// What a run began, by whether a mix was asked.
fn begun_of(mixed: &Option<Mixed>) -> &'static str {
    match mixed {
        Some(_) => "transactions",
        None => "purchases",
    }
}

/// Adds how many of a hundred transactions were to be of each kind, where a mix was asked.
fn add_asked(text: &mut String, mixed: &Option<Mixed>) -> Result<(), AllocError> {
    match mixed {
        Some(mixed) => add_mix(text, &mixed.mix),
        None => Ok(()),
    }
}

/// Adds how far those got that aren't purchases, where a mix was asked.
fn add_others(text: &mut String, mixed: &Option<Mixed>) -> Result<(), AllocError> {
    match mixed {
        Some(mixed) => add_mixed(text, mixed),
        None => Ok(()),
    }
}

impl Report<'_> {
    /// Adds what it was to do, and how much it did.
    fn add_head(&self, text: &mut String, alloc: Global) -> Result<(), AllocError> {
        add_settings(text, &self.settings)?;
        add_chances(text, alloc, &self.settings)?;
        add_asked(text, &self.mixed)?;
        let what = begun_of(&self.mixed);
        add_pace(text, alloc, what, self.tally.begun, self.micros)?;
        add_ended(text, &self.ended)?;
        add_others(text, &self.mixed)
    }

    /// What the run tells, for people: lines of text, each of which ends with a line feed.
    pub fn to_text(&self, alloc: Global) -> Result<String, AllocError> {
        let mut text = String::new(alloc);
        self.add_head(&mut text, alloc)?;
        if let Some(summary) = &self.summary {
            add_summary(&mut text, alloc, self.timed, summary)?;
            add_histogram(&mut text, alloc, &self.buckets)?;
        }
        add_traffic(&mut text, &self.tally)?;
        if let Some(books) = &self.books {
            add_books(&mut text, books, &self.doubts)?;
        }
        Ok(text)
    }
}
