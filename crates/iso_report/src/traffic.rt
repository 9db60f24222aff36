//! What happened to the traffic, for people.

use iso_tally::Tally;
use std::alloc::AllocError;

/// The counts that are always told.
fn plain_rows(tally: &Tally) -> [(&'static str, u64); 4] {
    [
        ("frames sent", tally.sent),
        ("  orders again", tally.again),
        ("  reversals", tally.reversals),
        ("answers read", tally.answers),
    ]
}

/// The counts that are told where they are not 0.
fn other_rows(tally: &Tally) -> [(&'static str, u64); 13] {
    [
        ("  late or again", tally.late),
        ("  to no order of ours", tally.foreign),
        ("  with other bytes", tally.differing),
        ("frames not read", tally.unreadable),
        ("headers not read", tally.bad_frames),
        ("lost on purpose", tally.lost),
        ("repeated on purpose", tally.repeated),
        ("delayed on purpose", tally.delayed),
        ("cut on purpose", tally.cut),
        ("connections made", tally.connected),
        ("  refused", tally.refused),
        ("  closed by the host", tally.closed),
        ("resumed of earlier runs", tally.resumed),
    ]
}

/// Adds a row.
pub(crate) fn add_row(text: &mut String, label: &str, count: u64) -> Result<(), AllocError> {
    write!(text, "  {label:<24}{count:>12}\n")
}

/// Adds the counts that are always told.
fn add_plain(text: &mut String, tally: &Tally) -> Result<(), AllocError> {
    for (label, count) in plain_rows(tally) {
        add_row(text, label, count)?;
    }
    Ok(())
}

/// Adds the counts that are told where they are not 0.
fn add_others(text: &mut String, tally: &Tally) -> Result<(), AllocError> {
    for (label, count) in other_rows(tally) {
        if count > 0 {
            add_row(text, label, count)?;
        }
    }
    Ok(())
}

/// Adds what happened to the traffic.
pub(crate) fn add_traffic(text: &mut String, tally: &Tally) -> Result<(), AllocError> {
    text.push_str("\nTraffic\n")?;
    add_plain(text, tally)?;
    add_others(text, tally)
}
