//! A histogram as lines of text.

use crate::bars::{bar_length, filled, most_of};
use crate::numbers::bound;
use iso_tally::Bucket;
use std::alloc::{AllocError, Global};

/// How wide the longest bar is, in columns.
const BAR_COLUMNS: usize = 40;

/// The words of where a bucket ends.
pub(crate) fn end_of(alloc: Global, bucket: &Bucket) -> Result<String, AllocError> {
    match bucket.below {
        Some(below) => bound(alloc, below),
        None => String::from_str(alloc, "more"),
    }
}

/// Adds a bar.
fn add_bar(text: &mut String, length: usize) -> Result<(), AllocError> {
    for _ in 0..length {
        text.push('#')?;
    }
    Ok(())
}

/// Adds the line of a bucket, where the longest bar has so many counts.
fn add_bucket(
    text: &mut String,
    alloc: Global,
    bucket: &Bucket,
    most: usize,
) -> Result<(), AllocError> {
    let from = bound(alloc, bucket.from)?;
    let end = end_of(alloc, bucket)?;
    let count = bucket.count;
    write!(
        text,
        "  {:>8} to {:>8}{count:>16}",
        from.as_str(),
        end.as_str()
    )?;
    let length = bar_length(count, most, BAR_COLUMNS);
    if length > 0 {
        text.push_str("  ")?;
        add_bar(text, length)?;
    }
    text.push_str("\n")
}

/// Adds a line for each bucket from the first to the last that has a value.
pub(crate) fn add_histogram(
    text: &mut String,
    alloc: Global,
    buckets: &[Bucket],
) -> Result<(), AllocError> {
    let most = most_of(buckets);
    for bucket in filled(buckets) {
        add_bucket(text, alloc, bucket, most)?;
    }
    Ok(())
}
