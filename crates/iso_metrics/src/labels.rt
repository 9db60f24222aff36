//! The lines of the text form of metrics.

use iso_counts::{Histogram, SECONDS};
use std::alloc::AllocError;

/// Adds the value of a label: a backslash, a double quote and a line feed are escaped.
pub fn add_escaped(text: &mut String, value: &str) -> Result<(), AllocError> {
    for letter in value.chars() {
        match letter {
            '\\' => text.push_str("\\\\")?,
            '"' => text.push_str("\\\"")?,
            '\n' => text.push_str("\\n")?,
            _ => text.push(letter)?,
        }
    }
    Ok(())
}

/// Adds what stands in front of the lines of a metric: what it is, and of which type.
pub fn add_front(
    text: &mut String,
    name: &str,
    of_type: &str,
    help: &str,
) -> Result<(), AllocError> {
    write!(
        text,
        "# HELP rumpadol_{name} {help}\n# TYPE rumpadol_{name} {of_type}\n"
    )
}

/// Adds a metric that has one line.
pub fn add_single(
    text: &mut String,
    name: &str,
    of_type: &str,
    help: &str,
    value: u64,
) -> Result<(), AllocError> {
    add_front(text, name, of_type, help)?;
    write!(text, "rumpadol_{name} {value}\n")
}

/// Adds a line of a link.
pub fn add_of_link(
    text: &mut String,
    name: &str,
    link: &str,
    value: u64,
) -> Result<(), AllocError> {
    write!(text, "rumpadol_{name}{{link=\"{link}\"}} {value}\n")
}

/// Adds a line of a link and of one more label.
pub fn add_of_both(
    text: &mut String,
    name: &str,
    link: &str,
    label: &str,
    word: &str,
    value: u64,
) -> Result<(), AllocError> {
    write!(
        text,
        "rumpadol_{name}{{link=\"{link}\",{label}=\"{word}\"}} {value}\n"
    )
}

/// Adds the bucket lines of a histogram: each counts what is at most its bound. `labels` is empty or ends in a comma.
fn add_buckets(
    text: &mut String,
    name: &str,
    labels: &str,
    histogram: &Histogram,
) -> Result<u64, AllocError> {
    let mut count = 0u64;
    for (bucket, more) in histogram.counts.iter().enumerate() {
        count = count.saturating_add(*more);
        let bound = SECONDS.get(bucket).copied().unwrap_or("+Inf");
        write!(
            text,
            "rumpadol_{name}_bucket{{{labels}le=\"{bound}\"}} {count}\n"
        )?;
    }
    Ok(count)
}

/// The labels of a line in their braces, or nothing.
fn add_braces(text: &mut String, labels: &str) -> Result<(), AllocError> {
    match labels.strip_suffix(",") {
        Some(labels) => write!(text, "{{{labels}}}"),
        None => Ok(()),
    }
}

/// Adds the lines of a histogram. `labels` is empty or ends in a comma.
pub fn add_histogram(
    text: &mut String,
    name: &str,
    labels: &str,
    histogram: &Histogram,
) -> Result<(), AllocError> {
    let count = add_buckets(text, name, labels, histogram)?;
    let (seconds, micros) = (histogram.sum / 1_000_000, histogram.sum % 1_000_000);
    write!(text, "rumpadol_{name}_sum")?;
    add_braces(text, labels)?;
    write!(text, " {seconds}.{micros:06}\nrumpadol_{name}_count")?;
    add_braces(text, labels)?;
    write!(text, " {count}\n")
}
