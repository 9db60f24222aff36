//! What the words ask.

use std::alloc::{AllocError, Global};

/// What is measured.
#[derive(Drop)]
pub enum Measurement<'w> {
    /// Messages, read and written so many times.
    Codec {
        /// How often.
        times: u32,
    },
    /// An issuer, with so many entries in its journal.
    Issuer {
        /// How many, one after the other.
        sizes: Vec<u32>,
    },
    /// A journal in a new file, with one sync for each group of orders.
    Journal {
        /// The file.
        path: &'w str,
        /// How many orders a group has.
        group: u32,
        /// How many groups there are.
        groups: u32,
    },
    /// The start over a journal in a file.
    Start {
        /// The file.
        path: &'w str,
    },
}

/// The most messages, and the most entries: what is more is taken for this.
const MOST: u32 = 10_000_000;

/// The number that a word spells, from 1.
fn count_in_word(word: &str) -> Option<u32> {
    let number = word.parse::<u32>().ok()?;
    if number == 0 {
        return None;
    }
    Some(number.min(MOST))
}

/// The numbers that the words spell.
fn counts_in_words(alloc: Global, words: &[String]) -> Result<Option<Vec<u32>>, AllocError> {
    let mut numbers = Vec::new(alloc);
    for word in words {
        let Some(number) = count_in_word(word.as_str()) else {
            return Ok(None);
        };
        numbers.push(number)?;
    }
    Ok(Some(numbers))
}

/// What the words ask of a journal in a file.
fn journal_measurement(words: &[String]) -> Option<Measurement<'_>> {
    let [what, path, rest @ ..] = words else {
        return None;
    };
    match (what.as_str(), rest) {
        ("journal", [group, groups]) => Some(Measurement::Journal {
            path: path.as_str(),
            group: count_in_word(group.as_str())?,
            groups: count_in_word(groups.as_str())?,
        }),
        ("start", []) => Some(Measurement::Start {
            path: path.as_str(),
        }),
        _ => None,
    }
}

/// What the words ask, if they ask anything.
pub fn measurement_of(
    alloc: Global,
    words: &[String],
) -> Result<Option<Measurement<'_>>, AllocError> {
    if let Some(measurement) = journal_measurement(words) {
        return Ok(Some(measurement));
    }
    let Some((first, rest)) = words.split_first() else {
        return Ok(None);
    };
    let Some(numbers) = counts_in_words(alloc, rest)? else {
        return Ok(None);
    };
    match (first.as_str(), numbers.as_slice()) {
        ("codec", [times]) => Ok(Some(Measurement::Codec { times: *times })),
        ("issuer", [_, ..]) => Ok(Some(Measurement::Issuer { sizes: numbers })),
        _ => Ok(None),
    }
}
