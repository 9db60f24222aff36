//! How fast the libraries are.
//!
//! - `codec TIMES`: messages are read and written, so many times
//! - `issuer SIZE ..`: orders are handed to an issuer whose journal has so many entries, one size after the other
//! - `journal FILE GROUP GROUPS`: orders are kept in a new journal in a file, with one sync for each group
//! - `start FILE`: the start over such a journal
//!
//! Each line is one measure. Without words, or with others, it says how it is called.
#![tactic(auto)]

mod codec;
mod issuer;
mod journal;
mod messages;
mod orders;
mod speed;
mod words;

use anyhow::{Context, Result};
use std::alloc::AllocError;
use std::env;
use words::{Measurement, measurement_of};

const USAGE: &str =
    "usage: iso_bench codec TIMES | iso_bench issuer SIZE .. | iso_bench journal FILE GROUP GROUPS | iso_bench start FILE";

/// The words behind the program's name.
fn given_words(rt: &HostRuntime) -> Result<Vec<String>> {
    let words = env::args(rt).context("reading the words")?;
    let words: Result<Vec<String>, AllocError> = words.skip(1).collect(rt.alloc());
    Ok(words?)
}

fn main(rt: HostRuntime) -> Result<()> {
    let alloc = rt.alloc();
    let words = given_words(&rt)?;
    match measurement_of(alloc, &words)? {
        Some(Measurement::Codec { times }) => codec::measure(&rt, alloc, times),
        Some(Measurement::Issuer { sizes }) => issuer::measure(&rt, alloc, &sizes),
        Some(
            Measurement::Journal {
                path,
                group,
                groups,
            },
        ) => journal::measure(&rt, alloc, path, group, groups),
        Some(Measurement::Start { path }) => journal::measure_start(&rt, alloc, path),
        None => {
            println!(rt; "{USAGE}")?;
            Ok(())
        }
    }
}
