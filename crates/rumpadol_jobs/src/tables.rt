//! What the words of `table` ask.

use crate::job::Job;
use crate::values::text_of;
use clap::ArgMatches;
use iso_import::Bytes;
use rumpadol_import::ImportWords;
use rumpadol_tables::{NewWords, TableJob};
use std::alloc::{AllocError, Global};

/// The elements whose rows are left out.
fn drops_of(alloc: Global, matches: &ArgMatches<'_>) -> Result<Vec<u16>, AllocError> {
    let mut drops = Vec::new(alloc);
    if let Some(numbers) = matches.get_many::<u16>("drop") {
        for number in numbers {
            if let Ok(number) = number {
                drops.push(number)?;
            }
        }
    }
    Ok(drops)
}

/// The rows that are set.
fn rows_of<'a>(alloc: Global, matches: &ArgMatches<'a>) -> Result<Vec<&'a str>, AllocError> {
    let rows = matches.get_strs("set").unwrap_or(&[]);
    Vec::from_slice(alloc, rows)
}

fn new_words<'a>(alloc: Global, matches: &ArgMatches<'a>) -> Result<NewWords<'a>, AllocError> {
    Ok(NewWords {
        from: text_of(matches, "from"),
        drops: drops_of(alloc, matches)?,
        rows: rows_of(alloc, matches)?,
    })
}

/// What a subcommand of `table` asks.
fn table_job<'a>(
    alloc: Global,
    name: &str,
    matches: &ArgMatches<'a>,
) -> Result<Option<TableJob<'a>>, AllocError> {
    Ok(match name {
        "check" => Some(TableJob::Check(text_of(matches, "table"))),
        "show" => Some(TableJob::Show(text_of(matches, "table"), matches.get_str("names"))),
        "list" => Some(TableJob::List),
        "new" => Some(TableJob::New(new_words(alloc, matches)?)),
        "diff" => Some(TableJob::Diff(text_of(matches, "first"), text_of(matches, "second"))),
        _ => None,
    })
}

/// How bytes behind lengths in ASCII stand in another program's table.
fn bytes_of(matches: &ArgMatches<'_>) -> Bytes {
    match matches.get_str("bytes") {
        Some("hex") => Bytes::Hex,
        Some("raw") => Bytes::Raw,
        _ => Bytes::Unknown,
    }
}

/// The first digit of the message types.
fn edition_of(matches: &ArgMatches<'_>) -> u8 {
    match text_of(matches, "edition") {
        "1" => 1,
        "2" => 2,
        "9" => 9,
        _ => 0,
    }
}

/// What the words about another program's table ask.
fn import_words<'a>(matches: &ArgMatches<'a>) -> ImportWords<'a> {
    ImportWords {
        path: text_of(matches, "file"),
        version: edition_of(matches),
        bytes: bytes_of(matches),
    }
}

/// What `table` asks.
pub fn tables_asked<'a>(
    alloc: Global,
    matches: &ArgMatches<'a>,
) -> Result<Option<Job<'a>>, AllocError> {
    let Some((name, inner)) = matches.subcommand() else {
        return Ok(None);
    };
    if name == "import" {
        return Ok(Some(Job::Import(import_words(inner))));
    }
    match table_job(alloc, name, inner)? {
        Some(job) => Ok(Some(Job::Tables(job))),
        None => Ok(None),
    }
}
