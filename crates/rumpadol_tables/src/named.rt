//! The tables and names that the command line names.

ghost use Rattle.std.specs.Prelude.{◌≡◌, ◌≢◌, IfErr, IfOk, option_map};
ghost use Rattle.iso_table.specs.Document.{IsTableOf};
ghost use Rattle.iso_review.specs.Complaints.{IsTable};
ghost use Rattle.rumpadol_tables.specs.Named.{AreNames, IsNamed, IsRefused, NamesNone};
ghost use Rattle.rumpadol_tables.specs.Source.{IfHeld};
ghost use Rattle.rumpadol_tables.specs.Stop.{status_of};

use crate::documents::{document_at, document_named};
use crate::source::Source;
use crate::stop::{Stop, refused};
use iso_names::{Names, NamesFault};
use iso_review::{Complaint, complaints};
use iso_table::Table;
use std::alloc::{AllocError, Global};
use std::fmt::Write;
use std::io::Read;

/// What is said of a table that is neither built in nor a file.
const NO_TABLE: &str =
    "no such table: it is neither a file that can be read nor one of ascii87, bcd87; \
'rumpadol table list' names those that are built in";

/// What is said of names that can't be read.
const NO_NAMES: &str = "the names can't be read; name a file that is there and may be read";

/// A sentence for each complaint, a line each.
fn complaint_lines(alloc: Global, word: &str, told: &[Complaint]) -> Result<String, AllocError> {
    let mut lines = String::new(alloc);
    for complaint in told {
        writeln!(lines, "rumpadol: {word}: {complaint}")?;
    }
    Ok(lines)
}

/// The table of a document, or all that is wrong with it.
fn table_in(alloc: Global, word: &str, text: &[u8]) -> Result<Table, Stop>
    ensures ok { IfOk result (IsTableOf text.now) }
    ensures stop { IfErr result (λ stop. status_of stop ≡ 1 → IsTable text.now → ⊥) }
{
    let told = complaints(alloc, text)?;
    if !told.is_empty() {
        return Err(refused(complaint_lines(alloc, word, &told)));
    }
    match Table::from_json(alloc, text) {
        Ok(table) => Ok(table),
        Err(_) => Err(Stop::Memory),
    }
}

/// The table of the document that a word names.
fn table_at<S: Source, I: Read>(
    alloc: Global,
    source: &S,
    input: &mut I,
    word: &str,
) -> Result<Table, Stop>
    ensures ok { IfOk result (λ table.
        IfHeld (S.file source.now) (I.remaining input.old) word.now
        (λ text. IsTableOf text table)) }
    ensures stop { IfErr result (λ stop. status_of stop ≡ 1
        → IfHeld (S.file source.now) (I.remaining input.old) word.now IsRefused) }
{
    let text = document_named(alloc, source, input, word, NO_TABLE)?;
    table_in(alloc, word, &text)
}

/// The table that a word names: `ascii87` and `bcd87` are built in, `-` is the document on the input, and every other word is
/// the path of a document. Of a document that is refused all that is wrong with it is told.
pub fn table_named<S: Source, I: Read>(
    alloc: Global,
    source: &S,
    input: &mut I,
    word: &str,
) -> Result<Table, Stop>
    // At `Ok` it is the built-in table of the word, or the table that the document says.
    ensures ok { IfOk result (IsNamed (S.file source.now) (I.remaining input.old) word.now) }
    // The status is 1 only where the word names a document that is too long, or that is no table.
    ensures stop { IfErr result (λ stop. status_of stop ≡ 1
        → NamesNone (S.file source.now) (I.remaining input.old) word.now) }
{
    if word == "ascii87" {
        return Ok(Table::ascii87(alloc)?);
    }
    if word == "bcd87" {
        return Ok(Table::bcd87(alloc)?);
    }
    table_at(alloc, source, input, word)
}

/// Why a document of names is refused.
fn names_refused(alloc: Global, path: &str, fault: &NamesFault) -> Stop {
    if matches!(fault, NamesFault::Memory) {
        return Stop::Memory;
    }
    refused(format!(in alloc;
        "rumpadol: {path}: {fault}; write an object as {{\"48\":\"Merchant data\"}}\n"
    ))
}

/// The names of the elements under a table: those of the path, if one is given, laid over those of its version.
pub fn names_named<S: Source>(
    alloc: Global,
    source: &S,
    path: Option<&str>,
    version: u8,
) -> Result<Names, Stop>
    // At `Ok` these are the names of the version, with those of the document at the path, if one
    // is given, laid over them.
    ensures { IfOk result
        (AreNames (S.file source.now) (option_map (λ path. path.now) path.entry) version) }
{
    let Some(path) = path else {
        return Ok(Names::new(alloc, version));
    };
    let text = document_at(alloc, source, path, NO_NAMES)?;
    match Names::from_json(alloc, version, &text) {
        Ok(names) => Ok(names),
        Err(fault) => Err(names_refused(alloc, path, &fault)),
    }
}
