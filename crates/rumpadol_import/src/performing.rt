//! A table of another program, from its file to a document.

ghost use Rattle.std.specs.Prelude.{◌≤◌, IfOk};

use crate::words::ImportWords;
use iso_import::{ImportFault, Imported, import};
use iso_table::{Draft, Table, TableFault};
use rumpadol_tables::{
    STANDARD_INPUT, Source, Stop, document_at, failed, read_front, refused, write_output,
};
use std::alloc::{AllocError, Global};
use std::io::{Read, Write};

/// What is said of a file that can't be read.
const UNREAD: &str =
    "no such file, or it can't be read; name a packager of jPOS or a specification of moov-io/iso8583";

/// The text of the file.
fn text_of<S: Source, I: Read>(
    alloc: Global,
    source: &S,
    input: &mut I,
    path: &str,
) -> Result<Vec<u8>, Stop> {
    if path != STANDARD_INPUT {
        return document_at(alloc, source, path, UNREAD);
    }
    match read_front(alloc, input) {
        Ok(text) => Ok(text),
        Err(_) => Err(failed(format!(in alloc; "rumpadol: -: {UNREAD}\n"))),
    }
}

/// How the program stops where a text is no table of another program.
fn not_one(alloc: Global, path: &str, fault: ImportFault) -> Stop {
    match fault {
        ImportFault::Memory => Stop::Memory,
        fault => refused(format!(in alloc; "rumpadol: {path}: {fault}\n")),
    }
}

/// A sentence for each field that became no row.
fn sentences(alloc: Global, path: &str, left: &[String]) -> Result<String, AllocError> {
    let mut text = String::new(alloc);
    for sentence in left {
        let line = format!(in alloc; "rumpadol: {path}: {sentence}\n")?;
        text.push_str(&line)?;
    }
    Ok(text)
}

/// The document of the table, and a newline.
fn document_of(alloc: Global, path: &str, draft: Draft) -> Result<Vec<u8>, Stop> {
    let table = match Table::check(alloc, draft) {
        Ok(table) => table,
        Err(TableFault::Memory) => return Err(Stop::Memory),
        Err(fault) => return Err(refused(format!(in alloc; "rumpadol: {path}: {fault}\n"))),
    };
    let mut text = table.to_json(alloc)?;
    text.extend_from_slice(b"\n")?;
    Ok(text)
}

/// The status: 0 where every field became a row, else 1.
fn status_of(left: usize) -> u8
    ensures { result ≤ 1 }
{
    if left == 0 { 0 } else { 1 }
}

/// Writes the document of another program's table, and names each field that became no row.
pub fn perform_import<S: Source, I: Read, O: Write, F: Write>(
    alloc: Global,
    words: ImportWords<'_>,
    source: &S,
    input: &mut I,
    output: &mut O,
    faults: &mut F,
) -> Result<u8, Stop>
    // Where it ends with a status, it is 0 or 1.
    ensures { IfOk result (λ status. status ≤ 1) }
{
    let text = text_of(alloc, source, input, words.path)?;
    let Imported { draft, left } = match import(alloc, &text, words.version, words.bytes) {
        Ok(imported) => imported,
        Err(fault) => return Err(not_one(alloc, words.path, fault)),
    };
    let document = document_of(alloc, words.path, draft)?;
    write_output(output, &document)?;
    write_output(faults, sentences(alloc, words.path, &left)?.as_bytes())?;
    Ok(status_of(left.len()))
}
