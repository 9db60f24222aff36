//! Tables: drafts that are checked, the tables of the 1987 edition, and their documents. The rows of `iso_cli` have the documents
//! that are refused, and the tables under which no host can serve.

use super::parts::{ACCOUNT_ROW, LL, LL_BCD, LLL, LLL_BCD, LLLL, TERMINAL_ROW};
use iso_fakes::check;
use iso_parts::{CharClass, Coding, Digits, FieldSpec, Length, Pad};
use iso_table::*;
use std::alloc::{AllocError, Global};
use std::test::*;

mod cases;
mod copies;
mod edition87;
mod members;

/// What a table says: its heading, how many rows it has, some of them, what it says to a host, and its greatest message.
#[derive(Clone, Copy)]
struct Says<'a> {
    version: u8,
    mti: Digits,
    bitmap: BitmapCoding,
    count: usize,
    rows: &'a [(u8, FieldSpec)],
    host: Result<(), HostTableFault>,
    max_bytes: u64,
}

/// A draft of these rows.
pub(super) fn draft(
    alloc: Global,
    version: u8,
    mti: Digits,
    bitmap: BitmapCoding,
    rows: &[(u8, FieldSpec)],
) -> Result<Draft, AllocError> {
    let mut draft = Draft {
        version,
        mti,
        bitmap,
        rows: Vec::new(alloc),
    };
    for (number, spec) in rows {
        let number = u16::from(*number);
        draft.rows.push(Row {
            number,
            spec: *spec,
        })?;
    }
    Ok(draft)
}

/// The table of the 1987 edition whose numbers are of these digits.
pub(super) fn table87(alloc: Global, digits: Digits) -> Result<Table, TableFault> {
    let built = match digits {
        Digits::Ascii => Table::ascii87(alloc),
        Digits::Bcd => Table::bcd87(alloc),
    };
    built.or(Err(TableFault::Memory))
}

/// The table that says so: of the 1987 edition where it has 126 rows, else of a draft of all rows that are told.
fn table_that(alloc: Global, says: &Says) -> Result<Table, TableFault> {
    if says.count == 126 {
        return table87(alloc, says.mti);
    }
    let draft = draft(alloc, says.version, says.mti, says.bitmap, says.rows)?;
    Table::check(alloc, draft)
}

/// Whether the table writes messages of that version so.
fn has_heading(table: &Table, version: u8, mti: Digits, bitmap: BitmapCoding) -> bool {
    table.version() == version && table.mti() == mti && table.bitmap() == bitmap
}

/// Whether that is the row of the element, which is known where it has one.
fn has_row(table: &Table, element: u8, row: Option<FieldSpec>) -> bool {
    table.row(element).copied() == row && table.known().has(element) == row.is_some()
}

/// Whether the table has these rows.
fn has_rows(table: &Table, rows: &[(u8, FieldSpec)]) -> bool {
    for (element, row) in rows {
        if !has_row(table, *element, Some(*row)) {
            return false;
        }
    }
    true
}

/// Whether the table has no row at the numbers that no element has.
fn has_elements_alone(table: &Table) -> bool {
    for number in [0, 1, 65, 129, 255] {
        if !has_row(table, number, None) {
            return false;
        }
    }
    true
}

/// Whether a table says so.
fn says_so(table: &Table, says: &Says) -> bool {
    has_heading(table, says.version, says.mti, says.bitmap)
        && table.rows() == says.count
        && table.max_bytes() == says.max_bytes
        && table.host_ready() == says.host
        && has_rows(table, says.rows)
        && has_elements_alone(table)
}

/// Whether both tables write messages alike, and have the same row for each element, or none.
fn are_same(table: &Table, other: &Table) -> bool {
    for element in 0..=255 {
        if !has_row(table, element, other.row(element).copied()) {
            return false;
        }
    }
    has_heading(table, other.version(), other.mti(), other.bitmap())
}

/// Whether the text is the lines without their ends.
fn is_joined(text: &[u8], lines: &str) -> bool {
    let mut left = text;
    for line in lines.lines() {
        match left.strip_prefix(line.as_bytes()) {
            Some(behind) => left = behind,
            None => return false,
        }
    }
    left.is_empty()
}

/// Whether the lines, without their ends, are written of the table.
fn is_written(alloc: Global, table: &Table, lines: &str) -> bool {
    match table.to_json(alloc) {
        Ok(text) => is_joined(&text, lines),
        Err(_) => false,
    }
}

/// Whether the document is one of the table.
fn is_read(alloc: Global, table: &Table, document: &str) -> bool {
    match Table::from_json(alloc, document.as_bytes()) {
        Ok(read) => are_same(&read, table),
        Err(_) => false,
    }
}

/// What is written of a table, as lines, and a document that is read as it.
type Texts = (&'static str, &'static str);

/// Whether a table says so, is written as the first of the texts, and is read of the second.
fn is_table(alloc: Global, says: &Says, texts: Option<Texts>) -> bool {
    match (table_that(alloc, says), texts) {
        (Ok(table), Some((lines, document))) => {
            says_so(&table, says)
                && is_written(alloc, &table, lines)
                && is_read(alloc, &table, document)
        }
        (Ok(table), None) => says_so(&table, says),
        (Err(_), _) => false,
    }
}
