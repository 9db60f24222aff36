//! All that is wrong with the document of a table.

ghost use Rattle.std.specs.Prelude.{◌≡◌, ◌≢◌, ◌↔◌, ◌++◌, [], map, IfOk, OnOk};
ghost use Rattle.std.specs.List.{All};
ghost use Rattle.serde_json.specs.View.{view, items_view};
ghost use Rattle.iso_review.specs.Complaints.{IsTable, IsPlaced, IsAmong, rows_of, complaint_at, nowhere};

use crate::complaint::{Cause, Complaint, Finding, Place};
use crate::excerpt::Excerpt;
use crate::judging::{finding, push_unknown, push_unread, row_findings, u16_at};
use crate::words::{bitmap_named, digits_named};
use iso_parts::raw::PLACES;
use iso_table::members::text_at;
use iso_table::{NoMemory, Table, TableFault};
use serde_json::{Category, Error, Value};
use std::alloc::{AllocError, Global};

/// The members of a document.
const TABLE_MEMBERS: [&str; 5] = ["bitmap", "mti", "profile", "rows", "version"];

/// What may stand where a text is no JSON, by the byte that stands there.
fn wanted(found: Option<u8>) -> &'static str {
    match found {
        None => "close each text, list and object",
        Some(b'}' | b']') =>
            "leave out the comma before it, or write the value that is missing there",
        Some(b'"' | b'{' | b'[') => "write the comma or colon that is missing before it",
        Some(b'\'') => "write texts between double quotes",
        Some(b'/' | b'#') => "leave out the comment",
        Some(_) => "write a text between double quotes, a number, a list or an object",
    }
}

/// The byte at a line and column, both counted from 1.
fn byte_at(text: &[u8], line: usize, column: usize) -> Option<u8> {
    let lines = text.split(|byte| *byte == b'\n');
    let mut at = 1;
    for one in lines {
        if at == line {
            return one.get(column.checked_sub(1)?).copied();
        }
        at = usize::checked_add(at, 1)?;
    }
    None
}

/// What is wrong with a text that is no JSON.
fn no_json(text: &[u8], error: &Error) -> Complaint
    ensures { result.place ≡ nowhere }
{
    let (line, column) = (error.line(), error.column());
    let byte = if error.is_eof() {
        None
    } else {
        byte_at(text, line, column)
    };
    Complaint {
        place: Place::DOCUMENT,
        finding: Finding {
            member: Excerpt::none(),
            found: match byte {
                Some(byte) => Excerpt::of(format_args!("{:?}", char::from(byte))),
                None => Excerpt::of("its end"),
            },
            cause: Cause::NotJson {
                line,
                column,
                wanted: wanted(byte),
            },
        },
    }
}

/// Appends findings, each at the place.
fn push_all(place: Place, findings: &[Finding], out: &mut Vec<Complaint>) -> Result<(), AllocError>
    ensures { OnOk result (out.new.items ≡ out.old.items ++ map (complaint_at place) findings.now) }
{
    for finding in findings {
        out.push(Complaint {
            place,
            finding: *finding,
        })?;
    }
    Ok(())
}

/// The place in the list of an earlier row with the number, if there is one.
fn earlier_place(places: &[Option<usize>], number: Option<u16>) -> Option<usize> {
    *places.get(usize::from(number?))?
}

/// Notes the place of a row, if none before has its number.
fn note_place(places: &mut [Option<usize>], number: Option<u16>, row: usize) {
    if let Some(number) = number {
        if let Some(place) = places.get_mut(usize::from(number)) {
            if place.is_none() {
                *place = Some(row);
            }
        }
    }
}

/// Appends all that is wrong with the rows.
fn push_rows(
    alloc: Global,
    rows: &[Value],
    has_four_digits: bool,
    out: &mut Vec<Complaint>,
) -> Result<(), AllocError>
    ensures { OnOk result (All (IsAmong (items_view rows.now)) out.old.items
        → All (IsAmong (items_view rows.now)) out.new.items) }
{
    let mut places = [None; PLACES];
    for (at, row) in rows.iter().enumerate() {
        let element = u16_at(row, "number");
        let earlier = earlier_place(&places, element);
        let findings = row_findings(alloc, row, has_four_digits, earlier)?;
        let place = Place {
            row: Some(at + 1),
            element,
        };
        push_all(place, &findings, out)?;
        note_place(&mut places, element, at + 1);
    }
    Ok(())
}

/// Appends what is wrong with the members beside the rows.
fn push_head(value: &Value, out: &mut Vec<Finding>) -> Result<(), AllocError> {
    let is_profile = matches!(u16_at(value, "profile"), Some(1 | 2));
    push_unread(value, "profile", is_profile, "1, 2", out)?;
    let is_version = matches!(u16_at(value, "version"), Some(0 | 1 | 2 | 9));
    push_unread(value, "version", is_version, "0, 1, 2, 9", out)?;
    let mti = text_at(value, "mti").and_then(|text| digits_named(text));
    push_unread(value, "mti", mti.is_some(), "ascii, bcd", out)?;
    let bitmap = text_at(value, "bitmap").and_then(|text| bitmap_named(text));
    push_unread(value, "bitmap", bitmap.is_some(), "raw, hex", out)
}

/// All that is wrong with the document beside its rows.
fn head_findings(alloc: Global, value: &Value) -> Result<Vec<Finding>, AllocError> {
    let mut out = Vec::new(alloc);
    let Some(members) = value.as_object() else {
        out.push(Finding {
            member: Excerpt::none(),
            found: Excerpt::of(value),
            cause: Cause::NotA("object"),
        })?;
        return Ok(out);
    };
    push_unknown(alloc, members, &TABLE_MEMBERS, &mut out)?;
    push_head(value, &mut out)?;
    match value.get("rows") {
        Some(rows) if rows.is_array() => {}
        Some(_) => out.push(finding(value, "rows", Cause::NotA("list")))?,
        None => out.push(finding(value, "rows", Cause::Missing("a list of rows")))?,
    }
    Ok(out)
}

/// The rows of a document; none where it has no list of them.
fn rows_of(value: &Value) -> &[Value]
    ensures { items_view result.now ≡ rows_of (view value.now) }
{
    match value.get("rows").and_then(|rows| rows.as_array()) {
        Some(rows) => rows.as_slice(),
        None => &[],
    }
}

/// All that is wrong with a document.
fn document_complaints(alloc: Global, value: &Value) -> Result<Vec<Complaint>, AllocError>
    ensures { IfOk result (λ told. All (IsAmong (rows_of (view value.now))) told.items) }
{
    let mut told = Vec::new(alloc);
    let findings = head_findings(alloc, value)?;
    push_all(Place::DOCUMENT, &findings, &mut told)?;
    let has_four_digits = u16_at(value, "profile") != Some(1);
    push_rows(alloc, rows_of(value), has_four_digits, &mut told)?;
    Ok(told)
}

/// All that is wrong with a text.
fn text_complaints(alloc: Global, text: &[u8]) -> Result<Vec<Complaint>, NoMemory>
    ensures { IfOk result (λ told. All (IsPlaced text.now) told.items) }
{
    match Value::from_slice(alloc, text) {
        Ok(value) => Ok(document_complaints(alloc, &value)?),
        Err(error) if error.classify() == Category::Memory => Err(NoMemory),
        Err(error) => Ok(vec![in alloc; no_json(text, &error)]?),
    }
}

/// What is wrong with a document by the reader's own word.
fn refusal(fault: TableFault) -> Complaint
    ensures { result.place ≡ nowhere }
{
    Complaint {
        place: Place::DOCUMENT,
        finding: Finding {
            member: Excerpt::none(),
            found: Excerpt::none(),
            cause: Cause::Refused(fault),
        },
    }
}

/// All that is wrong with a text that the reader refuses with the fault.
fn refused(alloc: Global, text: &[u8], fault: TableFault) -> Result<Vec<Complaint>, NoMemory>
    ensures some { IfOk result (λ told. told.items ≢ []) }
    ensures places { IfOk result (λ told. All (IsPlaced text.now) told.items) }
{
    let told = text_complaints(alloc, text)?;
    if !told.is_empty() {
        return Ok(told);
    }
    Ok(vec![in alloc; refusal(fault)]?)
}

/// All that is wrong with the document of a table, in the order of the document: the members beside the rows, and then row by
/// row. There is no complaint exactly where [`Table::from_json`] gives a table. A text that is no JSON has one complaint. Of
/// a member that is given twice the last one is judged.
pub fn complaints(alloc: Global, text: &[u8]) -> Result<Vec<Complaint>, NoMemory>
    // Memory aside, there is no complaint exactly where the text stands for a table.
    ensures none { IfOk result (λ told. (told.items ≡ []) ↔ IsTable text.now) }
    // Memory aside, a complaint about the i-th row is about a row that the document has, and tells
    // the number that this row tells.
    ensures places { IfOk result (λ told. All (IsPlaced text.now) told.items) }
{
    match Table::from_json(alloc, text) {
        Ok(_table) => Ok(Vec::new(alloc)),
        Err(TableFault::Memory) => Err(NoMemory),
        Err(fault) => refused(alloc, text, fault),
    }
}
