//! What a table is.

use crate::fault::DeskFault;
use crate::question::Question;
use crate::tables::{Found, push_complaints, table_in};
use crate::writing::push_text;
use iso_names::Names;
use iso_table::Table;
use std::alloc::{AllocError, Global};

/// Appends the name of an element, where it has one.
fn push_name(
    alloc: Global,
    names: &Names,
    element: u8,
    out: &mut Vec<u8>,
) -> Result<(), AllocError> {
    let Some(name) = names.of(element) else {
        return Ok(());
    };
    if !matches!(out.last(), Some(b'{')) {
        out.push(b',')?;
    }
    let front = format!(in alloc; "\"{element}\":")?;
    out.extend_from_slice(front.as_bytes())?;
    push_text(alloc, name.as_bytes(), out)
}

/// Appends the names of a table's elements.
fn push_names(alloc: Global, table: &Table, out: &mut Vec<u8>) -> Result<(), AllocError> {
    let names = Names::new(alloc, table.version());
    out.push(b'{')?;
    for element in 2u8..=128 {
        if table.row(element).is_some() {
            push_name(alloc, &names, element, out)?;
        }
    }
    out.extend_from_slice(b"}")
}

/// The answer: the table's document, and the names of its elements.
fn answer_of(alloc: Global, table: &Table) -> Result<Vec<u8>, DeskFault> {
    let document = table.to_json(alloc)?;
    let mut out = Vec::new(alloc);
    out.extend_from_slice(b"{\"document\":")?;
    out.extend_from_slice(&document)?;
    out.extend_from_slice(b",\"names\":")?;
    push_names(alloc, table, &mut out)?;
    out.push(b'}')?;
    Ok(out)
}

/// What `table` is: `document` and `names`; or `complaints`, all that is wrong with its document.
pub fn tell_table(alloc: Global, question: &Question) -> Result<Vec<u8>, DeskFault> {
    match table_in(alloc, question, "table")? {
        Found::Table(table) => answer_of(alloc, &table),
        Found::Complaints(told) => {
            let mut out = Vec::new(alloc);
            push_complaints(alloc, &told, &mut out)?;
            Ok(out)
        }
    }
}
