//! The tables that questions bring.

use crate::fault::DeskFault;
use crate::question::Question;
use crate::writing::push_text;
use iso_review::{Complaint, complaints};
use iso_table::Table;
use serde_json::Value;
use std::alloc::{AllocError, Global};

/// The table that a question brings.
#[derive(Drop)]
pub enum Found {
    /// It is good.
    Table(Table),
    /// All that is wrong with its document.
    Complaints(Vec<Complaint>),
}

/// What a table has to be.
const WANTED: &str = "ascii87, bcd87, or an object with a table's document as its member document";

/// The table that is built in under a name.
fn built_in(alloc: Global, member: &'static str, name: &str) -> Result<Found, DeskFault> {
    match name {
        "ascii87" => Ok(Found::Table(Table::ascii87(alloc)?)),
        "bcd87" => Ok(Found::Table(Table::bcd87(alloc)?)),
        _ => Err(DeskFault::Member {
            member,
            wanted: WANTED,
        }),
    }
}

/// The table of a document, or all that is wrong with it.
fn table_of(alloc: Global, text: &[u8]) -> Result<Found, DeskFault> {
    let told = complaints(alloc, text)?;
    if !told.is_empty() {
        return Ok(Found::Complaints(told));
    }
    match Table::from_json(alloc, text) {
        Ok(table) => Ok(Found::Table(table)),
        Err(_) => Err(DeskFault::Memory),
    }
}

/// The table that a member of a question brings: the name of one that is built in, or an object with a document.
pub fn table_in(
    alloc: Global,
    question: &Question,
    member: &'static str,
) -> Result<Found, DeskFault> {
    let Some(value) = question.member(member) else {
        return Err(DeskFault::Member {
            member,
            wanted: WANTED,
        });
    };
    if let Some(name) = value.as_str() {
        return built_in(alloc, member, name);
    }
    match value.get("document").and_then(Value::as_str) {
        Some(text) => table_of(alloc, text.as_bytes()),
        None => Err(DeskFault::Member {
            member,
            wanted: WANTED,
        }),
    }
}

/// Appends what is wrong at one place of a document: the row's place in its list, or null, and a sentence.
fn push_complaint(
    alloc: Global,
    complaint: &Complaint,
    out: &mut Vec<u8>,
) -> Result<(), AllocError> {
    let says = format!(in alloc; "{complaint}")?;
    match complaint.place.row {
        Some(row) => {
            let front = format!(in alloc; "{{\"row\":{row},\"says\":")?;
            out.extend_from_slice(front.as_bytes())?;
        }
        None => out.extend_from_slice(b"{\"row\":null,\"says\":")?,
    }
    push_text(alloc, says.as_bytes(), out)?;
    out.extend_from_slice(b"}")
}

/// Appends the answer to a question whose document is no table: all that is wrong with it.
pub fn push_complaints(
    alloc: Global,
    told: &[Complaint],
    out: &mut Vec<u8>,
) -> Result<(), AllocError> {
    out.extend_from_slice(b"{\"complaints\":[")?;
    for (place, complaint) in told.iter().enumerate() {
        if place > 0 {
            out.push(b',')?;
        }
        push_complaint(alloc, complaint, out)?;
    }
    out.extend_from_slice(b"]}")
}
