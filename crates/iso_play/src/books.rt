//! What an issuer's books hold, as JSON.

use iso_books::{Form, account_rows, append_balances, append_entry};
use iso_desk::push_items;
use iso_issuer::Issuer;
use iso_order::NoMemory;
use iso_record::Row;
use std::alloc::Global;

/// The entries of a journal, a line each.
fn entry_lines(alloc: Global, issuer: &Issuer, is_clear: bool) -> Result<Vec<u8>, NoMemory> {
    let mut lines = Vec::new(alloc);
    for (place, order) in issuer.orders().iter().enumerate() {
        if let Some(answer) = issuer.answer_of_entry(place) {
            let row = Row {
                order: *order,
                answer,
            };
            append_entry(&row, Form::Json, is_clear, &mut lines)?;
        }
    }
    Ok(lines)
}

/// What is on each account, a line each.
fn balance_lines(alloc: Global, issuer: &Issuer, is_clear: bool) -> Result<Vec<u8>, NoMemory> {
    let rows = account_rows(alloc, issuer)?;
    let mut lines = Vec::new(alloc);
    append_balances(&rows, Form::Json, is_clear, &mut lines)?;
    Ok(lines)
}

/// Appends the journal and the accounts of an issuer as members.
pub(crate) fn push_books(
    alloc: Global,
    issuer: &Issuer,
    is_clear: bool,
    out: &mut Vec<u8>,
) -> Result<(), NoMemory> {
    let entries = entry_lines(alloc, issuer, is_clear)?;
    let balances = balance_lines(alloc, issuer, is_clear)?;
    out.extend_from_slice(b"\"journal\":")?;
    push_items(&entries, out)?;
    out.extend_from_slice(b",\"accounts\":")?;
    push_items(&balances, out)?;
    Ok(())
}
