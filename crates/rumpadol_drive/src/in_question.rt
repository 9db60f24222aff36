//! The messages of the transactions in question, where both ends differ.

use iso_drive::Driver;
use iso_json::append_json;
use iso_order::{Act, MOST_STAN, Order, TxKey, request};
use iso_restarts::NoteLog;
use iso_table::Table;
use std::alloc::{AllocError, Global};

/// How many transactions of an account are shown with their messages.
const MOST_SHOWN: usize = 20;

/// The message that asks for an order, as a line of JSON: card data are masked.
fn line_of(alloc: Global, table: &Table, order: &Order) -> Result<String, AllocError> {
    let Ok(message) = request(alloc, order) else {
        return Err(AllocError);
    };
    let mut text = Vec::new(alloc);
    if append_json(table, &message, false, &mut text).is_err() {
        return Err(AllocError);
    }
    match str::from_utf8(text.as_slice()) {
        Ok(line) => String::from_str(alloc, line),
        Err(_) => Ok(String::new(alloc)),
    }
}

/// The order of a purchase.
fn purchase_at<L: NoteLog>(driver: &Driver<L>, stan: u32) -> Option<Order> {
    let entry = driver.entry(stan)?;
    Order::new(entry.key, Act::Debit(entry.debit?))
}

/// The order that reverses the purchase of that key: it was made later.
fn reversal_of<L: NoteLog>(driver: &Driver<L>, original: TxKey) -> Option<Order> {
    for before in original.stan..MOST_STAN {
        let entry = driver.entry(before + 1)?;
        if entry.reverses == Some(original.stan) {
            return Order::new(entry.key, Act::Undo { original, left: 0 });
        }
    }
    None
}

/// Adds the line of an order, if there is one.
fn push_line(
    alloc: Global,
    table: &Table,
    order: Option<Order>,
    lines: &mut Vec<String>,
) -> Result<(), AllocError> {
    if let Some(order) = order {
        lines.push(line_of(alloc, table, &order)?)?;
    }
    Ok(())
}

/// The messages of the first transactions of those trace numbers, each a line of JSON: the request of each, and its reversal
/// behind it.
pub(crate) fn messages_of<L: NoteLog>(
    alloc: Global,
    table: &Table,
    driver: &Driver<L>,
    traces: &[u32],
) -> Result<Vec<String>, AllocError> {
    let mut lines = Vec::new(alloc);
    for trace in traces.iter().take(MOST_SHOWN) {
        if let Some(purchase) = purchase_at(driver, *trace) {
            push_line(alloc, table, Some(purchase), &mut lines)?;
            push_line(
                alloc,
                table,
                reversal_of(driver, purchase.key()),
                &mut lines,
            )?;
        }
    }
    Ok(lines)
}
