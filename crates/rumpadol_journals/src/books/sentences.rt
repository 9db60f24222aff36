//! What is said of a journal's file.

use iso_books::BooksFault;
use iso_record::HeadingFault;
use rumpadol_tables::{Stop, failed, refused};
use std::alloc::{AllocError, Global};

/// So many orders.
fn orders_text(alloc: Global, count: usize) -> Result<String, AllocError> {
    match count {
        1 => String::from_str(alloc, "1 order"),
        count => format!(in alloc; "{count} orders"),
    }
}

/// The line of a journal that is whole.
pub fn whole_line(alloc: Global, path: &str, count: usize) -> Result<String, AllocError> {
    let orders = orders_text(alloc, count)?;
    format!(in alloc; "{path}: whole, {orders}\n")
}

/// The line of a journal that a crash tore behind so many orders.
pub fn torn_line(alloc: Global, path: &str, count: usize) -> Result<String, AllocError> {
    let orders = orders_text(alloc, count)?;
    let place = count.saturating_add(1);
    format!(in alloc;
        "{path}: torn at place {place}, behind {orders}; a start of the host cuts it off\n"
    )
}

/// How the program stops where a file ends behind its last record.
pub fn cut(alloc: Global, path: &str, count: usize) -> Stop {
    match orders_text(alloc, count) {
        Ok(orders) => refused(format!(in alloc;
            "rumpadol: {path}: cut behind {orders}: a host always leaves room for a record more; take a copy of the whole file\n"
        )),
        Err(_) => Stop::Memory,
    }
}

/// How the program stops where a record can't be one that a host wrote, with what is to be done.
pub fn damaged(alloc: Global, path: &str, place: usize, cure: &str) -> Stop {
    refused(format!(in alloc;
        "rumpadol: {path}: damaged at place {place}: no host can have written this record there; {cure}\n"
    ))
}

/// What is said of a file that begins otherwise.
fn heading_text(fault: HeadingFault) -> &'static str {
    match fault {
        HeadingFault::Format =>
            "this is no journal, since it doesn't begin with the heading of one; name a journal's file",
        HeadingFault::Rules =>
            "this is a journal under other rules than this program's; use the program that wrote it",
        HeadingFault::Accounts =>
            "this is a journal of other accounts; name the document that it was made with, as it was then",
    }
}

/// How the program stops where it didn't come to the end of a journal.
pub fn stopped(alloc: Global, path: &str, fault: BooksFault) -> Stop {
    match fault {
        BooksFault::Memory => Stop::Memory,
        BooksFault::Write => Stop::Output,
        BooksFault::Read => failed(format!(in alloc;
            "rumpadol: {path}: reading stopped before its end: see that it is a file and no folder, and look at its device\n"
        )),
        BooksFault::Other(fault) => {
            let text = heading_text(fault);
            refused(format!(in alloc; "rumpadol: {path}: {text}\n"))
        }
    }
}
