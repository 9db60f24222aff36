//! The document of a journal's accounts.

use iso_issuer::{Accounts, AccountsFault};
use iso_record::Heading;
use iso_service::RULES;
use rumpadol_tables::{Source, Stop, document_at, refused};
use std::alloc::Global;

/// What is said of accounts that can't be read.
const NO_ACCOUNTS: &str =
    "the accounts can't be read; name a document that is there and may be read";

/// How the program stops where a document lists no accounts.
fn no_accounts(alloc: Global, path: &str, fault: AccountsFault) -> Stop {
    match fault {
        AccountsFault::Memory => Stop::Memory,
        fault => refused(format!(in alloc;
            "rumpadol: {path}: {fault}; list accounts as {{\"accounts\":[{{\"currency\":\"840\",\"opening\":100000,\"pan\":\"4111111111111111\"}}]}}\n"
        )),
    }
}

/// The accounts of a document, and the heading of a journal of them.
pub fn accounts_at<S: Source>(
    alloc: Global,
    source: &S,
    path: &str,
) -> Result<(Accounts, Heading), Stop> {
    let text = document_at(alloc, source, path, NO_ACCOUNTS)?;
    match Accounts::from_json(alloc, &text) {
        Ok(accounts) => Ok((accounts, Heading::of(RULES, &text))),
        Err(fault) => Err(no_accounts(alloc, path, fault)),
    }
}
