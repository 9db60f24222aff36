//! The accounts that a question brings.

use iso_desk::{DeskFault, Question};
use iso_issuer::{Accounts, AccountsFault};
use std::alloc::Global;

/// The document of accounts that a question brings: its member `accounts` is the list.
fn document_in(alloc: Global, question: &Question) -> Result<Vec<u8>, DeskFault> {
    let Some(list) = question.member("accounts") else {
        return Err(DeskFault::Member {
            member: "accounts",
            wanted: "a list of objects of pan, currency and opening",
        });
    };
    let list = list.to_string(alloc)?;
    let mut text = Vec::new(alloc);
    text.extend_from_slice(b"{\"accounts\":")?;
    text.extend_from_slice(list.as_bytes())?;
    text.push(b'}')?;
    Ok(text)
}

/// The accounts that a question brings.
#[derive(Drop)]
pub(crate) enum Listed {
    /// They are good.
    Accounts(Accounts),
    /// What is wrong with them, and what would mend it.
    Refused(&'static str),
}

/// What is said of accounts that are refused.
fn refusal_of(fault: AccountsFault) -> &'static str {
    match fault {
        AccountsFault::Twice(_) => "two accounts have one number: give each its own",
        AccountsFault::OutOfRange(_) =>
            "an opening amount is out of range: give at most 9,000,000,000,000,000 minor units, either way",
        AccountsFault::NotJson | AccountsFault::Shape | AccountsFault::Memory =>
            "an account isn't one: give 1 to 19 digits, a currency of three characters, and an opening amount in minor units",
    }
}

/// The accounts that a question brings.
pub(crate) fn accounts_in(alloc: Global, question: &Question) -> Result<Listed, DeskFault> {
    let text = document_in(alloc, question)?;
    match Accounts::from_json(alloc, &text) {
        Ok(accounts) => Ok(Listed::Accounts(accounts)),
        Err(AccountsFault::Memory) => Err(DeskFault::Memory),
        Err(fault) => Ok(Listed::Refused(refusal_of(fault))),
    }
}
