//! An issuer that is played from the beginning.

use crate::accounts::{Listed, accounts_in};
use crate::answers::{HEADER, push_answers};
use crate::bodies::bodies_in;
use crate::books::push_books;
use crate::delivering::{Answered, deliver_all};
use crate::refused::refused;
use iso_desk::{DeskFault, Found, Question, push_complaints, table_in};
use iso_host::{Host, HostTable, Link};
use iso_issuer::{Accounts, Issuer, MOST_ENTRIES};
use iso_table::Table;
use std::alloc::Global;

/// The answer: what came of each body, the journal and the accounts.
fn answer_of(
    alloc: Global,
    answers: &[Answered],
    issuer: &Issuer,
    is_clear: bool,
) -> Result<Vec<u8>, DeskFault> {
    let mut out = Vec::new(alloc);
    out.extend_from_slice(b"{\"answers\":")?;
    push_answers(alloc, answers, &mut out)?;
    out.push(b',')?;
    push_books(alloc, issuer, is_clear, &mut out)?;
    out.push(b'}')?;
    Ok(out)
}

/// The answer of an issuer of these accounts to the bodies of a question.
fn played(
    alloc: Global,
    question: &Question,
    link: &Link,
    accounts: Accounts,
) -> Result<Vec<u8>, DeskFault> {
    let is_clear = question.flag("clear")?;
    let bodies = bodies_in(alloc, question)?;
    let mut host = Host::new(alloc, Issuer::new(accounts, MOST_ENTRIES));
    let answers = deliver_all(alloc, &mut host, link, &bodies)?;
    answer_of(alloc, &answers, host.issuer(), is_clear)
}

/// The answer under a table.
fn play_under(alloc: Global, question: &Question, table: Table) -> Result<Vec<u8>, DeskFault> {
    let Ok(table) = HostTable::new(table) else {
        return Ok(refused(
            alloc,
            "no issuer can serve under this table: look at it with rumpadol table check",
        )?);
    };
    let link = Link::new(table, HEADER);
    match accounts_in(alloc, question)? {
        Listed::Accounts(accounts) => played(alloc, question, &link, accounts),
        Listed::Refused(why) => Ok(refused(alloc, why)?),
    }
}

/// What an issuer of `accounts` answers to `bodies`, which are written as digits and read under `table`, one after the other on an
/// empty journal. The answer has `answers`, what came of each body, and `journal` and `accounts`, what the books hold then, with
/// account numbers in full where `clear`; or `refused`, why it can't be played; or `complaints`, about the table's document.
pub fn play(alloc: Global, question: &Question) -> Result<Vec<u8>, DeskFault> {
    match table_in(alloc, question, "table")? {
        Found::Table(table) => play_under(alloc, question, table),
        Found::Complaints(told) => {
            let mut out = Vec::new(alloc);
            push_complaints(alloc, &told, &mut out)?;
            Ok(out)
        }
    }
}
