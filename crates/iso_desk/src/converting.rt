//! The bytes of messages under another table.

use crate::building::bytes_answer;
use crate::fault::DeskFault;
use crate::form::form_in;
use crate::question::Question;
use crate::tables::{Found, push_complaints, table_in};
use crate::telling::{Told, tell_messages};
use iso_jobs::{Form, Work};
use iso_review::Complaint;
use iso_table::Table;
use std::alloc::{AllocError, Global};

/// The bytes of a question's messages under the other table, as digits.
fn converted(
    alloc: Global,
    question: &Question,
    from: &Table,
    to: &Table,
) -> Result<Told, DeskFault> {
    let form = Form {
        is_hex: true,
        ..form_in(question)?
    };
    let input = question.text("input")?;
    tell_messages(alloc, Work::Convert { from, to }, form, input.as_bytes())
}

/// The answer where a document is no table.
fn refused(alloc: Global, told: &[Complaint]) -> Result<Vec<u8>, AllocError> {
    let mut out = Vec::new(alloc);
    push_complaints(alloc, told, &mut out)?;
    Ok(out)
}

/// The bytes of the messages of `input`, which are written as digits and read under `from`, under the table `to`: `frames` and
/// `skip` say how they lie there. The answer has `good`, `hex` and `complaints`; or `complaints` alone, about the document of the
/// first table that is refused.
pub fn convert(alloc: Global, question: &Question) -> Result<Vec<u8>, DeskFault> {
    let from = match table_in(alloc, question, "from")? {
        Found::Table(table) => table,
        Found::Complaints(told) => return Ok(refused(alloc, &told)?),
    };
    let to = match table_in(alloc, question, "to")? {
        Found::Table(table) => table,
        Found::Complaints(told) => return Ok(refused(alloc, &told)?),
    };
    let told = converted(alloc, question, &from, &to)?;
    Ok(bytes_answer(alloc, &told)?)
}
