//! Messages, piece by piece.

use crate::fault::DeskFault;
use crate::form::form_in;
use crate::question::Question;
use crate::tables::{Found, push_complaints, table_in};
use crate::telling::{Told, tell_messages};
use crate::writing::{push_items, push_lines};
use iso_jobs::Work;
use iso_names::Names;
use iso_table::Table;
use std::alloc::{AllocError, Global};

/// What a question's messages are, piece by piece.
fn explained(alloc: Global, question: &Question, table: &Table) -> Result<Told, DeskFault> {
    let names = Names::new(alloc, table.version());
    let is_clear = question.flag("clear")?;
    let work = Work::ExplainJson {
        table,
        names: &names,
        is_clear,
    };
    let input = question.text("input")?;
    tell_messages(alloc, work, form_in(question)?, input.as_bytes())
}

/// The answer: whether all are good, the messages, and what is wrong.
fn answer_of(alloc: Global, told: &Told) -> Result<Vec<u8>, AllocError> {
    let mut out = Vec::new(alloc);
    out.extend_from_slice(b"{\"good\":")?;
    out.extend_from_slice(if told.is_good { b"true" } else { b"false" })?;
    out.extend_from_slice(b",\"messages\":")?;
    push_items(&told.text, &mut out)?;
    out.extend_from_slice(b",\"complaints\":")?;
    push_lines(alloc, &told.complaints, &mut out)?;
    out.push(b'}')?;
    Ok(out)
}

/// What the messages of `input` are, piece by piece, under `table`: `isHex`, `frames` and `skip` say how they lie there, and
/// `clear` whether card data are shown. The answer has `good`, `messages` and `complaints`; or `complaints` alone, about the
/// table's document.
pub fn look(alloc: Global, question: &Question) -> Result<Vec<u8>, DeskFault> {
    match table_in(alloc, question, "table")? {
        Found::Table(table) => {
            let told = explained(alloc, question, &table)?;
            Ok(answer_of(alloc, &told)?)
        }
        Found::Complaints(told) => {
            let mut out = Vec::new(alloc);
            push_complaints(alloc, &told, &mut out)?;
            Ok(out)
        }
    }
}
