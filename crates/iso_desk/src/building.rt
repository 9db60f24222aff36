//! The bytes of a message.

use crate::fault::DeskFault;
use crate::question::Question;
use crate::tables::{Found, push_complaints, table_in};
use crate::telling::{Told, make_bytes};
use crate::writing::push_lines;
use iso_jobs::Form;
use iso_table::Table;
use std::alloc::{AllocError, Global};

/// The bytes of the message that a question brings, as digits.
fn built(alloc: Global, question: &Question, table: &Table) -> Result<Told, DeskFault> {
    let Some(message) = question.member("message") else {
        return Err(DeskFault::Member {
            member: "message",
            wanted: "an object of mti and elements",
        });
    };
    let text = message.to_string(alloc)?;
    let form = Form {
        is_hex: true,
        header: question.header("frames")?,
        skip: 0,
    };
    make_bytes(alloc, table, form, text.as_bytes())
}

/// Appends bytes that are written as lines of digits, without the ends of these lines.
fn push_digits(lines: &[u8], out: &mut Vec<u8>) -> Result<(), AllocError> {
    for line in lines.split(|byte| *byte == b'\n') {
        out.extend_from_slice(line)?;
    }
    Ok(())
}

/// The answer: whether all is good, the bytes, and what is wrong.
pub(crate) fn bytes_answer(alloc: Global, told: &Told) -> Result<Vec<u8>, AllocError> {
    let mut out = Vec::new(alloc);
    out.extend_from_slice(b"{\"good\":")?;
    out.extend_from_slice(if told.is_good { b"true" } else { b"false" })?;
    out.extend_from_slice(b",\"hex\":\"")?;
    push_digits(&told.text, &mut out)?;
    out.extend_from_slice(b"\",\"complaints\":")?;
    push_lines(alloc, &told.complaints, &mut out)?;
    out.push(b'}')?;
    Ok(out)
}

/// The bytes of `message`, an object of `mti` and `elements`, under `table`, in a frame where `frames` names a header. The answer
/// has `good`, `hex` and `complaints`; or `complaints` alone, about the table's document.
pub fn build(alloc: Global, question: &Question) -> Result<Vec<u8>, DeskFault> {
    match table_in(alloc, question, "table")? {
        Found::Table(table) => {
            let told = built(alloc, question, &table)?;
            Ok(bytes_answer(alloc, &told)?)
        }
        Found::Complaints(told) => {
            let mut out = Vec::new(alloc);
            push_complaints(alloc, &told, &mut out)?;
            Ok(out)
        }
    }
}
