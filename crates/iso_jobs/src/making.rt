//! The bytes of the message that a text says.

ghost use Rattle.std.specs.Prelude.{◌≡◌, true, IfOk, MatchResult};
ghost use Rattle.iso_json.specs.RoundTrip.{IsClearJson};
ghost use Rattle.iso_json.specs.Said.{IsMessage};
ghost use Rattle.iso_wire.specs.Contents.{Contents};
ghost use Rattle.iso_wire.specs.Spelling.{PlainSpelling};
ghost use Rattle.iso_jobs.specs.Making.{is_white, is_blank, is_json, line_of, refusal_of_json, Outcome, Spells};
ghost use Rattle.iso_jobs.specs.declared.making.MakeRefusal.TheVariants.{Memory};

use crate::form::Form;
use crate::form_writing::append_written;
use crate::refusal::Refusal;
use iso_json::{Complaint, encode_fields, encode_json};
use iso_table::Table;
use std::alloc::Global;

/// Why no message is made of a text.
#[derive(Drop)]
pub(crate) enum MakeRefusal {
    /// All that is wrong with the text.
    Complaints(Vec<Complaint>),
    /// The message is too long for its frame.
    TooLong(usize),
    /// There is no memory.
    Memory,
}

/// Whether the byte is a blank or ends a line.
fn is_white(b: u8) -> bool
    ensures { result ≡ is_white b }
{
    matches!(b, b' ' | b'\t' | b'\r' | b'\n')
}

/// Whether the text says nothing.
pub(crate) fn is_blank(text: &[u8]) -> bool
    ensures { result ≡ is_blank text.now }
{
    text.iter().all(|b| is_white(*b))
}

/// Whether the text is JSON, and not field lines: its first character behind blanks is a brace.
pub(crate) fn is_json(text: &[u8]) -> bool
    ensures { result ≡ is_json text.now }
{
    for b in text {
        if *b == b'{' {
            return true;
        }
        if !is_white(*b) {
            return false;
        }
    }
    false
}

/// The text without the end of its line.
fn line_of(text: &[u8]) -> &[u8]
    ensures { result.now ≡ line_of text.now }
{
    match text {
        [line @ .., b'\n'] => line,
        _ => text,
    }
}

/// What came of a text.
fn refused(refusal: iso_json::Refusal) -> MakeRefusal
    ensures { result ≡ refusal_of_json refusal }
{
    match refusal {
        iso_json::Refusal::Complaints(complaints) => MakeRefusal::Complaints(complaints),
        iso_json::Refusal::Memory => MakeRefusal::Memory,
    }
}

/// The plain spelling of the message that a line of JSON says.
fn spelled_json(alloc: Global, table: &Table, line: &[u8]) -> Result<Vec<u8>, MakeRefusal>
    ensures spelled { IfOk result (λ body. (m : Contents) × IsMessage table.now line.now m
        × PlainSpelling table.now m body.items) }
    ensures clear { (m : Contents) → IsClearJson table.now m line.now
        → MatchResult result (λ body. PlainSpelling table.now m body.items) (λ e. e ≡ Memory) }
{
    let mut body = Vec::new(alloc);
    match encode_json(alloc, table, line, &mut body) {
        Ok(()) => Ok(body),
        Err(refusal) => Err(refused(refusal)),
    }
}

/// The plain spelling of the message that field lines say.
fn spelled_fields(alloc: Global, table: &Table, text: &[u8]) -> Result<Vec<u8>, MakeRefusal>
    ensures spelled { IfOk result (λ body. (m : Contents) × PlainSpelling table.now m body.items) }
{
    let mut body = Vec::new(alloc);
    match encode_fields(alloc, table, text, &mut body) {
        Ok(()) => Ok(body),
        Err(refusal) => Err(refused(refusal)),
    }
}

/// The plain spelling of the message that a text says.
fn spelled(alloc: Global, table: &Table, text: &[u8]) -> Result<Vec<u8>, MakeRefusal>
    ensures spelled { IfOk result (λ body. Spells table.now text.now body.items) }
    ensures clear { is_json text.now ≡ true → (m : Contents)
        → IsClearJson table.now m (line_of text.now)
        → MatchResult result (λ body. PlainSpelling table.now m body.items) (λ e. e ≡ Memory) }
{
    if is_json(text) {
        return spelled_json(alloc, table, line_of(text));
    }
    spelled_fields(alloc, table, text)
}

/// Appends the message that a text says, as the output has it. After a refusal nothing is appended.
pub(crate) fn make(
    alloc: Global,
    table: &Table,
    form: Form,
    text: &[u8],
    out: &mut Vec<u8>,
) -> Result<(), MakeRefusal>
    ensures { Outcome table.now form text.now
        (record { old = out.old.items; new = out.new.items }) result }
{
    let body = match spelled(alloc, table, text) {
        Ok(body) => body,
        Err(refusal) => return Err(refusal),
    };
    match append_written(alloc, form, &body, out) {
        Ok(()) => Ok(()),
        Err(Refusal::Refused(_)) => Err(MakeRefusal::TooLong(body.len())),
        Err(Refusal::Memory) => Err(MakeRefusal::Memory),
    }
}
