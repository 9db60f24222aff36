//! What is told of one message, and what is written for it.

ghost use Rattle.std.specs.Prelude.{◌≡◌, ◌≢◌, ◌++◌, ℕ, List, IfErr, IfOk, OnOk};
ghost use Rattle.iso_jobs.specs.Telling.{TellsLines, TellsJson, Conversion, HasNoConversion};
ghost use Rattle.iso_jobs.specs.Telling.{IsNotConverted, TellsConverted, Grows, ending, refusal_of_pack};
ghost use Rattle.iso_wire.specs.Contents.{Contents};
ghost use Rattle.iso_wire.specs.Spelling.{Spelling};
ghost use Rattle.iso_jobs.specs.Whole.{IsNoMessage};
ghost use Rattle.iso_jobs.specs.declared.refusal.Refusal.TheVariants.{Memory};

use crate::form::Form;
use crate::form_writing::append_written;
use crate::refusal::{Refusal, Trouble};
use crate::texts::append_heading;
use crate::whole::whole_message;
use iso_explain::{
    Outcome, Style, append_explanation, append_explanation_json, append_named, hints,
};
use iso_json::append_json;
use iso_names::Names;
use iso_table::{NoMemory, Table};
use iso_wire::{PackFault, append_message};
use std::alloc::{AllocError, Global};

/// Appends what ends the lines of a message: in a stream an empty line.
fn push_ending(is_framed: bool, out: &mut Vec<u8>) -> Result<(), AllocError>
    ensures { OnOk result (out.new.items ≡ out.old.items ++ ending is_framed) }
{
    if is_framed {
        return out.extend_from_slice(b"\n");
    }
    Ok(())
}

/// Appends the lines of the message that the bytes are. In a stream an empty line stands behind them.
pub(crate) fn tell_lines(
    alloc: Global,
    table: &Table,
    names: &Names,
    is_clear: bool,
    is_framed: bool,
    bytes: &[u8],
    out: &mut Vec<u8>,
) -> Result<(), Refusal>
    ensures told { OnOk result
        ((text : List ℕ) × TellsLines table.now
        (record { names = names.now; is_clear = is_clear; is_framed = is_framed }) bytes.now text
        × (out.new.items ≡ out.old.items ++ text)) }
    ensures refused { IfErr result (λ e. e ≢ Memory → IsNoMessage table.now bytes.now) }
    ensures unchanged { IfErr result (λ e. e ≢ Memory → out.new.items ≡ out.old.items) }
{
    let message = whole_message(alloc, table, bytes)?;
    append_named(alloc, table, names, &message, is_clear, out)?;
    push_ending(is_framed, out)?;
    Ok(())
}

/// Appends the line of JSON of the message that the bytes are.
pub(crate) fn tell_json(
    alloc: Global,
    table: &Table,
    is_clear: bool,
    bytes: &[u8],
    out: &mut Vec<u8>,
) -> Result<(), Refusal>
    ensures told { OnOk result ((text : List ℕ) × TellsJson table.now is_clear bytes.now text
        × (out.new.items ≡ out.old.items ++ text)) }
    ensures refused { IfErr result (λ e. e ≢ Memory → IsNoMessage table.now bytes.now) }
    ensures unchanged { IfErr result (λ e. e ≢ Memory → out.new.items ≡ out.old.items) }
{
    let message = whole_message(alloc, table, bytes)?;
    append_json(table, &message, is_clear, out)?;
    out.extend_from_slice(b"\n")?;
    Ok(())
}

/// Why there are no bytes under another table.
fn unpacked(fault: PackFault) -> Refusal
    ensures { result ≡ refusal_of_pack fault }
{
    match fault {
        PackFault::Memory => Refusal::Memory,
        _ => Refusal::Refused(Trouble::Pack(fault)),
    }
}

/// The message that the bytes are as bytes under another table, behind those that were skipped.
fn converted(
    alloc: Global,
    from: &Table,
    to: &Table,
    front: &[u8],
    bytes: &[u8],
) -> Result<Vec<u8>, Refusal>
    ensures converted { IfOk result
        (λ body. Conversion (record { from = from.now; to = to.now }) front.now bytes.now
        body.items) }
    ensures refused { IfErr result
        (λ e. e ≢ Memory → HasNoConversion (record { from = from.now; to = to.now }) bytes.now) }
{
    let message = match whole_message(alloc, from, bytes) {
        Ok(message) => message,
        Err(refusal) => return Err(refusal),
    };
    let mut body = Vec::new(alloc);
    body.extend_from_slice(front)?;
    match append_message(to, &message, &mut body) {
        Ok(()) => Ok(body),
        Err(fault) => Err(unpacked(fault)),
    }
}

/// Appends the message that the bytes are as it is written under another table, with what was skipped before it.
pub(crate) fn convert(
    alloc: Global,
    from: &Table,
    to: &Table,
    form: Form,
    front: &[u8],
    bytes: &[u8],
    out: &mut Vec<u8>,
) -> Result<(), Refusal>
    ensures told { OnOk result
        ((text : List ℕ)
        × TellsConverted (record { from = from.now; to = to.now }) form front.now bytes.now text
        × (out.new.items ≡ out.old.items ++ text)) }
    ensures refused { IfErr result
        (λ e. e ≢ Memory
        → IsNotConverted (record { from = from.now; to = to.now }) form front.now bytes.now) }
    ensures unchanged { IfErr result (λ e. e ≢ Memory → out.new.items ≡ out.old.items) }
{
    let body = match converted(alloc, from, to, front, bytes) {
        Ok(body) => body,
        Err(refusal) => return Err(refusal),
    };
    append_written(alloc, form, &body, out)
}

/// Appends a line for each likely mistake behind a message that bytes follow.
fn push_hints(
    alloc: Global,
    table: &Table,
    bytes: &[u8],
    out: &mut Vec<u8>,
) -> Result<(), NoMemory> {
    for hint in &hints(alloc, table, bytes)? {
        out.extend_from_slice(b"      hint: ")?;
        out.extend_from_slice(hint.sentence().as_bytes())?;
        out.extend_from_slice(b"\n")?;
    }
    Ok(())
}

/// The explanation of the bytes. Where they are a frame's, a line with its number stands before it, and an empty one
/// behind it.
fn explanation_of(
    alloc: Global,
    table: &Table,
    names: &Names,
    style: Style,
    frame: Option<u64>,
    bytes: &[u8],
) -> Result<Vec<u8>, NoMemory> {
    let mut text = Vec::new(alloc);
    if let Some(number) = frame {
        append_heading(alloc, number, bytes.len(), &mut text)?;
    }
    let outcome = append_explanation(alloc, table, names, bytes, style, &mut text)?;
    if matches!(outcome, Outcome::Read(used) if used < bytes.len()) {
        push_hints(alloc, table, bytes, &mut text)?;
    }
    push_ending(frame.is_some(), &mut text)?;
    Ok(text)
}

/// Whether the bytes are a message, and no byte more.
fn judge(alloc: Global, table: &Table, bytes: &[u8]) -> Result<(), Refusal>
    ensures good { OnOk result ((m : Contents) × Spelling table.now m bytes.now) }
    ensures refused { IfErr result (λ e. e ≢ Memory → IsNoMessage table.now bytes.now) }
{
    match whole_message(alloc, table, bytes) {
        Ok(_) => Ok(()),
        Err(refusal) => Err(refusal),
    }
}

/// Appends the explanation of the bytes, and tells what is wrong with them.
pub(crate) fn explain(
    alloc: Global,
    table: &Table,
    names: &Names,
    style: Style,
    frame: Option<u64>,
    bytes: &[u8],
    out: &mut Vec<u8>,
) -> Result<(), Refusal>
    ensures good { OnOk result ((m : Contents) × Spelling table.now m bytes.now) }
    ensures refused { IfErr result (λ e. e ≢ Memory → IsNoMessage table.now bytes.now) }
    ensures grown { Grows out.old.items out.new.items result }
{
    let text = explanation_of(alloc, table, names, style, frame, bytes)?;
    out.extend_from_slice(&text)?;
    judge(alloc, table, bytes)
}

/// Appends the explanation of the bytes as a line of JSON, and tells what is wrong with them.
pub(crate) fn explain_json(
    alloc: Global,
    table: &Table,
    names: &Names,
    is_clear: bool,
    bytes: &[u8],
    out: &mut Vec<u8>,
) -> Result<(), Refusal>
    ensures good { OnOk result ((m : Contents) × Spelling table.now m bytes.now) }
    ensures refused { IfErr result (λ e. e ≢ Memory → IsNoMessage table.now bytes.now) }
    ensures grown { Grows out.old.items out.new.items result }
{
    let mut text = Vec::new(alloc);
    append_explanation_json(alloc, table, names, bytes, is_clear, &mut text)?;
    push_ending(true, &mut text)?;
    out.extend_from_slice(&text)?;
    judge(alloc, table, bytes)
}
