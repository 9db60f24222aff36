//! The bytes of a message that a text says.

ghost use Rattle.std.specs.Prelude.{◌≡◌, ◌++◌, List, OnOk, OnErr, IfErr};
ghost use Rattle.iso_wire.specs.Contents.{Contents};
ghost use Rattle.iso_json.specs.declared.complaint.Refusal.TheVariants as refusals;
ghost use Rattle.iso_json.specs.Said.{IsMessage, AreOf};
ghost use Rattle.iso_json.specs.Encoded.{AppendsPlain, AppendsSaid, EncodesClear};

use crate::complaint::Refusal;
use crate::fields::read_fields;
use crate::reading::read_json;
use iso_table::Table;
use iso_wire::{Message, append_message};
use std::alloc::Global;

/// Appends the bytes of a message.
fn append_bytes(table: &Table, message: &Message, out: &mut Vec<u8>) -> Result<(), Refusal>
    ensures appended { OnOk result
        (AppendsPlain table.now message.now out.old.items out.new.items) }
    ensures memory { IfErr result (λ e. e ≡ refusals.Memory) }
    ensures unchanged { OnErr result (out.new.items ≡ out.old.items) }
{
    match append_message(table, message, out) {
        Ok(()) => Ok(()),
        Err(_) => Err(Refusal::Memory),
    }
}

/// Appends the bytes of the message that a JSON text says, as `pack` writes them; what is refused is told as [`read_json`]
/// tells it. After a refusal the buffer holds the bytes that it held before.
pub fn encode_json(
    alloc: Global,
    table: &Table,
    text: &[u8],
    out: &mut Vec<u8>,
) -> Result<(), Refusal>
    // What is appended is the plain spelling of the message that the text says.
    ensures appended { OnOk result (AppendsSaid table.now text.now out.old.items out.new.items) }
    // Memory aside, a refusal tells all that is wrong: that the text is no JSON, with a line and a
    // column, or each thing in it that is refused.
    ensures refused { IfErr result (λ e. AreOf table.now text.now e) }
    // After any refusal, and without memory, the buffer is as it was.
    ensures unchanged { OnErr result (out.new.items ≡ out.old.items) }
    // The JSON in clear of a message that the table takes gives that message's plain spelling, unless memory runs out.
    ensures comes_back { EncodesClear table.now text.now out.old.items out.new.items result }
{
    match read_json(alloc, table, text) {
        Ok(read) => append_bytes(table, &read, out),
        Err(refusal) => Err(refusal),
    }
}

/// The same for field lines, as [`read_fields`] reads them.
pub fn encode_fields(
    alloc: Global,
    table: &Table,
    text: &[u8],
    out: &mut Vec<u8>,
) -> Result<(), Refusal>
    // What is appended is the plain spelling of a message.
    ensures appended { OnOk result
        ((m : Contents) × AppendsPlain table.now m out.old.items out.new.items) }
    // After any refusal, and without memory, the buffer is as it was.
    ensures unchanged { OnErr result (out.new.items ≡ out.old.items) }
{
    match read_fields(alloc, table, text) {
        Ok(message) => append_bytes(table, &message, out),
        Err(refusal) => Err(refusal),
    }
}
