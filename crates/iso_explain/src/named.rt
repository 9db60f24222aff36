//! A message as lines with the names of its elements.

ghost use Rattle.std.specs.Prelude.{◌≡◌, ◌++◌, ℕ, List, OnOk, OnErr};
ghost use Rattle.iso_table.specs.Layout.{row_at};
ghost use Rattle.iso_wire.specs.Describing.{class_by, shown_text, type_line};
ghost use Rattle.iso_explain.specs.NamedLines.{IsNoteOf, NamedLine, NamedLines, NamedDescription};
ghost use Rattle.iso_explain.specs.Seen.{ShowsValue};

use crate::seen::whole;
use crate::writing::push_shown;
use iso_names::Names;
use iso_parts::CharClass;
use iso_table::{NoMemory, Table};
use iso_wire::{Message, Shown, describe, masked, write_decimal};
use std::alloc::{AllocError, Global};

/// The class of an element's row; any bytes where it has none.
fn class_of(table: &Table, n: u8) -> CharClass
    ensures { result ≡ class_by (row_at table.now.rows n) }
{
    match table.row(n) {
        Some(row) => row.class,
        None => CharClass::B,
    }
}

/// The whole value, or what a bystander may read of it.
fn shown_of<'a>(is_clear: bool, n: u8, value: &'a [u8]) -> Shown<'a>
    ensures { ShowsValue is_clear n value.now result }
{
    if is_clear {
        whole(value)
    } else {
        masked(n, value)
    }
}

/// Appends a tab and the name of an element, if it has one.
fn push_note(names: &Names, n: u8, out: &mut Vec<u8>) -> Result<(), AllocError>
    ensures { OnOk result
        ((note : List ℕ) × IsNoteOf names.now n note × (out.new.items ≡ out.old.items ++ note)) }
{
    if let Some(name) = names.of(n) {
        out.push(b'\t')?;
        out.extend_from_slice(name.as_bytes())?;
    }
    Ok(())
}

/// Appends the value of an element as its description shows it.
fn push_value(
    table: &Table,
    is_clear: bool,
    n: u8,
    value: &[u8],
    out: &mut Vec<u8>,
) -> Result<(), AllocError>
    ensures { OnOk result (out.new.items ≡ out.old.items
        ++ shown_text is_clear (class_by (row_at table.now.rows n)) n value.now) }
{
    push_shown(class_of(table, n), shown_of(is_clear, n, value), out)
}

/// Appends the line of an element.
fn push_line(
    table: &Table,
    names: &Names,
    is_clear: bool,
    n: u8,
    value: &[u8],
    out: &mut Vec<u8>,
) -> Result<(), AllocError>
    ensures { OnOk result
        ((line : List ℕ) × NamedLine is_clear table.now.rows names.now (n, value.now) line
        × (out.new.items ≡ out.old.items ++ line)) }
{
    let mut number = [0; 3];
    write_decimal(&mut number, u64::from(n));
    out.extend_from_slice(b"DE")?;
    out.extend_from_slice(&number)?;
    out.extend_from_slice(b"=")?;
    push_value(table, is_clear, n, value, out)?;
    push_note(names, n, out)?;
    out.extend_from_slice(b"\n")
}

/// Appends the lines of the elements.
fn push_lines(
    table: &Table,
    names: &Names,
    is_clear: bool,
    message: &Message,
    out: &mut Vec<u8>,
) -> Result<(), AllocError>
    ensures { OnOk result
        ((lines : List ℕ) × NamedLines is_clear table.now.rows names.now message.now.elements lines
        × (out.new.items ≡ out.old.items ++ lines)) }
{
    for (n, value) in message.iter() {
        push_line(table, names, is_clear, n, value, out)?;
    }
    Ok(())
}

/// Appends the line of the message type, with the words for its digits.
fn push_type_line(
    alloc: Global,
    table: &Table,
    message: &Message,
    out: &mut Vec<u8>,
) -> Result<(), AllocError>
    ensures { OnOk result (out.new.items ≡ out.old.items ++ type_line message.now.mti) }
{
    let line = describe(alloc, table, &Message::new(alloc, message.mti()))?;
    out.extend_from_slice(&line)
}

/// Appends a message as lines: its type with the words for its digits, and each element by its number and its value as
/// `describe` shows them, and behind a tab its name. Unless it is to be clear, card data are stars.
///
/// Without memory nothing is appended.
pub fn append_named(
    alloc: Global,
    table: &Table,
    names: &Names,
    message: &Message,
    is_clear: bool,
    out: &mut Vec<u8>,
) -> Result<(), NoMemory>
    // Memory aside, the lines of the description are appended, each with the name of its element
    // before its end.
    ensures appended { OnOk result
        ((text : List ℕ) × NamedDescription is_clear table.now names.now message.now text
        × (out.new.items ≡ out.old.items ++ text)) }
    // Where memory runs out, the buffer holds the bytes that it held before.
    ensures unchanged { OnErr result (out.new.items ≡ out.old.items) }
{
    let mut text = Vec::new(alloc);
    push_type_line(alloc, table, message, &mut text)?;
    push_lines(table, names, is_clear, message, &mut text)?;
    out.extend_from_slice(&text)?;
    Ok(())
}
