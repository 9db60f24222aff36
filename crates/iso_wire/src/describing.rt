//! A message as lines for human eyes.

ghost use Rattle.std.specs.Prelude.{◌≡◌, ◌++◌, ℕ, List, IfOk, OnOk, OnErr, replicate, true, false};
ghost use Rattle.hex.specs.Hex.{encode_upper};
ghost use Rattle.iso_parts.specs.Buffers.{Keeps};
ghost use Rattle.iso_table.specs.Layout.{row_at};
ghost use Rattle.iso_wire.specs.Describing.{clear_text, value_text, shown_text, class_by};
ghost use Rattle.iso_wire.specs.Describing.{element_line, element_lines, description, IsDecimal, IsUsedLine};

use crate::decimal::{digits_of, write_decimal};
use crate::masking::masked;
use crate::message::Message;
use crate::words::push_type;
use iso_parts::CharClass;
use iso_parts::raw::hex_digit;
use iso_table::Table;
use std::alloc::{AllocError, Global};

/// Appends two hexadecimal digits for each byte.
#[tactic(auto, unfolding(hex::specs::Hex::encode_with))]
fn push_hex(bytes: &[u8], out: &mut Vec<u8>) -> Result<(), AllocError>
    ensures { OnOk result (out.new.items ≡ out.old.items ++ encode_upper bytes.now) }
{
    for b in bytes {
        out.extend_from_slice(&[hex_digit(*b / 16), hex_digit(*b % 16)])?;
    }
    Ok(())
}

/// Appends bytes as a row of the class shows them.
fn push_text(class: CharClass, bytes: &[u8], out: &mut Vec<u8>) -> Result<(), AllocError>
    ensures { OnOk result (out.new.items ≡ out.old.items ++ clear_text class bytes.now) }
{
    match class {
        CharClass::B => push_hex(bytes, out),
        CharClass::N
        | CharClass::A
        | CharClass::AN
        | CharClass::ANS
        | CharClass::Z
        | CharClass::ZD
        | CharClass::XN => out.extend_from_slice(bytes),
    }
}

/// Appends so many stars.
fn push_stars(count: usize, out: &mut Vec<u8>) -> Result<(), AllocError>
    ensures { OnOk result (out.new.items ≡ out.old.items ++ replicate count 42) }
{
    let mut left = count;
    while left > 0 {
        out.push(b'*')?;
        left -= 1;
    }
    Ok(())
}

/// Appends what a bystander may read of a value.
fn push_value(class: CharClass, n: u8, value: &[u8], out: &mut Vec<u8>) -> Result<(), AllocError>
    ensures { OnOk result (out.new.items ≡ out.old.items ++ value_text class n value.now) }
{
    let shown = masked(n, value);
    push_text(class, shown.front, out)?;
    push_stars(shown.hidden, out)?;
    push_text(class, shown.end, out)
}

/// The class of an element's row; `B` where it has none.
fn class_of(table: &Table, n: u8) -> CharClass
    ensures { result ≡ class_by (row_at table.now.rows n) }
{
    match table.row(n) {
        Some(row) => row.class,
        None => CharClass::B,
    }
}

/// Appends the whole value, or what a bystander may read of it.
fn push_shown(
    is_clear: bool,
    class: CharClass,
    n: u8,
    value: &[u8],
    out: &mut Vec<u8>,
) -> Result<(), AllocError>
    ensures { OnOk result (out.new.items ≡ out.old.items ++ shown_text is_clear class n value.now) }
{
    if is_clear {
        return push_text(class, value, out);
    }
    push_value(class, n, value, out)
}

/// Appends the line of an element.
fn push_element(
    table: &Table,
    is_clear: bool,
    n: u8,
    value: &[u8],
    out: &mut Vec<u8>,
) -> Result<(), AllocError>
    ensures { OnOk result
        (out.new.items ≡ out.old.items ++ element_line is_clear table.now.rows n value.now) }
{
    let mut number = [0; 3];
    write_decimal(&mut number, u64::from(n));
    out.extend_from_slice(b"DE")?;
    out.extend_from_slice(&number)?;
    out.extend_from_slice(b"=")?;
    push_shown(is_clear, class_of(table, n), n, value, out)?;
    out.extend_from_slice(b"\n")
}

/// Appends the lines of the elements.
fn push_elements(
    table: &Table,
    is_clear: bool,
    message: &Message,
    out: &mut Vec<u8>,
) -> Result<(), AllocError>
    ensures { OnOk result (out.new.items
        ≡ out.old.items ++ element_lines is_clear table.now.rows message.now.elements) }
{
    for (n, value) in message.iter() {
        push_element(table, is_clear, n, value, out)?;
    }
    Ok(())
}

/// The line of the type, and those of the elements.
fn lines_of(
    alloc: Global,
    table: &Table,
    is_clear: bool,
    message: &Message,
) -> Result<Vec<u8>, AllocError>
    ensures { IfOk result (λ lines. lines.items ≡ description is_clear table.now message.now) }
{
    let mut out = Vec::new(alloc);
    push_type(message.mti(), &mut out)?;
    push_elements(table, is_clear, message, &mut out)?;
    Ok(out)
}

/// A message as lines for human eyes: its type with the words for its digits, and each element. A value of class `B` is
/// shown as hexadecimal digits, as is that of an element without a row. What a bystander shouldn't read (`masked`) is
/// hidden by stars.
pub fn describe(alloc: Global, table: &Table, message: &Message) -> Result<Vec<u8>, AllocError>
    ensures { IfOk result (λ lines. lines.items ≡ description false table.now message.now) }
{
    lines_of(alloc, table, false, message)
}

/// The same lines with every value in full.
pub fn describe_clear(
    alloc: Global,
    table: &Table,
    message: &Message,
) -> Result<Vec<u8>, AllocError>
    // Memory aside, the lines are those of `describe`, with the whole of each value in place of
    // what `masked` shows.
    ensures { IfOk result (λ lines. lines.items ≡ description true table.now message.now) }
{
    lines_of(alloc, table, true, message)
}

/// Appends a number in decimal.
fn push_number(v: usize, out: &mut Vec<u8>) -> Result<(), AllocError>
    ensures ok { OnOk result
        ((text : List ℕ) × IsDecimal v text × (out.new.items ≡ out.old.items ++ text)) }
    ensures unchanged { OnErr result (out.new.items ≡ out.old.items) }
{
    let mut room = [0; 20];
    let text = &mut room[..digits_of(v as u64) as usize];
    write_decimal(text, v as u64);
    out.extend_from_slice(text)
}

/// Appends the line that tells how many bytes a message took, and of how many.
fn push_used(used: usize, total: usize, out: &mut Vec<u8>) -> Result<(), AllocError>
    ensures ok { OnOk result
        ((line : List ℕ) × IsUsedLine used total line × (out.new.items ≡ out.old.items ++ line)) }
    ensures kept { OnErr result (Keeps out.old.items out.new.items) }
{
    out.extend_from_slice(b"USED=")?;
    push_number(used, out)?;
    out.extend_from_slice(b"/")?;
    push_number(total, out)?;
    out.extend_from_slice(b"\n")?;
    Ok(())
}

/// Appends the line that tells how many bytes a message took, and of how many: `USED=116/120`. Without memory nothing is
/// changed.
pub fn append_used(used: usize, total: usize, out: &mut Vec<u8>) -> Result<(), AllocError>
    // Memory aside, what is appended is one line: `USED=` and both counts, in decimal without
    // leading zeros.
    ensures ok { OnOk result
        ((line : List ℕ) × IsUsedLine used total line × (out.new.items ≡ out.old.items ++ line)) }
    // Without memory the buffer holds what it held before.
    ensures unchanged { OnErr result (out.new.items ≡ out.old.items) }
{
    let start = out.len();
    match push_used(used, total, out) {
        Ok(()) => Ok(()),
        Err(refused) => {
            out.truncate(start);
            Err(refused)
        }
    }
}
