//! A message as a line of JSON.

ghost use Rattle.std.specs.Prelude.{◌≡◌, ◌++◌, replicate, OnOk, OnErr, decimal};
ghost use Rattle.std.specs.List.{flat_map, list_all};
ghost use Rattle.hex.specs.Hex.{encode_upper};
ghost use Rattle.iso_table.specs.Layout.{row_at};
ghost use Rattle.iso_parts.specs.Digits.{four_digits_of};
ghost use Rattle.iso_parts.specs.declared.digits.Digits.TheVariants.{Ascii};
ghost use Rattle.iso_parts.specs.Mti.{mti_number};
ghost use Rattle.iso_parts.specs.Buffers.{Keeps};
ghost use Rattle.iso_wire.specs.Describing.{clear_text, value_text, shown_text, class_by};
ghost use Rattle.iso_json.specs.Written.{is_plain, escaped, json_member, further_members, json_members, json_of};

use iso_parts::raw::{four_ascii_digits, hex_digit};
use iso_parts::{CharClass, Mti};
use iso_table::{NoMemory, Table};
use iso_wire::{Iter, Message, masked};
use itoa::Buffer;
use std::alloc::AllocError;

/// Whether the byte stands for itself between quotes.
fn is_plain(b: u8) -> bool
    ensures { result ≡ is_plain b }
{
    matches!(b, b' ' | b'!' | b'#'..=b'[' | b']'..=b'~')
}

/// Whether each byte stands for itself between quotes.
fn are_plain(bytes: &[u8]) -> bool
    ensures { result ≡ list_all is_plain bytes.now }
{
    bytes.iter().all(|b| is_plain(*b))
}

/// Appends what stands for a byte between quotes.
#[tactic(auto, unfolding(hex::specs::Hex::encode_with, crate::specs::Written::escaped))]
fn push_escaped(b: u8, out: &mut Vec<u8>) -> Result<(), AllocError>
    ensures text { OnOk result (out.new.items ≡ out.old.items ++ escaped b) }
    ensures kept { OnErr result (Keeps out.old.items out.new.items) }
{
    match b {
        b'"' | b'\\' => out.extend_from_slice(&[b'\\', b]),
        b' '..=b'~' => out.extend_from_slice(&[b]),
        _ => out.extend_from_slice(&[
            b'\\',
            b'u',
            b'0',
            b'0',
            hex_digit(b / 16),
            hex_digit(b % 16),
        ]),
    }
}

/// Appends what stands for each byte between quotes.
fn push_each_escaped(bytes: &[u8], out: &mut Vec<u8>) -> Result<(), AllocError>
    ensures text { OnOk result (out.new.items ≡ out.old.items ++ flat_map escaped bytes.now) }
    ensures kept { OnErr result (Keeps out.old.items out.new.items) }
{
    for b in bytes {
        push_escaped(*b, out)?;
    }
    Ok(())
}

/// The same, at once where each byte stands for itself.
#[tactic(auto, using(crate::proofs::Escapes::escaped_all))]
fn push_characters(bytes: &[u8], out: &mut Vec<u8>) -> Result<(), AllocError>
    ensures text { OnOk result (out.new.items ≡ out.old.items ++ flat_map escaped bytes.now) }
    ensures kept { OnErr result (Keeps out.old.items out.new.items) }
{
    if are_plain(bytes) {
        out.extend_from_slice(bytes)
    } else {
        push_each_escaped(bytes, out)
    }
}

/// Appends two hexadecimal digits for each byte.
#[tactic(auto, unfolding(hex::specs::Hex::encode_with))]
fn push_hex(bytes: &[u8], out: &mut Vec<u8>) -> Result<(), AllocError>
    ensures text { OnOk result (out.new.items ≡ out.old.items ++ encode_upper bytes.now) }
    ensures kept { OnErr result (Keeps out.old.items out.new.items) }
{
    for b in bytes {
        out.extend_from_slice(&[hex_digit(*b / 16), hex_digit(*b % 16)])?;
    }
    Ok(())
}

/// Appends bytes as a row of the class shows them.
fn push_text(class: CharClass, bytes: &[u8], out: &mut Vec<u8>) -> Result<(), AllocError>
    ensures text { OnOk result
        (out.new.items ≡ out.old.items ++ flat_map escaped (clear_text class bytes.now)) }
    ensures kept { OnErr result (Keeps out.old.items out.new.items) }
{
    match class {
        CharClass::B => push_hex(bytes, out),
        CharClass::N
        | CharClass::A
        | CharClass::AN
        | CharClass::ANS
        | CharClass::Z
        | CharClass::ZD
        | CharClass::XN => push_characters(bytes, out),
    }
}

/// Appends so many stars.
fn push_stars(count: usize, out: &mut Vec<u8>) -> Result<(), AllocError>
    ensures text { OnOk result (out.new.items ≡ out.old.items ++ replicate count 42) }
    ensures kept { OnErr result (Keeps out.old.items out.new.items) }
{
    let mut left = count;
    while left > 0 {
        out.push(b'*')?;
        left -= 1;
    }
    Ok(())
}

/// Appends what a bystander may read of a value.
fn push_masked(class: CharClass, n: u8, value: &[u8], out: &mut Vec<u8>) -> Result<(), AllocError>
    ensures text { OnOk result
        (out.new.items ≡ out.old.items ++ flat_map escaped (value_text class n value.now)) }
    ensures kept { OnErr result (Keeps out.old.items out.new.items) }
{
    let shown = masked(n, value);
    push_text(class, shown.front, out)?;
    push_stars(shown.hidden, out)?;
    push_text(class, shown.end, out)?;
    Ok(())
}

/// The class of an element's row; `B` where it has none.
fn class_of(table: &Table, n: u8) -> CharClass
    ensures { result ≡ class_by (row_at table.now.rows n) }
{
    match table.row(n) {
        Some(row) => row.class,
        None => CharClass::B,
    }
}

/// Appends the whole value, or what a bystander may read of it.
fn push_shown(
    is_clear: bool,
    class: CharClass,
    n: u8,
    value: &[u8],
    out: &mut Vec<u8>,
) -> Result<(), AllocError>
    ensures text { OnOk result (out.new.items
        ≡ out.old.items ++ flat_map escaped (shown_text is_clear class n value.now)) }
    ensures kept { OnErr result (Keeps out.old.items out.new.items) }
{
    if is_clear {
        return push_text(class, value, out);
    }
    push_masked(class, n, value, out)
}

/// Appends a number in decimal.
fn push_number(n: u8, out: &mut Vec<u8>) -> Result<(), AllocError>
    ensures text { OnOk result (out.new.items ≡ out.old.items ++ decimal n) }
    ensures kept { OnErr result (Keeps out.old.items out.new.items) }
{
    let mut buffer = Buffer::new();
    out.extend_from_slice(buffer.format(n).as_bytes())
}

/// Appends the member of an element.
fn push_member(
    table: &Table,
    is_clear: bool,
    n: u8,
    value: &[u8],
    out: &mut Vec<u8>,
) -> Result<(), AllocError>
    ensures text { OnOk result
        (out.new.items ≡ out.old.items ++ json_member is_clear table.now.rows (n, value.now)) }
    ensures kept { OnErr result (Keeps out.old.items out.new.items) }
{
    out.extend_from_slice(b"\"")?;
    push_number(n, out)?;
    out.extend_from_slice(b"\":\"")?;
    push_shown(is_clear, class_of(table, n), n, value, out)?;
    out.extend_from_slice(b"\"")
}

/// Appends the members of the elements that are still to come, each behind a comma.
fn push_further(
    table: &Table,
    is_clear: bool,
    elements: Iter<'_>,
    out: &mut Vec<u8>,
) -> Result<(), AllocError>
    ensures text { OnOk result
        (out.new.items ≡ out.old.items ++ further_members is_clear table.now.rows elements.entry) }
    ensures kept { OnErr result (Keeps out.old.items out.new.items) }
{
    for (n, value) in elements {
        out.extend_from_slice(b",")?;
        push_member(table, is_clear, n, value, out)?;
    }
    Ok(())
}

/// Appends the members of the elements, with commas between them.
fn push_members(
    table: &Table,
    is_clear: bool,
    message: &Message,
    out: &mut Vec<u8>,
) -> Result<(), AllocError>
    ensures text { OnOk result (out.new.items
        ≡ out.old.items ++ json_members is_clear table.now.rows message.now.elements) }
    ensures kept { OnErr result (Keeps out.old.items out.new.items) }
{
    let mut elements = message.iter();
    match elements.next() {
        Some((n, value)) => {
            push_member(table, is_clear, n, value, out)?;
            push_further(table, is_clear, elements, out)
        }
        None => Ok(()),
    }
}

/// Appends the four digits of a message type.
fn push_digits(mti: Mti, out: &mut Vec<u8>) -> Result<(), AllocError>
    ensures text { OnOk result
        (out.new.items ≡ out.old.items ++ four_digits_of Ascii (mti_number mti)) }
    ensures kept { OnErr result (Keeps out.old.items out.new.items) }
{
    let number = usize::from(mti.number());
    out.extend_from_slice(&four_ascii_digits(number))
}

/// Appends the object of a message. After a refusal a part of it may be there.
fn push_message(
    table: &Table,
    is_clear: bool,
    message: &Message,
    out: &mut Vec<u8>,
) -> Result<(), AllocError>
    ensures text { OnOk result
        (out.new.items ≡ out.old.items ++ json_of is_clear table.now message.now) }
    ensures kept { OnErr result (Keeps out.old.items out.new.items) }
{
    out.extend_from_slice(b"{\"mti\":\"")?;
    push_digits(message.mti(), out)?;
    out.extend_from_slice(b"\",\"elements\":{")?;
    push_members(table, is_clear, message, out)?;
    out.extend_from_slice(b"}}")?;
    Ok(())
}

/// Appends a message as one line of JSON, without a line end: its type, and each element's value at its number, in
/// ascending order. What stands for a value is what `describe` of `iso_wire` shows of it, or `describe_clear` if it is to be
/// clear: a value of class `B` in upper-case hexadecimal digits, as is that of an element without a row, and any other as
/// its characters; what a bystander shouldn't read is hidden by stars unless it is to be clear. Where memory runs out,
/// nothing is changed.
pub fn append_json(
    table: &Table,
    message: &Message,
    clear: bool,
    out: &mut Vec<u8>,
) -> Result<(), NoMemory>
    // Memory aside, it appends the line of the message, character for character: its type, and each
    // element with what a description shows of it, in clear or masked.
    ensures appended { OnOk result
        (out.new.items ≡ out.old.items ++ json_of clear table.now message.now) }
    // Where memory runs out, the buffer holds the bytes that it held before.
    ensures unchanged { OnErr result (out.new.items ≡ out.old.items) }
{
    let start = out.len();
    match push_message(table, clear, message, out) {
        Ok(()) => Ok(()),
        Err(_) => {
            out.truncate(start);
            Err(NoMemory)
        }
    }
}
