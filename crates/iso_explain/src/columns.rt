//! The columns of a line: offset, bytes, element, value and meaning.

use crate::seen::Seen;
use crate::style::{Ink, Style};
use crate::writing::{pad, push_each, push_hex, push_number, push_shown};
use iso_parts::CharClass;
use iso_wire::Shown;
use std::alloc::AllocError;

/// The most bytes that a line shows.
const MOST: usize = 16;

/// How many bytes of a body are left out at least where not all are shown: as many as its sum takes room.
const LEFT_OUT: usize = 4;

/// The width of the column of bytes.
const BYTES_WIDTH: usize = 37;

/// The width of an element's number and the blank behind it.
const NUMBER_WIDTH: usize = 4;

/// The width of the column of names.
const NAME_WIDTH: usize = 41;

/// How many blanks stand before the columns of a line without an offset.
pub(crate) const INDENT: usize = 6;

/// How many blanks stand before the names of the parts of a value.
const PART_INDENT: usize = 49;

/// Appends what switches a colour on.
fn ink(style: Style, ink: Ink, out: &mut Vec<u8>) -> Result<(), AllocError> {
    if style.is_coloured {
        out.extend_from_slice(ink.code())?;
    }
    Ok(())
}

/// Appends what switches a colour off.
fn dry(style: Style, out: &mut Vec<u8>) -> Result<(), AllocError> {
    if style.is_coloured {
        out.extend_from_slice(b"\x1b[0m")?;
    }
    Ok(())
}

/// Appends a text in a colour.
pub(crate) fn push_inked(
    style: Style,
    colour: Ink,
    text: &[u8],
    out: &mut Vec<u8>,
) -> Result<(), AllocError> {
    ink(style, colour, out)?;
    out.extend_from_slice(text)?;
    dry(style, out)
}

/// Appends the offset of a line, with four digits or more.
pub(crate) fn push_offset(at: usize, out: &mut Vec<u8>) -> Result<(), AllocError> {
    let zeros = match at {
        0..=9 => 3,
        10..=99 => 2,
        100..=999 => 1,
        _ => 0,
    };
    push_each(b'0', zeros, out)?;
    push_number(at, out)?;
    out.extend_from_slice(b"  ")
}

/// Appends the first bytes of a body, so many of them, as hexadecimal digits, or as stars where they are hidden.
fn push_front(shown: usize, seen: &Seen, out: &mut Vec<u8>) -> Result<(), AllocError> {
    match seen.body {
        Some(body) => {
            let (front, _) = body.split_at(shown.min(body.len()));
            push_hex(front, out)
        }
        None => {
            for _i in 0..shown {
                out.extend_from_slice(b"**")?;
            }
            Ok(())
        }
    }
}

/// Appends the bytes of a body behind so many others on the line, or the first of them and how many more there are.
fn push_body(before: usize, seen: &Seen, out: &mut Vec<u8>) -> Result<(), AllocError> {
    let room = MOST.saturating_sub(before);
    if seen.size <= room {
        return push_front(seen.size, seen, out);
    }
    let shown = room.saturating_sub(LEFT_OUT);
    push_front(shown, seen, out)?;
    out.extend_from_slice(b" .. ")?;
    push_number(seen.size.saturating_sub(shown), out)?;
    out.extend_from_slice(b" more")
}

/// Appends the column of bytes: those of a length, and those of a body.
pub(crate) fn push_bytes(
    style: Style,
    length: &[u8],
    seen: &Seen,
    out: &mut Vec<u8>,
) -> Result<(), AllocError> {
    ink(style, Ink::Faint, out)?;
    let start = out.len();
    push_hex(length, out)?;
    if !length.is_empty() {
        out.push(b' ')?;
    }
    push_body(length.len(), seen, out)?;
    pad(BYTES_WIDTH, start, out)?;
    dry(style, out)?;
    out.extend_from_slice(b"  ")
}

/// Appends an element's number, but for 0, and what it is.
pub(crate) fn push_last_name(n: u8, name: &[u8], out: &mut Vec<u8>) -> Result<(), AllocError> {
    let blanks = match n {
        1..=9 => 2,
        10..=99 => 1,
        100..=255 => 0,
        _ => 3,
    };
    push_each(b' ', blanks, out)?;
    if n > 0 {
        push_number(usize::from(n), out)?;
    }
    out.push(b' ')?;
    out.extend_from_slice(name)
}

/// Appends the column of names, filled up before a value.
pub(crate) fn push_name(n: u8, name: &[u8], out: &mut Vec<u8>) -> Result<(), AllocError> {
    let start = out.len();
    push_last_name(n, name, out)?;
    pad(NUMBER_WIDTH + NAME_WIDTH, start, out)?;
    out.extend_from_slice(b"  ")
}

/// Appends the name of a part of a value, behind its tag, in its column.
pub(crate) fn push_part_name(
    depth: usize,
    tag: &[u8],
    name: &[u8],
    out: &mut Vec<u8>,
) -> Result<(), AllocError> {
    push_each(b' ', PART_INDENT, out)?;
    let start = out.len();
    for _i in 0..depth {
        out.extend_from_slice(b"  ")?;
    }
    push_hex(tag, out)?;
    if !tag.is_empty() {
        out.push(b' ')?;
    }
    out.extend_from_slice(name)?;
    pad(NAME_WIDTH, start, out)?;
    out.extend_from_slice(b"  ")
}

/// Appends what is shown of a value, in the colour of values.
pub(crate) fn push_inked_shown(
    style: Style,
    class: CharClass,
    shown: Shown,
    out: &mut Vec<u8>,
) -> Result<(), AllocError> {
    ink(style, Ink::Bold, out)?;
    push_shown(class, shown, out)?;
    dry(style, out)
}

/// Ends a line with what its value means, if that is known.
pub(crate) fn push_meaning(
    style: Style,
    meaning: &[u8],
    out: &mut Vec<u8>,
) -> Result<(), AllocError> {
    if !meaning.is_empty() {
        out.extend_from_slice(b"  ")?;
        push_inked(style, Ink::Green, meaning, out)?;
    }
    out.extend_from_slice(b"\n")
}
