//! How two tables differ.

ghost use Rattle.std.specs.Prelude.{◌≡◌, ◌↔◌, IfOk, OnErr, false};
ghost use Rattle.iso_parts.specs.Buffers.{Keeps};

use crate::kinds::{LengthKind, length_digits};
use crate::words::{bitmap_name, class_name, coding_name, digits_name, kind_name};
use iso_names::Names;
use iso_parts::raw::PLACES;
use iso_parts::{FieldSpec, Length, Pad};
use iso_table::{NoMemory, Table};
use std::alloc::AllocError;
use std::fmt;
use std::fmt::{Display, Write};

/// A padding as a document writes it.
#[derive(Clone, Copy)]
pub(crate) struct PadText(pub Pad);

impl fmt::Display for PadText {
    fn fmt<W: fmt::Write>(&self, f: &mut fmt::Formatter<W>) -> fmt::Result {
        match self.0 {
            Pad::None => f.write_str("none"),
            Pad::Left(byte) => write!(f, "left:{byte:02X}"),
            Pad::Right(byte) => write!(f, "right:{byte:02X}"),
        }
    }
}

/// How the digits of a length are written, in a document's word.
fn prefix_name(length: Length) -> &'static str {
    match length_digits(length) {
        Some(digits) => digits_name(digits),
        None => "none",
    }
}

/// A line for a member that differs.
fn push_change<D: Display + Copy + Drop>(
    member: &str,
    old: D,
    new: D,
    name: &str,
    lines: &mut String,
) -> Result<(), AllocError> {
    if name.is_empty() {
        writeln!(lines, "{member}: {old} -> {new}")
    } else {
        writeln!(lines, "{member}: {old} -> {new}  {name}")
    }
}

/// Appends the members beside the rows that differ.
fn push_head(a: &Table, b: &Table, lines: &mut String) -> Result<(), AllocError> {
    if a.version() != b.version() {
        push_change("version", a.version(), b.version(), "", lines)?;
    }
    if a.mti() != b.mti() {
        push_change("mti", digits_name(a.mti()), digits_name(b.mti()), "", lines)?;
    }
    if a.bitmap() != b.bitmap() {
        push_change(
            "bitmap",
            bitmap_name(a.bitmap()),
            bitmap_name(b.bitmap()),
            "",
            lines,
        )?;
    }
    Ok(())
}

/// Appends a row that only one of the tables has.
fn push_only(
    number: u8,
    which: &str,
    spec: &FieldSpec,
    name: &str,
    lines: &mut String,
) -> Result<(), AllocError> {
    let (class, coding) = (class_name(spec.class), coding_name(spec.coding));
    let (length, prefix) = (
        kind_name(LengthKind::of(spec.length)),
        prefix_name(spec.length),
    );
    let (max, pad) = (spec.max, PadText(spec.pad));
    write!(
        lines,
        "{number} only in the {which}: class={class} coding={coding} length={length} prefix={prefix} max={max} pad={pad}"
    )?;
    if !name.is_empty() {
        write!(lines, "  {name}")?;
    }
    lines.push_str("\n")
}

/// A line for a member of a row whose words differ.
fn push_words<D: Display + Copy + Drop>(
    number: u8,
    member: &str,
    is_other: bool,
    old: D,
    new: D,
    name: &str,
    lines: &mut String,
) -> Result<(), AllocError> {
    if !is_other {
        return Ok(());
    }
    write!(lines, "{number} ")?;
    push_change(member, old, new, name, lines)
}

/// Appends how the characters of a value differ, and how they are written.
fn push_characters(
    number: u8,
    old: &FieldSpec,
    new: &FieldSpec,
    name: &str,
    lines: &mut String,
) -> Result<(), AllocError> {
    let (was, is) = (class_name(old.class), class_name(new.class));
    let is_other = old.class != new.class;
    push_words(number, "class", is_other, was, is, name, lines)?;
    let (was, is) = (coding_name(old.coding), coding_name(new.coding));
    let is_other = old.coding != new.coding;
    push_words(number, "coding", is_other, was, is, name, lines)
}

/// Appends how the length before a value differs, its digits, and the most characters.
fn push_length(
    number: u8,
    old: &FieldSpec,
    new: &FieldSpec,
    name: &str,
    lines: &mut String,
) -> Result<(), AllocError> {
    let (kind, other) = (LengthKind::of(old.length), LengthKind::of(new.length));
    let (was, is) = (kind_name(kind), kind_name(other));
    push_words(number, "length", kind != other, was, is, name, lines)?;
    let (digits, others) = (length_digits(old.length), length_digits(new.length));
    let (was, is) = (prefix_name(old.length), prefix_name(new.length));
    push_words(number, "prefix", digits != others, was, is, name, lines)?;
    let (was, is) = (old.max, new.max);
    push_words(number, "max", was != is, was, is, name, lines)
}

/// Appends the members of a row that differ.
fn push_members(
    number: u8,
    old: &FieldSpec,
    new: &FieldSpec,
    name: &str,
    lines: &mut String,
) -> Result<(), AllocError> {
    push_characters(number, old, new, name, lines)?;
    push_length(number, old, new, name, lines)?;
    let (was, is) = (PadText(old.pad), PadText(new.pad));
    push_words(number, "pad", old.pad != new.pad, was, is, name, lines)
}

/// Appends how the rows of an element differ.
fn push_row(
    number: u8,
    old: Option<FieldSpec>,
    new: Option<FieldSpec>,
    name: &str,
    lines: &mut String,
) -> Result<(), AllocError> {
    match (old, new) {
        (Some(old), Some(new)) => push_members(number, &old, &new, name, lines),
        (Some(old), None) => push_only(number, "first", &old, name, lines),
        (None, Some(new)) => push_only(number, "second", &new, name, lines),
        (None, None) => Ok(()),
    }
}

/// Appends the rows that differ.
fn push_rows(a: &Table, b: &Table, names: &Names, lines: &mut String) -> Result<(), AllocError> {
    for number in 0..PLACES as u8 {
        let (old, new) = (a.row(number).copied(), b.row(number).copied());
        if old != new {
            push_row(number, old, new, names.of(number).unwrap_or(""), lines)?;
        }
    }
    Ok(())
}

/// Appends how two tables differ, a line each: the members beside the rows, and then by ascending element the rows that only
/// one has and the members of rows that both have, as `48 max: 999 -> 9999`, each with the element's name behind. Says
/// whether they differ; where they don't, nothing is appended. Without memory nothing is changed.
pub fn append_differences(
    a: &Table,
    b: &Table,
    names: &Names,
    out: &mut Vec<u8>,
) -> Result<bool, NoMemory>
    // Memory aside, it answers false exactly where the tables are equal.
    ensures differ { IfOk result (λ differ. (differ ≡ false) ↔ (a.now ≡ b.now)) }
    // Where it answers false, nothing is appended.
    ensures silent { IfOk result (λ differ. differ ≡ false → out.new.items ≡ out.old.items) }
    // However it ends, what was there stays in front.
    ensures kept { Keeps out.old.items out.new.items }
    // Where memory runs out, the buffer holds the bytes that it held before.
    ensures unchanged { OnErr result (out.new.items ≡ out.old.items) }
{
    if *a == *b {
        return Ok(false);
    }
    let mut lines = String::new(*out.allocator());
    push_head(a, b, &mut lines)?;
    push_rows(a, b, names, &mut lines)?;
    out.extend_from_slice(lines.as_bytes())?;
    Ok(true)
}
