//! A table as lines for human eyes.

ghost use Rattle.std.specs.Prelude.{◌≡◌, OnErr};
ghost use Rattle.iso_parts.specs.Buffers.{Keeps};

use crate::differences::PadText;
use crate::kinds::{LengthKind, length_digits};
use crate::words::{bitmap_name, class_name, coding_name, digits_name, kind_name};
use iso_names::Names;
use iso_parts::FieldSpec;
use iso_parts::raw::PLACES;
use iso_table::{NoMemory, Table};
use std::alloc::AllocError;
use std::fmt::Write;

/// What stands in the place of a name that isn't known.
const NO_NAME: &str = "-";

/// The edition of a version.
fn edition(version: u8) -> &'static str {
    match version {
        0 => "1987",
        1 => "1993",
        2 => "2003",
        _ => "private",
    }
}

/// The name of an element, or what stands in its place.
fn name_or_none(names: &Names, number: u8) -> &str {
    names.of(number).unwrap_or(NO_NAME)
}

/// How many characters the longest name of a row has.
fn name_width(table: &Table, names: &Names) -> usize {
    let mut width = "Name".len();
    for number in 0..PLACES as u8 {
        if table.row(number).is_some() {
            width = width.max(name_or_none(names, number).chars().count());
        }
    }
    width
}

/// Appends the heading: what the table says beside its rows, and the heads of the columns.
fn push_heading(table: &Table, width: usize, lines: &mut String) -> Result<(), AllocError> {
    let (version, edition) = (table.version(), edition(table.version()));
    let (mti, bitmap) = (digits_name(table.mti()), bitmap_name(table.bitmap()));
    let (rows, longest) = (table.rows(), table.max_bytes());
    writeln!(
        lines,
        "version {version} ({edition}), type in {mti}, bitmaps in {bitmap}"
    )?;
    writeln!(lines, "{rows} rows, longest message {longest} bytes")?;
    writeln!(
        lines,
        " No  {:<width$}  Class  Coding  Length       Max  Pad",
        "Name"
    )
}

/// Appends the line of a row.
fn push_row(
    number: u8,
    name: &str,
    width: usize,
    spec: &FieldSpec,
    lines: &mut String,
) -> Result<(), AllocError> {
    let (class, coding) = (class_name(spec.class), coding_name(spec.coding));
    let kind = kind_name(LengthKind::of(spec.length));
    let prefix = match length_digits(spec.length) {
        Some(digits) => digits_name(digits),
        None => "",
    };
    let (max, pad) = (spec.max, PadText(spec.pad));
    write!(
        lines,
        "{number:>3}  {name:<width$}  {class:<5}  {coding:<6}  "
    )?;
    writeln!(lines, "{kind:<5} {prefix:<5}  {max:>4}  {pad}")
}

/// Appends the lines of the rows.
fn push_rows(
    table: &Table,
    names: &Names,
    width: usize,
    lines: &mut String,
) -> Result<(), AllocError> {
    for number in 0..PLACES as u8 {
        if let Some(spec) = table.row(number) {
            push_row(number, name_or_none(names, number), width, spec, lines)?;
        }
    }
    Ok(())
}

/// Appends a table for human eyes: what it says beside its rows, how long a message can be, and then a line for each row, in
/// columns and by ascending element. Without memory nothing is changed.
pub fn append_table(table: &Table, names: &Names, out: &mut Vec<u8>) -> Result<(), NoMemory>
    // However it ends, what was there stays in front.
    ensures kept { Keeps out.old.items out.new.items }
    // Where memory runs out, the buffer holds the bytes that it held before.
    ensures unchanged { OnErr result (out.new.items ≡ out.old.items) }
{
    let mut lines = String::new(*out.allocator());
    let width = name_width(table, names);
    push_heading(table, width, &mut lines)?;
    push_rows(table, names, width, &mut lines)?;
    out.extend_from_slice(lines.as_bytes())?;
    Ok(())
}
