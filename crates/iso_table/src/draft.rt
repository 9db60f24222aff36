//! A table as it is handed in, before it is checked.

ghost use Rattle.std.specs.Prelude.{◌≡◌, IfOk};

use crate::fault::NoMemory;
use crate::iteration::Rows;
use iso_parts::{BitmapCoding, Digits, FieldSpec};
use std::alloc::Global;

/// The row of one element.
#[derive(Clone, Copy, Debug, PartialEq, Eq)]
pub struct Row {
    /// The element's number, 2 to 64 or 66 to 128 in a table that is accepted.
    pub number: u16,
    /// How the element is laid out.
    pub spec: FieldSpec,
}

/// A table as it is handed in: nothing of it is checked yet.
#[derive(Debug, Drop)]
pub struct Draft {
    /// The first digit of the message types that the table is for: 0, 1, 2 or 9 in a table that is
    /// accepted.
    pub version: u8,
    /// How the four digits of a message type are written.
    pub mti: Digits,
    /// How both bitmaps are written.
    pub bitmap: BitmapCoding,
    /// The rows, in any order.
    pub rows: Vec<Row>,
}

/// The rows of a table as a draft has them. Room for `count` of them is reserved first.
pub(crate) fn copies_of(alloc: Global, count: usize, rows: Rows<'_>) -> Result<Vec<Row>, NoMemory>
    ensures { IfOk result (λ copies. copies.items ≡ rows.entry) }
{
    let mut copies = Vec::with_capacity(alloc, count)?;
    for (number, spec) in rows {
        copies.push(Row {
            number: u16::from(number),
            spec: *spec,
        })?;
    }
    Ok(copies)
}
