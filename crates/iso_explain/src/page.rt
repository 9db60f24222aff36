//! What an explanation is made from.

use crate::style::Style;
use iso_names::Names;
use iso_parts::raw::{decode_value, four_digits_in, tells_another};
use iso_parts::{Bitmap, CharClass, FieldFault, Mti};
use iso_table::Table;
use std::alloc::{AllocError, Global};

/// The bytes, the table and the names that they are read by, and how the explanation is written.
#[derive(Clone, Copy)]
pub(crate) struct Page<'a> {
    pub(crate) alloc: Global,
    pub(crate) table: &'a Table,
    pub(crate) names: &'a Names,
    pub(crate) bytes: &'a [u8],
    pub(crate) style: Style,
}

/// Where an element lies: its length, and its body.
#[derive(Clone, Copy)]
pub(crate) struct Place {
    pub(crate) n: u8,
    pub(crate) start: usize,
    pub(crate) body: usize,
    pub(crate) end: usize,
}

impl<'a> Page<'a> {
    /// The bytes from an offset up to another.
    pub(crate) fn bytes_at(&self, start: usize, end: usize) -> &'a [u8] {
        self.bytes.get(start..end).unwrap_or(&[])
    }

    /// The name of an element; empty where it has none.
    pub(crate) fn name_of(&self, n: u8) -> &'a [u8] {
        match self.names.of(n) {
            Some(name) => name.as_bytes(),
            None => b"",
        }
    }

    /// The class of an element's row; any bytes where it has none.
    pub(crate) fn class_of(&self, n: u8) -> CharClass {
        match self.table.row(n) {
            Some(row) => row.class,
            None => CharClass::B,
        }
    }

    /// The message type that bytes write.
    pub(crate) fn type_in(&self, bytes: &[u8]) -> Option<Mti> {
        Mti::from_digits(four_digits_in(self.table.mti(), bytes)?)
    }

    /// The elements of a bitmap, and whether its first bit is set.
    pub(crate) fn elements_in(&self, is_primary: bool, map: &[u8]) -> Option<(bool, Bitmap)> {
        if map.len() != self.table.bitmap().size() {
            return None;
        }
        let word = self.table.bitmap().word(map)?;
        if is_primary {
            return Some((tells_another(word), Bitmap::from_words(word, 0)));
        }
        if tells_another(word) {
            return None;
        }
        Some((false, Bitmap::from_words(0, word)))
    }

    /// Reads the value of an element whose pieces are good, in place of the bytes that were there.
    pub(crate) fn read_value(&self, place: Place, value: &mut Vec<u8>) -> Result<(), AllocError> {
        value.clear();
        let Some(row) = self.table.row(place.n) else {
            return Ok(());
        };
        match decode_value(row, self.bytes_at(place.start, place.end), value) {
            Err(FieldFault::Memory) => Err(AllocError),
            Err(_) | Ok(_) => Ok(()),
        }
    }
}
