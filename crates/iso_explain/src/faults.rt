//! Where the bytes stop being a message: the bad piece, its first bad byte, and what was wanted there.

use crate::sentences::{bitmap_words, class_words, coding_words, length_words, type_words};
use crate::writing::push_number;
use iso_parts::{FieldSpec, Length};
use iso_table::Table;
use iso_wire::{Piece, PieceKind};
use std::alloc::AllocError;

/// Appends what a body wants: its class, its coding, and how many characters.
fn push_body_wanted(row: &FieldSpec, out: &mut Vec<u8>) -> Result<(), AllocError> {
    out.extend_from_slice(class_words(row.class).as_bytes())?;
    out.extend_from_slice(b" ")?;
    out.extend_from_slice(coding_words(row.coding).as_bytes())?;
    let many: &[u8] = match row.length {
        Length::Fixed => b", exactly ",
        Length::LL(_) | Length::LLL(_) | Length::LLLL(_) => b", at most ",
    };
    out.extend_from_slice(many)?;
    push_number(usize::from(row.max), out)
}

/// Appends what a length wants: its digits, and the greatest one.
fn push_length_wanted(row: &FieldSpec, out: &mut Vec<u8>) -> Result<(), AllocError> {
    out.extend_from_slice(length_words(row).as_bytes())?;
    out.extend_from_slice(b", at most ")?;
    push_number(usize::from(row.max), out)
}

/// Appends what the table wants where a piece stands.
pub(crate) fn push_wanted(
    table: &Table,
    piece: Piece,
    out: &mut Vec<u8>,
) -> Result<(), AllocError> {
    match (piece.kind, table.row(piece.element)) {
        (PieceKind::Type, _) => {
            out.extend_from_slice(type_words(table.mti()).as_bytes())?;
            push_number(usize::from(table.version()), out)
        }
        (PieceKind::Primary | PieceKind::Secondary, _) => {
            out.extend_from_slice(bitmap_words(table.bitmap()).as_bytes())
        }
        (PieceKind::Length, Some(row)) => push_length_wanted(row, out),
        (PieceKind::Body, Some(row)) => push_body_wanted(row, out),
        (PieceKind::Length | PieceKind::Body, None) => Ok(()),
    }
}
