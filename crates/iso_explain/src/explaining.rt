//! The explanation of a message.

ghost use Rattle.std.specs.Prelude.{◌≡◌, IfOk, OnOk, OnErr};
ghost use Rattle.iso_parts.specs.Buffers.{Keeps};
ghost use Rattle.iso_explain.specs.Outcomes.{IsOutcome};

use crate::bad::push_bad;
use crate::lines::{push_bitmap, push_element, push_type};
use crate::outcome::{Outcome, outcome_of};
use crate::page::{Page, Place};
use crate::style::Style;
use iso_names::Names;
use iso_table::{NoMemory, Table};
use iso_wire::{Piece, PieceKind, pieces_of};
use std::alloc::{AllocError, Global};

/// What is written anew for each piece, and kept for the next one.
#[derive(Drop)]
pub(crate) struct Scratch {
    /// The value of an element.
    pub(crate) value: Vec<u8>,
    /// What it means.
    pub(crate) words: Vec<u8>,
}

/// Where the element of a piece lies, whose length begins at an offset.
pub(crate) fn place_of(piece: Piece, length_start: usize) -> Place {
    Place {
        n: piece.element,
        start: length_start,
        body: piece.start,
        end: piece.end,
    }
}

/// Appends the lines of a piece; those of a length stand in the line of its element.
fn push_piece(
    page: Page,
    piece: Piece,
    length_start: usize,
    scratch: &mut Scratch,
    out: &mut Vec<u8>,
) -> Result<(), AllocError> {
    let place = place_of(piece, length_start);
    if let Some(cause) = piece.fault {
        return push_bad(page, place, piece, cause, &mut scratch.words, out);
    }
    match piece.kind {
        PieceKind::Type => push_type(page, piece, &mut scratch.words, out),
        PieceKind::Primary | PieceKind::Secondary => push_bitmap(page, piece, out),
        PieceKind::Length => Ok(()),
        PieceKind::Body => {
            page.read_value(place, &mut scratch.value)?;
            push_element(page, place, &scratch.value, &mut scratch.words, out)
        }
    }
}

/// Appends the lines of the pieces.
fn push_lines(page: Page, out: &mut Vec<u8>) -> Result<(), AllocError> {
    let mut scratch = Scratch {
        value: Vec::new(page.alloc),
        words: Vec::new(page.alloc),
    };
    let mut length_start = 0;
    for piece in pieces_of(page.table, page.bytes) {
        if piece.kind == PieceKind::Length {
            length_start = piece.start;
        }
        push_piece(page, piece, length_start, &mut scratch, out)?;
    }
    Ok(())
}

/// Appends the explanation of the message that the bytes begin with, and tells what became of them: how many the message
/// takes, or why and where they stop being one.
///
/// A line tells a piece: its offset, its bytes (at most 16, and how many more), the element and its name, its value, and what
/// that means where the code is known; lines beneath tell the parts of a value. Where the bytes stop, further lines point
/// at the first bad byte, and tell the fault, what the table wants there, what usually causes it, and likely mistakes.
/// Unless the style is clear, card data (elements 2, 34, 35, 36, 45, 52 and 55) are stars, as `masked` says; which bytes
/// they are is what the table says of the bytes as they stand.
///
/// Without memory nothing is appended.
pub fn append_explanation(
    alloc: Global,
    table: &Table,
    names: &Names,
    bytes: &[u8],
    style: Style,
    out: &mut Vec<u8>,
) -> Result<Outcome, NoMemory>
    // The outcome is what `unpack` answers.
    ensures outcome { IfOk result (IsOutcome table.now bytes.now) }
    // What was there stays in front.
    ensures appended { OnOk result (Keeps out.old.items out.new.items) }
    // Where memory runs out, the buffer holds the bytes that it held before.
    ensures unchanged { OnErr result (out.new.items ≡ out.old.items) }
{
    let page = Page {
        alloc,
        table,
        names,
        bytes,
        style,
    };
    let mut text = Vec::new(alloc);
    push_lines(page, &mut text)?;
    out.extend_from_slice(&text)?;
    Ok(outcome_of(table, bytes))
}
