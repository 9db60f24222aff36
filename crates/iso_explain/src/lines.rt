//! The lines of an explanation.

use crate::columns::{
    push_bytes, push_inked, push_inked_shown, push_meaning, push_name, push_offset, push_part_name,
};
use crate::details::{Detail, Form, push_details};
use crate::meanings::{push_meaning_of, push_type_words};
use crate::page::{Page, Place};
use crate::seen::{Seen, seen_of};
use crate::style::{Ink, Style};
use crate::writing::{push_number, push_shown};
use iso_parts::Bitmap;
use iso_parts::raw::four_ascii_digits;
use iso_wire::{Piece, PieceKind, Shown};
use std::alloc::AllocError;

/// Appends the line of a part of a value.
pub(crate) fn push_line_detail(
    style: Style,
    detail: Detail,
    out: &mut Vec<u8>,
) -> Result<(), AllocError> {
    push_part_name(detail.depth, detail.tag, detail.name, out)?;
    push_shown(detail.class, detail.value, out)?;
    push_meaning(style, detail.meaning, out)
}

/// Appends the columns of a piece that is no element: its bytes and what it is.
fn push_head(page: Page, piece: Piece, name: &[u8], out: &mut Vec<u8>) -> Result<(), AllocError> {
    let bytes = page.bytes_at(piece.start, piece.end);
    push_offset(piece.start, out)?;
    push_bytes(
        page.style,
        &[],
        &seen_of(true, piece.element, bytes, &[]),
        out,
    )?;
    push_name(piece.element, name, out)
}

/// Appends the line of the message type.
pub(crate) fn push_type(
    page: Page,
    piece: Piece,
    words: &mut Vec<u8>,
    out: &mut Vec<u8>,
) -> Result<(), AllocError> {
    push_head(page, piece, b"Message type", out)?;
    words.clear();
    if let Some(mti) = page.type_in(page.bytes_at(piece.start, piece.end)) {
        let digits = four_ascii_digits(usize::from(mti.number()));
        push_inked(page.style, Ink::Bold, &digits, out)?;
        push_type_words(mti, words)?;
    }
    push_meaning(page.style, words, out)
}

/// Appends the numbers of a set, with blanks between them.
fn push_numbers(is_secondary_told: bool, set: Bitmap, out: &mut Vec<u8>) -> Result<(), AllocError> {
    if is_secondary_told {
        out.extend_from_slice(b"1 ")?;
    }
    for n in set {
        push_number(usize::from(n), out)?;
        out.extend_from_slice(b" ")?;
    }
    Ok(())
}

/// Appends the line of a bitmap.
pub(crate) fn push_bitmap(page: Page, piece: Piece, out: &mut Vec<u8>) -> Result<(), AllocError> {
    let is_primary = piece.kind == PieceKind::Primary;
    let name: &[u8] = if is_primary {
        b"Primary bitmap"
    } else {
        b"Secondary bitmap"
    };
    push_head(page, piece, name, out)?;
    let map = page.bytes_at(piece.start, piece.end);
    if let Some((is_secondary_told, set)) = page.elements_in(is_primary, map) {
        push_numbers(is_secondary_told, set, out)?;
    }
    trim_blank(out);
    out.extend_from_slice(b"\n")
}

/// Takes a blank off the end.
fn trim_blank(out: &mut Vec<u8>) {
    if out.last() == Some(&b' ') {
        out.pop();
    }
}

/// How many bytes a value has.
fn value_size(shown: Shown) -> usize {
    shown
        .front
        .len()
        .saturating_add(shown.hidden)
        .saturating_add(shown.end.len())
}

/// Appends the value of an element, and behind a length how long it is.
fn push_value(page: Page, place: Place, seen: &Seen, out: &mut Vec<u8>) -> Result<(), AllocError> {
    push_inked_shown(page.style, page.class_of(place.n), seen.value, out)?;
    if place.start < place.body {
        let size = value_size(seen.value);
        out.extend_from_slice(b"  (length ")?;
        push_number(size, out)?;
        out.extend_from_slice(b")")?;
    }
    Ok(())
}

/// Appends the line of an element whose length and body are good, and those of its value's parts.
pub(crate) fn push_element(
    page: Page,
    place: Place,
    value: &[u8],
    words: &mut Vec<u8>,
    out: &mut Vec<u8>,
) -> Result<(), AllocError> {
    let body = page.bytes_at(place.body, place.end);
    let seen = seen_of(page.style.is_clear, place.n, body, value);
    push_offset(place.start, out)?;
    push_bytes(
        page.style,
        page.bytes_at(place.start, place.body),
        &seen,
        out,
    )?;
    push_name(place.n, page.name_of(place.n), out)?;
    push_value(page, place, &seen, out)?;
    words.clear();
    push_meaning_of(page.table.version(), place.n, value, words)?;
    push_meaning(page.style, words, out)?;
    push_details(page, Form::Lines, place.n, value, words, out)
}
