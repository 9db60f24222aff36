//! The lines of the piece that isn't good.

use crate::columns::{INDENT, push_bytes, push_inked, push_last_name, push_name, push_offset};
use crate::faults::push_wanted;
use crate::hinting::likely;
use crate::page::{Page, Place};
use crate::seen::{Seen, seen_of};
use crate::sentences::{sentence, usual_cause};
use crate::style::Ink;
use crate::writing::{push_each, push_number};
use iso_parts::raw::judge_length;
use iso_wire::{Piece, PieceKind, UnpackCause};
use std::alloc::AllocError;

/// How many bytes a line shows of a bad piece.
const WINDOW: usize = 16;

/// How many bytes before the first bad one are shown of a bad piece that is longer than a line.
const BEFORE: usize = 8;

/// What a piece is, without an element's name.
pub(crate) fn kind_name(kind: PieceKind) -> &'static [u8] {
    match kind {
        PieceKind::Type => b"Message type",
        PieceKind::Primary => b"Primary bitmap",
        PieceKind::Secondary => b"Secondary bitmap",
        PieceKind::Length => b"length",
        PieceKind::Body => b"",
    }
}

/// What a piece is: the name of its element, or of itself.
fn name_of<'a>(page: Page<'a>, piece: Piece) -> &'a [u8] {
    match piece.kind {
        PieceKind::Type | PieceKind::Primary | PieceKind::Secondary => kind_name(piece.kind),
        PieceKind::Length | PieceKind::Body => page.name_of(piece.element),
    }
}

/// Where the bytes begin that are shown of a bad piece: where it begins, or shortly before its first bad byte.
fn window_start(piece: Piece, bad: usize) -> usize {
    if bad.saturating_sub(piece.start) < WINDOW {
        piece.start
    } else {
        bad.saturating_sub(BEFORE)
    }
}

/// What may be shown of a part of a bad piece. A length is no card data.
fn seen_bad<'a>(page: Page<'a>, piece: Piece, bytes: &'a [u8]) -> Seen<'a> {
    let is_clear = page.style.is_clear || piece.kind == PieceKind::Length;
    seen_of(is_clear, piece.element, bytes, &[])
}

/// What may be shown of a bad piece.
pub(crate) fn bad_bytes<'a>(page: Page<'a>, piece: Piece) -> Seen<'a> {
    seen_bad(page, piece, page.bytes_at(piece.start, piece.end))
}

/// Appends the line of a bad piece, with the bytes about its first bad one, and a mark beneath that one.
fn push_bytes_about(
    page: Page,
    piece: Piece,
    bad: usize,
    out: &mut Vec<u8>,
) -> Result<(), AllocError> {
    let start = window_start(piece, bad);
    let end = piece.end.min(start.saturating_add(WINDOW));
    push_offset(start, out)?;
    push_bytes(
        page.style,
        &[],
        &seen_bad(page, piece, page.bytes_at(start, end)),
        out,
    )?;
    push_last_name(piece.element, name_of(page, piece), out)?;
    out.extend_from_slice(b"\n")?;
    push_each(b' ', INDENT, out)?;
    for _i in start..bad {
        out.extend_from_slice(b"  ")?;
    }
    push_inked(page.style, Ink::Red, b"^", out)?;
    out.extend_from_slice(b" byte ")?;
    push_number(bad, out)?;
    out.extend_from_slice(b"\n")
}

/// Appends the line of a good length before a bad body.
fn push_length(page: Page, place: Place, out: &mut Vec<u8>) -> Result<(), AllocError> {
    if place.start >= place.body {
        return Ok(());
    }
    let length = page.bytes_at(place.start, place.body);
    push_offset(place.start, out)?;
    push_bytes(page.style, &[], &seen_of(true, place.n, length, &[]), out)?;
    push_name(place.n, page.name_of(place.n), out)?;
    out.extend_from_slice(b"length ")?;
    if let Some(count) = length_in(page, place.n, length) {
        push_number(usize::from(count), out)?;
    }
    out.extend_from_slice(b"\n")
}

/// The count that the bytes of a length tell.
fn length_in(page: Page, n: u8, length: &[u8]) -> Option<u16> {
    match judge_length(page.table.row(n)?, length) {
        Ok(count) => count,
        Err(_) => None,
    }
}

/// Appends a line of its own, behind what it tells of.
fn push_note(page: Page, label: &[u8], text: &[u8], out: &mut Vec<u8>) -> Result<(), AllocError> {
    push_each(b' ', INDENT, out)?;
    push_inked(page.style, Ink::Red, label, out)?;
    out.extend_from_slice(text)?;
    out.extend_from_slice(b"\n")
}

/// Appends the line that names the fault, its element and its offset, and what it means.
fn push_fault(
    page: Page,
    piece: Piece,
    cause: UnpackCause,
    out: &mut Vec<u8>,
) -> Result<(), AllocError> {
    push_each(b' ', INDENT, out)?;
    push_inked(page.style, Ink::Red, cause.name().as_bytes(), out)?;
    out.extend_from_slice(b" element ")?;
    push_number(usize::from(piece.element), out)?;
    out.extend_from_slice(b" at ")?;
    push_number(piece.start, out)?;
    out.extend_from_slice(b": ")?;
    out.extend_from_slice(sentence(cause).as_bytes())?;
    if let UnpackCause::UnknownElement(element) = cause {
        out.extend_from_slice(b", that of element ")?;
        push_number(usize::from(element), out)?;
    }
    out.extend_from_slice(b"\n")
}

/// Appends a line for each likely mistake.
fn push_hints(page: Page, out: &mut Vec<u8>) -> Result<(), AllocError> {
    for hint in &likely(page.alloc, page.table, page.bytes)? {
        push_note(page, b"hint: ", hint.sentence().as_bytes(), out)?;
    }
    Ok(())
}

/// Appends the lines of the piece that stops the message: its bytes, the fault, what was wanted, what usually causes it
/// and which mistake is likely.
pub(crate) fn push_bad(
    page: Page,
    place: Place,
    piece: Piece,
    cause: UnpackCause,
    words: &mut Vec<u8>,
    out: &mut Vec<u8>,
) -> Result<(), AllocError> {
    if piece.kind == PieceKind::Body {
        push_length(page, place, out)?;
    }
    push_bytes_about(page, piece, piece.first_bad(page.table, page.bytes), out)?;
    push_fault(page, piece, cause, out)?;
    words.clear();
    push_wanted(page.table, piece, words)?;
    push_note(page, b"wanted: ", words, out)?;
    push_note(page, b"usually: ", usual_cause(cause).as_bytes(), out)?;
    push_hints(page, out)
}
