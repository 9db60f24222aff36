//! The explanation as an object of JSON.

ghost use Rattle.std.specs.Prelude.{◌≡◌, IfOk, OnOk, OnErr};
ghost use Rattle.iso_parts.specs.Buffers.{Keeps};
ghost use Rattle.iso_explain.specs.Outcomes.{IsOutcome};

use crate::bad::bad_bytes;
use crate::details::{Detail, Form, push_details};
use crate::explaining::{Scratch, place_of};
use crate::faults::push_wanted;
use crate::hinting::likely;
use crate::meanings::{push_meaning_of, push_type_words};
use crate::outcome::{Outcome, outcome_of};
use crate::page::{Page, Place};
use crate::seen::{Seen, seen_of};
use crate::sentences::sentence;
use crate::style::Style;
use crate::writing::{push_each, push_hex, push_number};
use iso_names::Names;
use iso_parts::raw::{four_ascii_digits, hex_digit};
use iso_parts::{Bitmap, CharClass};
use iso_table::{NoMemory, Table};
use iso_wire::{Piece, PieceKind, Shown, UnpackCause, pieces_of};
use std::alloc::{AllocError, Global};

/// Appends what stands for a byte between quotes.
fn push_escaped(b: u8, out: &mut Vec<u8>) -> Result<(), AllocError> {
    match b {
        b'"' | b'\\' => out.extend_from_slice(&[b'\\', b]),
        0..=31 => out.extend_from_slice(&[
            b'\\',
            b'u',
            b'0',
            b'0',
            hex_digit(b / 16),
            hex_digit(b % 16),
        ]),
        _ => out.extend_from_slice(&[b]),
    }
}

/// Appends what stands for text between quotes.
fn push_text(text: &[u8], out: &mut Vec<u8>) -> Result<(), AllocError> {
    for b in text {
        push_escaped(*b, out)?;
    }
    Ok(())
}

/// Appends bytes between quotes, as a row of the class shows them.
fn push_shown_part(class: CharClass, bytes: &[u8], out: &mut Vec<u8>) -> Result<(), AllocError> {
    match class {
        CharClass::B => push_hex(bytes, out),
        CharClass::N
        | CharClass::A
        | CharClass::AN
        | CharClass::ANS
        | CharClass::Z
        | CharClass::ZD
        | CharClass::XN => push_text(bytes, out),
    }
}

/// Appends a member's name, behind a comma unless it is the first one.
fn push_key(key: &[u8], out: &mut Vec<u8>) -> Result<(), AllocError> {
    push_comma(out)?;
    out.extend_from_slice(b"\"")?;
    out.extend_from_slice(key)?;
    out.extend_from_slice(b"\":")
}

/// Appends a comma, unless an object or an array has just begun.
fn push_comma(out: &mut Vec<u8>) -> Result<(), AllocError> {
    match out.last() {
        Some(b'{' | b'[') | None => Ok(()),
        Some(_) => out.extend_from_slice(b","),
    }
}

/// Appends a member that is a text.
fn push_text_member(key: &[u8], text: &[u8], out: &mut Vec<u8>) -> Result<(), AllocError> {
    push_key(key, out)?;
    out.extend_from_slice(b"\"")?;
    push_text(text, out)?;
    out.extend_from_slice(b"\"")
}

/// Appends a member that is a text, unless it is empty.
fn push_if_told(key: &[u8], text: &[u8], out: &mut Vec<u8>) -> Result<(), AllocError> {
    if text.is_empty() {
        return Ok(());
    }
    push_text_member(key, text, out)
}

/// Appends a member that is a number.
fn push_number_member(key: &[u8], n: usize, out: &mut Vec<u8>) -> Result<(), AllocError> {
    push_key(key, out)?;
    push_number(n, out)
}

/// Appends the member of a value, with a star for each byte that is hidden.
fn push_value_member(class: CharClass, shown: Shown, out: &mut Vec<u8>) -> Result<(), AllocError> {
    push_key(b"value", out)?;
    out.extend_from_slice(b"\"")?;
    push_shown_part(class, shown.front, out)?;
    push_each(b'*', shown.hidden, out)?;
    push_shown_part(class, shown.end, out)?;
    out.extend_from_slice(b"\"")
}

/// Appends the member of bytes: those of a length, and those of a body, with two stars for each that is hidden.
fn push_bytes_member(length: &[u8], seen: &Seen, out: &mut Vec<u8>) -> Result<(), AllocError> {
    push_key(b"bytes", out)?;
    out.extend_from_slice(b"\"")?;
    push_hex(length, out)?;
    match seen.body {
        Some(body) => push_hex(body, out)?,
        None => {
            for _i in 0..seen.size {
                out.extend_from_slice(b"**")?;
            }
        }
    }
    out.extend_from_slice(b"\"")
}

/// Appends a part of a value.
pub(crate) fn push_json_detail(detail: Detail, out: &mut Vec<u8>) -> Result<(), AllocError> {
    push_comma(out)?;
    out.extend_from_slice(b"{")?;
    if !detail.tag.is_empty() {
        push_key(b"tag", out)?;
        out.extend_from_slice(b"\"")?;
        push_hex(detail.tag, out)?;
        out.extend_from_slice(b"\"")?;
        push_number_member(b"depth", detail.depth, out)?;
    }
    push_text_member(b"name", detail.name, out)?;
    push_value_member(detail.class, detail.value, out)?;
    push_if_told(b"meaning", detail.meaning, out)?;
    out.extend_from_slice(b"}")
}

/// Appends the first members of a piece.
fn push_head(page: Page, kind: &[u8], piece: Piece, out: &mut Vec<u8>) -> Result<(), AllocError> {
    push_comma(out)?;
    out.extend_from_slice(b"{")?;
    push_text_member(b"kind", kind, out)?;
    push_number_member(b"offset", piece.start, out)?;
    let bytes = page.bytes_at(piece.start, piece.end);
    push_bytes_member(&[], &seen_of(true, piece.element, bytes, &[]), out)
}

/// Appends the object of the message type.
fn push_type(
    page: Page,
    piece: Piece,
    words: &mut Vec<u8>,
    out: &mut Vec<u8>,
) -> Result<(), AllocError> {
    push_head(page, b"type", piece, out)?;
    if let Some(mti) = page.type_in(page.bytes_at(piece.start, piece.end)) {
        let digits = four_ascii_digits(usize::from(mti.number()));
        push_text_member(b"value", &digits, out)?;
        words.clear();
        push_type_words(mti, words)?;
        push_text_member(b"meaning", words, out)?;
    }
    out.extend_from_slice(b"}")
}

/// Appends the numbers of a set as an array.
fn push_set(set: Bitmap, out: &mut Vec<u8>) -> Result<(), AllocError> {
    out.extend_from_slice(b"[")?;
    for n in set {
        push_comma(out)?;
        push_number(usize::from(n), out)?;
    }
    out.extend_from_slice(b"]")
}

/// Appends the object of a bitmap.
fn push_bitmap(page: Page, piece: Piece, out: &mut Vec<u8>) -> Result<(), AllocError> {
    let is_primary = piece.kind == PieceKind::Primary;
    push_head(page, b"bitmap", piece, out)?;
    let map = page.bytes_at(piece.start, piece.end);
    if let Some((_, set)) = page.elements_in(is_primary, map) {
        push_key(b"elements", out)?;
        push_set(set, out)?;
    }
    out.extend_from_slice(b"}")
}

/// Appends the member of the parts of a value, if it has such.
fn push_parts(
    page: Page,
    n: u8,
    value: &[u8],
    words: &mut Vec<u8>,
    out: &mut Vec<u8>,
) -> Result<(), AllocError> {
    let start = out.len();
    push_key(b"parts", out)?;
    out.extend_from_slice(b"[")?;
    let empty = out.len();
    push_details(page, Form::Json, n, value, words, out)?;
    if out.len() == empty {
        out.truncate(start);
        return Ok(());
    }
    out.extend_from_slice(b"]")
}

/// Appends the object of an element whose length and body are good.
fn push_element(
    page: Page,
    place: Place,
    value: &[u8],
    words: &mut Vec<u8>,
    out: &mut Vec<u8>,
) -> Result<(), AllocError> {
    let body = page.bytes_at(place.body, place.end);
    let seen = seen_of(page.style.is_clear, place.n, body, value);
    push_comma(out)?;
    out.extend_from_slice(b"{\"kind\":\"element\"")?;
    push_number_member(b"element", usize::from(place.n), out)?;
    push_if_told(b"name", page.name_of(place.n), out)?;
    push_number_member(b"offset", place.start, out)?;
    push_bytes_member(page.bytes_at(place.start, place.body), &seen, out)?;
    push_number_member(b"length", value.len(), out)?;
    push_value_member(page.class_of(place.n), seen.value, out)?;
    words.clear();
    push_meaning_of(page.table.version(), place.n, value, words)?;
    push_if_told(b"meaning", words, out)?;
    push_parts(page, place.n, value, words, out)?;
    out.extend_from_slice(b"}")
}

/// Appends the object of a good piece; a length stands in the object of its element.
fn push_piece(
    page: Page,
    piece: Piece,
    length_start: usize,
    scratch: &mut Scratch,
    out: &mut Vec<u8>,
) -> Result<(), AllocError> {
    match piece.kind {
        PieceKind::Type => push_type(page, piece, &mut scratch.words, out),
        PieceKind::Primary | PieceKind::Secondary => push_bitmap(page, piece, out),
        PieceKind::Length => Ok(()),
        PieceKind::Body => {
            let place = place_of(piece, length_start);
            page.read_value(place, &mut scratch.value)?;
            push_element(page, place, &scratch.value, &mut scratch.words, out)
        }
    }
}

/// Appends the objects of the good pieces, and gives the bad one.
fn push_pieces(
    page: Page,
    scratch: &mut Scratch,
    out: &mut Vec<u8>,
) -> Result<Option<Piece>, AllocError> {
    let mut length_start = 0;
    for piece in pieces_of(page.table, page.bytes) {
        if piece.fault.is_some() {
            return Ok(Some(piece));
        }
        if piece.kind == PieceKind::Length {
            length_start = piece.start;
        }
        push_piece(page, piece, length_start, scratch, out)?;
    }
    Ok(None)
}

/// Appends the member of the fault.
fn push_fault(
    page: Page,
    piece: Piece,
    cause: UnpackCause,
    words: &mut Vec<u8>,
    out: &mut Vec<u8>,
) -> Result<(), AllocError> {
    out.extend_from_slice(b",\"fault\":{")?;
    push_text_member(b"cause", cause.name().as_bytes(), out)?;
    push_number_member(b"element", usize::from(piece.element), out)?;
    push_number_member(b"offset", piece.start, out)?;
    push_bytes_member(&[], &bad_bytes(page, piece), out)?;
    push_number_member(b"badByte", piece.first_bad(page.table, page.bytes), out)?;
    words.clear();
    push_wanted(page.table, piece, words)?;
    push_text_member(b"wanted", words, out)?;
    push_text_member(b"sentence", sentence(cause).as_bytes(), out)?;
    out.extend_from_slice(b"}")
}

/// Appends the member of the likely mistakes.
fn push_hints(page: Page, out: &mut Vec<u8>) -> Result<(), AllocError> {
    out.extend_from_slice(b",\"hints\":[")?;
    for hint in &likely(page.alloc, page.table, page.bytes)? {
        push_comma(out)?;
        out.extend_from_slice(b"\"")?;
        push_text(hint.sentence().as_bytes(), out)?;
        out.extend_from_slice(b"\"")?;
    }
    out.extend_from_slice(b"]")
}

/// Appends what became of the bytes: how many the message took, or the fault and the likely mistakes.
fn push_end(
    page: Page,
    bad: Option<Piece>,
    outcome: Outcome,
    words: &mut Vec<u8>,
    out: &mut Vec<u8>,
) -> Result<(), AllocError> {
    match (bad, outcome) {
        (_, Outcome::Read(used)) => {
            out.extend_from_slice(b",\"used\":")?;
            push_number(used, out)
        }
        (Some(piece), Outcome::Stopped(fault)) => {
            push_fault(page, piece, fault.cause, words, out)?;
            push_hints(page, out)
        }
        (None, Outcome::Stopped(_)) => Ok(()),
    }
}

/// Appends the object of the message that the bytes begin with.
fn push_object(page: Page, outcome: Outcome, out: &mut Vec<u8>) -> Result<(), AllocError> {
    let mut scratch = Scratch {
        value: Vec::new(page.alloc),
        words: Vec::new(page.alloc),
    };
    out.extend_from_slice(b"{\"pieces\":[")?;
    let bad = push_pieces(page, &mut scratch, out)?;
    out.extend_from_slice(b"]")?;
    push_end(page, bad, outcome, &mut scratch.words, out)?;
    out.extend_from_slice(b"}")
}

/// Appends the explanation of the message that the bytes begin with as one object of JSON, on one line without an end of
/// line, and tells what became of them, as [`append_explanation`](crate::append_explanation) does.
///
/// `pieces` has an object for the type, for each bitmap and for each element up to the one that stops the message: `kind`,
/// `offset`, `bytes` in hexadecimal digits, and `value`, `meaning`, `elements`, `element`, `name`, `length` and `parts` where
/// they apply. Behind them `used` tells how many bytes the message takes; or `fault` has `cause`, `element`, `offset`,
/// `bytes`, `badByte`, `wanted` and `sentence`, and `hints` the likely mistakes. Unless `is_clear`, card data are stars.
///
/// Without memory nothing is appended.
pub fn append_explanation_json(
    alloc: Global,
    table: &Table,
    names: &Names,
    bytes: &[u8],
    is_clear: bool,
    out: &mut Vec<u8>,
) -> Result<Outcome, NoMemory>
    // The outcome is what `unpack` answers.
    ensures outcome { IfOk result (IsOutcome table.now bytes.now) }
    // What was there stays in front.
    ensures appended { OnOk result (Keeps out.old.items out.new.items) }
    // Where memory runs out, the buffer holds the bytes that it held before.
    ensures unchanged { OnErr result (out.new.items ≡ out.old.items) }
{
    let page = Page {
        alloc,
        table,
        names,
        bytes,
        style: Style {
            is_clear,
            is_coloured: false,
        },
    };
    let outcome = outcome_of(table, bytes);
    let mut text = Vec::new(alloc);
    push_object(page, outcome, &mut text)?;
    out.extend_from_slice(&text)?;
    Ok(outcome)
}
