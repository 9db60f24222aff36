//! The pieces of a message, one after another, up to the one that stops it.

ghost use Rattle.std.specs.Prelude.{◌≡◌, ◌≤◌, ◌∷◌, length};
ghost use Rattle.std.specs.Iterator.{at_most};
ghost use Rattle.iso_parts.specs.Bitmap.{map_size};
ghost use Rattle.iso_parts.specs.Numbers.{members};
ghost use Rattle.iso_table.specs.Layout.{row_at, AreGood};
ghost use Rattle.iso_wire.specs.Pieces.{next, Walks, left_of};
ghost use Rattle.iso_wire.specs.Stops.{type, primary, secondary};
ghost use Rattle.iso_wire.specs.Walking.{place_of, ahead_of, length_under, length_ahead, body_under, cause_after};
ghost use Rattle.iso_wire.specs.Walking.{IsFront, IsReached, IsBehindPrimary, Passes, PassesAhead, SpansAhead, StepsFrom};

use crate::fault::{UnpackCause, UnpackFault};
use crate::front::{primary_of, secondary_of, type_of};
use crate::judging::{ResumePoint, body_end};
use crate::laws::are_bytes;
use iso_parts::Bitmap;
use iso_parts::raw::{judge_length, tells_another};
use iso_table::Table;
use std::marker::Model;

/// What a piece of a message is.
#[derive(Clone, Copy, Debug, PartialEq, Eq)]
pub enum PieceKind {
    /// The message type.
    Type,
    /// The primary bitmap.
    Primary,
    /// The secondary bitmap.
    Secondary,
    /// The length of an element; of a fixed length it has no bytes.
    Length,
    /// The body of an element.
    Body,
}

/// A piece of a message, and whether it is good.
#[derive(Clone, Copy, Debug, PartialEq, Eq)]
pub struct Piece {
    pub kind: PieceKind,
    /// Whose piece it is: 0 is the message type or the primary bitmap, 1 the secondary bitmap, any other number the
    /// element.
    pub element: u8,
    /// The offset of its first byte.
    pub start: usize,
    /// The offset behind its last byte, or behind the bytes where they end inside it.
    pub end: usize,
    /// What is wrong with it: then it is the last that is told.
    pub fault: Option<UnpackCause>,
}

/// The piece that comes next: where it begins, and how many bytes it has when it is whole.
#[derive(Clone, Copy)]
struct Span {
    kind: PieceKind,
    element: u8,
    start: usize,
    size: usize,
}

/// Judges the message type: the point behind it, or the fault.
fn pass_type(table: &Table, bytes: &[u8]) -> Result<ResumePoint, UnpackFault>
    ensures { Passes table.now bytes.now type 0 result }
{
    are_bytes(bytes);
    match type_of(table, bytes) {
        Ok(_) => Ok(ResumePoint::Primary),
        Err(fault) => Err(fault),
    }
}

/// The point behind a primary bitmap with this word, which begins at `start`.
fn behind_primary(table: &Table, first: u64, start: usize) -> ResumePoint
    requires { start ≤ 4 }
    ensures { IsBehindPrimary table.now first start result }
{
    if tells_another(first) {
        return ResumePoint::Secondary(first);
    }
    ResumePoint::Elements {
        rest: Bitmap::from_words(first, 0),
        at: start + table.bitmap().size(),
    }
}

/// Judges the primary bitmap.
fn pass_primary(table: &Table, bytes: &[u8]) -> Result<ResumePoint, UnpackFault>
    requires reached { IsReached table.now bytes.now ResumePoint.Primary }
    requires within { place_of table.now ResumePoint.Primary ≤ length bytes.now }
    ensures { Passes table.now bytes.now primary (place_of table.now ResumePoint.Primary) result }
{
    are_bytes(bytes);
    iso_parts::laws::bitmaps();
    let start = table.mti().mti_size();
    let (_, maps) = bytes.split_at(start);
    match primary_of(table, start, maps) {
        Ok(first) => Ok(behind_primary(table, first, start)),
        Err(fault) => Err(fault),
    }
}

/// Judges the secondary bitmap, behind a primary one with this word.
fn pass_secondary(table: &Table, first: u64, bytes: &[u8]) -> Result<ResumePoint, UnpackFault>
    requires reached { IsReached table.now bytes.now (ResumePoint.Secondary first) }
    requires within { place_of table.now (ResumePoint.Secondary first) ≤ length bytes.now }
    ensures { Passes table.now bytes.now secondary
        (place_of table.now (ResumePoint.Secondary first)) result }
{
    are_bytes(bytes);
    iso_parts::laws::bitmaps();
    let start = table.mti().mti_size();
    let size = table.bitmap().size();
    let (_, maps) = bytes.split_at(start);
    let (_, behind) = maps.split_at(size);
    match secondary_of(table, start + size, behind) {
        Ok(second) => Ok(ResumePoint::Elements {
            rest: Bitmap::from_words(first, second),
            at: start + (size + size),
        }),
        Err(fault) => Err(fault),
    }
}

/// Judges the length of element `n`, which begins at `at`; the parts of the others follow.
fn pass_length(
    table: &Table,
    n: u8,
    rest: Bitmap,
    at: usize,
    bytes: &[u8],
) -> Result<ResumePoint, UnpackFault>
    requires reached { IsFront table.now (n ∷ members rest) at bytes.now }
    requires within { at ≤ length bytes.now }
    ensures { PassesAhead table.now bytes.now (length_under n (row_at table.now.rows n)) at result }
{
    are_bytes(bytes);
    iso_parts::laws::pieces();
    let Some(row) = table.row(n) else {
        return Err(UnpackFault::stop(n, at, UnpackCause::UnknownElement(n)));
    };
    let front = row.length.prefix_size();
    let (_, part) = bytes.split_at(at);
    match judge_length(row, part) {
        Ok(Some(count)) => Ok(ResumePoint::Body {
            n,
            count,
            rest,
            at: at + front,
        }),
        Ok(None) => Err(UnpackFault::stop(n, at, UnpackCause::Short)),
        Err(fault) => Err(UnpackFault::stop(n, at, UnpackCause::Field(fault))),
    }
}

/// Judges the body of element `n`, of `count` characters, which begins at `at`; the parts of the others follow.
fn pass_body(
    table: &Table,
    n: u8,
    count: u16,
    rest: Bitmap,
    at: usize,
    bytes: &[u8],
) -> Result<ResumePoint, UnpackFault>
    requires reached { IsReached table.now bytes.now (ResumePoint.Body n count rest at) }
    requires within { at ≤ length bytes.now }
    ensures { PassesAhead table.now bytes.now
        (body_under n count (row_at table.now.rows n)) at result }
{
    are_bytes(bytes);
    iso_parts::laws::parts();
    iso_parts::laws::pieces();
    let Some(row) = table.row(n) else {
        return Err(UnpackFault::stop(n, at, UnpackCause::UnknownElement(n)));
    };
    match body_end(row, n, count, at, bytes) {
        Ok(end) => Ok(ResumePoint::Elements { rest, at: end }),
        Err(fault) => Err(fault),
    }
}

/// Judges the piece that begins the parts of these elements; where there is none, nothing is judged.
fn pass_elements(
    table: &Table,
    rest: Bitmap,
    at: usize,
    bytes: &[u8],
) -> Result<ResumePoint, UnpackFault>
    requires reached { IsReached table.now bytes.now (ResumePoint.Elements rest at) }
    requires within { at ≤ length bytes.now }
    ensures { PassesAhead table.now bytes.now
        (length_ahead table.now.rows (members rest)) at result }
{
    let mut others = rest;
    match others.take_first() {
        Some(n) => pass_length(table, n, others, at, bytes),
        None => Ok(ResumePoint::Elements { rest, at }),
    }
}

/// Judges the piece of a point: the point behind it, or the fault.
fn pass(table: &Table, point: ResumePoint, bytes: &[u8]) -> Result<ResumePoint, UnpackFault>
    requires reached { IsReached table.now bytes.now point }
    requires within { place_of table.now point ≤ length bytes.now }
    ensures { PassesAhead table.now bytes.now (ahead_of table.now point)
        (place_of table.now point) result }
{
    match point {
        ResumePoint::Type => pass_type(table, bytes),
        ResumePoint::Primary => pass_primary(table, bytes),
        ResumePoint::Secondary(first) => pass_secondary(table, first, bytes),
        ResumePoint::Elements { rest, at } => pass_elements(table, rest, at, bytes),
        ResumePoint::Body { n, count, rest, at } => pass_body(table, n, count, rest, at, bytes),
    }
}

/// The length of the first of these elements, which begins at `at`.
fn length_span(table: &Table, rest: Bitmap, at: usize) -> Option<Span>
    ensures { SpansAhead table.now (length_ahead table.now.rows (members rest)) at result }
{
    let mut others = rest;
    let n = others.take_first()?;
    let row = table.row(n)?;
    Some(Span {
        kind: PieceKind::Length,
        element: n,
        start: at,
        size: row.length.prefix_size(),
    })
}

/// The body of element `n`, of `count` characters, which begins at `at`.
fn body_span(table: &Table, n: u8, count: u16, at: usize) -> Option<Span>
    ensures { SpansAhead table.now (body_under n count (row_at table.now.rows n)) at result }
{
    let row = table.row(n)?;
    Some(Span {
        kind: PieceKind::Body,
        element: n,
        start: at,
        size: row.coding.body_size(count),
    })
}

/// A bitmap of a message, which begins at `start`.
fn map_span(table: &Table, kind: PieceKind, element: u8, start: usize) -> Span
    ensures { result ≡
        record { kind = kind; element = element; start = start; size = map_size table.now.bitmap } }
{
    let size = table.bitmap().size();
    Span {
        kind,
        element,
        start,
        size,
    }
}

/// The piece of a point, if one comes there.
fn span_of(table: &Table, point: ResumePoint) -> Option<Span>
    ensures { SpansAhead table.now (ahead_of table.now point) (place_of table.now point) result }
{
    let front = table.mti().mti_size();
    match point {
        ResumePoint::Type => Some(Span {
            kind: PieceKind::Type,
            element: 0,
            start: 0,
            size: front,
        }),
        ResumePoint::Primary => Some(map_span(table, PieceKind::Primary, 0, front)),
        ResumePoint::Secondary(_) => {
            let start = front + table.bitmap().size();
            Some(map_span(table, PieceKind::Secondary, 1, start))
        }
        ResumePoint::Elements { rest, at } => length_span(table, rest, at),
        ResumePoint::Body { n, count, at, .. } => body_span(table, n, count, at),
    }
}

/// What is wrong with a piece, if it was not passed.
fn cause_of(after: Result<ResumePoint, UnpackFault>) -> Option<UnpackCause>
    ensures { result ≡ cause_after after }
{
    match after {
        Ok(_) => None,
        Err(fault) => Some(fault.cause),
    }
}

/// The rows of a table are good.
fn good_rows(table: &Table)
    ensures { AreGood table.now.rows }
{
    // any call on the table that speaks of its rows tells the proof
    let _row = table.row(0);
}

/// The piece of a point, and where the walk stands behind it.
fn step(
    table: &Table,
    point: ResumePoint,
    bytes: &[u8],
) -> Option<(Piece, Result<ResumePoint, UnpackFault>)>
    requires { IsReached table.now bytes.now point }
    ensures { StepsFrom table.now bytes.now point result }
{
    are_bytes(bytes);
    good_rows(table);
    iso_parts::laws::parts();
    iso_parts::laws::bitmaps();
    iso_parts::laws::pieces();
    let span = span_of(table, point)?;
    let (_, rest) = bytes.split_at(span.start);
    let after = pass(table, point, bytes);
    let piece = Piece {
        kind: span.kind,
        element: span.element,
        start: span.start,
        end: span.start + span.size.min(rest.len()),
        fault: cause_of(after),
    };
    Some((piece, after))
}

/// The pieces of a message that are still to come, in the order of its bytes: its type, its bitmaps, and for each
/// element its length and its body. The last one is that of a whole message, or the first that is bad or not whole.
#[derive(Drop)]
pub struct Pieces<'a> {
    table: &'a Table,
    bytes: &'a [u8],
    next: Result<ResumePoint, UnpackFault>,
}

impl<'a> Model for Pieces<'a> {
    ghost use Rattle.iso_wire.specs.Pieces.{Walk};
    ghost use Rattle.iso_wire.specs.Walking.{walk_of, IsWalking};

    ghost Value = { Walk };

    ghost view = { λ p. walk_of p.table.now p.bytes.now p.next };

    ghost invariant = { λ p. IsWalking p.table.now p.bytes.now p.next };
}

/// The pieces of the message that the bytes begin with. Takes no memory.
///
/// A walk over all of them comes to the end of the message that `unpack` gives, or to the fault that it tells.
pub fn pieces_of<'a>(table: &'a Table, bytes: &'a [u8]) -> Pieces<'a>
    // The walk begins at the first byte, and the message type is the piece that comes next.
    ensures { result ≡ record { table = table.now; bytes = bytes.now; at = 0; ahead = next type } }
{
    Pieces {
        table,
        bytes,
        next: Ok(ResumePoint::Type),
    }
}

/// Each call tells the piece that comes next: the good pieces before it call for it by the grammar of messages.
impl<'a> Iterator for Pieces<'a> {
    type Item = Piece;

    ghost next_gives = { Walks };

    ghost remaining = { λ walk. at_most (left_of walk.ahead) };

    fn next(&mut self) -> Option<Piece> {
        let Ok(point) = self.next else {
            return None;
        };
        let (piece, after) = step(self.table, point, self.bytes)?;
        self.next = after;
        Some(piece)
    }
}
