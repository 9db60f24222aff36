//! Judging a message without building it: from a piece on, and without memory.

ghost use Rattle.std.specs.Prelude.{◌≡◌, ◌≤◌, ◌+◌, ◌∷◌, ◌<◌, length, IfOk, Some};
ghost use Rattle.iso_parts.specs.Bitmap.{map_size};
ghost use Rattle.iso_parts.specs.Spec.{IsGood};
ghost use Rattle.iso_parts.specs.Mti.{mti_size};
ghost use Rattle.iso_wire.specs.Judging.{IsPointWithin, Resumes, PassesPart, body_end};
ghost use Rattle.iso_parts.specs.Numbers.{members};

use crate::fault::{UnpackCause, UnpackFault};
use crate::front::{primary_of, secondary_of, type_of};
use iso_parts::raw::{judge_body, judge_length, tells_another};
use iso_parts::{Bitmap, FieldSpec, Judged, judge_field};
use iso_table::Table;

/// The piece from which judging goes on, since it isn't whole yet.
#[derive(Clone, Copy)]
pub enum ResumePoint {
    /// The message type.
    Type,
    /// The primary bitmap.
    Primary,
    /// The secondary bitmap, behind a primary one with this word.
    Secondary(u64),
    /// The length of the first of these elements, which begins at the offset.
    Elements {
        rest: Bitmap,
        at: usize,
    },
    /// The body of element `n`, of `count` characters, which begins at the offset; the others follow.
    Body {
        n: u8,
        count: u16,
        rest: Bitmap,
        at: usize,
    },
}

/// Where judging stopped, and why.
#[derive(Clone, Copy)]
struct JudgingStop {
    point: ResumePoint,
    fault: UnpackFault,
}

impl JudgingStop {
    /// The piece that begins at `at` is not a good one, and judging goes on from the point.
    fn new(point: ResumePoint, element: u8, at: usize, cause: UnpackCause) -> JudgingStop
        ensures { result ≡ record {
          point = point;
          fault = record { at = at; element = element; cause = cause };
        } }
    {
        JudgingStop {
            point,
            fault: UnpackFault::stop(element, at, cause),
        }
    }
}

/// Where the body of `count` characters ends, which begins at `at`.
pub fn body_end(
    row: &FieldSpec,
    n: u8,
    count: u16,
    at: usize,
    bytes: &[u8],
) -> Result<usize, UnpackFault>
    // The row is one that a table may have.
    requires good { IsGood row.now }
    // The count of characters is at most the row's maximum.
    requires few { count ≤ row.now.max }
    // The body begins within the bytes, or at their end.
    requires within { at ≤ length bytes.now }
    // The answer is the offset behind the body; or a fault at its start: bytes are missing, or the
    // first thing that is wrong with it.
    ensures exact { result ≡ body_end row.now n count at bytes.now }
    // An end that is told lies within the bytes.
    ensures room { IfOk result (λ end. end ≤ length bytes.now) }
{
    let (_, body) = bytes.split_at(at);
    match judge_body(row, count, body) {
        Ok(Some(size)) => Ok(at + size),
        Ok(None) => Err(UnpackFault::stop(n, at, UnpackCause::Short)),
        Err(fault) => Err(UnpackFault::stop(n, at, UnpackCause::Field(fault))),
    }
}

/// Judges the body of element `n`, of `count` characters, which begins at `at`: where it ends, or the point and the
/// fault at which judging stops.
fn judge_value(
    table: &Table,
    n: u8,
    count: u16,
    rest: Bitmap,
    at: usize,
    bytes: &[u8],
) -> Result<usize, JudgingStop>
    requires { IsPointWithin table.now (ResumePoint.Body n count rest at) bytes.now }
    ensures { PassesPart table.now (ResumePoint.Body n count rest at) bytes.now rest result }
{
    let point = ResumePoint::Body { n, count, rest, at };
    let Some(row) = table.row(n) else {
        return Err(JudgingStop::new(point, n, at, UnpackCause::UnknownElement(n)));
    };
    match body_end(row, n, count, at, bytes) {
        Ok(end) => Ok(end),
        Err(fault) => Err(JudgingStop { point, fault }),
    }
}

/// Judges the part of element `n`, the first of `from`, which begins at `at`, piece by piece; `rest` are the others.
#[cold]
fn judge_pieces(
    table: &Table,
    n: u8,
    from: Bitmap,
    rest: Bitmap,
    at: usize,
    bytes: &[u8],
) -> Result<usize, JudgingStop>
    requires first { members from ≡ n ∷ members rest }
    requires within { at ≤ length bytes.now }
    ensures { PassesPart table.now (ResumePoint.Elements from at) bytes.now rest result }
{
    iso_parts::laws::parts();
    let point = ResumePoint::Elements { rest: from, at };
    let Some(row) = table.row(n) else {
        return Err(JudgingStop::new(point, n, at, UnpackCause::UnknownElement(n)));
    };
    let front = row.length.prefix_size();
    let (_, part) = bytes.split_at(at);
    match judge_length(row, part) {
        Ok(Some(count)) => judge_value(table, n, count, rest, at + front, bytes),
        Ok(None) => Err(JudgingStop::new(point, n, at, UnpackCause::Short)),
        Err(fault) => Err(JudgingStop::new(point, n, at, UnpackCause::Field(fault))),
    }
}

/// Judges the part of element `n`, the first of `from`, which begins at `at`; `rest` are the others. Most parts are good,
/// and are judged at once.
#[inline(always)]
fn judge_part(
    table: &Table,
    n: u8,
    from: Bitmap,
    rest: Bitmap,
    at: usize,
    bytes: &[u8],
) -> Result<usize, JudgingStop>
    requires first { members from ≡ n ∷ members rest }
    requires within { at ≤ length bytes.now }
    ensures { PassesPart table.now (ResumePoint.Elements from at) bytes.now rest result }
{
    iso_parts::laws::parts();
    if let Some(row) = table.row(n) {
        let (_, part) = bytes.split_at(at);
        if let Ok(Judged::Got { body: _, used }) = judge_field(row, part) {
            return Ok(at + used);
        }
    }
    judge_pieces(table, n, from, rest, at, bytes)
}

/// Judges the elements with these numbers, whose parts begin at `start`.
fn judge_elements(
    table: &Table,
    numbers: Bitmap,
    start: usize,
    bytes: &[u8],
) -> (ResumePoint, Result<usize, UnpackFault>)
    requires { start ≤ length bytes.now }
    ensures { Resumes table.now (ResumePoint.Elements numbers start) bytes.now result.0 result.1 }
{
    let mut walk = numbers;
    let mut rest = numbers;
    let mut at = start;
    while let Some(n) = walk.take_first() {
        match judge_part(table, n, rest, walk, at, bytes) {
            Ok(end) => {
                at = end;
                rest = walk;
            }
            Err(stop) => return (stop.point, Err(stop.fault)),
        }
    }
    (ResumePoint::Elements { rest, at }, Ok(at))
}

/// Judges a message from the body of element `n` on, of `count` characters, which begins at `at`.
fn judge_rest(
    table: &Table,
    n: u8,
    count: u16,
    rest: Bitmap,
    at: usize,
    bytes: &[u8],
) -> (ResumePoint, Result<usize, UnpackFault>)
    requires { IsPointWithin table.now (ResumePoint.Body n count rest at) bytes.now }
    ensures { Resumes table.now (ResumePoint.Body n count rest at) bytes.now result.0 result.1 }
{
    match judge_value(table, n, count, rest, at, bytes) {
        Ok(end) => judge_elements(table, rest, end, bytes),
        Err(stop) => (stop.point, Err(stop.fault)),
    }
}

/// Judges a message from its secondary bitmap on.
fn judge_secondary(
    table: &Table,
    primary: u64,
    bytes: &[u8],
) -> (ResumePoint, Result<usize, UnpackFault>)
    requires { mti_size table.now.mti + map_size table.now.bitmap ≤ length bytes.now }
    ensures { Resumes table.now (ResumePoint.Secondary primary) bytes.now result.0 result.1 }
{
    let start = table.mti().mti_size();
    let size = table.bitmap().size();
    let (_, maps) = bytes.split_at(start);
    let (_, rest) = maps.split_at(size);
    match secondary_of(table, start + size, rest) {
        Ok(secondary) => judge_elements(
            table,
            Bitmap::from_words(primary, secondary),
            start + (size + size),
            bytes,
        ),
        Err(fault) => (ResumePoint::Secondary(primary), Err(fault)),
    }
}

/// Judges a message from its primary bitmap on.
fn judge_primary(table: &Table, bytes: &[u8]) -> (ResumePoint, Result<usize, UnpackFault>)
    requires { mti_size table.now.mti ≤ length bytes.now }
    ensures { Resumes table.now ResumePoint.Primary bytes.now result.0 result.1 }
{
    let start = table.mti().mti_size();
    let (_, maps) = bytes.split_at(start);
    match primary_of(table, start, maps) {
        Ok(primary) => {
            if tells_another(primary) {
                judge_secondary(table, primary, bytes)
            } else {
                judge_elements(
                    table,
                    Bitmap::from_words(primary, 0),
                    start + table.bitmap().size(),
                    bytes,
                )
            }
        }
        Err(fault) => (ResumePoint::Primary, Err(fault)),
    }
}

/// Judges a message from its type on.
fn judge_type(table: &Table, bytes: &[u8]) -> (ResumePoint, Result<usize, UnpackFault>)
    ensures { Resumes table.now ResumePoint.Type bytes.now result.0 result.1 }
{
    match type_of(table, bytes) {
        Ok(_) => judge_primary(table, bytes),
        Err(fault) => (ResumePoint::Type, Err(fault)),
    }
}

/// Judges a message from a point on: the point of the piece that is bad or isn't whole, and where the message ends,
/// or the fault. Takes no memory.
pub fn judge_from(
    table: &Table,
    point: ResumePoint,
    bytes: &[u8],
) -> (ResumePoint, Result<usize, UnpackFault>)
    // The bytes reach up to the piece of the point, and a count of a body is one that its row
    // takes.
    requires { IsPointWithin table.now point bytes.now }
    // These bytes, read on from the point that is told, give that answer. Whatever bytes follow
    // them, reading comes to the same from there as from the first point.
    ensures { Resumes table.now point bytes.now result.0 result.1 }
{
    match point {
        ResumePoint::Type => judge_type(table, bytes),
        ResumePoint::Primary => judge_primary(table, bytes),
        ResumePoint::Secondary(primary) => judge_secondary(table, primary, bytes),
        ResumePoint::Elements { rest, at } => judge_elements(table, rest, at, bytes),
        ResumePoint::Body { n, count, rest, at } => judge_rest(table, n, count, rest, at, bytes),
    }
}
