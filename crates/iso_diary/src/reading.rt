//! Reading a record.
ghost use Rattle.std.specs.Prelude.{◌≡◌, ◌≤◌, ◌+◌, ◌^◌, ◌<◌, ◌++◌, length, take, Some, IfSome, slice_index};
ghost use Rattle.iso_record.specs.Row.{row_in};
ghost use Rattle.iso_record.specs.Key.{number_at};
ghost use Rattle.iso_diary.specs.Line.{below, long_at, long_by, no_answer, answered_in, begun_in, note_by, line_in, line_bytes, IsLine};

use crate::laws::{lines_come_back, nothing_else};
use crate::line::Line;
use crate::putting::{TEN_DIGITS, put, put_order_of};
use crate::writing::line_bytes;
use iso_log::RECORD;
use iso_order::TxKey;
use iso_record::read_row;
use iso_restarts::Note;
use iso_wire::number_in;

/// What stands behind an order that has no answer: the code 00, the place 0, and no balance.
const NO_ANSWER: &[u8; 29] = b"00000000                    \n";

/// What a number of ten digits may be at most, in front of ten more.
const MOST_FRONT: u64 = 1844674407;

/// The number in so many digits from a place on.
fn number_at(text: &[u8; RECORD], at: usize, len: usize) -> Option<u64>
    requires few { len ≤ 19 }
    requires within { at + len ≤ 128 }
    ensures value { result ≡ number_at text.now at len }
    ensures below { IfSome result (λ n. n < 10 ^ len) }
{
    number_in(&text[at..at + len], len, len)
}

/// The number of two numbers of ten digits, if a `u64` can be that.
fn long_of(front: u64, back: u64) -> Option<u64>
    requires { back < 10 ^ 10 }
    ensures { result ≡ long_by (Some front) (Some back) }
{
    if front > MOST_FRONT {
        return None;
    }
    let most = u64::MAX - front * TEN_DIGITS;
    if back > most {
        return None;
    }
    Some(front * TEN_DIGITS + back)
}

/// The number in twenty digits from a place on, if a `u64` can be that.
fn long_at(text: &[u8; RECORD], at: usize) -> Option<u64>
    requires { at + 20 ≤ 128 }
    ensures { result ≡ long_at text.now at }
{
    let front = number_at(text, at, 10)?;
    let back = number_at(text, at + 10, 10)?;
    long_of(front, back)
}

/// The number in five digits in front, if a `u16` can be that.
fn type_in(text: &[u8; RECORD]) -> Option<u16>
    ensures { result ≡ below (2 ^ 16) (number_at text.now 0 5) }
{
    let base = number_at(text, 0, 5)?;
    if base < 1 << 16 {
        Some(base as u16)
    } else {
        None
    }
}

/// The trace number in ten digits from a place on, if a `u32` can be that.
fn trace_at(text: &[u8; RECORD], at: usize) -> Option<u32>
    requires { at + 10 ≤ 128 }
    ensures { result ≡ below (2 ^ 32) (number_at text.now at 10) }
{
    let stan = number_at(text, at, 10)?;
    if stan < 1 << 32 {
        Some(stan as u32)
    } else {
        None
    }
}

/// The code in three digits, if a `u8` can be that.
fn code_in(text: &[u8; RECORD]) -> Option<u8>
    ensures { result ≡ below (2 ^ 8) (number_at text.now 55 3) }
{
    let code = number_at(text, 55, 3)?;
    if code < 1 << 8 {
        Some(code as u8)
    } else {
        None
    }
}

/// The key and the code that are told.
fn answered_in(text: &[u8; RECORD]) -> Option<Note>
    ensures { result ≡ answered_in text.now }
{
    let base = type_in(text)?;
    let stan = trace_at(text, 5)?;
    let sent = long_at(text, 15)?;
    let acquirer = long_at(text, 35)?;
    let code = code_in(text)?;
    let key = TxKey {
        base,
        stan,
        sent,
        acquirer,
    };
    Some(Note::Told(key, code))
}

/// An order's 99 bytes with no answer behind them.
fn without_answer(text: &[u8; RECORD]) -> [u8; RECORD]
    ensures { result ≡ take 99 text.now ++ no_answer }
{
    let mut row = [b' '; RECORD];
    put_order_of(&mut row, text);
    put(&mut row, 99, NO_ANSWER);
    row
}

/// The order that is told.
fn begun_in(text: &[u8; RECORD]) -> Option<Note>
    ensures { result ≡ begun_in text.now }
{
    let row = read_row(&without_answer(text))?;
    Some(Note::Begun(row.order))
}

/// What happened.
fn note_in(text: &[u8; RECORD]) -> Option<Note>
    ensures { result ≡ note_by (slice_index text.now 99) text.now }
{
    match text[99] {
        b'B' => begun_in(text),
        b'T' => Some(Note::TimedOut(trace_at(text, 0)?)),
        b'A' => answered_in(text),
        _ => None,
    }
}

/// As `read_line`, by the parts.
#[tactic(auto, unfolding(crate::specs::Line::line_in))]
fn line_in(text: &[u8; RECORD]) -> Option<Line>
    ensures value { result ≡ line_in text.now }
{
    let note = note_in(text)?;
    let place = long_at(text, 100)?;
    let line = Line { place, note };
    if line_bytes(&line) == *text {
        Some(line)
    } else {
        None
    }
}

/// The note and the place that a record is, `None` for any other bytes. Takes no memory.
pub fn read_line(text: &[u8; RECORD]) -> Option<Line>
    // It is the note and the place that the bytes tell, and `None` where they are no such record.
    ensures value { result ≡ line_in text.now }
    // The record of a note and a place that the code can hold is read as that note at that place.
    ensures back { (l : Line) → IsLine l → line_bytes l ≡ text.now → result ≡ Some l }
    // Bytes that are read as a note and a place are the very bytes of their record.
    ensures only { IfSome result (λ l. line_bytes l ≡ text.now) }
{
    lines_come_back();
    nothing_else();
    line_in(text)
}
