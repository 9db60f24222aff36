//! Writing a record.
ghost use Rattle.std.specs.Prelude.{◌≡◌, ◌≤◌, ◌+◌, ◌<◌, ◌^◌, ◌++◌, ◌∷◌, [], length, take, true};
ghost use Rattle.iso_log.specs.Slots.{is_whole};
ghost use Rattle.iso_order.specs.Order.{is_valid};
ghost use Rattle.iso_record.specs.Row.{order_bytes};
ghost use Rattle.iso_diary.specs.Line.{answered_bytes, body, letter, tail, line_bytes, IsKey, IsNote, IsLine};

use crate::laws::lines_are_whole;
use crate::line::Line;
use crate::putting::{put, put_blanks, put_long, put_number, put_order_of};
use iso_log::RECORD;
use iso_order::{Answer, Order, TxKey};
use iso_record::{Row, row_bytes};
use iso_restarts::Note;

/// Puts the order of a payment that began, as a journal has it.
fn put_order(bytes: &mut [u8; RECORD], order: &Order)
    ensures bytes { take 99 bytes.new ≡ order_bytes order.now }
    ensures valid { is_valid order.now ≡ true }
{
    let answer = Answer {
        code: 0,
        seq: 0,
        shown: None,
    };
    let row = row_bytes(&Row {
        order: *order,
        answer,
    });
    put_order_of(bytes, &row);
}

/// Puts the key of an order that got an answer, and the answer's code.
fn put_answered(bytes: &mut [u8; RECORD], key: TxKey, code: u8)
    ensures bytes { take 99 bytes.new ≡ answered_bytes key code }
    ensures key { IsKey key }
    ensures code { code < 2 ^ 8 }
{
    put_number(bytes, 0, 5, key.base as u64);
    put_number(bytes, 5, 10, key.stan as u64);
    put_long(bytes, 15, key.sent);
    put_long(bytes, 35, key.acquirer);
    put_number(bytes, 55, 3, code as u64);
    put_blanks(bytes, 58, 41);
}

/// Puts the trace number that timed out.
fn put_trace(bytes: &mut [u8; RECORD], stan: u32)
    ensures { take 99 bytes.new ≡ body (Note.TimedOut stan) }
{
    put_number(bytes, 0, 10, stan as u64);
    put_blanks(bytes, 10, 89);
}

/// Puts what happened in front.
fn put_body(bytes: &mut [u8; RECORD], note: &Note)
    ensures bytes { take 99 bytes.new ≡ body note.now }
    ensures valid { IsNote note.now }
{
    match note {
        Note::Begun(order) => put_order(bytes, order),
        Note::TimedOut(stan) => put_trace(bytes, *stan),
        Note::Told(key, code) => put_answered(bytes, *key, *code),
    }
}

/// The letter of what happened.
fn letter(note: &Note) -> u8
    ensures { result ≡ letter note.now }
{
    match note {
        Note::Begun(_) => b'B',
        Note::TimedOut(_) => b'T',
        Note::Told(_, _) => b'A',
    }
}

/// Puts the letter and the place behind what happened.
fn put_tail(bytes: &mut [u8; RECORD], letter: u8, place: u64)
    ensures { take 128 bytes.new ≡ take 99 bytes.old ++ tail letter place }
{
    put(bytes, 99, &[letter]);
    put_long(bytes, 100, place);
    put_blanks(bytes, 120, 7);
    put(bytes, 127, b"\n");
}

/// The record of a note and its place. Takes no memory.
pub fn line_bytes(line: &Line) -> [u8; RECORD]
    // It has what happened in 99 bytes, its letter, the place in 20 digits, blanks, the line's end.
    ensures bytes { result ≡ line_bytes line.now }
    // The place and the numbers of the note are within their bounds, and an order in it is
    // one that a message can ask.
    ensures line { IsLine line.now }
    // It has 128 bytes, and none of them is zero.
    ensures whole { is_whole result ≡ true }
{
    lines_are_whole();
    let mut bytes = [b' '; RECORD];
    put_body(&mut bytes, &line.note);
    put_tail(&mut bytes, letter(&line.note), line.place);
    bytes
}
