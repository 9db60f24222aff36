//! Messages: what is read of bytes, and which bytes are written.

use super::parts::TERMINAL_ROW;
use super::table::{draft, table87};
use iso_fakes::{check, check_of};
use iso_parts::{BitmapCoding, CharClass, Coding, Digits, FieldSpec, Length, Mti, Pad};
use iso_table::{Table, TableFault};
use iso_wire::*;
use std::alloc::Global;
use std::test::*;

/// A row of so many digits.
macro_rules! digits {
    ($coding:ident, $max:expr) => {
        number!(Coding::$coding, Length::Fixed, $max)
    };
}

/// A row of at most so many digits, behind two digits of their count.
macro_rules! counted {
    ($max:expr) => {
        number!(Coding::Ascii, Length::LL(Digits::Ascii), $max)
    };
}

mod cases;
mod edits;
mod frames;
mod hostile;
mod masks;
mod messages;
mod pieces;
mod stops;
mod walks;

const ECHO: &[u8] = b"0800822000000000000004000000000000000102030405000001301";

const PAYMENT: &[u8] =
    b"0200722000010000800016411111111111111100000000000000100001020304050000070512345840";

const REVERSAL: &[u8] = b"04208220000100000000000000400000000001020305000000080512345\
020000000701020304050000001234500000000000";

const PACKED_ECHO: &[u8] =
    b"\x08\x00\x82\x20\0\0\0\0\0\0\x04\0\0\0\0\0\0\0\x01\x02\x03\x04\x05\0\0\x01\x03\x01";

/// Element 48 behind four digits of a length.
const CHIP: &[u8] = b"08000000000000010000000301020A";

/// A terminal that ends with a blank, and an element behind it.
const BLANK: &[u8] = b"08000000000000C00000TERM1 ab";

const BLANK_ELEMENTS: Elements = &[(41, b"TERM1 "), (42, b"ab")];

/// The packed echo test with another filler.
const FILLED_ECHO: &[u8] =
    b"\x08\x00\x82\x20\0\0\0\0\0\0\x04\0\0\0\0\0\0\0\x01\x02\x03\x04\x05\0\0\x01\xF3\x01";

/// The elements of a message.
type Elements = &'static [(u8, &'static [u8])];

const ECHO_ELEMENTS: Elements = &[(7, b"0102030405"), (11, b"000001"), (70, b"301")];

/// A terminal alone.
const TERMINAL_ROWS: &[(u8, FieldSpec)] = &[(41, TERMINAL_ROW)];

const ASCII_ROWS: &[(u8, FieldSpec)] = &[
    (2, counted!(19)),
    (3, digits!(Ascii, 6)),
    (4, digits!(Ascii, 12)),
    (7, digits!(Ascii, 10)),
    (11, digits!(Ascii, 6)),
    (13, digits!(Ascii, 4)),
    (15, digits!(Ascii, 4)),
    (32, counted!(11)),
    (41, TERMINAL_ROW),
    (49, text!(Length::Fixed, 3)),
    (70, digits!(Ascii, 3)),
    (90, digits!(Ascii, 42)),
];

const PACKED_ROWS: &[(u8, FieldSpec)] = &[
    (7, digits!(Bcd, 10)),
    (11, digits!(Bcd, 6)),
    (70, digits!(Bcd, 3)),
];

/// The rows that take the message with the blank.
const BLANK_ROWS: &[(u8, FieldSpec)] = &[
    (41, text!(Length::Fixed, 6)),
    (42, text!(Length::Fixed, 2)),
];

/// A table that messages are read under.
#[derive(Clone, Copy)]
enum Under {
    /// The table of the 1987 edition in ASCII.
    Ascii87,
    /// The one in BCD.
    Bcd87,
    /// Twelve rows in ASCII.
    Ascii,
    /// Three rows in BCD.
    Packed,
    /// A terminal alone.
    Terminals,
    /// A terminal alone, under bitmaps as they are.
    RawTerminals,
    /// What takes the message with the blank.
    Blanks,
    /// Element 48 alone: at most so many bytes as digits, behind four digits of a length.
    Chips(u16),
}

use Under::{Ascii, Ascii87, Bcd87, Blanks, Chips, Packed, RawTerminals, Terminals};

/// A table of these rows, whose type is in ASCII digits, and whose bitmaps are in hexadecimal ones.
fn ascii_table(alloc: Global, rows: &[(u8, FieldSpec)]) -> Result<Table, TableFault> {
    let draft = draft(alloc, 0, Digits::Ascii, BitmapCoding::Hex, rows)?;
    Table::check(alloc, draft)
}

/// A table of these rows, whose type is of these digits, and whose bitmaps stand as they are.
fn raw_table(alloc: Global, mti: Digits, rows: &[(u8, FieldSpec)]) -> Result<Table, TableFault> {
    let draft = draft(alloc, 0, mti, BitmapCoding::Raw, rows)?;
    Table::check(alloc, draft)
}

/// The row of that many bytes as digits, behind four digits of a length.
fn chip_row(max: u16) -> FieldSpec {
    bytes!(Coding::HexText, Length::LLLL(Digits::Ascii), max)
}

/// The table, made anew.
fn table_of(alloc: Global, under: Under) -> Result<Table, TableFault> {
    match under {
        Ascii87 => table87(alloc, Digits::Ascii),
        Bcd87 => table87(alloc, Digits::Bcd),
        Ascii => ascii_table(alloc, ASCII_ROWS),
        Packed => raw_table(alloc, Digits::Bcd, PACKED_ROWS),
        Terminals => ascii_table(alloc, TERMINAL_ROWS),
        RawTerminals => raw_table(alloc, Digits::Ascii, TERMINAL_ROWS),
        Blanks => ascii_table(alloc, BLANK_ROWS),
        Chips(max) => ascii_table(alloc, &[(48, chip_row(max))]),
    }
}

/// Whether the message gives these elements, in that order and no more.
fn gives(message: &Message, elements: &[(u8, &[u8])]) -> bool {
    let mut left = message.iter();
    for element in elements {
        if left.next() != Some(*element) {
            return false;
        }
    }
    left.next() == None
}

/// A message of that type with the elements, set in that order, if all can be set.
fn message(alloc: Global, mti: u16, elements: &[(u8, &[u8])]) -> Option<Message> {
    let mut message = Message::new(alloc, Mti::from_digits(mti)?);
    for (n, value) in elements {
        message.set(*n, value).ok()?;
    }
    Some(message)
}

/// The fault of bytes that stop being a message there, in the piece of that element.
fn stop(at: usize, element: u8, cause: UnpackCause) -> UnpackFault {
    UnpackFault { at, element, cause }
}

/// What `unpack` refuses in the bytes.
fn refused_whole(alloc: Global, table: &Table, bytes: &[u8]) -> Option<UnpackFault> {
    unpack(alloc, table, bytes).err()
}

/// What `view` refuses in them.
fn refused_view(table: &Table, bytes: &[u8]) -> Option<UnpackFault> {
    view(table, bytes).err()
}

/// What `feed` refuses in them.
fn refused_piece(alloc: Global, table: &Table, bytes: &[u8]) -> Option<UnpackFault> {
    Unpacker::new(alloc, table).feed(alloc, bytes).err()
}

/// What `unpack_into` refuses in them.
fn refused_into(alloc: Global, table: &Table, bytes: &[u8]) -> Option<UnpackFault> {
    let mut into = message(alloc, 1, &[])?;
    unpack_into(table, bytes, &mut into).err()
}

/// What an unpacker that was fed them tells of a message that ends there.
fn missing_behind(alloc: Global, table: &Table, bytes: &[u8]) -> UnpackFault {
    let mut unpacker = Unpacker::new(alloc, table);
    let _fed = unpacker.feed(alloc, bytes);
    unpacker.missing()
}

/// Whether `unpack`, `unpack_into`, `view` and `feed` all tell that fault, but that `feed` wants more where the bytes are
/// short, and tells the fault if no more comes.
fn are_refused(alloc: Global, table: &Table, bytes: &[u8], fault: UnpackFault) -> bool {
    let told = Some(fault);
    let fed = if fault.cause == UnpackCause::Short {
        None
    } else {
        told
    };
    refused_whole(alloc, table, bytes) == told
        && refused_into(alloc, table, bytes) == told
        && refused_view(table, bytes) == told
        && refused_piece(alloc, table, bytes) == fed
        && missing_behind(alloc, table, bytes) == fault
}

/// Where each piece of a message begins, with its element.
const ECHO_PIECES: &[(usize, u8)] = &[(0, 0), (4, 0), (20, 1), (36, 7), (46, 11), (52, 70)];

const PAYMENT_PIECES: &[(usize, u8)] = &[
    (0, 0),
    (4, 0),
    (20, 2),
    (22, 2),
    (38, 3),
    (44, 4),
    (56, 7),
    (66, 11),
    (72, 32),
    (74, 32),
    (79, 49),
];

const REVERSAL_PIECES: &[(usize, u8)] = &[
    (0, 0),
    (4, 0),
    (20, 1),
    (36, 7),
    (46, 11),
    (52, 32),
    (54, 32),
    (59, 90),
];

const PACKED_ECHO_PIECES: &[(usize, u8)] = &[(0, 0), (2, 0), (10, 1), (18, 7), (23, 11), (26, 70)];

/// The fault of a message cut at that size: the last piece that begins within it isn't whole.
fn short_at(pieces: &[(usize, u8)], size: usize) -> UnpackFault {
    let mut fault = stop(0, 0, UnpackCause::Short);
    for (at, element) in pieces {
        if *at <= size {
            fault.at = *at;
            fault.element = *element;
        }
    }
    fault
}

/// Ends the test with the name of a message and a count of its bytes, or the number of a bit, unless it is so.
fn check_at(is_so: bool, name: &str, at: usize) -> Result<(), Fail> {
    if is_so {
        Ok(())
    } else {
        Err(Fail::new(format_args!("{name}: {at}")))
    }
}
