//! Bytes that are no message, messages cut at every length, and every bit without a row: `unpack`, `view` and `feed` refuse them
//! alike.

use super::cases::Known::{self, Echo, PackedEcho, Payment, Reversal};
use super::cases::case_of;
use super::pieces::{is_read_in, is_read_in_two};
use super::stops::{
    BAD_FILLERS, BAD_LENGTHS, BAD_PACKED_PIECES_87, BAD_PIECES_87, BAD_TERMINALS, RAW_BITS,
    REFUSED_BYTES, Stop, check_stops,
};
use super::*;
use iso_wire::UnpackCause::{ThirdBitmap, UnknownElement};
use std::alloc::AllocError;

/// That a message, cut at any length, is short, and is read once its other piece comes.
fn check_cuts(
    alloc: Global,
    table: &Table,
    known: Known,
    pieces: &[(usize, u8)],
) -> Result<(), Fail> {
    let case = case_of(known);
    for size in 0..case.bytes.len() {
        let short = short_at(pieces, size);
        let is_cut = are_refused(alloc, table, &case.bytes[..size], short)
            && is_read_in_two(alloc, table, known, size);
        check_at(is_cut, case.name, size)?;
    }
    Ok(())
}

/// The fault of a message whose bit `n` is set and has no row; its bitmaps begin at `first` and `second`.
fn unknown(n: u8, first: u8, second: u8) -> UnpackFault {
    UnpackFault {
        at: usize::from(if n <= 64 { first } else { second }),
        element: if n <= 64 { 0 } else { 1 },
        cause: if n == 65 {
            ThirdBitmap
        } else {
            UnknownElement(n)
        },
    }
}

/// A hexadecimal digit with one more bit.
fn with_bit(digit: u8, bit: u8) -> u8 {
    let value = match digit {
        b'0'..=b'9' => digit - b'0',
        _ => digit % 32 + 9,
    };
    match value | bit {
        value @ 0..=9 => b'0' + value,
        value @ 10..=15 => b'A' + (value - 10),
        _ => digit,
    }
}

/// A message, the coding of its bitmaps, where they begin, and their last bit.
#[derive(Clone, Copy)]
struct Marked {
    name: &'static str,
    bytes: &'static [u8],
    coding: BitmapCoding,
    first: u8,
    second: u8,
    last: u8,
}

/// A message whose bitmaps are of hexadecimal digits.
macro_rules! marked {
    ($name:expr, $bytes:expr, $last:expr) => {
        Bits(Marked {
            name: $name,
            bytes: $bytes,
            coding: BitmapCoding::Hex,
            first: 4,
            second: 20,
            last: $last,
        })
    };
}

/// A message whose bitmaps stand as they are.
macro_rules! raw_marked {
    ($name:expr, $bytes:expr, $first:expr, $last:expr) => {
        Bits(Marked {
            name: $name,
            bytes: $bytes,
            coding: BitmapCoding::Raw,
            first: $first,
            second: $first + 8,
            last: $last,
        })
    };
}

/// Where the bit at that place of the bitmaps stands, counted from the first bitmap.
fn index_of(coding: BitmapCoding, place: u8) -> usize {
    match coding {
        BitmapCoding::Hex => place as usize / 4,
        BitmapCoding::Raw => place as usize / 8,
    }
}

/// A byte of bitmaps with the bit of that place.
fn with_mark(coding: BitmapCoding, byte: u8, place: u8) -> u8 {
    match coding {
        BitmapCoding::Hex => with_bit(byte, 8 >> (place % 4)),
        BitmapCoding::Raw => byte | (128 >> (place % 8)),
    }
}

/// The bytes of a message with the bit at that place set in its bitmaps.
fn with_place(alloc: Global, marked: &Marked, place: u8) -> Result<Vec<u8>, AllocError> {
    let mut bytes = Vec::from_slice(alloc, marked.bytes)?;
    let first = usize::from(marked.first);
    let index = first.saturating_add(index_of(marked.coding, place));
    if let Some(byte) = bytes.get_mut(index) {
        *byte = with_mark(marked.coding, *byte, place);
    }
    Ok(bytes)
}

/// Whether a message is refused once the bit of an element without a row is set.
fn is_bit_refused(alloc: Global, table: &Table, marked: &Marked, n: u8) -> bool {
    let fault = unknown(n, marked.first, marked.second);
    match with_place(alloc, marked, n.saturating_sub(1)) {
        Ok(bytes) => are_refused(alloc, table, &bytes, fault),
        Err(_) => false,
    }
}

/// Whether the bit has a row, or the message is refused once it is set.
fn has_row_or_is_refused(alloc: Global, table: &Table, marked: &Marked, n: u8) -> bool {
    table.row(n).is_some() || is_bit_refused(alloc, table, marked, n)
}

/// Tries a message with each bit set that has no row.
fn check_bits(alloc: Global, table: &Table, marked: &Marked) -> Result<(), Fail> {
    for n in 2..=marked.last {
        let is_so = has_row_or_is_refused(alloc, table, marked, n);
        check_at(is_so, marked.name, usize::from(n))?;
    }
    Ok(())
}

/// What is refused alike, or read in pieces as it is read whole.
#[derive(Clone, Copy)]
enum Alike {
    /// A message, and where each of its pieces begins, with its element.
    Cuts(Known, &'static [(usize, u8)]),
    Bits(Marked),
    /// A message, the size of each piece, how often more is wanted, and how many bytes of the last piece are used.
    Pieces(&'static str, Known, usize, usize, usize),
}

use Alike::{Bits, Cuts, Pieces};

/// Bytes that are no message under each table.
const STOPS: &[(Under, &[Stop])] = &[
    (Ascii, REFUSED_BYTES),
    (Packed, BAD_FILLERS),
    (Ascii87, BAD_PIECES_87),
    (Bcd87, BAD_PACKED_PIECES_87),
    (Terminals, BAD_TERMINALS),
    (RawTerminals, RAW_BITS),
    (Chips(9_998), BAD_LENGTHS),
];

/// What is so under each table.
const ALIKE: &[(Under, Alike)] = &[
    (Ascii87, Cuts(Echo, ECHO_PIECES)),
    (Ascii, Cuts(Echo, ECHO_PIECES)),
    (Ascii87, Cuts(Payment, PAYMENT_PIECES)),
    (Ascii87, Cuts(Reversal, REVERSAL_PIECES)),
    (Bcd87, Cuts(PackedEcho, PACKED_ECHO_PIECES)),
    (Ascii, marked!("echo", ECHO, 128)),
    (Ascii, marked!("payment", PAYMENT, 64)),
    (Ascii, marked!("reversal", REVERSAL, 128)),
    (Packed, raw_marked!("echo under BCD", PACKED_ECHO, 2, 128)),
    (
        RawTerminals,
        raw_marked!("one bit alone", b"0800\0\0\0\0\0\0\0\0", 4, 64),
    ),
    (
        RawTerminals,
        raw_marked!(
            "one bit alone behind that of the secondary bitmap",
            b"0800\x80\0\0\0\0\0\0\0\0\0\0\0\0\0\0\0",
            4,
            128
        ),
    ),
    (Ascii87, Pieces("one byte each", Echo, 1, 54, 1)),
    (Ascii87, Pieces("seven bytes each", Echo, 7, 7, 6)),
    (Ascii87, Pieces("54 bytes and one", Echo, 54, 1, 1)),
    (Ascii87, Pieces("all bytes", Echo, 55, 0, 55)),
    (
        Ascii87,
        Pieces("one byte each of a payment", Payment, 1, 81, 1),
    ),
    (
        Ascii87,
        Pieces("one byte each of a reversal", Reversal, 1, 100, 1),
    ),
    (
        Bcd87,
        Pieces("one byte each under BCD", PackedEcho, 1, 27, 1),
    ),
];

/// That it is so.
fn check_alike(alloc: Global, table: &Table, alike: Alike) -> Result<(), Fail> {
    match alike {
        Cuts(known, pieces) => check_cuts(alloc, table, known, pieces),
        Bits(marked) => check_bits(alloc, table, &marked),
        Pieces(name, known, size, wanted, used) => {
            check(is_read_in(alloc, table, known, size, wanted, used), name)
        }
    }
}

/// That bytes are refused under that table.
fn check_stops_under(alloc: Global, under: Under, stops: &[Stop]) -> Result<(), Fail> {
    let table = table_of(alloc, under)?;
    check_stops(alloc, &table, stops)
}

/// That it is so under that table.
fn check_alike_under(alloc: Global, under: Under, alike: Alike) -> Result<(), Fail> {
    let table = table_of(alloc, under)?;
    check_alike(alloc, &table, alike)
}

#[test]
fn bytes_that_are_no_message_are_refused(rt: HostRuntime) -> Result<(), Fail> {
    for (under, stops) in STOPS {
        check_stops_under(rt.alloc(), *under, *stops)?;
    }
    Ok(())
}

#[test]
fn bytes_are_refused_alike(rt: HostRuntime) -> Result<(), Fail> {
    for (under, alike) in ALIKE {
        check_alike_under(rt.alloc(), *under, *alike)?;
    }
    Ok(())
}
