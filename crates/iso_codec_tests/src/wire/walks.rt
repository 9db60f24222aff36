//! The pieces of a message, one after another, and the elements of a view.

use super::stops::{REFUSED_BYTES, Stop};
use super::*;

/// Whether the pieces that have bytes begin there, for those elements, are good and follow one another up to the end.
fn walks(table: &Table, bytes: &[u8], starts: &[(usize, u8)]) -> bool {
    let mut left = starts;
    let mut end = 0;
    for piece in pieces_of(table, bytes) {
        if piece.start != end || piece.fault.is_some() {
            return false;
        }
        end = piece.end;
        if piece.start < piece.end {
            let [first, later @ ..] = left else {
                return false;
            };
            if *first != (piece.start, piece.element) {
                return false;
            }
            left = later;
        }
    }
    left.is_empty() && end == bytes.len()
}

/// The last piece of the bytes.
fn last_piece(table: &Table, bytes: &[u8]) -> Option<Piece> {
    let mut last = None;
    for piece in pieces_of(table, bytes) {
        last = Some(piece);
    }
    last
}

/// Messages under their tables, and where each of their pieces begins, with its element.
const WALKS: &[(&str, Under, &[u8], &[(usize, u8)])] = &[
    ("echo", Ascii, ECHO, ECHO_PIECES),
    ("payment", Ascii, PAYMENT, PAYMENT_PIECES),
    ("reversal", Ascii, REVERSAL, REVERSAL_PIECES),
    ("packed echo", Packed, PACKED_ECHO, PACKED_ECHO_PIECES),
];

/// Whether the pieces of a message are told under that table.
fn are_told(alloc: Global, under: Under, bytes: &[u8], starts: &[(usize, u8)]) -> bool {
    match table_of(alloc, under) {
        Ok(table) => walks(&table, bytes, starts),
        Err(_) => false,
    }
}

#[test]
fn pieces_are_told(rt: HostRuntime) -> Result<(), Fail> {
    for (name, under, bytes, starts) in WALKS {
        check(are_told(rt.alloc(), *under, *bytes, *starts), *name)?;
    }
    Ok(())
}

/// Whether the last piece of the bytes tells that they stop being a message there.
fn stops_so(table: &Table, refused: &Stop) -> bool {
    let (_, bytes, at, element, cause) = refused;
    match last_piece(table, *bytes) {
        Some(piece) => {
            piece.start == *at && piece.element == *element && piece.fault == Some(*cause)
        }
        None => false,
    }
}

/// That the last piece of each of the bytes does.
fn check_last_pieces(table: &Table, refused: &[Stop]) -> Result<(), Fail> {
    for stop in refused {
        check(stops_so(table, stop), stop.0)?;
    }
    Ok(())
}

#[test]
fn last_pieces_stop(rt: HostRuntime) -> Result<(), Fail> {
    let table = table_of(rt.alloc(), Ascii)?;
    check_last_pieces(&table, REFUSED_BYTES)
}

/// Bytes that are no message under a table, and the offset of the byte that is to blame.
const BLAMED: &[(&str, Under, &[u8], usize)] = &[
    ("a letter in the type", Ascii, b"08A0", 2),
    ("another version", Ascii, b"1800", 0),
    (
        "a letter in the primary bitmap",
        Ascii,
        b"0800022G000000000000",
        7,
    ),
    (
        "a letter in the secondary bitmap",
        Ascii,
        b"08008000000000000000000000000000000x",
        35,
    ),
    (
        "a third bitmap",
        Ascii,
        b"080080000000000000008000000000000000",
        20,
    ),
    ("a letter in a length", Ascii, b"020040000000000000001x", 21),
    (
        "a length above the maximum",
        Ascii,
        b"0200400000000000000020",
        20,
    ),
    ("half a length", Ascii, b"020040000000000000001", 21),
    (
        "a nibble A",
        Packed,
        b"\x08\x00\x82\x20\0\0\0\0\0\0\x04\0\0\0\0\0\0\0\x01\x02\x03\x04\x05\0\0\x01\x03\x0A",
        27,
    ),
];

/// The offset of the byte that is to blame.
fn bad_byte(table: &Table, bytes: &[u8]) -> Option<usize> {
    match last_piece(table, bytes) {
        Some(piece) => Some(piece.first_bad(table, bytes)),
        None => None,
    }
}

/// Whether the byte there is to blame under that table.
fn is_blamed(alloc: Global, under: Under, bytes: &[u8], at: usize) -> bool {
    match table_of(alloc, under) {
        Ok(table) => bad_byte(&table, bytes) == Some(at),
        Err(_) => false,
    }
}

#[test]
fn first_bad_bytes(rt: HostRuntime) -> Result<(), Fail> {
    for (name, under, bytes, at) in BLAMED {
        check(is_blamed(rt.alloc(), *under, *bytes, *at), *name)?;
    }
    Ok(())
}

/// Whether that is the value of an element of the view.
fn has_value(alloc: Global, table: &Table, viewed: &View, n: u8, value: &[u8]) -> bool {
    match viewed.value(alloc, table, n) {
        Ok(Some(got)) => got.as_slice() == value,
        _ => false,
    }
}

/// Whether the elements of the view are these, and it gives their values.
fn has_elements(alloc: Global, table: &Table, viewed: &View, elements: Elements) -> bool {
    let mut left = viewed.iter();
    for (n, value) in elements {
        let is_next = left.next() == Some((*n, *value));
        if !is_next || !has_value(alloc, table, viewed, *n, *value) {
            return false;
        }
    }
    left.next() == None
}

/// Whether the elements of the view of some bytes are these.
fn gives_viewed(alloc: Global, table: &Table, bytes: &[u8], elements: Elements) -> bool {
    match view(table, bytes) {
        Ok(viewed) => has_elements(alloc, table, &viewed, elements),
        Err(_) => false,
    }
}

/// Whether the view has no such element.
fn lacks(alloc: Global, table: &Table, bytes: &[u8], n: u8) -> bool {
    match view(table, bytes) {
        Ok(viewed) => matches!(viewed.value(alloc, table, n), Ok(None)),
        Err(_) => false,
    }
}

/// That the view of an echo test gives its elements and no other.
fn check_viewed(alloc: Global, table: &Table) -> Result<(), Fail> {
    check(gives_viewed(alloc, table, ECHO, ECHO_ELEMENTS), "echo")?;
    check(lacks(alloc, table, ECHO, 2), "no element 2")
}

#[test]
fn views_give_elements(rt: HostRuntime) -> Result<(), Fail> {
    let table = table_of(rt.alloc(), Ascii)?;
    check_viewed(rt.alloc(), &table)
}
