//! Where bytes stop being a message: `unpack`, `view` and `feed` refuse them alike.

use super::*;
use iso_parts::FieldFault;
use iso_wire::UnpackCause::{
    BadHex, BadMti, Field, Short, ThirdBitmap, UnknownElement, WrongVersion,
};

/// Bytes that are no message, where they stop being one, in the piece of which element, and why.
pub(super) type Stop = (&'static str, &'static [u8], usize, u8, UnpackCause);

pub(super) const REFUSED_BYTES: &[Stop] = &[
    ("no bytes", b"", 0, 0, Short),
    ("a letter in the type", b"08A0", 0, 0, BadMti),
    ("another version", b"1800", 0, 0, WrongVersion),
    (
        "a letter in the primary bitmap",
        b"0800022G000000000000",
        4,
        0,
        BadHex,
    ),
    (
        "a letter in the secondary bitmap",
        b"08008000000000000000000000000000000x",
        20,
        1,
        BadHex,
    ),
    (
        "a third bitmap",
        b"080080000000000000008000000000000000",
        20,
        1,
        ThirdBitmap,
    ),
    (
        "two elements without a row",
        b"08000880000000000000",
        4,
        0,
        UnknownElement(5),
    ),
    (
        "a late element without a row",
        b"080080000000000000004000000000000000",
        20,
        1,
        UnknownElement(66),
    ),
    (
        "a length above the maximum",
        b"0200400000000000000020",
        20,
        2,
        Field(FieldFault::LengthOver),
    ),
    (
        "a letter in a length",
        b"020040000000000000001x",
        20,
        2,
        Field(FieldFault::BadLengthDigits),
    ),
    ("half a length", b"020040000000000000001", 20, 2, Short),
    (
        "a value without its end",
        b"0200400000000000000016411",
        22,
        2,
        Short,
    ),
    (
        "a letter among digits",
        b"02007220000100008000164111111111111111x0000000000000",
        38,
        3,
        Field(FieldFault::NotInClass),
    ),
];

/// The packed echo test with another last element.
pub(super) const BAD_FILLERS: &[Stop] = &[
    (
        "a filler 1",
        b"\x08\x00\x82\x20\0\0\0\0\0\0\x04\0\0\0\0\0\0\0\x01\x02\x03\x04\x05\0\0\x01\x13\x01",
        26,
        70,
        Field(FieldFault::BadFiller),
    ),
    (
        "a nibble A",
        b"\x08\x00\x82\x20\0\0\0\0\0\0\x04\0\0\0\0\0\0\0\x01\x02\x03\x04\x05\0\0\x01\x03\x0A",
        26,
        70,
        Field(FieldFault::NotInClass),
    ),
];

pub(super) const BAD_PIECES_87: &[Stop] = &[
    ("a bad type, and no more", b"08A0", 0, 0, BadMti),
    (
        "a bad type, and a bad bitmap",
        b"08A0x0000000000000000",
        0,
        0,
        BadMti,
    ),
    (
        "a value that isn't of digits, and later bytes are missing",
        b"02007220000100008000164111111111111111x00000000000",
        38,
        3,
        Field(FieldFault::NotInClass),
    ),
    (
        "two values that aren't of digits",
        b"0200722000010000800016411111111111111100000x00000000100x010203040500000705123458",
        38,
        3,
        Field(FieldFault::NotInClass),
    ),
    (
        "a length that isn't of digits before a value that isn't",
        b"020060000000000000001xx00000",
        20,
        2,
        Field(FieldFault::BadLengthDigits),
    ),
    (
        "a length above the maximum, and no value",
        b"0200400000000000000020",
        20,
        2,
        Field(FieldFault::LengthOver),
    ),
    (
        "no value behind an empty one",
        b"0200600000000000000000",
        22,
        3,
        Short,
    ),
    (
        "a MAC that isn't of hexadecimal digits",
        b"080000000000000000010123456789ABCDEG",
        20,
        64,
        Field(FieldFault::BadHex),
    ),
    (
        "a payment without its last byte",
        b"020072200001000080001641111111111111110000000000000010000102030405000007051234584",
        79,
        49,
        Short,
    ),
    (
        "a letter among digits",
        b"02007220000100008000164111111111111111x0000000000000100001020304050000070512345840",
        38,
        3,
        Field(FieldFault::NotInClass),
    ),
    (
        "a letter among digits, cut behind it",
        b"02007220000100008000164111111111111111x00000000000",
        38,
        3,
        Field(FieldFault::NotInClass),
    ),
];

pub(super) const BAD_PACKED_PIECES_87: &[Stop] = &[
    (
        "a first nibble 1 of a length",
        b"\x08\x00\0\0\0\0\0\0\x04\0\x10\x20",
        10,
        54,
        Field(FieldFault::BadLengthDigits),
    ),
    (
        "a length above the maximum",
        b"\x08\x00\x40\0\0\0\0\0\0\0\x20",
        10,
        2,
        Field(FieldFault::LengthOver),
    ),
    (
        "a filler 1 before a nibble A",
        b"\x08\x00\x40\0\0\0\0\0\0\0\x03\x1A\x23",
        11,
        2,
        Field(FieldFault::BadFiller),
    ),
    (
        "a nibble A behind the filler",
        b"\x08\x00\x40\0\0\0\0\0\0\0\x03\x0A\x23",
        11,
        2,
        Field(FieldFault::NotInClass),
    ),
];

pub(super) const BAD_TERMINALS: &[Stop] = &[
    ("a letter in the type", b"08A0", 0, 0, BadMti),
    (
        "bits 5 and 9",
        b"08000880000000000000",
        4,
        0,
        UnknownElement(5),
    ),
    (
        "bits 1 and 5, and no secondary bitmap",
        b"08008800000000000000",
        4,
        0,
        UnknownElement(5),
    ),
    (
        "bits 1 and 66",
        b"080080000000000000004000000000000000",
        20,
        1,
        UnknownElement(66),
    ),
    (
        "bits 1, 66 and 128",
        b"080080000000000000004000000000000001",
        20,
        1,
        UnknownElement(66),
    ),
];

/// A bit whose element has a row, but no bytes.
pub(super) const RAW_BITS: &[Stop] = &[("bit 41", b"0800\0\0\0\0\0\x80\0\0", 12, 41, Short)];

/// Four digits of a length.
pub(super) const BAD_LENGTHS: &[Stop] = &[
    (
        "one byte too many",
        b"080000000000000100009999",
        20,
        48,
        Field(FieldFault::LengthOver),
    ),
    (
        "a letter",
        b"08000000000000010000000x",
        20,
        48,
        Field(FieldFault::BadLengthDigits),
    ),
    ("three digits", b"08000000000000010000000", 20, 48, Short),
    (
        "no byte of 9,998",
        b"080000000000000100009998",
        24,
        48,
        Short,
    ),
];

/// Whether the bytes are refused where they stop being a message.
fn is_refused(alloc: Global, table: &Table, refused: &Stop) -> bool {
    let (_, bytes, at, element, cause) = refused;
    are_refused(alloc, table, *bytes, stop(*at, *element, *cause))
}

/// That each of the bytes is refused where it stops being a message.
pub(super) fn check_stops(alloc: Global, table: &Table, stops: &[Stop]) -> Result<(), Fail> {
    for refused in stops {
        check(is_refused(alloc, table, refused), refused.0)?;
    }
    Ok(())
}
