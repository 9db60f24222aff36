//! Parts that are judged, and not read.

use super::*;

/// What is judged, and the answer.
#[derive(Clone, Copy)]
pub(super) enum Judgement {
    /// A part under a row.
    Part(FieldSpec, &'static [u8], Result<Judged, FieldFault>),
    /// The front of a part under a row, and the length that it tells.
    Count(FieldSpec, &'static [u8], Result<Option<u16>, FieldFault>),
    /// A body of three packed digits.
    Body(&'static [u8], Result<Option<usize>, FieldFault>),
}

use Judgement::{Body, Count, Part};

/// An account number whose count alone is packed.
const ACCOUNT_BEHIND_BCD: FieldSpec = number!(Coding::Ascii, LL_BCD, 19);

const FILLED: FieldSpec = zero_filled!(Coding::Bcd);

const HEX: FieldSpec = bytes!(Coding::HexText, LL, 9);

const MAC: FieldSpec = bytes!(Coding::HexText, Length::Fixed, 8);

const LONG: FieldSpec = text!(LLL_BCD, 120);

const FOUR: FieldSpec = bytes!(Coding::HexText, LLLL, 9_998);

const PACKED_FOUR: FieldSpec = bytes!(Coding::Raw, LLLL_BCD, 9_999);

pub(super) const JUDGEMENTS: &[(&'static str, Told)] = &[
    (
        "an account number of 15 digits",
        Told::Judged(Part(
            PACKED_ACCOUNT_ROW,
            b"\x15\x03\x78\x28\x22\x46\x31\x00\x05",
            Ok(Judged::Got { body: 1, used: 9 }),
        )),
    ),
    (
        "its length alone",
        Told::Judged(Part(PACKED_ACCOUNT_ROW, b"\x15", Ok(Judged::More))),
    ),
    (
        "a whole value",
        Told::Judged(Part(
            ACCOUNT_BEHIND_BCD,
            b"\x0212",
            Ok(Judged::Got { body: 1, used: 3 }),
        )),
    ),
    (
        "no bytes",
        Told::Judged(Part(ACCOUNT_BEHIND_BCD, b"", Ok(Judged::More))),
    ),
    (
        "an unfinished body",
        Told::Judged(Part(ACCOUNT_BEHIND_BCD, b"\x021", Ok(Judged::More))),
    ),
    (
        "no digits",
        Told::Judged(Part(
            ACCOUNT_BEHIND_BCD,
            b"\x1A1",
            Err(FieldFault::BadLengthDigits),
        )),
    ),
    (
        "too long",
        Told::Judged(Part(ACCOUNT_BEHIND_BCD, b"\x20", Err(FieldFault::LengthOver))),
    ),
    (
        "a bad filler",
        Told::Judged(Part(
            PACKED_ACCOUNT_ROW,
            b"\x03\x11\x23",
            Err(FieldFault::BadFiller),
        )),
    ),
    (
        "a nibble above 9",
        Told::Judged(Part(
            PACKED_ACCOUNT_ROW,
            b"\x03\xF1\x2A",
            Err(FieldFault::NotInClass),
        )),
    ),
    (
        "filled up",
        Told::Judged(Part(
            FILLED,
            b"\x00\x01\x23",
            Ok(Judged::Got { body: 0, used: 3 }),
        )),
    ),
    (
        "no hexadecimal digit",
        Told::Judged(Part(HEX, b"01G0", Err(FieldFault::BadHex))),
    ),
    (
        "a length of 15 digits",
        Told::Judged(Count(PACKED_ACCOUNT_ROW, b"\x15", Ok(Some(15)))),
    ),
    (
        "no byte of a length",
        Told::Judged(Count(PACKED_ACCOUNT_ROW, b"", Ok(None))),
    ),
    (
        "a length of 20 digits",
        Told::Judged(Count(PACKED_ACCOUNT_ROW, b"\x20", Err(FieldFault::LengthOver))),
    ),
    (
        "a nibble A in a length",
        Told::Judged(Count(
            PACKED_ACCOUNT_ROW,
            b"\x1A",
            Err(FieldFault::BadLengthDigits),
        )),
    ),
    (
        "no length before the value",
        Told::Judged(Count(TERMINAL_ROW, b"", Ok(Some(8)))),
    ),
    (
        "three digits, and a byte behind",
        Told::Judged(Body(b"\x01\x23\x45", Ok(Some(2)))),
    ),
    ("one byte of two", Told::Judged(Body(b"\x01", Ok(None)))),
    (
        "a filler 1",
        Told::Judged(Body(b"\x11\x23", Err(FieldFault::BadFiller))),
    ),
    (
        "a nibble A",
        Told::Judged(Body(b"\x01\x2A", Err(FieldFault::NotInClass))),
    ),
    (
        "G is no digit",
        Told::Judged(Part(MAC, b"0123456789ABCDEG", Err(FieldFault::BadHex))),
    ),
    (
        "a leading nibble",
        Told::Judged(Part(LONG, b"\x10\x20", Err(FieldFault::BadLengthDigits))),
    ),
    (
        "a letter in a length",
        Told::Judged(Part(ACCOUNT_ROW, b"1x", Err(FieldFault::BadLengthDigits))),
    ),
    (
        "a length over the maximum",
        Told::Judged(Part(ACCOUNT_ROW, b"20", Err(FieldFault::LengthOver))),
    ),
    (
        "a letter in a length that begins above the maximum",
        Told::Judged(Part(ACCOUNT_ROW, b"9x", Err(FieldFault::BadLengthDigits))),
    ),
    (
        "9,999 of 9,998 bytes",
        Told::Judged(Part(FOUR, b"9999", Err(FieldFault::LengthOver))),
    ),
    (
        "a letter behind three digits of a length",
        Told::Judged(Part(FOUR, b"000x", Err(FieldFault::BadLengthDigits))),
    ),
    (
        "a nibble above 9 in four digits of a length",
        Told::Judged(Part(PACKED_FOUR, b"\xA0\x00", Err(FieldFault::BadLengthDigits))),
    ),
    (
        "a filler of 1",
        Told::Judged(Part(
            PACKED_ACCOUNT_ROW,
            b"\x03\x13\x01",
            Err(FieldFault::BadFiller),
        )),
    ),
    (
        "a filler of 1 before a nibble above 9",
        Told::Judged(Part(
            PACKED_ACCOUNT_ROW,
            b"\x03\x1A\x01",
            Err(FieldFault::BadFiller),
        )),
    ),
    (
        "a nibble above 9",
        Told::Judged(Part(PACKED_ACCOUNT_ROW, b"\x02\x0A", Err(FieldFault::NotInClass))),
    ),
    (
        "no byte",
        Told::Judged(Part(ACCOUNT_ROW, b"", Ok(Judged::More))),
    ),
    (
        "half a length",
        Told::Judged(Part(ACCOUNT_ROW, b"1", Ok(Judged::More))),
    ),
    (
        "a length alone",
        Told::Judged(Part(ACCOUNT_ROW, b"03", Ok(Judged::More))),
    ),
    (
        "a body without its end",
        Told::Judged(Part(ACCOUNT_ROW, b"0312", Ok(Judged::More))),
    ),
    (
        "filler F",
        Told::Judged(Part(
            PACKED_ACCOUNT_ROW,
            b"\x15\xF3\x78\x28\x22\x46\x31\x00\x05",
            Ok(Judged::Got { body: 1, used: 9 }),
        )),
    ),
    (
        "digits in lower case",
        Told::Judged(Part(
            MAC,
            b"0123456789abcdef",
            Ok(Judged::Got { body: 0, used: 16 }),
        )),
    ),
];

/// Whether three packed digits are judged so.
fn are_three_digits(bytes: &[u8], want: Result<Option<usize>, FieldFault>) -> bool {
    let packed = PACKED_ACCOUNT_ROW;
    packed.good().is_ok() && 3 <= packed.max && judge_body(&packed, 3, bytes) == want
}

/// Whether that is the answer.
pub(super) fn is_judged(judgement: Judgement) -> bool {
    match judgement {
        Part(row, part, want) => is_judged_field(&row, part, want),
        Count(row, front, want) => judge_length(&row, front) == want,
        Body(bytes, want) => are_three_digits(bytes, want),
    }
}
