//! Values and the parts that stand for them.

use super::*;
use iso_wire::digits_of;

/// A row and a value, and the part that stands for it, with two more bytes behind it.
struct Case {
    name: &'static str,
    row: FieldSpec,
    value: &'static [u8],
    longer: &'static [u8],
}

const PARTS: &[Case] = &[
    Case {
        name: "an odd number under BCD",
        row: number!(Coding::Bcd, LL_BCD, 19),
        value: b"378282246310005",
        longer: b"\x15\x03\x78\x28\x22\x46\x31\x00\x057?",
    },
    Case {
        name: "an even number under BCD",
        row: number!(Coding::Bcd, Length::Fixed, 4),
        value: b"0102",
        longer: b"\x01\x027?",
    },
    Case {
        name: "three digits of a length under BCD",
        row: text!(LLL_BCD, 120),
        value: b"0002840C000000004000",
        longer: b"\x00\x200002840C0000000040007?",
    },
    Case {
        name: "three raw bytes",
        row: bytes!(Coding::Raw, LLL_BCD, 999),
        value: b"\x9F\x26\x08",
        longer: b"\x00\x03\x9F\x26\x087?",
    },
    Case {
        name: "eight bytes as digits",
        row: bytes!(Coding::HexText, Length::Fixed, 8),
        value: b"\x01\x23\x45\x67\x89\xAB\xCD\xEF",
        longer: b"0123456789ABCDEF7?",
    },
    Case {
        name: "two bytes as digits behind a length",
        row: bytes!(Coding::HexText, LL, 8),
        value: b"\x0A\xB0",
        longer: b"020AB07?",
    },
    Case {
        name: "a signed amount",
        row: row!(CharClass::XN, Coding::Ascii, Length::Fixed, 9, Pad::None),
        value: b"D00000150",
        longer: b"D000001507?",
    },
    Case {
        name: "an empty number",
        row: number!(Coding::Ascii, LL, 19),
        value: b"",
        longer: b"007?",
    },
    Case {
        name: "an empty signed amount",
        row: row!(CharClass::XN, Coding::Ascii, LL, 9, Pad::None),
        value: b"",
        longer: b"007?",
    },
    Case {
        name: "zeros on the left",
        row: zero_filled!(Coding::Ascii),
        value: b"12",
        longer: b"0000127?",
    },
    Case {
        name: "zeros on the left alone",
        row: zero_filled!(Coding::Ascii),
        value: b"",
        longer: b"0000007?",
    },
    Case {
        name: "zeros on the left under BCD",
        row: zero_filled!(Coding::Bcd),
        value: b"123",
        longer: b"\x00\x01\x237?",
    },
    Case {
        name: "a pad on the right under BCD",
        row: row!(
            CharClass::Z,
            Coding::Bcd,
            Length::Fixed,
            5,
            Pad::Right(b'?')
        ),
        value: b"4=1",
        longer: b"\x04\xD1\xFF7?",
    },
    Case {
        name: "a track under BCD",
        row: row!(CharClass::Z, Coding::Bcd, LL_BCD, 37, Pad::None),
        value: b"4=1",
        longer: b"\x03\x04\xD17?",
    },
    Case {
        name: "a terminal with blanks",
        row: TERMINAL_ROW,
        value: b"TERM1",
        longer: b"TERM1   7?",
    },
    Case {
        name: "blanks alone",
        row: TERMINAL_ROW,
        value: b"",
        longer: b"        7?",
    },
    Case {
        name: "a terminal of full length",
        row: TERMINAL_ROW,
        value: b"TERMINAL",
        longer: b"TERMINAL7?",
    },
    Case {
        name: "letters and digits",
        row: row!(CharClass::AN, Coding::Ascii, Length::Fixed, 3, Pad::None),
        value: b"8aZ",
        longer: b"8aZ7?",
    },
    Case {
        name: "letters behind three digits of a length",
        row: row!(CharClass::A, Coding::Ascii, LLL, 999, Pad::None),
        value: b"Abc",
        longer: b"003Abc7?",
    },
    Case {
        name: "bytes as digits behind four digits of a length",
        row: bytes!(Coding::HexText, LLLL, 9_999),
        value: b"\x01\x02\x0A",
        longer: b"000301020A7?",
    },
    Case {
        name: "four digits of a length under BCD",
        row: bytes!(Coding::Raw, LLLL_BCD, 9_999),
        value: b"\x9F\x26\x08",
        longer: b"\x00\x03\x9F\x26\x087?",
    },
    Case {
        name: "an odd track behind four digits under BCD",
        row: row!(CharClass::Z, Coding::Bcd, LLLL_BCD, 9_999, Pad::None),
        value: b"4=1",
        longer: b"\x00\x03\x04\xD17?",
    },
];

/// Whether the part is judged, and then built.
fn is_built(case: &Case, used: usize, out: &mut Vec<u8>) -> bool {
    case.row.good().is_ok()
        && match judge_field(&case.row, case.longer) {
            Ok(Judged::Got { .. }) => decode_judged(&case.row, case.longer, out) == Ok(used),
            _ => false,
        }
}

/// Whether the part is written for the value, and the value is then read of it, twice, each behind what stands there.
fn is_appended(case: &Case, used: usize, out: &mut Vec<u8>) -> bool {
    case.row.good().is_ok()
        && encode_field(&case.row, case.value, out).is_ok()
        && decode_value(&case.row, case.longer, out) == Ok(Some(used))
        && is_built(case, used, out)
}

/// Whether the bytes are the part, and the value twice.
fn are_all(bytes: &[u8], part: &[u8], value: &[u8]) -> bool {
    match bytes.strip_prefix(part) {
        Some(behind) => match behind.strip_prefix(value) {
            Some(last) => last == value,
            None => false,
        },
        None => false,
    }
}

/// Whether a value of its own is read of the part.
fn is_read(alloc: Global, case: &Case, used: usize) -> bool {
    case.row.good().is_ok()
        && match decode_field(alloc, &case.row, case.longer) {
            Ok(Step::Got { value, used: taken }) => value.as_slice() == case.value && taken == used,
            _ => false,
        }
}

/// Whether a value is written as its part, and read of it, by each call.
fn is_part(alloc: Global, case: &Case, out: &mut Vec<u8>) -> bool {
    let used = case.longer.len().saturating_sub(2);
    out.truncate(0);
    is_appended(case, used, out)
        && are_all(out.as_slice(), &case.longer[..used], case.value)
        && is_read(alloc, case, used)
}

/// That each value is so.
pub(super) fn check_values(alloc: Global, out: &mut Vec<u8>) -> Result<(), Fail> {
    for case in PARTS {
        check(is_part(alloc, case, out), case.name)?;
    }
    Ok(())
}

/// What is told of digits.
#[derive(Clone, Copy)]
pub(super) enum Figure {
    /// The number that four characters are, where they are digits.
    Text([u8; 4], Option<u16>),
    /// The four digits of a number, in ASCII and in BCD.
    Written(usize, [u8; 4], [u8; 2]),
    /// The number that bytes are under a coding, where they are four digits.
    Read(Digits, &'static [u8], Option<u16>),
    /// The characters of two packed bytes.
    Characters(u8, u8, [u8; 4]),
    /// The hexadecimal digit of a nibble.
    Nibble(u8, u8),
    /// How many digits a number has.
    Counted(u64, u8),
}

use Figure::{Characters, Counted, Nibble, Read, Text, Written};

pub(super) const FIGURES: &[(&'static str, Told)] = &[
    ("four zeros", Told::Digits(Text(*b"0000", Some(0)))),
    ("zeros in front", Told::Digits(Text(*b"0055", Some(55)))),
    ("four nines", Told::Digits(Text(*b"9999", Some(9999)))),
    ("a letter", Told::Digits(Text(*b"00A5", None))),
    ("the byte before a zero", Told::Digits(Text(*b"/000", None))),
    (
        "zero written",
        Told::Digits(Written(0, *b"0000", [0x00, 0x00])),
    ),
    (
        "two digits written",
        Told::Digits(Written(55, *b"0055", [0x00, 0x55])),
    ),
    (
        "four digits written",
        Told::Digits(Written(1234, *b"1234", [0x12, 0x34])),
    ),
    (
        "the greatest written",
        Told::Digits(Written(9999, *b"9999", [0x99, 0x99])),
    ),
    (
        "ASCII digits",
        Told::Digits(Read(Digits::Ascii, b"0055", Some(55))),
    ),
    (
        "a letter among ASCII digits",
        Told::Digits(Read(Digits::Ascii, b"00A5", None)),
    ),
    (
        "three ASCII digits",
        Told::Digits(Read(Digits::Ascii, b"055", None)),
    ),
    (
        "BCD digits",
        Told::Digits(Read(Digits::Bcd, b"\x12\x34", Some(1234))),
    ),
    (
        "a nibble that is no digit",
        Told::Digits(Read(Digits::Bcd, b"\x12\x3A", None)),
    ),
    (
        "one BCD byte",
        Told::Digits(Read(Digits::Bcd, b"\x12", None)),
    ),
    (
        "packed digits",
        Told::Digits(Characters(0x12, 0x34, *b"1234")),
    ),
    (
        "nibbles above nine",
        Told::Digits(Characters(0x9A, 0xF0, *b"9:?0")),
    ),
    ("the first digit", Told::Digits(Nibble(0, b'0'))),
    ("the last digit", Told::Digits(Nibble(9, b'9'))),
    ("the first letter", Told::Digits(Nibble(10, b'A'))),
    ("the last letter", Told::Digits(Nibble(15, b'F'))),
    ("none but a zero", Told::Digits(Counted(0, 1))),
    ("the last of one digit", Told::Digits(Counted(9, 1))),
    ("the first of two", Told::Digits(Counted(10, 2))),
    ("the last of six", Told::Digits(Counted(999_999, 6))),
    ("the first of seven", Told::Digits(Counted(1_000_000, 7))),
    ("the greatest number", Told::Digits(Counted(u64::MAX, 20))),
];

/// Whether four characters are that number.
fn is_number(text: [u8; 4], number: Option<u16>) -> bool {
    let [a, b, c, d] = text;
    four_digits(a, b, c, d) == number
}

/// Whether a number has these four digits.
fn has_digits(number: usize, ascii: [u8; 4], bcd: [u8; 2]) -> bool {
    number <= 9999 && four_ascii_digits(number) == ascii && four_bcd_digits(number) == bcd
}

/// Whether two packed bytes have these characters.
fn has_characters(first: u8, second: u8, text: [u8; 4]) -> bool {
    bcd_characters(first, second) == text
}

/// Whether that is told.
pub(super) fn is_figure(figure: Figure) -> bool {
    match figure {
        Text(text, number) => is_number(text, number),
        Written(number, ascii, bcd) => has_digits(number, ascii, bcd),
        Read(digits, bytes, number) => four_digits_in(digits, bytes) == number,
        Characters(first, second, text) => has_characters(first, second, text),
        Nibble(nibble, digit) => nibble <= 15 && hex_digit(nibble) == digit,
        Counted(v, count) => digits_of(v) == count,
    }
}
