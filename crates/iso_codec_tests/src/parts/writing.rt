//! What is written before a value, and which values can't be written.

use super::*;

/// A row and a value: why the value can't be written, if so, else what stands before it, and whether it is then written as
/// it is.
struct Case {
    name: &'static str,
    row: FieldSpec,
    value: &'static [u8],
    refused: Option<FieldFault>,
    before: &'static [u8],
    is_plain: bool,
}

/// The row of an amount of twelve digits, filled up with zeros.
const AMOUNT_ROW: FieldSpec = row!(
    CharClass::N,
    Coding::Ascii,
    Length::Fixed,
    12,
    Pad::Left(b'0')
);

/// The row of a signed amount of eight digits.
const SIGNED_ROW: FieldSpec = row!(CharClass::XN, Coding::Ascii, Length::Fixed, 9, Pad::None);

/// The row of a trace number.
const TRACE_ROW: FieldSpec = number!(Coding::Ascii, Length::Fixed, 6);

const CASES: &[Case] = &[
    Case {
        name: "an account number",
        row: ACCOUNT_ROW,
        value: b"4111111111111111",
        refused: None,
        before: b"16",
        is_plain: true,
    },
    Case {
        name: "the longest account number",
        row: ACCOUNT_ROW,
        value: b"4111111111111111111",
        refused: None,
        before: b"19",
        is_plain: true,
    },
    Case {
        name: "an account number of twenty digits",
        row: ACCOUNT_ROW,
        value: b"41111111111111111111",
        refused: Some(FieldFault::WrongLength),
        before: b"",
        is_plain: true,
    },
    Case {
        name: "an empty account number",
        row: ACCOUNT_ROW,
        value: b"",
        refused: None,
        before: b"00",
        is_plain: true,
    },
    Case {
        name: "an account number with a letter",
        row: ACCOUNT_ROW,
        value: b"41A1",
        refused: Some(FieldFault::NotInClass),
        before: b"",
        is_plain: true,
    },
    Case {
        name: "a packed account number",
        row: PACKED_ACCOUNT_ROW,
        value: b"378282246310005",
        refused: None,
        before: b"\x15",
        is_plain: false,
    },
    Case {
        name: "three digits of a length",
        row: text!(LLL, 120),
        value: b"0002840C000000004000",
        refused: None,
        before: b"020",
        is_plain: true,
    },
    Case {
        name: "three digits of a length under BCD",
        row: text!(LLL_BCD, 120),
        value: b"0002840C000000004000",
        refused: None,
        before: b"\x00\x20",
        is_plain: true,
    },
    Case {
        name: "four digits of a length",
        row: bytes!(Coding::HexText, LLLL, 9_999),
        value: b"\x01\x02\x0A",
        refused: None,
        before: b"0003",
        is_plain: false,
    },
    Case {
        name: "four digits of a length under BCD",
        row: bytes!(Coding::Raw, LLLL_BCD, 9_999),
        value: b"\x9F\x26\x08",
        refused: None,
        before: b"\x00\x03",
        is_plain: true,
    },
    Case {
        name: "a trace number",
        row: TRACE_ROW,
        value: b"000123",
        refused: None,
        before: b"",
        is_plain: true,
    },
    Case {
        name: "a trace number of five digits",
        row: TRACE_ROW,
        value: b"00123",
        refused: Some(FieldFault::WrongLength),
        before: b"",
        is_plain: true,
    },
    Case {
        name: "a short terminal",
        row: TERMINAL_ROW,
        value: b"TERM",
        refused: None,
        before: b"",
        is_plain: false,
    },
    Case {
        name: "a terminal with a blank at its end",
        row: TERMINAL_ROW,
        value: b"TERM ",
        refused: Some(FieldFault::PadEnd),
        before: b"",
        is_plain: false,
    },
    Case {
        name: "an amount without its zeros",
        row: AMOUNT_ROW,
        value: b"150",
        refused: None,
        before: b"",
        is_plain: false,
    },
    Case {
        name: "an amount with a zero in front",
        row: AMOUNT_ROW,
        value: b"0150",
        refused: Some(FieldFault::PadEnd),
        before: b"",
        is_plain: false,
    },
    Case {
        name: "a signed amount",
        row: SIGNED_ROW,
        value: b"D00000150",
        refused: None,
        before: b"",
        is_plain: true,
    },
    Case {
        name: "a signed amount with another sign",
        row: SIGNED_ROW,
        value: b"E00000150",
        refused: Some(FieldFault::NotInClass),
        before: b"",
        is_plain: true,
    },
];

/// Whether the value is refused for that, or else that stands before it.
fn is_counted(case: &Case, out: &mut Vec<u8>) -> bool {
    out.truncate(0);
    case.row.good().is_ok()
        && match judge_value(&case.row, case.value) {
            Some(fault) => case.refused == Some(fault),
            None => {
                case.refused.is_none()
                    && encode_length(&case.row, case.value, out).is_ok()
                    && is_same(out.as_slice(), case.before)
            }
        }
}

/// Whether the two are the same bytes.
fn is_same(bytes: &[u8], others: &[u8]) -> bool {
    bytes == others
}

/// That each is so.
pub(super) fn check_lengths(out: &mut Vec<u8>) -> Result<(), Fail> {
    for case in CASES {
        check(case.row.is_plain() == case.is_plain, case.name)?;
        check(is_counted(case, out), case.name)?;
    }
    Ok(())
}
