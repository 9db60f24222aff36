//! The pieces of a message: rows, parts, message types, lengths and bitmaps.

use iso_fakes::check;
use iso_parts::raw::*;
use iso_parts::*;
use std::alloc::Global;
use std::test::*;

/// A row of six digits, filled with zeros on the left.
macro_rules! zero_filled {
    ($coding:expr) => {
        row!(CharClass::N, $coding, Length::Fixed, 6, Pad::Left(b'0'))
    };
}

mod bitmaps;
mod judgements;
mod texts;
mod values;
mod writing;

use bitmaps::{FACTS, SetFact, check_sets, is_fact};
use judgements::{JUDGEMENTS, Judgement, is_judged};
use values::{FIGURES, Figure, check_values, is_figure};
use writing::check_lengths;

/// Lengths in ASCII digits.
pub(super) const LL: Length = Length::LL(Digits::Ascii);

pub(super) const LLL: Length = Length::LLL(Digits::Ascii);

pub(super) const LLLL: Length = Length::LLLL(Digits::Ascii);

/// Lengths in packed digits.
pub(super) const LL_BCD: Length = Length::LL(Digits::Bcd);

pub(super) const LLL_BCD: Length = Length::LLL(Digits::Bcd);

pub(super) const LLLL_BCD: Length = Length::LLLL(Digits::Bcd);

/// The row of a terminal: eight characters, filled up with blanks.
pub(super) const TERMINAL_ROW: FieldSpec = row!(
    CharClass::ANS,
    Coding::Ascii,
    Length::Fixed,
    8,
    Pad::Right(b' ')
);

/// The row of an account number: at most 19 digits behind their count.
pub(super) const ACCOUNT_ROW: FieldSpec = number!(Coding::Ascii, LL, 19);

/// The row of an account number whose digits and count are packed.
pub(super) const PACKED_ACCOUNT_ROW: FieldSpec = number!(Coding::Bcd, LL_BCD, 19);

/// Whether a part under a good row is judged so.
fn is_judged_field(row: &FieldSpec, part: &[u8], want: Result<Judged, FieldFault>) -> bool {
    row.good().is_ok() && judge_field(row, part) == want
}

const ZEROS: Pad = Pad::Left(b'0');

/// What a type is: the numbers of its base and its response, and its class.
#[derive(Clone, Copy)]
struct TypeCase {
    number: u16,
    base: u16,
    is_repeat: bool,
    response: Option<u16>,
    class: MtiClass,
}

const TYPES: &[(&'static str, Told)] = &[
    (
        "a reversal's repeat",
        Type(TypeCase {
            number: 421,
            base: 420,
            is_repeat: true,
            response: Some(430),
            class: MtiClass::Reversal,
        }),
    ),
    (
        "a financial request, with an odd origin",
        Type(TypeCase {
            number: 207,
            base: 206,
            is_repeat: true,
            response: Some(216),
            class: MtiClass::Financial,
        }),
    ),
    (
        "a financial response",
        Type(TypeCase {
            number: 210,
            base: 210,
            is_repeat: false,
            response: None,
            class: MtiClass::Financial,
        }),
    ),
    (
        "the echo test",
        Type(TypeCase {
            number: 800,
            base: 800,
            is_repeat: false,
            response: Some(810),
            class: MtiClass::NetworkManagement,
        }),
    ),
    (
        "private use, with a digit without a meaning",
        Type(TypeCase {
            number: 9920,
            base: 9920,
            is_repeat: false,
            response: Some(9930),
            class: MtiClass::Reserved(9),
        }),
    ),
];

/// Whether a number is that type.
fn is_type(case: &TypeCase) -> bool {
    match Mti::from_digits(case.number) {
        Some(mti) => {
            mti.number() == case.number
                && mti.base().number() == case.base
                && mti.is_repeat() == case.is_repeat
                && number_of(mti.response()) == case.response
                && mti.class() == case.class
        }
        None => false,
    }
}

/// The number of a type, where there is one.
fn number_of(mti: Option<Mti>) -> Option<u16> {
    match mti {
        Some(mti) => Some(mti.number()),
        None => None,
    }
}

/// What is told of rows, types, lengths, parts, digits, sets and bitmaps.
#[derive(Clone, Copy)]
enum Told {
    /// Whether a row is good, or why it isn't.
    IsRow(FieldSpec, Result<(), SpecFault>),
    /// What a type is.
    Type(TypeCase),
    /// The number of the type that a text is.
    IsType(&'static [u8], Option<u16>),
    /// Whether a number is the digits of a type.
    IsNumber(u16, bool),
    /// How many bytes a length takes.
    Takes(Length, usize),
    /// What is judged of a part, or of a piece of it.
    Judged(Judgement),
    /// What is told of digits.
    Digits(Figure),
    /// What is told of sets and bitmaps.
    Set(SetFact),
}

use Told::{IsNumber, IsRow, IsType, Takes, Type};

const TOLD: &[(&'static str, Told)] = &[
    (
        "LL of 100",
        IsRow(number!(Coding::Ascii, LL, 100), Err(SpecFault::BadMax)),
    ),
    (
        "a maximum of 0",
        IsRow(number!(Coding::Ascii, LL, 0), Err(SpecFault::BadMax)),
    ),
    (
        "BCD letters",
        IsRow(
            row!(CharClass::ANS, Coding::Bcd, LL, 9, Pad::None),
            Err(SpecFault::CodingClass),
        ),
    ),
    (
        "a pad on LL",
        IsRow(
            row!(CharClass::N, Coding::Ascii, LL, 9, ZEROS),
            Err(SpecFault::PadNotAllowed),
        ),
    ),
    ("LL of 99", IsRow(number!(Coding::Ascii, LL, 99), Ok(()))),
    (
        "LLL of 1,000",
        IsRow(number!(Coding::Ascii, LLL, 1_000), Err(SpecFault::BadMax)),
    ),
    (
        "a fixed length of 1,000",
        IsRow(
            number!(Coding::Ascii, Length::Fixed, 1_000),
            Err(SpecFault::BadMax),
        ),
    ),
    (
        "LLLL of 9,999",
        IsRow(number!(Coding::Bcd, LLLL_BCD, 9_999), Ok(())),
    ),
    (
        "LLLL of 10,000",
        IsRow(
            number!(Coding::Bcd, LLLL_BCD, 10_000),
            Err(SpecFault::BadMax),
        ),
    ),
    (
        "a pad on LLLL",
        IsRow(
            row!(CharClass::N, Coding::Bcd, LLLL_BCD, 9, ZEROS),
            Err(SpecFault::PadNotAllowed),
        ),
    ),
    ("five digits of a number", IsNumber(10000, false)),
    ("the echo test", IsType(b"0800", Some(800))),
    ("private use", IsType(b"9920", Some(9920))),
    ("three digits", IsType(b"800", None)),
    ("five digits", IsType(b"00800", None)),
    ("a letter in place of a zero", IsType(b"O800", None)),
    ("the byte behind a nine", IsType(b"080:", None)),
    ("packed digits", IsType(b"\x08\x00", None)),
    ("no digits of a length", Takes(Length::Fixed, 0)),
    ("two digits of a length", Takes(LL, 2)),
    ("two digits of a length under BCD", Takes(LL_BCD, 1)),
    ("three digits of a length", Takes(LLL, 3)),
    ("three digits of a length under BCD", Takes(LLL_BCD, 2)),
    ("four digits of a length", Takes(LLLL, 4)),
    ("four digits of a length under BCD", Takes(LLLL_BCD, 2)),
];

/// Whether that is told.
fn is_told(told: &Told) -> bool {
    match told {
        IsRow(row, want) => row.good() == *want,
        Type(case) => is_type(case),
        IsType(text, number) => number_of(Mti::from_text(*text)) == *number,
        IsNumber(number, is_so) => Mti::from_digits(*number).is_some() == *is_so,
        Takes(length, size) => length.prefix_size() == *size,
        Told::Judged(judgement) => is_judged(*judgement),
        Told::Digits(figure) => is_figure(*figure),
        Told::Set(fact) => is_fact(*fact),
    }
}

/// That each is told.
fn check_told(table: &[(&str, Told)]) -> Result<(), Fail> {
    for (name, told) in table {
        check(is_told(told), *name)?;
    }
    Ok(())
}

#[test]
fn rows_and_types_are_told() -> Result<(), Fail> {
    check_told(TYPES)?;
    check_told(TOLD)
}

#[test]
fn parts_are_judged() -> Result<(), Fail> {
    check_told(JUDGEMENTS)
}

#[test]
fn digits_are_told() -> Result<(), Fail> {
    check_told(FIGURES)
}

#[test]
fn sets_and_bitmaps_are_told() -> Result<(), Fail> {
    check_told(FACTS)
}

#[test]
fn values_and_bitmaps_are_written_and_read(rt: HostRuntime) -> Result<(), Fail> {
    let mut out = vec![in rt.alloc(); b'a', b'b']?;
    check_sets(&mut out)?;
    check_lengths(&mut out)?;
    check_values(rt.alloc(), &mut out)
}
