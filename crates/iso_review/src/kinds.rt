//! Kinds of lengths, without how their digits are written.

ghost use Rattle.std.specs.Prelude.{◌≡◌};
ghost use Rattle.iso_parts.specs.Spec.{limit};
ghost use Rattle.iso_table.specs.Document.{prefix_named};
ghost use Rattle.iso_review.specs.Kinds.{kind_of, with_digits};

use iso_parts::{Digits, Length};

/// The kind of a length, without how its digits are written.
#[derive(Clone, Copy, Debug, PartialEq, Eq)]
pub enum LengthKind {
    /// No length stands before the value.
    Fixed,
    /// Two digits.
    LL,
    /// Three digits.
    LLL,
    /// Four digits.
    LLLL,
}

impl LengthKind {
    /// The kind of a length.
    pub fn of(length: Length) -> LengthKind
        // It is `Fixed` of a fixed length, and `LL`, `LLL` or `LLLL` of two, three or four digits.
        ensures { result ≡ kind_of length }
    {
        match length {
            Length::Fixed => LengthKind::Fixed,
            Length::LL(_) => LengthKind::LL,
            Length::LLL(_) => LengthKind::LLL,
            Length::LLLL(_) => LengthKind::LLLL,
        }
    }

    /// The length of the kind whose digits, if it has some, are written so.
    pub fn with_digits(self, digits: Digits) -> Length
        ensures { result ≡ with_digits self digits }
    {
        match self {
            LengthKind::Fixed => Length::Fixed,
            LengthKind::LL => Length::LL(digits),
            LengthKind::LLL => Length::LLL(digits),
            LengthKind::LLLL => Length::LLLL(digits),
        }
    }

    /// The greatest maximum of a row with such a length.
    pub fn limit(self) -> u16
        // It is 99 for two digits, 999 for three and for a fixed length, and 9,999 for four.
        ensures { result ≡ limit (with_digits self Digits.Ascii) }
    {
        match self {
            LengthKind::LL => 99,
            LengthKind::Fixed | LengthKind::LLL => 999,
            LengthKind::LLLL => 9999,
        }
    }
}

/// How the digits of a length are written, where it has some.
pub(crate) fn length_digits(length: Length) -> Option<Digits>
    ensures { result ≡ prefix_named length }
{
    match length {
        Length::Fixed => None,
        Length::LL(digits) | Length::LLL(digits) | Length::LLLL(digits) => Some(digits),
    }
}
