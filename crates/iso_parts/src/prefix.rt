//! The length before a value.

ghost use Rattle.std.specs.Prelude.{◌≡◌, ◌≤◌, ◌∷◌, [], ◌++◌, length, OnOk, OnErr};
ghost use Rattle.iso_parts.specs.Spec.{limit, longest_value};
ghost use Rattle.iso_parts.specs.Part.{prefix};
ghost use Rattle.iso_parts.specs.Digits.{four_digits_of, bcd_characters};
ghost use Rattle.iso_parts.specs.Reading.{number_of, count_of, prefix_size};

use crate::digits::{Digits, bcd_characters, four_ascii_digits, four_bcd_digits};
use crate::fault::FieldFault;
use std::alloc::AllocError;

/// The most characters of a value: the digits of a length can tell no more.
pub const LONGEST_VALUE: usize = 9_999;

/// The most characters of a value of a fixed length, so also of one that is padded.
const LONGEST_FIXED: usize = 999;

/// Whether a length stands before the value. It counts characters, under `Raw` and `HexText` the value's bytes.
#[derive(Clone, Copy, Debug, PartialEq, Eq)]
pub enum Length {
    /// None: the row's maximum is the length.
    Fixed,
    /// Two digits.
    LL(Digits),
    /// Three digits; under BCD with a nibble 0 before them.
    LLL(Digits),
    /// Four digits.
    LLLL(Digits),
}

/// The number of the four characters of a length.
pub(crate) fn number_of(k: u8, h: u8, t: u8, o: u8) -> Result<u16, FieldFault>
    ensures { result ≡ number_of (k ∷ h ∷ t ∷ o ∷ []) }
{
    match (k, h, t, o) {
        (b'0'..=b'9', b'0'..=b'9', b'0'..=b'9', b'0'..=b'9') => Ok(
            1000 * (k - b'0') as u16
                + 100 * (h - b'0') as u16
                + 10 * (t - b'0') as u16
                + (o - b'0') as u16,
        ),
        _ => Err(FieldFault::BadLengthDigits),
    }
}

/// The number of the four digits of a length in two BCD bytes.
#[inline(always)]
fn bcd_number_of(x: u8, y: u8) -> Result<u16, FieldFault>
    ensures { result ≡ number_of (bcd_characters x y) }
{
    let text = bcd_characters(x, y);
    number_of(text[0], text[1], text[2], text[3])
}

impl Length {
    /// The greatest count that the digits can tell.
    pub(crate) fn limit(self) -> u16
        ensures { result ≡ limit self }
    {
        match self {
            Length::LL(_) => 99,
            Length::LLL(_) => 999,
            Length::LLLL(_) => LONGEST_VALUE as u16,
            Length::Fixed => LONGEST_FIXED as u16,
        }
    }

    /// How many bytes the length takes.
    pub fn prefix_size(self) -> usize
        // It is a byte for each ASCII digit, and in BCD one byte for two digits and two bytes for
        // three or four; none without a length.
        ensures size { result ≡ prefix_size self }
        // No length takes more than four bytes.
        ensures few { result ≤ 4 }
    {
        match self {
            Length::Fixed => 0,
            Length::LL(Digits::Ascii) => 2,
            Length::LL(Digits::Bcd) => 1,
            Length::LLL(Digits::Ascii) => 3,
            Length::LLL(Digits::Bcd) => 2,
            Length::LLLL(Digits::Ascii) => 4,
            Length::LLLL(Digits::Bcd) => 2,
        }
    }

    /// The count that the bytes of a length tell; `max` where none is written.
    #[inline(always)]
    pub(crate) fn count_of(self, max: u16, prefix: &[u8]) -> Result<u16, FieldFault>
        requires { length prefix.now ≡ prefix_size self }
        ensures { result ≡ count_of self max prefix.now }
    {
        match (self, prefix) {
            (Length::Fixed, _) => Ok(max),
            (Length::LL(Digits::Ascii), [t, o]) => number_of(b'0', b'0', *t, *o),
            (Length::LL(Digits::Bcd), [x]) => bcd_number_of(0, *x),
            (Length::LLL(Digits::Ascii), [h, t, o]) => number_of(b'0', *h, *t, *o),
            (Length::LLL(Digits::Bcd), [x, y]) => {
                if *x / 16 != 0 {
                    return Err(FieldFault::BadLengthDigits);
                }
                bcd_number_of(*x, *y)
            }
            (Length::LLLL(Digits::Ascii), [k, h, t, o]) => number_of(*k, *h, *t, *o),
            (Length::LLLL(Digits::Bcd), [x, y]) => bcd_number_of(*x, *y),
            _ => unreachable!(),
        }
    }

    /// Appends the digits of a length.
    fn encode_digits(self, n: usize, out: &mut Vec<u8>) -> Result<(), AllocError>
        requires { n ≤ limit self }
        ensures ok { OnOk result (out.new.items ≡ out.old.items ++ prefix self n) }
        ensures err { OnErr result (out.new.items ≡ out.old.items) }
    {
        let ones = (n % 10) as u8;
        match self {
            Length::Fixed => Ok(()),
            Length::LL(Digits::Ascii) => {
                out.extend_from_slice(&[b'0' + (n / 10) as u8, b'0' + ones])
            }
            Length::LL(Digits::Bcd) => out.push(16 * (n / 10) as u8 + ones).map_err(|_| AllocError),
            Length::LLL(Digits::Ascii) => out.extend_from_slice(&[
                b'0' + (n / 100) as u8,
                b'0' + (n / 10 % 10) as u8,
                b'0' + ones,
            ]),
            Length::LLL(Digits::Bcd) => {
                out.extend_from_slice(&[(n / 100) as u8, 16 * (n / 10 % 10) as u8 + ones])
            }
            Length::LLLL(Digits::Ascii) => out.extend_from_slice(&four_ascii_digits(n)),
            Length::LLLL(Digits::Bcd) => out.extend_from_slice(&four_bcd_digits(n)),
        }
    }

    /// Appends the length of a value, at once where the row has none or two digits.
    #[inline(always)]
    pub(crate) fn encode(self, n: usize, out: &mut Vec<u8>) -> Result<(), AllocError>
        requires { n ≤ limit self }
        ensures ok { OnOk result (out.new.items ≡ out.old.items ++ prefix self n) }
        ensures err { OnErr result (out.new.items ≡ out.old.items) }
    {
        match self {
            Length::Fixed => Ok(()),
            Length::LL(Digits::Ascii) => {
                let few = n as u8;
                out.extend_from_slice(&[b'0' + few / 10, b'0' + few % 10])
            }
            Length::LL(Digits::Bcd) => {
                let few = n as u8;
                out.extend_from_slice(&[16 * (few / 10) + few % 10])
            }
            _ => self.encode_digits(n, out),
        }
    }
}
