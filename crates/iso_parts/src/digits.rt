//! Decimal digits: how they are written, and four of them, as a message type, a length and the header of a frame have them.

ghost use Rattle.std.specs.Prelude.{◌≡◌, ◌≤◌};
ghost use Rattle.iso_parts.specs.Spec.{longest_value};
ghost use Rattle.iso_parts.specs.Digits.{four_digits, four_digits_of, four_digits_in, bcd_characters};

use crate::prefix::number_of;

/// How decimal digits are written.
#[derive(Clone, Copy, Debug, PartialEq, Eq)]
pub enum Digits {
    /// One ASCII digit a byte.
    Ascii,
    /// Two digits a byte, the high nibble first.
    Bcd,
}

impl Digits {
    ghost use Rattle.iso_parts.specs.Mti.{mti_size};

    /// How many bytes a message type takes, whose four digits are written so.
    pub fn mti_size(self) -> usize
        ensures { result ≡ mti_size self }
    {
        match self {
            Digits::Ascii => 4,
            Digits::Bcd => 2,
        }
    }
}

/// The number of four ASCII digits, `None` for any other characters. Takes no memory.
pub fn four_digits(a: u8, b: u8, c: u8, d: u8) -> Option<u16>
    ensures { result ≡ four_digits a b c d }
{
    number_of(a, b, c, d).ok()
}

/// The characters of the digits in two BCD bytes; a nibble above 9 gives a character that is no digit. Takes no memory.
#[inline(always)]
pub fn bcd_characters(x: u8, y: u8) -> [u8; 4]
    ensures { result ≡ bcd_characters x y }
{
    [b'0' + x / 16, b'0' + x % 16, b'0' + y / 16, b'0' + y % 16]
}

/// The number of the four digits that the bytes are, `None` for any other bytes. Takes no memory.
pub fn four_digits_in(digits: Digits, bytes: &[u8]) -> Option<u16>
    ensures { result ≡ four_digits_in digits bytes.now }
{
    match (digits, bytes) {
        (Digits::Ascii, [a, b, c, d]) => four_digits(*a, *b, *c, *d),
        (Digits::Bcd, [x, y]) => {
            let text = bcd_characters(*x, *y);
            four_digits(text[0], text[1], text[2], text[3])
        }
        _ => None,
    }
}

/// A number in four ASCII digits. Takes no memory.
pub fn four_ascii_digits(n: usize) -> [u8; 4]
    // The number is at most 9,999.
    requires { n ≤ longest_value }
    ensures { result ≡ four_digits_of Digits.Ascii n }
{
    [
        b'0' + (n / 1000) as u8,
        b'0' + (n / 100 % 10) as u8,
        b'0' + (n / 10 % 10) as u8,
        b'0' + (n % 10) as u8,
    ]
}

/// A number in four BCD digits, two a byte. Takes no memory.
pub fn four_bcd_digits(n: usize) -> [u8; 2]
    // The number is at most 9,999.
    requires { n ≤ longest_value }
    ensures { result ≡ four_digits_of Digits.Bcd n }
{
    [
        (16 * (n / 1000) + n / 100 % 10) as u8,
        (16 * (n / 10 % 10) + n % 10) as u8,
    ]
}
