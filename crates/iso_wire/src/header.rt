//! The header of a frame.

ghost use Rattle.std.specs.Prelude.{◌≡◌, ◌≤◌, length};
ghost use Rattle.iso_wire.specs.Framing.{largest, header_size, header_of, header_length};

use iso_parts::Digits;
use iso_parts::raw::{four_ascii_digits, four_bcd_digits, four_digits_in};

/// How a frame counts its body. The header's own bytes don't count.
#[derive(Clone, Copy, Debug, PartialEq, Eq)]
pub enum Header {
    /// Two bytes, the high one first.
    Binary2,
    /// Four ASCII digits.
    Ascii4,
    /// Two bytes of two BCD digits each.
    Bcd2,
}

impl Header {
    /// How many bytes the header takes.
    pub fn size(self) -> usize
        ensures { result ≡ header_size self }
    {
        match self {
            Header::Binary2 | Header::Bcd2 => 2,
            Header::Ascii4 => 4,
        }
    }

    /// The length of the longest body that the header can count.
    pub fn limit(self) -> usize
        ensures { result ≡ largest self }
    {
        match self {
            Header::Binary2 => 65535,
            Header::Ascii4 | Header::Bcd2 => 9999,
        }
    }

    /// The body's length that a whole header tells, and `None` where the bytes aren't one of digits. Takes no memory.
    pub(crate) fn length_of(self, header: &[u8]) -> Option<u16>
        ensures { result ≡ header_length self header.now }
    {
        match (self, header) {
            (Header::Binary2, [high, low]) => Some(256 * *high as u16 + *low as u16),
            (Header::Binary2, _) => None,
            (Header::Ascii4, _) => four_digits_in(Digits::Ascii, header),
            (Header::Bcd2, _) => four_digits_in(Digits::Bcd, header),
        }
    }

    /// Writes the header of a body of `n` bytes into room of its size.
    pub(crate) fn write(self, n: usize, room: &mut [u8])
        requires fits { n ≤ largest self }
        requires size { length room.old ≡ header_size self }
        ensures { room.new ≡ header_of self n }
    {
        match self {
            Header::Binary2 => room.copy_from_slice(&[(n / 256) as u8, (n % 256) as u8]),
            Header::Ascii4 => room.copy_from_slice(&four_ascii_digits(n)),
            Header::Bcd2 => room.copy_from_slice(&four_bcd_digits(n)),
        }
    }
}
