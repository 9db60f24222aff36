//! Numbers in packed digits, two a byte.
ghost use Rattle.std.specs.Prelude.{◌≡◌, ◌≤◌, ◌+◌, ◌*◌, ◌/◌, ◌%◌, true, length, IfSome};
ghost use Rattle.iso_parts.specs.Part.{characters};
ghost use Rattle.iso_wire.specs.Decimal.{number};
ghost use Rattle.iso_exchange.specs.Packed.{packed, HasPackedDigits, IsCounted, IsPacked};

use iso_parts::{CharClass, Coding, Digits, FieldSpec, Length, Pad};

/// Whether each value of the row is of digits, two a byte, and none is padded.
#[inline(always)]
fn has_packed_digits(row: &FieldSpec) -> bool
    ensures { result ≡ true → HasPackedDigits row.now }
{
    row.class == CharClass::N && row.coding == Coding::Bcd && row.pad == Pad::None
}

/// Whether each value of the row is of digits, and so many bytes: two digits a byte, with no length and no padding.
pub(crate) fn is_packed(row: &FieldSpec, bytes: u16) -> bool
    requires { bytes ≤ 9 }
    ensures { result ≡ true → IsPacked row.now bytes }
{
    has_packed_digits(row) && row.length == Length::Fixed && row.max == 2 * bytes
}

/// The byte of the last two digits of a number.
#[inline(always)]
fn packed_pair(number: u64) -> u8
    ensures { result ≡ 16 * (number / 10 % 10) + number % 10 }
{
    let pair = (number % 100) as u32;
    (pair + 6 * (pair / 10)) as u8
}

/// Whether each value of the row is of digits, two a byte, with its count in a byte before it, and may have so many digits.
pub(crate) fn is_counted(row: &FieldSpec, digits: u16) -> bool
    ensures { result ≡ true → IsCounted row.now digits }
{
    has_packed_digits(row) && row.length == Length::LL(Digits::Bcd) && digits <= row.max
}

/// Writes the number's last digits, twice as many as there are bytes. Takes no memory.
pub(crate) fn write_packed(out: &mut [u8], number: u64)
    ensures { out.new ≡ packed (length out.old) number }
{
    let mut rest = number;
    let mut at = out.len();
    while at > 0 {
        at -= 1;
        out[at] = packed_pair(rest);
        rest /= 100;
    }
}

/// The last six digits of a number.
#[inline(always)]
pub(crate) fn packed_three(number: u64) -> [u8; 3]
    ensures { result ≡ packed 3 number }
{
    let second = number / 100;
    let first = second / 100;
    [packed_pair(first), packed_pair(second), packed_pair(number)]
}

/// The last ten digits of a number.
#[inline(always)]
pub(crate) fn packed_five(number: u64) -> [u8; 5]
    ensures { result ≡ packed 5 number }
{
    let fourth = number / 100;
    let [first, second, third] = packed_three(fourth / 100);
    [
        first,
        second,
        third,
        packed_pair(fourth),
        packed_pair(number),
    ]
}

/// The last twelve digits of a number.
#[inline(always)]
pub(crate) fn packed_six(number: u64) -> [u8; 6]
    ensures { result ≡ packed 6 number }
{
    let [first, second, third, fourth, fifth] = packed_five(number / 100);
    [first, second, third, fourth, fifth, packed_pair(number)]
}

/// The number of the two digits of a byte.
fn pair(byte: u8) -> u64
    ensures value { result ≡ 10 * (byte / 16) + byte % 16 }
    ensures few { result ≤ 165 }
{
    10 * (byte as u64 / 16) + byte as u64 % 16
}

/// The number that the digits of three or five bytes write, as those of a trace number and of a time. Takes no memory.
pub(crate) fn packed_number(bytes: &[u8]) -> Option<u64>
    ensures { IfSome result (λ n. n ≡ number (characters bytes.now)) }
{
    match bytes {
        [a, b, c] => Some(10_000 * pair(*a) + 100 * pair(*b) + pair(*c)),
        [a, b, c, d, e] => {
            let front = 10_000 * pair(*a) + 100 * pair(*b) + pair(*c);
            Some(10_000 * front + 100 * pair(*d) + pair(*e))
        }
        _ => None,
    }
}
