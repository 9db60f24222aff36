//! Parts of a record, put behind what is there.
ghost use Rattle.std.specs.Prelude.{◌≡◌, ◌≤◌, ◌+◌, ◌<◌, ◌++◌, length, take};
ghost use Rattle.iso_wire.specs.Decimal.{decimal};
ghost use Rattle.iso_record.specs.Row.{blanks};
ghost use Rattle.iso_diary.specs.Line.{long_digits};

use iso_log::RECORD;
use iso_wire::write_decimal;

/// So many blanks are the most that a record has side by side.
const MOST_BLANKS: usize = 89;

/// How many bytes an order has.
const ORDER: usize = 99;

/// Ten digits of a number.
pub(crate) const TEN_DIGITS: u64 = 10_000_000_000;

/// Puts a part there: what is in front of it stays.
pub(crate) fn put(bytes: &mut [u8; RECORD], at: usize, part: &[u8])
    requires { at + length part.now ≤ 128 }
    ensures { take (at + length part.now) bytes.new ≡ take at bytes.old ++ part.now }
{
    bytes[at..at + part.len()].copy_from_slice(part);
}

/// Puts a number in so many digits.
pub(crate) fn put_number(bytes: &mut [u8; RECORD], at: usize, len: usize, v: u64)
    requires few { len ≤ 20 }
    requires within { at + len ≤ 128 }
    ensures { take (at + len) bytes.new ≡ take at bytes.old ++ decimal len v }
{
    let mut digits = [0u8; 20];
    write_decimal(&mut digits[..len], v);
    put(bytes, at, &digits[..len]);
}

/// Puts a number in twenty digits.
pub(crate) fn put_long(bytes: &mut [u8; RECORD], at: usize, v: u64)
    requires { at + 20 ≤ 128 }
    ensures { take (at + 20) bytes.new ≡ take at bytes.old ++ long_digits v }
{
    put_number(bytes, at, 10, v / TEN_DIGITS);
    put_number(bytes, at + 10, 10, v % TEN_DIGITS);
}

/// Puts so many blanks.
pub(crate) fn put_blanks(bytes: &mut [u8; RECORD], at: usize, len: usize)
    requires few { len ≤ 89 }
    requires within { at + len ≤ 128 }
    ensures { take (at + len) bytes.new ≡ take at bytes.old ++ blanks len }
{
    put(bytes, at, &[b' '; MOST_BLANKS][..len]);
}

/// Puts the order of a row in front.
pub(crate) fn put_order_of(bytes: &mut [u8; RECORD], row: &[u8; RECORD])
    ensures { take 99 bytes.new ≡ take 99 row.now }
{
    put(bytes, 0, &row[..ORDER]);
}
