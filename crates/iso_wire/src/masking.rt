//! Values for the eyes of a bystander.

ghost use Rattle.std.specs.Prelude.{replicate, Some};
ghost use Rattle.std.specs.Fmt.{WritesOnOk};
ghost use Rattle.std.specs.List.{flat_map};
ghost use Rattle.iso_wire.specs.Masking.{Masks, masked_text, readable_byte};

use iso_parts::raw::hex_digit;
use std::fmt;

/// The bytes of a value that a bystander may read, and how many are hidden between them.
#[derive(Clone, Copy)]
pub struct Shown<'a> {
    /// The first bytes that are shown.
    pub front: &'a [u8],
    /// How many bytes behind them are hidden.
    pub hidden: usize,
    /// The last bytes that are shown.
    pub end: &'a [u8],
}

/// How much of a value is shown: of an account number (element 2) of 13 or more bytes the first six and the last
/// four, of a shorter one nothing; nothing of tracks, PIN data and chip data (elements 34, 35, 36, 45, 52 and 55);
/// the whole of any other value. Takes no memory.
pub fn masked<'a>(n: u8, value: &'a [u8]) -> Shown<'a>
    ensures { Masks n value.now result }
{
    let (front, end) = match n {
        2 if value.len() >= 13 => (6, value.len() - 4),
        2 | 34 | 35 | 36 | 45 | 52 | 55 => (0, value.len()),
        _ => (value.len(), value.len()),
    };
    Shown {
        front: &value[..front],
        hidden: end - front,
        end: &value[end..],
    }
}

/// Writes a byte as a character where it is printable, else as two hexadecimal digits behind `\x`.
fn write_byte<W: fmt::Write>(b: u8, f: &mut fmt::Formatter<W>) -> fmt::Result
    ensures { WritesOnOk W.write_str_gives f.old result (readable_byte b) f.new }
{
    match b {
        b' '..=b'~' => write!(f, "{}", char::from(b)),
        _ => {
            let high = char::from(hex_digit(b / 16));
            let low = char::from(hex_digit(b % 16));
            write!(f, "\\x{high}{low}")
        }
    }
}

/// Writes bytes as text.
pub(crate) fn write_text<W: fmt::Write>(bytes: &[u8], f: &mut fmt::Formatter<W>) -> fmt::Result
    ensures { WritesOnOk W.write_str_gives f.old result (flat_map readable_byte bytes.now) f.new }
{
    for b in bytes {
        write_byte(*b, f)?;
    }
    Ok(())
}

fn write_stars<W: fmt::Write>(count: usize, f: &mut fmt::Formatter<W>) -> fmt::Result
    ensures { WritesOnOk W.write_str_gives f.old result (replicate count 42) f.new }
{
    for _i in 0..count {
        write!(f, "*")?;
    }
    Ok(())
}

/// What is shown, with a star for each byte that is hidden.
impl fmt::Display for Shown<'_> {
    ghost output = { λ shown. Some (masked_text shown) };

    fn fmt<W: fmt::Write>(&self, f: &mut fmt::Formatter<W>) -> fmt::Result {
        write_text(self.front, f)?;
        write_stars(self.hidden, f)?;
        write_text(self.end, f)
    }
}

/// The same.
impl fmt::Debug for Shown<'_> {
    ghost debug_output = { λ shown. Some (masked_text shown) };

    fn fmt<W: fmt::Write>(&self, f: &mut fmt::Formatter<W>) -> fmt::Result {
        write!(f, "{self}")
    }
}
