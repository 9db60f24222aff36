//! Where a dump begins, and where the text column of one of its lines does.

ghost use Rattle.std.specs.Prelude.{◌≡◌, ◌≤◌, ◌==◌, length};
ghost use Rattle.hex.specs.Hex.{is_hex_digit};
ghost use Rattle.iso_input.specs.Dump.{begins, begins_gap, begins_byte, begins_column, begins_dump, is_dump, column_from};

use crate::fronts::{is_blank, is_hex_digit, margin, whites, zeros};

/// Whether a colon stands in front.
pub(crate) fn begins_colon(line: &[u8]) -> bool
    ensures { result ≡ begins (λ b. b == 58) line.now }
{
    match *line {
        [a, ..] => a == b':',
        [] => false,
    }
}

/// Whether a hexadecimal digit stands in front.
fn begins_digit(line: &[u8]) -> bool
    ensures { result ≡ begins is_hex_digit line.now }
{
    match *line {
        [a, ..] => is_hex_digit(a),
        [] => false,
    }
}

/// Whether two blanks stand in front.
fn begins_gap(line: &[u8]) -> bool
    ensures { result ≡ begins_gap line.now }
{
    match *line {
        [a, b, ..] => is_blank(a) && is_blank(b),
        _ => false,
    }
}

/// Whether a byte stands in front, and behind it a blank or nothing.
fn begins_byte(line: &[u8]) -> bool
    ensures { result ≡ begins_byte line.now }
{
    match *line {
        [a, b] => is_hex_digit(a) && is_hex_digit(b),
        [a, b, c, ..] => is_hex_digit(a) && is_hex_digit(b) && is_blank(c),
        _ => false,
    }
}

/// Whether the text column begins here, where so many digits stand before.
fn begins_column(colon: bool, digits: usize, line: &[u8]) -> bool
    ensures { result ≡ begins_column colon digits line.now }
{
    begins_gap(line) && (colon || digits != 16 || !begins_byte(line.split_at(2).1))
}

/// How much of a line stands in front of its text column.
pub(crate) fn column_of(colon: bool, line: &[u8]) -> usize
    ensures column { result ≡ column_from colon 0 line.now }
    ensures within { result ≤ length line.now }
{
    let mut digits = 0;
    for (at, byte) in line.iter().enumerate() {
        if begins_column(colon, digits, line.split_at(at).1) {
            return at;
        }
        if is_hex_digit(*byte) {
            digits += 1;
        }
    }
    line.len()
}

/// Whether the line begins a dump.
fn begins_dump(line: &[u8]) -> bool
    ensures { result ≡ begins_dump line.now }
{
    let size = zeros(line);
    let behind = line.split_at(size).1;
    let part = behind.split_at(margin(behind)).1;
    size >= 4 && (begins_colon(behind) || begins_gap(behind)) && begins_digit(part)
}

/// Whether the text is a dump: its first line that isn't blank begins one.
pub(crate) fn is_dump(text: &[u8]) -> bool
    ensures { result ≡ is_dump text.now }
{
    begins_dump(text.split_at(whites(text)).1)
}
