//! Fractions and ranges, as words write them.
ghost use Rattle.std.specs.Prelude.{◌≡◌, ◌≤◌, ◌-◌, ◌^◌};
ghost use Rattle.iso_wire.specs.Decimal.{number_in};
ghost use Rattle.rumpadol_buying.specs.Numbers.{joined, millionths_of, part_of, point_in, range_behind, range_between, range_of};

use iso_wire::number_in;

/// A certainty, in millionths.
const CERTAIN: u64 = 1_000_000;

/// Where the first point is.
fn point_in(text: &[u8]) -> Option<usize>
    ensures { result ≡ point_in text.now }
{
    text.iter().position(|byte| *byte == b'.')
}

/// How many millionths one of the last of so many digits behind a point is.
fn scale_of(digits: usize) -> u64
    requires { digits ≤ 6 }
    ensures { result ≡ 10 ^ (6 - digits) }
{
    match digits {
        0 => 1_000_000,
        1 => 100_000,
        2 => 10_000,
        3 => 1_000,
        4 => 100,
        5 => 10,
        _ => 1,
    }
}

/// The millionths of 1 to 6 digits behind a point.
fn part_of(digits: &[u8]) -> Option<u64>
    ensures { result ≡ part_of digits.now }
{
    let part = number_in(digits, 1, 6)?;
    if digits.len() > 6 {
        return None;
    }
    Some(part * scale_of(digits.len()))
}

/// The millionths of a whole number and of a part.
fn joined(whole: &[u8], part: Option<u64>) -> Option<u32>
    ensures { result ≡ joined (number_in 1 9 whole.now) part }
{
    let whole = number_in(whole, 1, 9)?;
    let all = whole.saturating_mul(CERTAIN).saturating_add(part?);
    if all <= CERTAIN {
        Some(all as u32)
    } else {
        None
    }
}

/// The millionths of a decimal fraction from 0 to 1 with at most six digits behind its point, as 0, 1, 0.05 or 0.000001.
pub fn millionths_of(text: &str) -> Option<u32>
    // A text has some exactly where it is 1 to 9 digits, or these, a point and 1 to 6
    // more, and makes 1 at most.
    ensures { result ≡ millionths_of text.now }
{
    let text = text.as_bytes();
    match point_in(text) {
        Some(at) => joined(&text[..at], part_of(&text[at + 1..])),
        None => joined(text, Some(0)),
    }
}

/// The range of two numbers, the least first.
fn range_between(least: &[u8], most: &[u8]) -> Option<(u64, u64)>
    ensures { result ≡ range_between least.now most.now }
{
    let least = number_in(least, 1, 19)?;
    let most = number_in(most, 1, 19)?;
    if least <= most {
        Some((least, most))
    } else {
        None
    }
}

/// The range of a number and of what stands behind it.
fn range_behind(least: &[u8], behind: &[u8]) -> Option<(u64, u64)>
    ensures { result ≡ range_behind least.now behind.now }
{
    match behind {
        [first, second, most @ ..] if *first == b'.' && *second == b'.' => {
            range_between(least, most)
        }
        _ => None,
    }
}

/// A range of whole numbers, as `50..200`, the least first; one number alone is the range of it.
pub fn range_of(text: &str) -> Option<(u64, u64)>
    // A text is one exactly where it is two numbers of 1 to 19 digits with two points between them,
    // the least first, or one such number, which is both.
    ensures { result ≡ range_of text.now }
{
    let text = text.as_bytes();
    match point_in(text) {
        Some(at) => {
            let (least, behind) = text.split_at(at);
            range_behind(least, behind)
        }
        None => range_between(text, text),
    }
}
