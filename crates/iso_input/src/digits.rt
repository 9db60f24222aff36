//! Hexadecimal digits in any spacing.

ghost use Rattle.std.specs.Prelude.{◌≡◌, ◌≢◌, ◌+◌, ◌<◌, ◌^◌, length, take, Some, None, Ok, Err, IfSome, IfOk, OnOk, OnErr, IfErr};
ghost use Rattle.hex.specs.Hex.{hex_digit_value};
ghost use Rattle.iso_input.specs.Digits.{is_spacing, after, bytes_at};

use crate::fault::HexFault;
use crate::place::{Digit, Place, behind_byte};

/// The value of a hexadecimal digit of either case.
pub(crate) fn digit_value(byte: u8) -> Option<u8>
    ensures value { result ≡ hex_digit_value byte }
    ensures small { IfSome result (λ value. value < 16) }
{
    match byte {
        b'0'..=b'9' => Some(byte - b'0'),
        b'a'..=b'f' => Some(byte - b'a' + 10),
        b'A'..=b'F' => Some(byte - b'A' + 10),
        _ => None,
    }
}

/// Whether the byte only stands between digits: a blank, an end of a line, a comma or a colon.
fn is_spacing(byte: u8) -> bool
    ensures { result ≡ is_spacing byte }
{
    matches!(byte, b' ' | b'\t' | b'\n' | b'\r' | b',' | b':')
}

/// The digit at a place.
fn digit_at(place: Place, byte: u8) -> Result<Digit, HexFault>
    ensures digit { IfOk result
        (λ digit. (hex_digit_value byte ≡ Some digit.value) × (digit.place ≡ place)) }
    ensures small { IfOk result (λ digit. digit.value < 16) }
    ensures fault { IfErr result (λ e. (hex_digit_value byte ≡ None)
        × (e ≡ HexFault.NotDigit place.line place.column byte)) }
{
    match digit_value(byte) {
        Some(value) => Ok(Digit { value, place }),
        None => Err(HexFault::NotDigit {
            line: place.line,
            column: place.column,
            byte,
        }),
    }
}

/// Appends the bytes that the digits of a text write, of which the first byte stands at the place. On a fault what was
/// there is still in front.
pub(crate) fn append_digits(place: Place, text: &[u8], out: &mut Vec<u8>) -> Result<(), HexFault>
    requires line { place.line + length text.now < 2 ^ 64 }
    requires column { place.column + length text.now < 2 ^ 64 }
    ensures appended { OnOk result
        (after out.old.items (bytes_at place text.now) ≡ Ok out.new.items) }
    ensures fault { IfErr result (λ e. e ≢ HexFault.Memory → bytes_at place text.now ≡ Err e) }
    ensures kept { OnErr result (take (length out.old.items) out.new.items ≡ out.old.items) }
{
    let mut next = place;
    let mut half: Option<Digit> = None;
    for byte in text {
        let here = next;
        next = behind_byte(here, *byte);
        if is_spacing(*byte) {
            continue;
        }
        let digit = digit_at(here, *byte)?;
        match half {
            None => half = Some(digit),
            Some(high) => {
                out.push(16 * high.value + digit.value)?;
                half = None;
            }
        }
    }
    match half {
        None => Ok(()),
        Some(digit) => Err(HexFault::Odd {
            line: digit.place.line,
            column: digit.place.column,
        }),
    }
}
