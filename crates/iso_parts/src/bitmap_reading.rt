//! Reading the bitmaps at the front of some bytes.

ghost use Rattle.std.specs.Prelude.{◌≡◌, ◌<◌, ◌^◌, length, true};
ghost use Rattle.std.specs.Int.{w64, from_be_bytes};
ghost use Rattle.std.specs.List.{list_all};
ghost use Rattle.hex.specs.Hex.{decode_of, hex_digit_value, is_hex_digit};
ghost use Rattle.iso_parts.specs.Bitmap.{map_size};
ghost use Rattle.iso_parts.specs.BitmapReading.{ReadsMaps, word_in, word_of, secondary_by, maps_at};

use crate::bitmap::{Bitmap, BitmapCause, BitmapCoding, BitmapFault, BitmapStep};
use crate::bits::{FIRST_BIT, tells_another};
use crate::encoding::are_hex_digits;

/// The word of eight bytes.
pub(crate) fn raw_word(bytes: &[u8]) -> u64
    requires { length bytes.now ≡ 8 }
    ensures { result ≡ from_be_bytes w64 bytes.now }
{
    u64::from_be_bytes([
        bytes[0], bytes[1], bytes[2], bytes[3], bytes[4], bytes[5], bytes[6], bytes[7],
    ])
}

/// The value of a hexadecimal digit. The low four bits of a letter, of either case, are one to six.
fn digit_value(digit: u8) -> u8
    requires { is_hex_digit digit ≡ true }
    ensures value { hex_digit_value digit ≡ Some result }
    ensures small { result < 16 }
{
    if digit <= b'9' {
        digit % 16
    } else {
        digit % 16 + 9
    }
}

/// The word of sixteen digits.
fn digits_word(digits: &[u8]) -> u64
    requires sixteen { length digits.now ≡ 16 }
    requires all { list_all is_hex_digit digits.now ≡ true }
    ensures { word_of (decode_of digits.now) ≡ Some result }
{
    let mut word = [0; 8];
    for (i, byte) in word.iter_mut().enumerate() {
        *byte = digit_value(digits[2 * i]) * 16 + digit_value(digits[2 * i + 1]);
    }
    u64::from_be_bytes(word)
}

/// The word of sixteen digits, `None` where a byte is no digit.
pub(crate) fn hex_word(bytes: &[u8]) -> Option<u64>
    requires { length bytes.now ≡ 16 }
    ensures { result ≡ word_of (decode_of bytes.now) }
{
    if are_hex_digits(bytes) {
        Some(digits_word(bytes))
    } else {
        None
    }
}

/// The set of the primary bitmap's word, without its first bit, and a whole secondary bitmap.
fn read_secondary(
    coding: BitmapCoding,
    primary: u64,
    bytes: &[u8],
) -> Result<BitmapStep, BitmapFault>
    requires small { primary < 2 ^ 63 }
    requires whole { length bytes.now ≡ map_size coding }
    ensures { ReadsMaps result (secondary_by coding primary (word_in coding bytes.now)) }
{
    let at = coding.size();
    match coding.word(bytes) {
        None => Err(BitmapFault {
            at,
            cause: BitmapCause::BadHex,
        }),
        Some(secondary) if !tells_another(secondary) => Ok(BitmapStep::Got {
            bits: Bitmap::from_words(primary, secondary),
            used: at + at,
        }),
        Some(_) => Err(BitmapFault {
            at,
            cause: BitmapCause::ThirdBitmap,
        }),
    }
}

/// Reads the bitmaps that the bytes begin with, each one when it is whole.
pub(crate) fn read(coding: BitmapCoding, bytes: &[u8]) -> Result<BitmapStep, BitmapFault>
    ensures { ReadsMaps result (maps_at coding bytes.now) }
{
    let size = coding.size();
    if bytes.len() < size {
        return Ok(BitmapStep::More);
    }
    let (front, rest) = bytes.split_at(size);
    let Some(primary) = coding.word(front) else {
        return Err(BitmapFault {
            at: 0,
            cause: BitmapCause::BadHex,
        });
    };
    if !tells_another(primary) {
        let bits = Bitmap::from_words(primary, 0);
        return Ok(BitmapStep::Got { bits, used: size });
    }
    if rest.len() < size {
        return Ok(BitmapStep::More);
    }
    read_secondary(coding, primary - FIRST_BIT, &rest[..size])
}
