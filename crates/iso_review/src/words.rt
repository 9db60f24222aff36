//! The words of a document, and what they stand for.

ghost use Rattle.std.specs.Prelude.{◌≡◌};
ghost use Rattle.iso_table.specs.Names.{class_name, class_named, coding_name, coding_named, digits_name, digits_named, bitmap_name};
ghost use Rattle.iso_table.specs.Names.{bitmap_named, byte_of, pad_named};
ghost use Rattle.iso_review.specs.RowText.{kind_name, kind_named};

use crate::kinds::LengthKind;
use iso_parts::{BitmapCoding, CharClass, Coding, Digits, Pad};

pub(crate) fn class_name(class: CharClass) -> &'static str
    ensures { result.now ≡ class_name class }
{
    match class {
        CharClass::N => "N",
        CharClass::A => "A",
        CharClass::AN => "AN",
        CharClass::ANS => "ANS",
        CharClass::Z => "Z",
        CharClass::ZD => "ZD",
        CharClass::XN => "XN",
        CharClass::B => "B",
    }
}

pub(crate) fn class_named(name: &str) -> Option<CharClass>
    ensures { result ≡ class_named name.now }
{
    match name {
        "N" => Some(CharClass::N),
        "A" => Some(CharClass::A),
        "AN" => Some(CharClass::AN),
        "ANS" => Some(CharClass::ANS),
        "Z" => Some(CharClass::Z),
        "ZD" => Some(CharClass::ZD),
        "XN" => Some(CharClass::XN),
        "B" => Some(CharClass::B),
        _ => None,
    }
}

pub(crate) fn coding_name(coding: Coding) -> &'static str
    ensures { result.now ≡ coding_name coding }
{
    match coding {
        Coding::Ascii => "ascii",
        Coding::Bcd => "bcd",
        Coding::Raw => "raw",
        Coding::HexText => "hex",
    }
}

pub(crate) fn coding_named(name: &str) -> Option<Coding>
    ensures { result ≡ coding_named name.now }
{
    match name {
        "ascii" => Some(Coding::Ascii),
        "bcd" => Some(Coding::Bcd),
        "raw" => Some(Coding::Raw),
        "hex" => Some(Coding::HexText),
        _ => None,
    }
}

pub(crate) fn digits_name(digits: Digits) -> &'static str
    ensures { result.now ≡ digits_name digits }
{
    match digits {
        Digits::Ascii => "ascii",
        Digits::Bcd => "bcd",
    }
}

pub(crate) fn digits_named(name: &str) -> Option<Digits>
    ensures { result ≡ digits_named name.now }
{
    match name {
        "ascii" => Some(Digits::Ascii),
        "bcd" => Some(Digits::Bcd),
        _ => None,
    }
}

pub(crate) fn bitmap_name(bitmap: BitmapCoding) -> &'static str
    ensures { result.now ≡ bitmap_name bitmap }
{
    match bitmap {
        BitmapCoding::Raw => "raw",
        BitmapCoding::Hex => "hex",
    }
}

pub(crate) fn bitmap_named(name: &str) -> Option<BitmapCoding>
    ensures { result ≡ bitmap_named name.now }
{
    match name {
        "raw" => Some(BitmapCoding::Raw),
        "hex" => Some(BitmapCoding::Hex),
        _ => None,
    }
}

pub(crate) fn kind_name(kind: LengthKind) -> &'static str
    ensures { result.now ≡ kind_name kind }
{
    match kind {
        LengthKind::Fixed => "fixed",
        LengthKind::LL => "LL",
        LengthKind::LLL => "LLL",
        LengthKind::LLLL => "LLLL",
    }
}

pub(crate) fn kind_named(name: &str) -> Option<LengthKind>
    ensures { result ≡ kind_named name.now }
{
    match name {
        "fixed" => Some(LengthKind::Fixed),
        "LL" => Some(LengthKind::LL),
        "LLL" => Some(LengthKind::LLL),
        "LLLL" => Some(LengthKind::LLLL),
        _ => None,
    }
}

/// The byte of two hexadecimal digits.
fn byte_of(digits: &[u8]) -> Option<u8>
    ensures { result ≡ byte_of digits.now }
{
    let mut byte = [0];
    match hex::decode_to_slice(digits, &mut byte) {
        Ok(()) => Some(byte[0]),
        Err(_) => None,
    }
}

pub(crate) fn pad_named(name: &str) -> Option<Pad>
    ensures { result ≡ pad_named name.now }
{
    if name == "none" {
        return Some(Pad::None);
    }
    if let Some(digits) = name.as_bytes().strip_prefix(b"left:") {
        return byte_of(digits).map(Pad::Left);
    }
    if let Some(digits) = name.as_bytes().strip_prefix(b"right:") {
        return byte_of(digits).map(Pad::Right);
    }
    None
}
