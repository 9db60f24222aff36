//! Likely mistakes behind bytes that aren't the message that their table wants.

ghost use Rattle.std.specs.Prelude.{◌≡◌, not, drop, filter, IfOk};
ghost use Rattle.iso_explain.specs.Hints.{reads, fills, is_framed, is_blank, is_hex_text, has_type};
ghost use Rattle.iso_explain.specs.Hints.{is_bcd, begins_tpdu, is_likely, likely, likely_of};

use hex::FromHexError;
use iso_parts::Digits;
use iso_parts::raw::four_digits_in;
use iso_table::{NoMemory, Table};
use iso_wire::{Framed, Header, unframe, view};
use std::alloc::{AllocError, Global};

/// A likely mistake.
#[derive(Clone, Copy, Debug, PartialEq, Eq)]
pub enum Hint {
    /// A frame's header stands in front: it counts exactly the bytes behind it, or a body that is a message.
    Framed(Header),
    /// The bytes behind the first two are a message, and those two count something else.
    Behind2,
    /// The bytes behind the first four are a message, and those four count something else.
    Behind4,
    /// A TPDU of five bytes stands in front, and a message reads behind it.
    Tpdu,
    /// The bytes are hexadecimal digits, and a message reads when they are decoded.
    HexText,
    /// The type is of ASCII digits, and the table's types are in BCD.
    TextUnderBcd,
    /// The type is in BCD, and the table's types are of ASCII digits.
    BcdUnderText,
    /// The type is of this version, and the table of another one: 0 is 1987, 1 is 1993, 2 is 2003.
    Edition(u8),
}

/// The mistakes that are looked for.
const HINTS: [Hint; 12] = [
    Hint::Framed(Header::Binary2),
    Hint::Framed(Header::Ascii4),
    Hint::Framed(Header::Bcd2),
    Hint::Behind2,
    Hint::Behind4,
    Hint::Tpdu,
    Hint::HexText,
    Hint::TextUnderBcd,
    Hint::BcdUnderText,
    Hint::Edition(0),
    Hint::Edition(1),
    Hint::Edition(2),
];

/// Whether the bytes begin with a message.
fn reads(table: &Table, bytes: &[u8]) -> bool
    ensures { result ≡ reads table.now bytes.now }
{
    match view(table, bytes) {
        Ok(_) => true,
        Err(_) => false,
    }
}

/// Whether the bytes are one message, and no byte more.
fn fills(table: &Table, bytes: &[u8]) -> bool
    ensures { result ≡ fills table.now bytes.now }
{
    match view(table, bytes) {
        Ok(message) => message.used() == bytes.len(),
        Err(_) => false,
    }
}

/// Whether the bytes behind the first ones, so many of them, are one message.
fn fills_behind(table: &Table, count: usize, bytes: &[u8]) -> bool
    ensures { result ≡ fills table.now (drop count bytes.now) }
{
    let (_, rest) = bytes.split_at(count.min(bytes.len()));
    fills(table, rest)
}

/// Whether a message stands behind so many bytes.
fn reads_behind(table: &Table, count: usize, bytes: &[u8]) -> bool
    ensures { result ≡ reads table.now (drop count bytes.now) }
{
    let (_, rest) = bytes.split_at(count.min(bytes.len()));
    reads(table, rest)
}

/// Whether the bytes are one frame, or begin with the frame of a message.
fn is_framed(table: &Table, header: Header, bytes: &[u8]) -> bool
    ensures { result ≡ is_framed table.now header bytes.now }
{
    match unframe(header, bytes) {
        Ok(Framed::Got { body, used }) => used == bytes.len() || fills(table, body),
        Ok(Framed::More) | Err(_) => false,
    }
}

/// Whether the byte is a blank or ends a line.
fn is_blank(byte: u8) -> bool
    ensures { result ≡ is_blank byte }
{
    matches!(byte, b' ' | b'\t' | b'\n' | b'\r')
}

/// The bytes but for the blanks.
fn without_blanks(alloc: Global, bytes: &[u8]) -> Result<Vec<u8>, AllocError>
    ensures { IfOk result (λ text. text.items ≡ filter (λ x. not (is_blank x)) bytes.now) }
{
    let mut text = Vec::with_capacity(alloc, bytes.len())?;
    for byte in bytes {
        if !is_blank(*byte) {
            text.push(*byte)?;
        }
    }
    Ok(text)
}

/// Whether the bytes are hexadecimal digits and blanks, and a message reads when they are decoded.
fn is_hex_text(alloc: Global, table: &Table, bytes: &[u8]) -> Result<bool, AllocError>
    ensures { IfOk result (λ is. is ≡ is_hex_text table.now bytes.now) }
{
    let text = without_blanks(alloc, bytes)?;
    match hex::decode(alloc, text.as_slice()) {
        Ok(decoded) => Ok(reads(table, &decoded)),
        Err(FromHexError::OutOfMemory) => Err(AllocError),
        Err(_) => Ok(false),
    }
}

/// Whether the bytes begin with a message type of the version, in these digits.
fn has_type(digits: Digits, version: u8, bytes: &[u8]) -> bool
    ensures { result ≡ has_type digits version bytes.now }
{
    let (front, _) = bytes.split_at(digits.mti_size().min(bytes.len()));
    match four_digits_in(digits, front) {
        Some(number) => number / 1000 == u16::from(version),
        None => false,
    }
}

/// Whether the first byte is that of a TPDU.
fn begins_tpdu(bytes: &[u8]) -> bool
    ensures { result ≡ begins_tpdu bytes.now }
{
    match bytes {
        [first, ..] => *first == 0x60,
        [] => false,
    }
}

/// Whether the digits are in BCD.
fn is_bcd(digits: Digits) -> bool
    ensures { result ≡ is_bcd digits }
{
    match digits {
        Digits::Bcd => true,
        Digits::Ascii => false,
    }
}

impl Hint {
    /// Whether the mistake is a likely one.
    fn is_likely(self, alloc: Global, table: &Table, bytes: &[u8]) -> Result<bool, AllocError>
        ensures { IfOk result (λ is. is ≡ is_likely table.now bytes.now self) }
    {
        Ok(match self {
            Hint::Framed(header) => is_framed(table, header, bytes),
            Hint::Behind2 => {
                fills_behind(table, 2, bytes)
                    && !is_framed(table, Header::Binary2, bytes)
                    && !is_framed(table, Header::Bcd2, bytes)
            }
            Hint::Behind4 => {
                fills_behind(table, 4, bytes) && !is_framed(table, Header::Ascii4, bytes)
            }
            Hint::Tpdu => begins_tpdu(bytes) && reads_behind(table, 5, bytes),
            Hint::HexText => is_hex_text(alloc, table, bytes)?,
            Hint::TextUnderBcd => {
                is_bcd(table.mti()) && has_type(Digits::Ascii, table.version(), bytes)
            }
            Hint::BcdUnderText => {
                !is_bcd(table.mti()) && has_type(Digits::Bcd, table.version(), bytes)
            }
            Hint::Edition(version) => {
                version != table.version() && has_type(table.mti(), version, bytes)
            }
        })
    }

    /// What the mistake is, and what mends it.
    pub fn sentence(self) -> &'static str {
        match self {
            Hint::Framed(Header::Binary2) => {
                "the first 2 bytes count what follows: a frame's header (--frames binary2)"
            }
            Hint::Framed(Header::Ascii4) => {
                "the first 4 digits count what follows: a frame's header (--frames ascii4)"
            }
            Hint::Framed(Header::Bcd2) => {
                "the first 2 bytes count in BCD what follows: a frame's header (--frames bcd2)"
            }
            Hint::Behind2 => "behind the first 2 bytes stands a message (--skip 2)",
            Hint::Behind4 => "behind the first 4 bytes stands a message (--skip 4)",
            Hint::Tpdu => "a TPDU of 5 bytes stands in front of a message (--skip 5)",
            Hint::HexText => "the bytes are hexadecimal digits of a message (--hex)",
            Hint::TextUnderBcd =>
                "the type is of ASCII digits, and the table is in BCD: try ascii87",
            Hint::BcdUnderText => "the type is in BCD, and the table is of ASCII digits: try bcd87",
            Hint::Edition(0) => "the type is of ISO 8583:1987: try ascii87 or bcd87",
            Hint::Edition(1) => "the type is of ISO 8583:1993: begin with tables/ascii93.json",
            Hint::Edition(2) => "the type is of ISO 8583:2003: begin with tables/ascii03.json",
            Hint::Edition(_) => "the type is of another version than the table",
        }
    }
}

/// The likely ones of these mistakes.
fn likely_of(
    alloc: Global,
    table: &Table,
    bytes: &[u8],
    hints: &[Hint],
) -> Result<Vec<Hint>, AllocError>
    ensures { IfOk result (λ found. found.items ≡ likely_of table.now bytes.now hints.now) }
{
    let mut found = Vec::new(alloc);
    for hint in hints {
        if hint.is_likely(alloc, table, bytes)? {
            found.push(*hint)?;
        }
    }
    Ok(found)
}

/// What [`hints`] finds.
pub(crate) fn likely(alloc: Global, table: &Table, bytes: &[u8]) -> Result<Vec<Hint>, AllocError>
    ensures { IfOk result (λ found. found.items ≡ likely table.now bytes.now) }
{
    likely_of(alloc, table, bytes, &HINTS)
}

/// The likely mistakes, where bytes aren't the message that the table wants, or read strangely: each comes exactly where
/// its own test on the bytes says so (see [`Hint`]). They are looked for in the order of the variants; frames by two bytes,
/// four digits and BCD, and editions from the oldest.
pub fn hints(alloc: Global, table: &Table, bytes: &[u8]) -> Result<Vec<Hint>, NoMemory>
    ensures { IfOk result (λ found. found.items ≡ likely table.now bytes.now) }
{
    Ok(likely(alloc, table, bytes)?)
}
