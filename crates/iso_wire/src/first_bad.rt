//! The first byte of a bad piece that may not stand there.

ghost use Rattle.std.specs.Prelude.{◌≡◌, ◌≤◌, ◌+◌, length};
ghost use Rattle.hex.specs.Hex.{is_hex_digit};
ghost use Rattle.iso_parts.specs.Class.{is_digit, is_member, is_first};
ghost use Rattle.iso_wire.specs.FirstBad.{is_of_digits, is_of_length, fills, is_padded, is_of_class, is_half, is_packed};
ghost use Rattle.iso_wire.specs.FirstBad.{is_coded, rule_of, is_allowed, IsFirstNot, IsFirstBad};

use crate::fault::UnpackCause;
use crate::pieces::{Piece, PieceKind};
use iso_parts::{CharClass, Coding, Digits, FieldFault, FieldSpec, Length, Pad};
use iso_table::Table;

/// Whether a byte is a digit, or two of them.
fn is_of_digits(digits: Digits, byte: u8) -> bool
    ensures { result ≡ is_of_digits digits byte }
{
    match digits {
        Digits::Ascii => matches!(byte, b'0'..=b'9'),
        Digits::Bcd => byte / 16 <= 9 && byte % 16 <= 9,
    }
}

/// Whether a byte is of the digits of a length.
fn is_of_length(length: Length, byte: u8) -> bool
    ensures { result ≡ is_of_length length byte }
{
    match length {
        Length::Fixed => true,
        Length::LL(digits) | Length::LLL(digits) | Length::LLLL(digits) => is_of_digits(
            digits, byte,
        ),
    }
}

/// Whether a byte is a hexadecimal digit.
fn is_hex(byte: u8) -> bool
    ensures { result ≡ is_hex_digit byte }
{
    matches!(byte, b'0'..=b'9' | b'A'..=b'F' | b'a'..=b'f')
}

/// Whether a byte may stand in a value of the class, behind its first byte.
fn is_member(class: CharClass, byte: u8) -> bool
    ensures { result ≡ is_member class byte }
{
    match class {
        CharClass::N | CharClass::XN => matches!(byte, b'0'..=b'9'),
        CharClass::A => matches!(byte, b'A'..=b'Z' | b'a'..=b'z'),
        CharClass::AN => matches!(byte, b'A'..=b'Z' | b'a'..=b'z' | b'0'..=b'9'),
        CharClass::ANS => matches!(byte, 0x20..=0x7E),
        CharClass::Z => matches!(byte, 0x30..=0x3F),
        CharClass::ZD => matches!(byte, 0x30..=0x3F | b'D'),
        CharClass::B => true,
    }
}

/// Whether a byte may be the first of a value of the class.
fn is_first(class: CharClass, byte: u8) -> bool
    ensures { result ≡ is_first class byte }
{
    match class {
        CharClass::XN => matches!(byte, b'C' | b'D'),
        CharClass::N
        | CharClass::A
        | CharClass::AN
        | CharClass::ANS
        | CharClass::Z
        | CharClass::ZD
        | CharClass::B => is_member(class, byte),
    }
}

/// Whether a byte fills values up.
fn fills(pad: Pad, byte: u8) -> bool
    ensures { result ≡ fills pad byte }
{
    match pad {
        Pad::None => false,
        Pad::Left(filler) | Pad::Right(filler) => byte == filler,
    }
}

/// Whether values are filled up.
fn is_padded(pad: Pad) -> bool
    ensures { result ≡ is_padded pad }
{
    match pad {
        Pad::None => false,
        Pad::Left(_) | Pad::Right(_) => true,
    }
}

/// Whether the byte at a place of a body is of the row's class, or fills the value up.
fn is_of_class(row: FieldSpec, at: usize, byte: u8) -> bool
    ensures { result ≡ is_of_class row at byte }
{
    let fits = if at == 0 {
        is_first(row.class, byte)
    } else {
        is_member(row.class, byte)
    };
    fits || (is_padded(row.pad) && is_first(row.class, byte)) || fills(row.pad, byte)
}

/// Whether the half of a byte is a digit, or fills the value up.
fn is_half(row: FieldSpec, half: u8) -> bool
    requires { half ≤ 15 }
    ensures { result ≡ is_half row half }
{
    half <= 9 || fills(row.pad, 48 + half)
}

/// Whether the byte at a place of a body is two digits, or a filler and one.
fn is_packed(row: FieldSpec, at: usize, byte: u8) -> bool
    ensures { result ≡ is_packed row at byte }
{
    is_half(row, byte % 16) && (is_half(row, byte / 16) || (at == 0 && byte / 16 == 15))
}

/// Whether the byte at a place of a body is one that the row takes.
fn is_coded(row: FieldSpec, at: usize, byte: u8) -> bool
    ensures { result ≡ is_coded row.coding row at byte }
{
    match row.coding {
        Coding::Ascii | Coding::Raw => is_of_class(row, at, byte),
        Coding::Bcd => is_packed(row, at, byte),
        Coding::HexText => true,
    }
}

/// Whether a byte may stand at a place of a piece, where the fault speaks of single bytes.
fn is_allowed(
    table: &Table,
    row: Option<FieldSpec>,
    kind: PieceKind,
    cause: UnpackCause,
    at: usize,
    byte: u8,
) -> bool
    ensures { result ≡ is_allowed (rule_of table.now row kind cause) at byte }
{
    match (kind, cause, row) {
        (PieceKind::Type, UnpackCause::BadMti, _) => is_of_digits(table.mti(), byte),
        (PieceKind::Primary | PieceKind::Secondary, UnpackCause::BadHex, _) => is_hex(byte),
        (PieceKind::Length, UnpackCause::Field(FieldFault::BadLengthDigits), Some(row)) => {
            is_of_length(row.length, byte)
        }
        (PieceKind::Body, UnpackCause::Field(FieldFault::BadHex), Some(_)) => is_hex(byte),
        (PieceKind::Body, UnpackCause::Field(FieldFault::NotInClass), Some(row)) => {
            is_coded(row, at, byte)
        }
        _ => true,
    }
}

/// The place of the first byte of a piece that may not stand there; 0 where each may.
fn first_not_allowed(
    table: &Table,
    row: Option<FieldSpec>,
    kind: PieceKind,
    cause: UnpackCause,
    bytes: &[u8],
) -> usize
    ensures first { IsFirstNot (is_allowed (rule_of table.now row kind cause)) bytes.now result }
    ensures within { result ≤ length bytes.now }
{
    let mut at = 0;
    while at < bytes.len() {
        if !is_allowed(table, row, kind, cause, at, bytes[at]) {
            return at;
        }
        at += 1;
    }
    0
}

impl Piece {
    /// The offset of the first byte of a bad piece that may not stand there by its digits or its class; the end of the
    /// bytes, where they end inside it; where no single byte is to blame, where it begins. The table and the bytes are
    /// those that the piece was told of. Takes no memory.
    pub fn first_bad(&self, table: &Table, bytes: &[u8]) -> usize
        ensures { self.now.start ≤ self.now.end → self.now.end ≤ length bytes.now
            → IsFirstBad table.now self.now bytes.now self.now.fault result }
    {
        let Some(cause) = self.fault else {
            return self.start;
        };
        if cause == UnpackCause::Short {
            return self.end;
        }
        let Some(piece) = bytes.get(self.start..self.end) else {
            return self.start;
        };
        let row = table.row(self.element).copied();
        self.start + first_not_allowed(table, row, self.kind, cause, piece)
    }
}
