//! The first record of a batch.
ghost use Rattle.std.specs.Prelude.{◌≡◌, ◌≤◌, ◌<◌, ◌+◌, ◌^◌, ◌++◌, length, take, true, Some, IfSome};
ghost use Rattle.hex.specs.Hex.{encode_lower, decode_sized};
ghost use Rattle.iso_wire.specs.Decimal.{decimal, number_in};
ghost use Rattle.iso_log.specs.Slots.{is_whole};
ghost use Rattle.iso_record.specs.Row.{part};
ghost use Rattle.iso_shared.specs.Heading.{heading_bytes, heading_in, heading_by, writer_by, is_writer};

use crate::laws::headings_are_whole;
use iso_log::RECORD;
use iso_wire::laws::{are_bytes, decimals};
use iso_wire::{number_in, write_decimal};

/// The words that a batch begins with, and the version of its records.
const MAGIC: &[u8; 28] = b"ISO 8583 ISSUER BATCH   0001";

/// The last place that a batch can name.
pub const MOST_PLACES: u64 = 9_999_999_999;

/// Who writes: 128 bits that are drawn anew at each start, so that no two writers have the same.
#[derive(Clone, Copy, Debug, PartialEq, Eq)]
pub struct Writer {
    pub bits: [u8; 16],
}

/// Where a batch stands, and who wrote it.
#[derive(Clone, Copy, Debug, PartialEq, Eq)]
pub struct Heading {
    /// Its place in the journal, the first of which is 1.
    pub place: u64,
    /// The host that wrote it.
    pub writer: Writer,
}

/// Puts a part there: what is in front of it stays.
fn put(bytes: &mut [u8; RECORD], at: usize, part: &[u8])
    requires { at + length part.now ≤ 128 }
    ensures { take (at + length part.now) bytes.new ≡ take at bytes.old ++ part.now }
{
    bytes[at..at + part.len()].copy_from_slice(part);
}

/// A place in ten digits.
fn place_digits(place: u64) -> [u8; 10]
    ensures { result ≡ decimal 10 place }
{
    let mut digits = [b'0'; 10];
    write_decimal(&mut digits, place);
    digits
}

/// A writer in 32 hex digits.
fn writer_digits(writer: &Writer) -> [u8; 32]
    ensures digits { result ≡ encode_lower writer.now.bits }
    ensures writer { is_writer writer.now ≡ true }
{
    are_bytes(&writer.bits);
    let mut digits = [b'0'; 32];
    hex::encode_to_slice(writer.bits, &mut digits).unwrap();
    digits
}

/// The first record of a batch. Takes no memory.
pub fn heading_bytes(heading: &Heading) -> [u8; RECORD]
    // The record has the words that a batch begins with, their version, the place in ten digits,
    // the writer in 32 hex digits, blanks, and a newline.
    ensures bytes { result ≡ heading_bytes heading.now }
    // The writer that is named has 16 bytes.
    ensures writer { is_writer heading.now.writer ≡ true }
    // The record is whole: 128 bytes, none of which is zero.
    ensures whole { is_whole result ≡ true }
{
    headings_are_whole();
    decimals();
    let writer = writer_digits(&heading.writer);
    let mut bytes = [b' '; RECORD];
    put(&mut bytes, 0, MAGIC);
    put(&mut bytes, 28, &place_digits(heading.place));
    put(&mut bytes, 38, &writer);
    put(&mut bytes, 70, &[b' '; 57]);
    put(&mut bytes, 127, b"\n");
    bytes
}

/// The 128 bits that 32 hex digits are.
fn writer_in(text: &[u8; RECORD]) -> Option<Writer>
    ensures { result ≡ writer_by (decode_sized (part text.now 38 32) 16) }
{
    let mut bits = [0; 16];
    match hex::decode_to_slice(&text[38..70], &mut bits) {
        Ok(()) => Some(Writer { bits }),
        Err(_) => None,
    }
}

/// The heading that a record is, `None` for any other bytes. Takes no memory.
#[tactic(auto, unfolding(crate::specs::Heading::heading_in))]
pub fn read_heading(text: &[u8; RECORD]) -> Option<Heading>
    ensures { result ≡ heading_in text.now }
{
    let place = number_in(&text[28..38], 10, 10)?;
    let writer = writer_in(text)?;
    let heading = Heading { place, writer };
    if heading_bytes(&heading) == *text {
        Some(heading)
    } else {
        None
    }
}
