//! The first record of a diary.
ghost use Rattle.std.specs.Prelude.{◌≡◌, ◌≤◌, ◌<◌, ◌+◌, true, None, take, ◌++◌, bytes_eq};
ghost use Rattle.iso_record.specs.Row.{part};
ghost use Rattle.iso_log.specs.Slots.{is_whole};
ghost use Rattle.iso_diary.specs.Heading.{heading_bytes, heading_fault};

use crate::laws::headings_are_whole;
use crate::putting::{put, put_blanks, put_number};
use iso_log::RECORD;
use thiserror::Error;

/// The words that a diary's file begins with.
const MAGIC: &[u8; 24] = b"ISO 8583 ACQUIRER DIARY ";

/// The version of the records.
const FORMAT: u64 = 1;

/// What a diary belongs to.
#[derive(Clone, Copy, Debug, PartialEq, Eq)]
pub struct Heading {
    /// The version of the acquirer's rules.
    pub rules: u16,
    /// The number of the acquirer (element 32), of at most 11 digits.
    pub acquirer: u64,
}

/// What a first record tells otherwise than it should: the first of these.
#[derive(Clone, Copy, Debug, PartialEq, Eq, Drop, Error)]
pub enum HeadingFault {
    /// It is no diary, or one of another format.
    #[error("it is no diary, or one of another format")]
    Format,
    /// It is a diary under another version of the rules.
    #[error("it is a diary under another version of the rules")]
    Rules,
    /// It is a diary of another acquirer.
    #[error("it is a diary of another acquirer")]
    Acquirer,
}

/// The first record of a diary. Takes no memory.
pub fn heading_bytes(heading: &Heading) -> [u8; RECORD]
    // It has a diary's words, the version of the records, that of the rules and the acquirer's
    // number, then blanks and the end of the line.
    ensures bytes { result ≡ heading_bytes heading.now }
    // It has 128 bytes, and none of them is zero.
    ensures whole { is_whole result ≡ true }
{
    headings_are_whole();
    let mut bytes = [b' '; RECORD];
    put(&mut bytes, 0, MAGIC);
    put_number(&mut bytes, 24, 4, FORMAT);
    put_number(&mut bytes, 28, 5, heading.rules as u64);
    put_number(&mut bytes, 33, 11, heading.acquirer);
    put_blanks(&mut bytes, 44, 83);
    put(&mut bytes, 127, b"\n");
    bytes
}

/// Whether two records have the same bytes in so many columns.
fn are_same(first: &[u8; RECORD], second: &[u8; RECORD], at: usize, len: usize) -> bool
    requires { at + len ≤ 128 }
    ensures { result ≡ bytes_eq (part first.now at len) (part second.now at len) }
{
    first[at..at + len] == second[at..at + len]
}

/// What a first record tells otherwise than this heading. `None` where it is the heading's record, to the byte. Takes no
/// memory.
pub fn heading_fault(first: &[u8; RECORD], heading: &Heading) -> Option<HeadingFault>
    // Nothing is told of the heading's very bytes; else `Format` where the first 28 differ, else
    // `Rules` where those of the rules do, else `Acquirer`.
    ensures fault { result ≡ heading_fault first.now (heading_bytes heading.now) }
    // `None` comes only for the very bytes of the heading's record.
    ensures none { result ≡ None → first.now ≡ heading_bytes heading.now }
{
    let wanted = heading_bytes(heading);
    if *first == wanted {
        None
    } else if !are_same(first, &wanted, 0, 28) {
        Some(HeadingFault::Format)
    } else if !are_same(first, &wanted, 28, 5) {
        Some(HeadingFault::Rules)
    } else {
        Some(HeadingFault::Acquirer)
    }
}
