//! The first record of a journal.
ghost use Rattle.std.specs.Prelude.{◌≡◌, ◌≤◌, ◌<◌, ◌+◌, true, None, take, ◌++◌, bytes_eq};
ghost use Rattle.iso_record.specs.Row.{part};
ghost use Rattle.iso_log.specs.Slots.{is_whole};
ghost use Rattle.iso_record.specs.Heading.{heading_bytes, heading_for, heading_fault, word};

use crate::laws::headings_are_whole;
use crate::writing::{put, put_blanks, put_number};
use iso_log::RECORD;
use sha2::{Digest, Sha256};
use thiserror::Error;

/// The words that a journal's file begins with.
const MAGIC: &[u8; 24] = b"ISO 8583 ISSUER JOURNAL ";

/// The version of the records.
const FORMAT: u64 = 1;

/// What a journal belongs to.
#[derive(Clone, Copy, Debug, PartialEq, Eq)]
pub struct Heading {
    /// The version of the issuer's rules.
    pub rules: u16,
    /// The digest of the accounts' document (SHA-256), as four numbers: its first eight bytes,
    pub first: u64,
    /// the next eight,
    pub second: u64,
    /// the next eight,
    pub third: u64,
    /// and the last eight.
    pub fourth: u64,
}

/// What a first record tells otherwise than it should: the first of these.
#[derive(Clone, Copy, Debug, PartialEq, Eq, Drop, Error)]
pub enum HeadingFault {
    /// It is no journal, or one of another format.
    #[error("it is no journal, or one of another format")]
    Format,
    /// It is a journal under another version of the rules.
    #[error("it is a journal under another version of the rules")]
    Rules,
    /// It is a journal of other accounts.
    #[error("it is a journal of other accounts")]
    Accounts,
}

/// Eight bytes of a digest as a number, the highest first.
fn word(digest: &[u8; 32], place: usize) -> u64
    requires { place < 4 }
    ensures { result ≡ word digest.now place }
{
    let mut bytes = [0; 8];
    bytes.copy_from_slice(&digest[8 * place..8 * place + 8]);
    u64::from_be_bytes(bytes)
}

impl Heading {
    /// The heading of a journal under these rules, of the accounts in a document: the bytes as they were read. Takes no
    /// memory.
    pub fn of(rules: u16, document: &[u8]) -> Heading
        // It has the version of the rules, and the SHA-256 digest of the document as four numbers.
        ensures { result ≡ heading_for rules document.now }
    {
        let digest = Sha256::digest(document);
        Heading {
            rules,
            first: word(&digest, 0),
            second: word(&digest, 1),
            third: word(&digest, 2),
            fourth: word(&digest, 3),
        }
    }
}

/// The first record of a journal. Takes no memory.
pub fn heading_bytes(heading: &Heading) -> [u8; RECORD]
    // It has a journal's words, the version of the records, that of the rules and the digest of the
    // accounts, then blanks and the end of the line.
    ensures bytes { result ≡ heading_bytes heading.now }
    // It has 128 bytes, and none of them is zero.
    ensures whole { is_whole result ≡ true }
{
    headings_are_whole();
    let mut bytes = [b' '; RECORD];
    put(&mut bytes, 0, MAGIC);
    put_number(&mut bytes, 24, 4, FORMAT);
    put_number(&mut bytes, 28, 5, heading.rules as u64);
    put_number(&mut bytes, 33, 20, heading.first);
    put_number(&mut bytes, 53, 20, heading.second);
    put_number(&mut bytes, 73, 20, heading.third);
    put_number(&mut bytes, 93, 20, heading.fourth);
    put_blanks(&mut bytes, 113, 14);
    put(&mut bytes, 127, b"\n");
    bytes
}

/// Whether two records have the same bytes in so many columns.
fn are_same(first: &[u8; RECORD], second: &[u8; RECORD], at: usize, len: usize) -> bool
    requires { at + len ≤ 128 }
    ensures { result ≡ bytes_eq (part first.now at len) (part second.now at len) }
{
    first[at..at + len] == second[at..at + len]
}

/// What a first record tells otherwise than this heading. `None` where it is the heading's record, to the byte. Takes no
/// memory.
pub fn heading_fault(first: &[u8; RECORD], heading: &Heading) -> Option<HeadingFault>
    // Nothing is told of the heading's very bytes; else `Format` where the first 28 differ, else
    // `Rules` where those of the rules do, else `Accounts`.
    ensures fault { result ≡ heading_fault first.now (heading_bytes heading.now) }
    // `None` comes only for the very bytes of the heading's record.
    ensures none { result ≡ None → first.now ≡ heading_bytes heading.now }
{
    let wanted = heading_bytes(heading);
    if *first == wanted {
        None
    } else if !are_same(first, &wanted, 0, 28) {
        Some(HeadingFault::Format)
    } else if !are_same(first, &wanted, 28, 5) {
        Some(HeadingFault::Rules)
    } else {
        Some(HeadingFault::Accounts)
    }
}
