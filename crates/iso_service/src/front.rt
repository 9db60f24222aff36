//! What the first bytes of a file tell otherwise than a journal's.
ghost use Rattle.std.specs.Prelude.{◌≡◌};
ghost use Rattle.std.specs.List.{list_all};
ghost use Rattle.iso_record.specs.Heading.{heading_bytes};
ghost use Rattle.iso_service.specs.Front.{is_zero, told, front_fault};

use iso_log::RECORD;
use iso_record::{Heading, HeadingFault, heading_fault};
use thiserror::Error;

/// Why a file is no journal of these accounts, by its first bytes.
#[derive(Clone, Copy, Debug, PartialEq, Eq, Drop, Error)]
pub enum FrontFault {
    /// It has no byte.
    #[error("the file is empty, so it is no journal; look at the path, or take it away and make one with --new")]
    Empty,
    /// It has so many bytes, fewer than a heading.
    #[error("the file has {0} bytes, and a journal's heading alone has 128: it was cut, or never was one; bring back the whole file")]
    Short(usize),
    /// It begins with zeros alone.
    #[error("the file begins with zeros where a journal has its heading: it was overwritten, or never was one; bring back the whole file")]
    Zeros,
    /// It begins with other words.
    #[error("the file is no journal of this program's format; name another file")]
    Foreign,
    /// It is a journal under another version of the issuer's rules.
    #[error("the journal was written under another version of the issuer's rules, which may answer otherwise; serve it with the program that wrote it")]
    OtherRules,
    /// It is a journal of other accounts.
    #[error("the journal belongs to another document of accounts; name the one that it was made with, the same to the byte")]
    OtherAccounts,
}

/// Whether all bytes are zero.
fn are_zeros(bytes: &[u8]) -> bool
    ensures { result ≡ list_all is_zero bytes.now }
{
    bytes.iter().all(|byte| *byte == 0)
}

/// The fault of a heading, of a file with as many bytes.
fn heading_told(fault: HeadingFault) -> FrontFault
    ensures { result ≡ told fault }
{
    match fault {
        HeadingFault::Format => FrontFault::Foreign,
        HeadingFault::Rules => FrontFault::OtherRules,
        HeadingFault::Accounts => FrontFault::OtherAccounts,
    }
}

/// What the first bytes of a file tell otherwise than a journal under this heading: as many as a heading has, or all, where
/// it has fewer. Takes no memory.
pub fn front_fault(front: &[u8], heading: &Heading) -> Option<FrontFault>
    // Nothing is told of the heading's own bytes; else that there are no bytes, fewer than 128, or
    // zeros alone, or the first thing that another heading tells otherwise.
    ensures { result ≡ front_fault front.now (heading_bytes heading.now) }
{
    if front.is_empty() {
        return Some(FrontFault::Empty);
    }
    let Some(first) = front.first_chunk::<RECORD>() else {
        return Some(FrontFault::Short(front.len()));
    };
    if are_zeros(first) {
        return Some(FrontFault::Zeros);
    }
    match heading_fault(first, heading) {
        None => None,
        Some(fault) => Some(heading_told(fault)),
    }
}
