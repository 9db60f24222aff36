//! The heading of a journal.

ghost use Rattle.std.specs.Prelude.{◌≡◌, IfErr, IfSome, OnOk};
ghost use Rattle.iso_books.specs.Headings.{IsHeaded, IsOther, told_by};
ghost use Rattle.iso_books.specs.Records.{Between};

use crate::fault::BooksFault;
use crate::records::first_record;
use iso_input::Window;
use iso_log::RECORD;
use iso_record::{Heading, HeadingFault, heading_fault};
use std::io::Read;

/// Which heading is wanted.
#[derive(Clone, Copy, Debug, PartialEq, Eq)]
pub enum Wanted {
    /// That of a journal of this format, of any accounts and under any rules.
    Any,
    /// This one.
    Only(Heading),
}

/// Any heading.
const SOME_HEADING: Heading = Heading {
    rules: 0,
    first: 0,
    second: 0,
    third: 0,
    fourth: 0,
};

/// Whether a first record is no journal's of this format.
fn format_fault(first: &[u8; RECORD]) -> Option<HeadingFault>
    ensures { result ≡ told_by Wanted.Any first.now }
{
    match heading_fault(first, &SOME_HEADING) {
        Some(HeadingFault::Format) => Some(HeadingFault::Format),
        Some(HeadingFault::Rules) | Some(HeadingFault::Accounts) | None => None,
    }
}

/// What a first record tells otherwise than is wanted.
fn fault_of(first: &[u8; RECORD], wanted: &Wanted) -> Option<HeadingFault>
    ensures { result ≡ told_by wanted.now first.now }
{
    match wanted {
        Wanted::Any => format_fault(first),
        Wanted::Only(heading) => heading_fault(first, heading),
    }
}

/// Takes the heading, where the file begins with one that is wanted.
pub(crate) fn take_heading<R: Read + Drop>(
    window: &mut Window<R>,
    wanted: &Wanted,
) -> Result<(), BooksFault>
    ensures headed { OnOk result (Between (IsHeaded wanted.now) window.old.ahead window.new.ahead) }
    ensures fault { IfErr result (λ e. IfSome window.old.ahead (λ all. IsOther wanted.now all e)) }
{
    let Some(first) = first_record(window)? else {
        return Err(BooksFault::Other(HeadingFault::Format));
    };
    if let Some(fault) = fault_of(&first, wanted) {
        return Err(BooksFault::Other(fault));
    }
    window.drop_front(RECORD);
    Ok(())
}
