//! Whether a journal is whole.

ghost use Rattle.std.specs.Prelude.{◌≡◌, IfErr, IfOk, IfSome};
ghost use Rattle.iso_books.specs.Condition.{IsSurveyed, condition_left};
ghost use Rattle.iso_books.specs.Fault.{IsPlain};
ghost use Rattle.iso_books.specs.Headings.{IsOther};

use crate::fault::BooksFault;
use crate::heading::{Wanted, take_heading};
use crate::steps::{Front, step};
use iso_input::Window;
use iso_log::MOST_RECORDS;
use std::alloc::Global;
use std::io::Read;

/// What a journal's file holds behind its heading, which has place 0.
#[derive(Clone, Copy, Debug, PartialEq, Eq, Drop)]
pub enum Condition {
    /// The records of so many orders, and zeros.
    Whole(usize),
    /// The records of so many orders, and behind them what a crash left of another one.
    Torn(usize),
    /// At this place the first record that no host can have written.
    Damaged(usize),
}

/// What is left of a file behind its heading.
fn survey_from<R: Read + Drop>(window: &mut Window<R>) -> Result<Condition, BooksFault>
    ensures condition { IfOk result
        (λ c. IfSome window.old.ahead (λ rest. c ≡ condition_left 0 rest)) }
    ensures fault { IfErr result IsPlain }
{
    for count in 0..MOST_RECORDS {
        match step(window, count + 1)? {
            Front::Entry(_) => {}
            Front::Damaged => return Ok(Condition::Damaged(count + 1)),
            Front::Clear => return Ok(Condition::Whole(count)),
            Front::Torn => return Ok(Condition::Torn(count)),
        }
    }
    // no file has so many bytes
    Err(BooksFault::Read)
}

/// Looks through a journal: how many orders it has, and what stands behind them; or the first record that no host can have
/// written there, whatever its accounts. Holds a block of the file at a time.
pub fn survey<R: Read + Drop>(
    alloc: Global,
    file: R,
    wanted: &Wanted,
) -> Result<Condition, BooksFault>
    // Where the file's bytes are known: its heading is wanted, and behind it are so many orders and
    // zeros, or a torn rest, or at this place the first record that isn't its place's row.
    ensures surveyed { IfOk result
        (λ c. IfSome (R.remaining file) (λ all. IsSurveyed wanted.now all c)) }
    // Where the file's bytes are known, a fault about the heading is the first thing that it tells
    // otherwise than is wanted.
    ensures fault { IfErr result
        (λ e. IfSome (R.remaining file) (λ all. IsOther wanted.now all e)) }
{
    let mut window = Window::new(alloc, file);
    take_heading(&mut window, wanted)?;
    survey_from(&mut window)
}
