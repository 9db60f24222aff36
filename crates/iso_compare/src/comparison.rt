//! An answer beside the one that was expected.

ghost use Rattle.std.specs.Prelude.{◌≡◌, ◌≢◌, ◌↔◌, IfOk};
ghost use Rattle.iso_compare.specs.Comparing.{Compares};
ghost use Rattle.iso_compare.specs.declared.comparison.Comparison.TheVariants as comparisons;

use crate::difference::{Difference, differing};
use crate::reading::{NoMessage, Reading, read};
use iso_table::{NoMemory, Table};
use std::alloc::Global;

/// Which of two frames.
#[derive(Clone, Copy, Debug, PartialEq, Eq)]
pub enum Side {
    /// The one that was expected.
    Expected,
    /// The one that came.
    Came,
}

/// How what came agrees with what was expected.
#[derive(Clone, Copy, Debug, PartialEq, Eq)]
pub enum Comparison {
    /// The bytes are the same.
    Same,
    /// Other bytes, and both are messages. One message can be written in two ways: then nothing differs.
    Differ(Difference),
    /// Other bytes, and these are no message: of two that are none, the expected ones are told.
    Unreadable(Side, NoMessage),
}

/// Compares two bodies of which the bytes differ.
fn compare_others(
    alloc: Global,
    table: &Table,
    expected: &[u8],
    came: &[u8],
) -> Result<Comparison, NoMemory>
    ensures exact { IfOk result (Compares table.now expected.now came.now) }
    ensures other { IfOk result (λ c. c ≢ comparisons.Same) }
{
    let left = match read(alloc, table, expected)? {
        Reading::Whole(message) => message,
        Reading::No(why) => return Ok(Comparison::Unreadable(Side::Expected, why)),
    };
    match read(alloc, table, came)? {
        Reading::Whole(right) => Ok(Comparison::Differ(differing(&left, &right))),
        Reading::No(why) => Ok(Comparison::Unreadable(Side::Came, why)),
    }
}

/// Compares the body of a frame that came with the one that was expected, both messages of a table.
pub fn compare_frames(
    alloc: Global,
    table: &Table,
    expected: &[u8],
    came: &[u8],
) -> Result<Comparison, NoMemory>
    // Memory aside, `Same` comes exactly where both bodies are the same bytes, whatever they are.
    ensures same { IfOk result (λ c. (c ≡ comparisons.Same) ↔ (expected.now ≡ came.now)) }
    // Memory aside, other bodies are two messages, which differ as is told; or it is told which one
    // is the first that is no message, and why.
    ensures exact { IfOk result (Compares table.now expected.now came.now) }
{
    if expected == came {
        return Ok(Comparison::Same);
    }
    compare_others(alloc, table, expected, came)
}
