//! Where the first text of an input ends.

ghost use Rattle.std.specs.Prelude.{◌≤◌, length, take, IfSome, IfNone};
ghost use Rattle.iso_jobs.specs.Making.{IsText, IsLineSize};

use crate::making::{is_blank, is_json};
use iso_json::split_fields;
use memchr::memchr;

/// How many bytes the first line has, with its end, if it has one.
fn first_line(held: &[u8]) -> Option<usize>
    ensures { IsLineSize held.now result }
{
    match memchr(b'\n', held) {
        Some(at) => Some(at + 1),
        None => None,
    }
}

/// How many bytes the first text has, with the end of its line: a blank line, a line of JSON, or field lines with the line
/// that ends them. None where its end isn't among the bytes.
pub(crate) fn first_text(held: &[u8]) -> Option<usize>
    ensures size { IfSome result (λ size. size ≤ length held.now) }
    ensures text { IfSome result (λ size. IsText (take size held.now)) }
    ensures rest { IfNone result (IsText held.now) }
{
    let Some(size) = first_line(held) else {
        return None;
    };
    let (line, _) = held.split_at(size);
    if is_blank(line) || is_json(line) {
        return Some(size);
    }
    let (text, rest) = split_fields(held);
    if rest.is_empty() {
        return None;
    }
    Some(text.len())
}
