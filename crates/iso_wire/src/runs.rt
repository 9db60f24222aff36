//! Reading elements whose values stand together in the bytes: they wait there, and are copied at once.

ghost use Rattle.std.specs.Prelude.{◌≡◌, ℕ, ◌+◌, ◌≤◌, ◌++◌, ◌∷◌, [], drop, length, IfOk, IsTrue, OnOk, Some};
ghost use Rattle.iso_parts.specs.Spec.{IsGood};
ghost use Rattle.iso_wire.specs.Ends.{IsMadeOf};
ghost use Rattle.iso_wire.specs.Reading.{value_at, value_by};
ghost use Rattle.iso_wire.specs.Runs.{run_of, run_in, AppendsRun, IsBare};

use crate::bodies::judge_row;
use crate::elements::Elements;
use crate::fault::{UnpackCause, UnpackFault};
use crate::unpacking::read_row;
use iso_parts::{Coding, FieldSpec, Pad};
use iso_table::Table;
use std::alloc::AllocError;

/// Whether the body of a part is its value: a character is a byte, and there is no padding.
#[inline(always)]
fn is_bare(row: &FieldSpec) -> bool
    ensures { IsTrue result → IsBare row.now }
{
    row.pad == Pad::None && matches!(row.coding, Coding::Ascii | Coding::Raw)
}

/// Copies the bytes from one offset up to another one behind the values.
#[inline(always)]
pub(crate) fn copy_run(
    bytes: &[u8],
    from: usize,
    to: usize,
    elements: &mut Elements,
) -> Result<(), AllocError>
    requires order { from ≤ to }
    requires within { to ≤ length bytes.now }
    ensures ok { OnOk result (IsMadeOf elements.new elements.old.ends.items
        (elements.old.values.items ++ run_in bytes.now from to)) }
    ensures kept { OnOk result (elements.new.numbers ≡ elements.old.numbers) }
{
    elements.values.extend_from_slice(&bytes[from..to])?;
    Ok(())
}

/// Where the run of values begins, once the next body begins so many bytes behind it: where it is the run's own, or else at
/// the body, and what waited is copied.
#[inline(always)]
fn start_run(
    bytes: &[u8],
    from: usize,
    at: usize,
    body: usize,
    elements: &mut Elements,
) -> Result<usize, AllocError>
    requires order { from ≤ at }
    requires within { at + body ≤ length bytes.now }
    ensures numbers { OnOk result (elements.new.numbers ≡ elements.old.numbers) }
    ensures ends { OnOk result (elements.new.ends.items ≡ elements.old.ends.items) }
    ensures from { IfOk result (λ r. r ≤ at + body) }
    ensures run { IfOk result (λ r. (to : ℕ) → at + body ≤ to
        → elements.new.values.items ++ run_in bytes.now r to ≡ (elements.old.values.items
        ++ run_in bytes.now from at) ++ run_in bytes.now (at + body) to) }
{
    if body == 0 {
        return Ok(from);
    }
    copy_run(bytes, from, at, elements)?;
    Ok(at + body)
}

/// Adds element `n`, whose part begins at `at` and whose body is its value, to the run that begins at `from`, and gives where
/// the run begins and ends then.
#[inline(always)]
fn append_bare(
    row: &FieldSpec,
    n: u8,
    from: usize,
    at: usize,
    bytes: &[u8],
    elements: &mut Elements,
) -> Result<(usize, usize), UnpackFault>
    requires good { IsGood row.now }
    requires bare { IsBare row.now }
    requires order { from ≤ at }
    requires within { at ≤ length bytes.now }
    ensures exact { AppendsRun (run_of bytes.now from at) elements.old elements.new result
        (value_by (Some row.now) n at (drop at bytes.now)) }
    ensures room { IfOk result (λ x. (x.0 ≤ x.1) × (x.1 ≤ length bytes.now)) }
{
    let (_, part) = bytes.split_at(at);
    let (body, used) = judge_row(row, n, at, part)?;
    let begun = start_run(bytes, from, at, body, elements)?;
    let to = at + used;
    elements.close_behind(to - begun)?;
    Ok((begun, to))
}

/// Adds element `n`, whose part begins at `at` and whose value is spelled by its body, behind the run that begins at `from`,
/// which is copied first; gives where the next run begins and ends.
fn append_spelled(
    row: &FieldSpec,
    n: u8,
    from: usize,
    at: usize,
    bytes: &[u8],
    elements: &mut Elements,
) -> Result<(usize, usize), UnpackFault>
    requires good { IsGood row.now }
    requires order { from ≤ at }
    requires within { at ≤ length bytes.now }
    ensures exact { AppendsRun (run_of bytes.now from at) elements.old elements.new result
        (value_by (Some row.now) n at (drop at bytes.now)) }
    ensures room { IfOk result (λ x. (x.0 ≤ x.1) × (x.1 ≤ length bytes.now)) }
{
    if from < at {
        copy_run(bytes, from, at, elements)?;
    }
    let used = read_row(row, n, at, bytes, &mut elements.values)?;
    elements.close()?;
    Ok((at + used, at + used))
}

/// Adds element `n`, whose part begins at `at`, behind the run of values that begins at `from`, and gives where the run begins
/// and ends then.
#[inline(always)]
pub(crate) fn append_element(
    table: &Table,
    n: u8,
    from: usize,
    at: usize,
    bytes: &[u8],
    elements: &mut Elements,
) -> Result<(usize, usize), UnpackFault>
    requires order { from ≤ at }
    requires within { at ≤ length bytes.now }
    ensures exact { AppendsRun (run_of bytes.now from at) elements.old elements.new result
        (value_at table.now.rows n at (drop at bytes.now)) }
    ensures room { IfOk result (λ x. (x.0 ≤ x.1) × (x.1 ≤ length bytes.now)) }
{
    let Some(row) = table.row(n) else {
        return Err(UnpackFault::stop(n, at, UnpackCause::UnknownElement(n)));
    };
    if is_bare(row) {
        append_bare(row, n, from, at, bytes, elements)
    } else {
        append_spelled(row, n, from, at, bytes, elements)
    }
}
