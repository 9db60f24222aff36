//! Reading a message.

ghost use Rattle.std.specs.Prelude.{◌≡◌, ◌+◌, ◌≤◌, [], length, drop, IfOk, OnOk, OnErr, Some};
ghost use Rattle.iso_wire.specs.Elements.{IsAscending};
ghost use Rattle.iso_parts.specs.Spec.{IsGood};
ghost use Rattle.iso_wire.specs.Ends.{views, IsWhole, IsNumbered};
ghost use Rattle.iso_table.specs.Layout.{AreGood};
ghost use Rattle.iso_wire.specs.Appending.{ReadsInto, AppendsPart};
ghost use Rattle.iso_wire.specs.Reading.{Gives, Unpacks, fault_place, value_at, value_by, elements_at, message_at};
ghost use Rattle.iso_wire.specs.Unpacking.{IsUnpacked, read_into};
ghost use Rattle.iso_parts.specs.Bitmap.{contains, AreElements};
ghost use Rattle.iso_parts.specs.Numbers.{members};

use crate::elements::Elements;
use crate::fault::{UnpackCause, UnpackFault};
use crate::front::beginning_of;
use crate::laws::{reads_spellings, stops};
use crate::message::Message;
use crate::runs::{append_element, copy_run};
use iso_parts::raw::{LONGEST_VALUE, decode_value};
use iso_parts::{Bitmap, FieldFault, FieldSpec, Mti};
use iso_table::Table;
use std::alloc::Global;

/// Where a faulty part stops being one, behind the part's start: at its length, or behind it.
pub(crate) fn fault_place(fault: FieldFault, front: usize) -> usize
    ensures { result ≡ fault_place fault front }
{
    match fault {
        FieldFault::BadLengthDigits | FieldFault::LengthOver => 0,
        _ => front,
    }
}

/// Appends the value of element `n` under its row, whose part begins at `at`, and gives how many bytes the part takes.
pub(crate) fn read_row(
    row: &FieldSpec,
    n: u8,
    at: usize,
    bytes: &[u8],
    values: &mut Vec<u8>,
) -> Result<usize, UnpackFault>
    requires good { IsGood row.now }
    requires within { at ≤ length bytes.now }
    ensures exact { AppendsPart values.old.items values.new.items result
        (value_by (Some row.now) n at (drop at bytes.now)) }
    ensures room { IfOk result (λ used. at + used ≤ length bytes.now) }
{
    let front = row.length.prefix_size();
    let (_, rest) = bytes.split_at(at);
    match decode_value(row, rest, values) {
        Ok(Some(used)) => Ok(used),
        Ok(None) => {
            let place = if rest.len() < front { at } else { at + front };
            Err(UnpackFault::stop(n, place, UnpackCause::Short))
        }
        Err(FieldFault::Memory) => Err(UnpackFault::memory()),
        Err(fault) => {
            let place = at + fault_place(fault, front);
            Err(UnpackFault::stop(n, place, UnpackCause::Field(fault)))
        }
    }
}

/// Appends the value of element `n`, whose part begins at `at`, and gives how many bytes the part takes.
pub(crate) fn read_value(
    table: &Table,
    n: u8,
    at: usize,
    bytes: &[u8],
    values: &mut Vec<u8>,
) -> Result<usize, UnpackFault>
    requires { at ≤ length bytes.now }
    ensures exact { AppendsPart values.old.items values.new.items result
        (value_at table.now.rows n at (drop at bytes.now)) }
    ensures room { IfOk result (λ used. at + used ≤ length bytes.now) }
{
    let Some(row) = table.row(n) else {
        return Err(UnpackFault::stop(n, at, UnpackCause::UnknownElement(n)));
    };
    read_row(row, n, at, bytes, values)
}

/// The most bytes that the values of so many elements can have, whose parts lie in so many bytes: a part has at most two
/// characters a byte.
#[inline(always)]
pub(crate) fn values_room(count: usize, bytes: usize) -> usize {
    count
        .saturating_mul(LONGEST_VALUE)
        .min(bytes.saturating_mul(2))
}

/// Reads the elements with these numbers, whose parts begin at `start`, in place of the ones that were there, and gives
/// the offset behind them. The room for them is taken once.
fn read_elements(
    table: &Table,
    numbers: Bitmap,
    start: usize,
    bytes: &[u8],
    elements: &mut Elements,
) -> Result<usize, UnpackFault>
    requires within { start ≤ length bytes.now }
    requires elements { AreElements (contains numbers) }
    ensures exact { Gives (λ end. (views elements.new, end)) result
        (elements_at table.now.rows (members numbers) start (drop start bytes.now)) }
    ensures whole { OnOk result (IsWhole elements.new) }
    ensures numbered { OnOk result (IsNumbered elements.new) }
{
    let count = numbers.count();
    elements.start_over(count, values_room(count, bytes.len() - start))?;
    elements.numbers = numbers;
    let mut rest = numbers;
    let mut from = start;
    let mut at = start;
    while let Some(n) = rest.take_first() {
        let (begun, end) = append_element(table, n, from, at, bytes, elements)?;
        from = begun;
        at = end;
    }
    copy_run(bytes, from, at, elements)?;
    Ok(at)
}

/// Reads the message that the bytes begin with: its type, its elements in place of the ones that were there, and how
/// many bytes it takes.
pub(crate) fn read_message(
    table: &Table,
    bytes: &[u8],
    elements: &mut Elements,
) -> Result<(Mti, usize), UnpackFault>
    ensures exact { ReadsInto (views elements.new) result (message_at table.now bytes.now) }
    ensures whole { OnOk result (IsWhole elements.new) }
    ensures ascending { OnOk result (IsAscending 2 (views elements.new)) }
    ensures numbered { OnOk result (IsNumbered elements.new) }
    ensures good { AreGood table.now.rows }
{
    let begun = beginning_of(table, bytes)?;
    let end = read_elements(table, begun.numbers, begun.end, bytes, elements)?;
    Ok((begun.mti, end))
}

/// The message that the bytes begin with, and how many bytes it takes.
pub(crate) fn message_of(
    alloc: Global,
    table: &Table,
    bytes: &[u8],
) -> Result<(Message, usize), UnpackFault>
    ensures exact { Unpacks result (message_at table.now bytes.now) }
    ensures good { AreGood table.now.rows }
{
    let mut elements = Elements::new(alloc);
    let (mti, end) = read_message(table, bytes, &mut elements)?;
    Ok((Message::from_elements(mti, elements), end))
}

/// Reads the message that the bytes begin with, and says how many bytes it takes; bytes behind it are left.
///
/// The bytes are read piece by piece: the message type, the primary bitmap, the secondary one, and for each element
/// its length and its body. Each piece is judged when it is whole, and the first one that is not good or not whole
/// is the fault.
pub fn unpack(alloc: Global, table: &Table, bytes: &[u8]) -> Result<(Message, usize), UnpackFault>
    // What is read is spelled by the first bytes, and what they spell is read. A fault tells where the bytes stop, and why.
    ensures { IsUnpacked table.now bytes.now result }
{
    reads_spellings();
    stops();
    message_of(alloc, table, bytes)
}

/// Reads the message that the bytes begin with, as [`unpack`] does, in place of what `into` was and in the memory that it
/// has, where that is enough, and says how many bytes it takes.
pub fn unpack_into(table: &Table, bytes: &[u8], into: &mut Message) -> Result<usize, UnpackFault>
    // What `into` is then is what `unpack` gives, and a fault is its fault.
    ensures unpacked { IsUnpacked table.now bytes.now (read_into into.new result) }
    // After a fault `into` has its type and no elements.
    ensures emptied { OnErr result (into.new ≡ record into.old { elements = [] }) }
{
    reads_spellings();
    stops();
    into.read(table, bytes)
}
