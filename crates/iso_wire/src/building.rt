//! Building a message that was judged good, without judging it again.

ghost use Rattle.std.specs.Prelude.{◌≡◌, ◌+◌, ◌≤◌, ◌∷◌, ℕ, List, drop, length, IfOk, OnOk};
ghost use Rattle.iso_wire.specs.Elements.{IsAscending};
ghost use Rattle.iso_table.specs.Layout.{AreGood};
ghost use Rattle.iso_wire.specs.Ends.{views, Awaits, IsWhole, IsNumbered};
ghost use Rattle.iso_wire.specs.Taking.{IsRead};
ghost use Rattle.iso_wire.specs.Appending.{ReadsInto, AppendsElement};
ghost use Rattle.iso_wire.specs.Reading.{Gives, Unpacks, value_at, elements_at, message_at};
ghost use Rattle.iso_parts.specs.Bitmap.{contains, AreElements};
ghost use Rattle.iso_parts.specs.Numbers.{members};

use crate::elements::Elements;
use crate::fault::UnpackFault;
use crate::front::beginning_of;
use crate::message::Message;
use crate::unpacking::values_room;
use iso_parts::raw::decode_judged;
use iso_parts::{Bitmap, Mti};
use iso_table::Table;
use std::alloc::Global;

/// Appends element `n`, whose part begins at `at`, and gives how many bytes the part takes.
fn append_element(
    table: &Table,
    n: u8,
    at: usize,
    bytes: &[u8],
    elements: &mut Elements,
) -> Result<usize, UnpackFault>
    requires within { at ≤ length bytes.now }
    requires awaits { (later : List ℕ) × Awaits elements.old (n ∷ later) }
    requires read { IsRead (value_at table.now.rows n at (drop at bytes.now)) }
    ensures exact { AppendsElement (views elements.old) (views elements.new) n result
        (value_at table.now.rows n at (drop at bytes.now)) }
    ensures room { IfOk result (λ used. at + used ≤ length bytes.now) }
    ensures awaits { OnOk result
        ((later : List ℕ) → Awaits elements.old (n ∷ later) → Awaits elements.new later) }
    ensures kept { OnOk result (elements.new.numbers ≡ elements.old.numbers) }
{
    let Some(row) = table.row(n) else {
        unreachable!();
    };
    let (_, part) = bytes.split_at(at);
    let used = decode_judged(row, part, &mut elements.values)?;
    elements.close()?;
    Ok(used)
}

/// Builds the elements with these numbers, whose parts begin at `start`, in place of the ones that were there, and gives
/// the offset behind them. The room for them is taken once.
fn build_elements(
    table: &Table,
    numbers: Bitmap,
    start: usize,
    bytes: &[u8],
    elements: &mut Elements,
) -> Result<usize, UnpackFault>
    requires within { start ≤ length bytes.now }
    requires elements { AreElements (contains numbers) }
    requires read { IsRead
        (elements_at table.now.rows (members numbers) start (drop start bytes.now)) }
    ensures exact { Gives (λ end. (views elements.new, end)) result
        (elements_at table.now.rows (members numbers) start (drop start bytes.now)) }
    ensures whole { OnOk result (IsWhole elements.new) }
    ensures numbered { OnOk result (IsNumbered elements.new) }
{
    let count = numbers.count();
    elements.start_over(count, values_room(count, bytes.len() - start))?;
    elements.numbers = numbers;
    let mut rest = numbers;
    let mut at = start;
    while let Some(n) = rest.take_first() {
        let used = append_element(table, n, at, bytes, elements)?;
        at += used;
    }
    Ok(at)
}

/// Builds the message that the bytes begin with: its type, its elements in place of the ones that were there, and how
/// many bytes it takes. The caller has judged it good.
pub(crate) fn build_into(
    table: &Table,
    bytes: &[u8],
    elements: &mut Elements,
) -> Result<(Mti, usize), UnpackFault>
    requires read { IsRead (message_at table.now bytes.now) }
    ensures exact { ReadsInto (views elements.new) result (message_at table.now bytes.now) }
    ensures whole { OnOk result (IsWhole elements.new) }
    ensures ascending { OnOk result (IsAscending 2 (views elements.new)) }
    ensures numbered { OnOk result (IsNumbered elements.new) }
    ensures good { AreGood table.now.rows }
{
    let begun = beginning_of(table, bytes)?;
    let end = build_elements(table, begun.numbers, begun.end, bytes, elements)?;
    Ok((begun.mti, end))
}

/// The message that the bytes begin with, and how many bytes it takes. The caller has judged it good.
pub(crate) fn build_judged(
    alloc: Global,
    table: &Table,
    bytes: &[u8],
) -> Result<(Message, usize), UnpackFault>
    requires read { IsRead (message_at table.now bytes.now) }
    ensures exact { Unpacks result (message_at table.now bytes.now) }
    ensures good { AreGood table.now.rows }
{
    let mut elements = Elements::new(alloc);
    let (mti, end) = build_into(table, bytes, &mut elements)?;
    Ok((Message::from_elements(mti, elements), end))
}
