//! The body of an element, left where it lies.

ghost use Rattle.std.specs.Prelude.{◌≡◌, IfOk, IfErr};
ghost use Rattle.iso_c.specs.Answers.{KeepsFault};
ghost use Rattle.iso_c.specs.Viewing.{IsBodyAt, IsViewFault, IsBodyAtHeld, IsViewFaultHeld, RepliesPart};

use crate::answers::{length_of, refuse};
use crate::fault::{EMPTY_SLOT, NO_ELEMENT, RumpadolFault};
use crate::parts::RumpadolPart;
use crate::slot::RumpadolSlot;
use iso_table::Table;
use iso_wire::view;

/// Where the body of an element lies in the bytes.
fn body_at(table: &Table, bytes: &[u8], n: u8) -> Result<RumpadolPart, RumpadolFault>
    ensures ok { IfOk result (IsBodyAt table.now bytes.now n) }
    ensures fault { IfErr result (IsViewFault table.now bytes.now n) }
{
    let viewed = view(table, bytes)?;
    let Some(place) = viewed.place(n) else {
        return Err(RumpadolFault::at_element(NO_ELEMENT, u32::from(n)));
    };
    Ok(RumpadolPart {
        element: u32::from(n),
        start: place.start,
        length: place.end - place.start,
    })
}

/// The same of an element of any number.
pub(crate) fn body_of(
    table: &Table,
    bytes: &[u8],
    number: u32,
) -> Result<RumpadolPart, RumpadolFault>
    ensures ok { IfOk result (IsBodyAt table.now bytes.now number) }
    ensures fault { IfErr result (IsViewFault table.now bytes.now number) }
{
    if number <= 128 {
        return body_at(table, bytes, number as u8);
    }
    let viewed = view(table, bytes)?;
    Err(RumpadolFault::at_element(NO_ELEMENT, number))
}

/// The same under what a slot holds.
fn body_held(
    table: &Option<Table>,
    bytes: &[u8],
    number: u32,
) -> Result<RumpadolPart, RumpadolFault>
    ensures ok { IfOk result (IsBodyAtHeld table.now bytes.now number) }
    ensures fault { IfErr result (IsViewFaultHeld table.now bytes.now number) }
{
    match table {
        Some(table) => body_of(table, bytes, number),
        None => Err(RumpadolFault::only(EMPTY_SLOT)),
    }
}

/// Finds the body of an element of the message that the bytes begin with, and tells where it lies: behind its length and
/// with its padding. Answers how many bytes it has, or -1 and a fault. Copies nothing.
#[unsafe(no_mangle)]
pub extern "C" fn rumpadol_view(
    slot: &mut RumpadolSlot,
    bytes: &[u8],
    element: u32,
    body: &mut RumpadolPart,
    fault: &mut RumpadolFault,
) -> i64
    // The length of the element's body, and where it begins in the bytes; or -1, an untouched part,
    // and why: an empty slot, `view`'s fault, or `NoElement` where the message lacks it.
    ensures reply { RepliesPart (IsBodyAtHeld slot.old.value bytes.now element)
        (IsViewFaultHeld slot.old.value bytes.now element) result
        (record { old = body.old; new = body.new }) fault.new }
    // Where the answer isn't -1, the fault is as it was.
    ensures kept { KeepsFault result fault.old fault.new }
    // The slot keeps its table.
    ensures slot { slot.new.value ≡ slot.old.value }
{
    let table = slot.replace(None);
    let made = body_held(&table, bytes, element);
    let _ = slot.replace(table);
    match made {
        Ok(part) => {
            *body = part;
            length_of(part.length, bytes)
        }
        Err(reason) => refuse(reason, fault),
    }
}
