//! A table in memory that C gives, by its address.

ghost use Rattle.std.specs.Prelude.{◌≡◌, ◌≤◌, Option, Some, None, IsSomeAnd, IfOk, IfErr};
ghost use Rattle.iso_table.specs.Layout.{Layout, IsAccepted};
ghost use Rattle.iso_table.specs.Document.{IsTableOf};
ghost use Rattle.iso_c.specs.Answers.{Done, KeepsFault};
ghost use Rattle.iso_c.specs.FaultNumbers.{no_memory};
ghost use Rattle.iso_c.specs.Slot.{slot, slot_lies_at, slot_bytes, IsBuiltIn, IsBuiltInFault, IsTableFault};
ghost use Rattle.std.specs.Mem.{type_size};
ghost use Rattle.std.specs.Ptr.{room_at};
ghost use types.Logic.{sem};

use crate::answers::refuse;
use crate::fault::{NO_SUCH_TABLE, RumpadolFault};
use iso_table::Table;
use std::alloc::Global;
use std::marker::Model;

/// How many bytes a table or none takes.
const TAKEN: usize = std::mem::size_of::<Option<Table>>();

/// The address of memory of C's in which a table lies, or none.
#[repr(C)]
pub struct RumpadolSlot {
    at: *mut u8,
    /// The table.
    pub ghost value: { Option Layout },
}

impl Model for RumpadolSlot {
    ghost also_owns = { λ s. slot_lies_at s.at s.value };
}

impl RumpadolSlot {
    /// Puts a table or none into the slot, and gives what was there.
    pub(crate) fn replace(&mut self, new: Option<Table>) -> Option<Table>
        ensures { (result ≡ self.old.value) × (self.new.value ≡ new) }
    {
        let at = self.at as *mut Option<Table>;
        let old = unsafe { std::ptr::read(at) };
        unsafe { std::ptr::write(at, new) };
        old
    }
}

/// No table. The call only helps the prover: what a call gives is known to be a whole value of its type.
fn none() -> Option<Table>
    ensures { result ≡ None }
{
    None
}

/// How many bytes of a slot's memory are used. They are aligned to 8.
#[unsafe(no_mangle)]
pub extern "C" fn rumpadol_slot_size() -> usize
    // The size is that of a table or none.
    ensures exact { result ≡ type_size slot }
    // The size is at most the 64 bytes that a slot has.
    ensures room { result ≤ slot_bytes }
{
    TAKEN
}

/// Makes an empty slot of the memory at the address, which has room for `RUMPADOL_SLOT_BYTES` bytes, aligned to 8.
#[unsafe(no_mangle)]
pub unsafe extern "C" fn rumpadol_slot_init(at: *mut u8)
    // At the address there is room for a table, which nobody else uses.
    requires* { sem 𝓛 (room_at slot at) }
    ensures* { sem 𝓛 (slot_lies_at at None) }
{
    std::ptr::write(at as *mut Option<Table>, none());
}

/// Frees the table of the slot, if it has one, and leaves the slot empty.
#[unsafe(no_mangle)]
pub extern "C" fn rumpadol_slot_clear(alloc: Global, slot: &mut RumpadolSlot)
    ensures { slot.new.value ≡ None }
{
    let _table = slot.replace(None);
}

/// The table of a number: 0 is the 1987 table in ASCII, 1 the one in BCD.
fn built_in(alloc: Global, name: u32) -> Result<Table, RumpadolFault>
    ensures ok { IfOk result (IsBuiltIn name) }
    ensures fault { IfErr result (IsBuiltInFault name) }
{
    match name {
        0 => Ok(Table::ascii87(alloc)?),
        1 => Ok(Table::bcd87(alloc)?),
        _ => Err(RumpadolFault::only(NO_SUCH_TABLE)),
    }
}

/// Puts a built-in table into the slot, in place of the one that was there: 0, or -1 and a fault, and then the slot is
/// empty.
#[unsafe(no_mangle)]
pub extern "C" fn rumpadol_slot_built_in(
    alloc: Global,
    name: u32,
    slot: &mut RumpadolSlot,
    fault: &mut RumpadolFault,
) -> i64
    // 0, and the slot has the 1987 table of this number, 0 in ASCII or 1 in BCD; or -1, an empty
    // slot, and `NoSuchTable` exactly for every other number, memory aside.
    ensures reply { Done result (IsSomeAnd slot.new.value (IsBuiltIn name))
        ((slot.new.value ≡ None) × IsBuiltInFault name fault.new) }
    // Where the answer isn't -1, the fault is as it was.
    ensures kept { KeepsFault result fault.old fault.new }
{
    match built_in(alloc, name) {
        Ok(table) => {
            let _ = slot.replace(Some(table));
            0
        }
        Err(reason) => {
            let _ = slot.replace(None);
            refuse(reason, fault)
        }
    }
}

/// Checks a JSON text, and puts its table into the slot, in place of the one that was there: 0, or -1 and a fault, and
/// then the slot is empty.
#[unsafe(no_mangle)]
pub extern "C" fn rumpadol_slot_from_json(
    alloc: Global,
    json: &[u8],
    slot: &mut RumpadolSlot,
    fault: &mut RumpadolFault,
) -> i64
    // 0, and the slot has the table that the text stands for; or -1, an empty slot, and the first
    // fault of the text, memory aside.
    ensures reply { Done result (IsSomeAnd slot.new.value (IsTableOf json.now))
        ((slot.new.value ≡ None) × IsTableFault json.now fault.new) }
    // Where the answer isn't -1, the fault is as it was.
    ensures kept { KeepsFault result fault.old fault.new }
    // A text that stands for a table gives it, unless memory runs out.
    ensures only { (t : Layout) → IsAccepted t → IsTableOf json.now t
        → Done result (slot.new.value ≡ Some t) (fault.new ≡ no_memory) }
{
    match Table::from_json(alloc, json) {
        Ok(table) => {
            let _ = slot.replace(Some(table));
            0
        }
        Err(reason) => {
            let _ = slot.replace(None);
            refuse(RumpadolFault::from(reason), fault)
        }
    }
}
