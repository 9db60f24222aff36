//! The message that asks for an order.
ghost use Rattle.std.specs.Prelude.{◌≡◌, ◌≢◌, ◌++◌, ℕ, List, Some, OnOk, IfErr, replicate};
ghost use Rattle.iso_wire.specs.declared.fault.PackFault.TheVariants as pack;
ghost use Rattle.iso_wire.specs.Refusal.{message_refusal};
ghost use Rattle.iso_wire.specs.Spelling.{PlainSpelling};
ghost use Rattle.iso_order.specs.Requests.{request};

use crate::purchase::append_purchase;
use iso_order::{Act, Order, request};
use iso_table::Table;
use iso_wire::{PackFault, append_message};
use std::alloc::{AllocError, Global};

/// So many zeros, in place of what was there.
fn start(room: usize, out: &mut Vec<u8>) -> Result<(), AllocError>
    ensures { OnOk result (out.new.items ≡ replicate room 0) }
{
    out.clear();
    out.resize(room, 0)
}

/// Appends the message that asks for an order, by a message in memory of its own.
fn append_message_for(
    alloc: Global,
    table: &Table,
    order: &Order,
    out: &mut Vec<u8>,
) -> Result<(), PackFault>
    ensures packed { OnOk result ((b : List ℕ) × PlainSpelling table.now (request order.now) b
        × (out.new.items ≡ out.old.items ++ b)) }
    ensures fault { IfErr result (λ e. e ≢ pack.Memory
        → message_refusal table.now (request order.now) ≡ Some e) }
{
    let Ok(message) = request(alloc, order) else {
        return Err(PackFault::Memory);
    };
    append_message(table, &message, out)
}

/// Writes the message that asks for an order, behind so many zeros, in place of what was there. Purchases are most orders:
/// they are written without a message. After a fault anything may be there.
pub fn write_request(
    alloc: Global,
    table: &Table,
    room: usize,
    order: &Order,
    out: &mut Vec<u8>,
) -> Result<(), PackFault>
    // What is written is the plain spelling of the request.
    ensures packed { OnOk result ((b : List ℕ) × PlainSpelling table.now (request order.now) b
        × (out.new.items ≡ replicate room 0 ++ b)) }
    // Memory aside, the fault is the first reason to refuse the request: its version, or an
    // element, by ascending number.
    ensures fault { IfErr result (λ e. e ≢ pack.Memory
        → message_refusal table.now (request order.now) ≡ Some e) }
{
    if let Act::Debit(money) = order.act() {
        start(room, out)?;
        if append_purchase(table, order, &money, out).is_ok() {
            return Ok(());
        }
    }
    // where a purchase can't be written, its message tells why
    start(room, out)?;
    append_message_for(alloc, table, order, out)
}
