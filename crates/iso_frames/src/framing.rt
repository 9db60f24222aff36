//! An order as a frame.
ghost use Rattle.std.specs.Prelude.{◌≡◌, ◌≤◌, ℕ, List, length, drop, OnOk};
ghost use Rattle.iso_wire.specs.Framing.{frame_of, header_size};
ghost use Rattle.iso_wire.specs.Spelling.{PlainSpelling};
ghost use Rattle.iso_order.specs.Requests.{request};

use crate::fault::FramesFault;
use iso_exchange::write_request;
use iso_order::Order;
use iso_table::Table;
use iso_wire::{Header, PackFault, close_frame};
use std::alloc::Global;

/// The fault of a request that isn't written.
fn unwritten(fault: PackFault) -> FramesFault {
    match fault {
        PackFault::Memory => FramesFault::Memory,
        _ => FramesFault::Unwritten(fault),
    }
}

/// Makes a frame of the room for a header and the body behind it.
fn close(header: Header, frame: &mut Vec<u8>) -> Result<(), FramesFault>
    requires { header_size header ≤ length frame.old.items }
    ensures { OnOk result
        (frame.new.items ≡ frame_of header (drop (header_size header) frame.old.items)) }
{
    match close_frame(header, frame.as_mut_slice()) {
        Ok(()) => Ok(()),
        Err(_) => Err(FramesFault::TooLong),
    }
}

/// Writes the frame of the message that asks for an order, in place of what was there. After an `Err` anything may be there.
pub fn write_frame(
    alloc: Global,
    table: &Table,
    header: Header,
    order: &Order,
    frame: &mut Vec<u8>,
) -> Result<(), FramesFault>
    // The body of the frame spells the request.
    ensures framed { OnOk result ((body : List ℕ) × PlainSpelling table.now (request order.now) body
        × (frame.new.items ≡ frame_of header body)) }
{
    match write_request(alloc, table, header.size(), order, frame) {
        Ok(()) => close(header, frame),
        Err(fault) => Err(unwritten(fault)),
    }
}
