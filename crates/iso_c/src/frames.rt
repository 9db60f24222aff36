//! Frames: a header that counts the body, and the body.

ghost use Rattle.std.specs.Prelude.{◌≡◌, IfOk, IfErr};
ghost use Rattle.iso_c.specs.Answers.{Replies, KeepsFault};
ghost use Rattle.iso_c.specs.Frames.{header_named, FramesBy, IsFrameFault, Unframes};

use crate::answers::{answer, length_of, refuse};
use crate::fault::{NO_SUCH_HEADER, RumpadolFault};
use crate::parts::RumpadolPart;
use iso_wire::{Framed, Header, frame, unframe};
use std::alloc::Global;

/// The header of a number: 0 is binary2, 1 ascii4, 2 bcd2.
fn header_named(name: u32) -> Option<Header>
    ensures { result ≡ header_named name }
{
    match name {
        0 => Some(Header::Binary2),
        1 => Some(Header::Ascii4),
        2 => Some(Header::Bcd2),
        _ => None,
    }
}

/// The frame of a body.
fn frame_body(alloc: Global, header: u32, body: &[u8]) -> Result<Vec<u8>, RumpadolFault>
    ensures ok { IfOk result (λ out. FramesBy (header_named header) body.now out.items) }
    ensures fault { IfErr result (IsFrameFault (header_named header) body.now) }
{
    match header_named(header) {
        Some(header) => Ok(frame(alloc, header, body)?),
        None => Err(RumpadolFault::only(NO_SUCH_HEADER)),
    }
}

/// Writes the frame of a body. Answers how many bytes it has, or -1 and a fault.
#[unsafe(no_mangle)]
pub extern "C" fn rumpadol_frame(
    alloc: Global,
    header: u32,
    body: &[u8],
    out: &mut [u8],
    fault: &mut RumpadolFault,
) -> i64
    // The room begins with the body's frame, and the answer is its length; or -1, an untouched
    // room, and why: no such header, a body that it can't count, want of memory, or a short room.
    ensures reply { Replies (FramesBy (header_named header) body.now)
        (IsFrameFault (header_named header) body.now) result
        (record { old = out.old; new = out.new }) fault.new }
    // Where the answer isn't -1, the fault is as it was.
    ensures kept { KeepsFault result fault.old fault.new }
{
    answer(frame_body(alloc, header, body), out, fault)
}

/// Finds the frame that the input begins with, and tells where its body lies. Answers how many bytes the frame takes, 0
/// where the input ends inside it, or -1 and a fault.
#[unsafe(no_mangle)]
pub extern "C" fn rumpadol_unframe(
    header: u32,
    input: &[u8],
    body: &mut RumpadolPart,
    fault: &mut RumpadolFault,
) -> i64
    // The length of the frame that the input begins with, and where its body lies; 0 where it
    // begins with none and no bad header; or -1 for a bad header, or a number that no header has.
    ensures reply { Unframes (header_named header) input.now result
        (record { old = body.old; new = body.new }) fault.new }
    // Where the answer isn't -1, the fault is as it was.
    ensures kept { KeepsFault result fault.old fault.new }
{
    let Some(header) = header_named(header) else {
        return refuse(RumpadolFault::only(NO_SUCH_HEADER), fault);
    };
    match unframe(header, input) {
        Ok(Framed::Got { body: _, used }) => {
            let start = header.size();
            *body = RumpadolPart {
                element: 0,
                start,
                length: used - start,
            };
            length_of(used, input)
        }
        Ok(Framed::More) => 0,
        Err(reason) => refuse(RumpadolFault::from(reason), fault),
    }
}
