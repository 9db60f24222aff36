//! Frames: a header that counts the body, and the body.

ghost use Rattle.std.specs.Prelude.{◌≡◌, ◌↔◌, ◌+◌, ◌<◌, ◌≤◌, [], ◌∷◌, ◌++◌, drop, replicate};
ghost use Rattle.std.specs.Prelude.{ℕ, List, length, IfOk, OnOk, OnErr, IsErrOf, IsOkUnless, true, Some};
ghost use Rattle.iso_wire.specs.declared.framing.FrameFault.TheVariants as faults;
ghost use Rattle.iso_wire.specs.Debugging.{debug_framed};
ghost use Rattle.iso_wire.specs.Framing.{largest, header_size, frame_of, Frames, frame_at, Unframes, AnswersFront, TellsLength, IsGot, is_bad_header};

use crate::header::Header;
use std::alloc::{AllocError, Global};
use std::fmt;
use thiserror::Error;

/// Why bytes are not put into a frame, or not taken out of one.
#[derive(Clone, Copy, Debug, PartialEq, Eq, Error)]
pub enum FrameFault {
    /// The header cannot count the body: it is of more than 65,535 bytes, or more than 9,999 where the header is of
    /// digits.
    #[error("the body is too long for its header")]
    TooLong,
    /// The header isn't of digits.
    #[error("the header isn't of digits")]
    BadDigits,
    /// Memory ran out.
    #[error("memory ran out")]
    Memory,
}

impl FrameFault {
    ghost use Rattle.iso_wire.specs.FaultNames.{frame_fault_name};
    ghost use Rattle.iso_wire.specs.FaultNumbers.{frame_fault_number};

    /// The fault's number, as logs and monitors show it: from 1 to 3, in the order of the variants.
    pub fn number(&self) -> u8
        ensures { result ≡ frame_fault_number self.now }
    {
        match self {
            FrameFault::TooLong => 1,
            FrameFault::BadDigits => 2,
            FrameFault::Memory => 3,
        }
    }

    /// The fault's name, as fault lines tell it.
    pub fn name(&self) -> &'static str
        ensures { result.now ≡ frame_fault_name self.now }
    {
        match self {
            FrameFault::TooLong => "TooLong",
            FrameFault::BadDigits => "BadDigits",
            FrameFault::Memory => "Memory",
        }
    }
}

impl From<AllocError> for FrameFault {
    ghost from_gives = { λ _ e. e ≡ faults.Memory };

    fn from(_e: AllocError) -> FrameFault {
        FrameFault::Memory
    }
}

/// What stands at the front of some bytes. Its `Debug` counts the bytes of a body and shows none.
#[derive(Clone, Copy, PartialEq, Eq)]
pub enum Framed<'a> {
    /// A whole frame, of `used` bytes with its header.
    Got { body: &'a [u8], used: usize },
    /// The bytes end inside the frame.
    More,
}

impl fmt::Debug for Framed<'_> {
    ghost debug_output = { λ frame. Some (debug_framed frame) };

    fn fmt<W: fmt::Write>(&self, f: &mut fmt::Formatter<W>) -> fmt::Result {
        match self {
            Framed::Got { body, used } => {
                let count = body.len();
                write!(f, "Got {{ body: {count} bytes, used: {used} }}")
            }
            Framed::More => write!(f, "More"),
        }
    }
}

/// Appends a frame: the header of the body, and the body. On a fault nothing is changed.
pub fn append_frame(header: Header, body: &[u8], out: &mut Vec<u8>) -> Result<(), FrameFault>
    // At `Ok` the header stands behind what was there, and then the body that it counts.
    ensures ok { OnOk result (out.new.items ≡ out.old.items ++ frame_of header body.now) }
    // After a fault the buffer holds what it held before.
    ensures err { OnErr result (out.new.items ≡ out.old.items) }
    // `TooLong` comes exactly where the body is longer than the header can count.
    ensures too_long { IsErrOf result faults.TooLong ↔ (largest header < length body.now) }
    // A body that the header can count is appended, unless memory runs out.
    ensures memory { length body.now ≤ largest header → IsOkUnless result faults.Memory }
{
    if body.len() > header.limit() {
        return Err(FrameFault::TooLong);
    }
    let start = out.len();
    out.resize(start + header.size() + body.len(), 0)?;
    let (_, frame) = out.as_mut_slice().split_at_mut(start);
    let (front, room) = frame.split_at_mut(header.size());
    header.write(body.len(), front);
    room.copy_from_slice(body);
    Ok(())
}

/// The frame of a body.
pub fn frame(alloc: Global, header: Header, body: &[u8]) -> Result<Vec<u8>, FrameFault>
    // What is made is the frame of this body alone.
    ensures framed { IfOk result (λ out. Frames header (body.now ∷ []) out.items) }
    // `TooLong` comes exactly where the body is longer than the header can count.
    ensures too_long { IsErrOf result faults.TooLong ↔ (largest header < length body.now) }
    // A body that fits is framed, unless memory runs out.
    ensures memory { length body.now ≤ largest header → IsOkUnless result faults.Memory }
{
    let mut out = Vec::new(alloc);
    append_frame(header, body, &mut out)?;
    Ok(out)
}

/// Appends room for a header, which is zeros. A body is then written behind it, and [`close_frame`] makes both a frame.
/// Without memory nothing is changed.
pub fn open_frame(header: Header, out: &mut Vec<u8>) -> Result<(), AllocError>
    // Memory aside, zeros are appended, as many as the header has bytes.
    ensures ok { OnOk result (out.new.items ≡ out.old.items ++ replicate (header_size header) 0) }
    // Without memory nothing is appended.
    ensures err { OnErr result (out.new.items ≡ out.old.items) }
{
    out.resize(out.len() + header.size(), 0)
}

/// Makes a frame of the room for a header and the body behind it: writes the header that counts the body into that room,
/// whatever it holds. Takes no memory, and the body stays where it is. On a fault nothing is changed.
///
/// The only fault is `TooLong`.
pub fn close_frame(header: Header, frame: &mut [u8]) -> Result<(), FrameFault>
    // The header's room is there.
    requires { header_size header ≤ length frame.old }
    // At `Ok` the room holds the header that counts what lies behind it, and that stays as it was.
    ensures ok { OnOk result (frame.new ≡ frame_of header (drop (header_size header) frame.old)) }
    // After a fault every byte is as before.
    ensures err { OnErr result (frame.new ≡ frame.old) }
    // `TooLong` comes exactly where what lies behind the room is longer than the header can count.
    ensures too_long { IsErrOf result faults.TooLong
        ↔ (header_size header + largest header < length frame.old) }
    // No other fault than `TooLong` comes, so none for want of memory.
    ensures memory { IsOkUnless result faults.TooLong }
{
    let (front, body) = frame.split_at_mut(header.size());
    let size = body.len();
    if size > header.limit() {
        return Err(FrameFault::TooLong);
    }
    header.write(size, front);
    Ok(())
}

/// The length of the body that the header at the front of the input counts, and `None` where the input ends inside that
/// header. Takes no memory. The bytes behind the header aren't looked at.
///
/// The only fault is `BadDigits`.
#[inline(always)]
pub fn body_length(header: Header, input: &[u8]) -> Result<Option<usize>, FrameFault>
    ensures { TellsLength header input.now result }
{
    let size = header.size();
    if input.len() < size {
        return Ok(None);
    }
    match header.length_of(&input[..size]) {
        Some(length) => Ok(Some(length as usize)),
        None => Err(FrameFault::BadDigits),
    }
}

/// Reads the frame that the input begins with: the header when it is whole, and then the body. Takes no memory.
///
/// The only fault is `BadDigits`.
pub fn unframe<'a>(header: Header, input: &'a [u8]) -> Result<Framed<'a>, FrameFault>
    // The header is read when it is whole, and is the fault where it isn't of digits. The body is
    // got when it is whole. Until then more is wanted.
    ensures read { Unframes result (frame_at header input.now) }
    // A frame that is got begins the input; more is wanted where neither a frame nor a bad header does.
    ensures front { AnswersFront header input.now result }
    // Each whole frame that begins the input is got.
    ensures got { (body more : List ℕ) → length body ≤ largest header
        → input.now ≡ frame_of header body ++ more
        → IsGot result body (header_size header + length body) }
    // `BadDigits` comes exactly where a whole header that isn't of digits begins the input.
    ensures bad { IsErrOf result faults.BadDigits ↔ (is_bad_header header input.now ≡ true) }
{
    let size = header.size();
    if input.len() < size {
        return Ok(Framed::More);
    }
    let (front, rest) = input.split_at(size);
    let Some(length) = header.length_of(front) else {
        return Err(FrameFault::BadDigits);
    };
    let length = length as usize;
    if rest.len() < length {
        return Ok(Framed::More);
    }
    Ok(Framed::Got {
        body: &rest[..length],
        used: size + length,
    })
}
