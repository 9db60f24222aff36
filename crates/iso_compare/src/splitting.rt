//! The frames of a stream.

ghost use Rattle.std.specs.Prelude.{◌≡◌, IfOk, map};
ghost use Rattle.iso_compare.specs.Fronts.{IsFront};
ghost use Rattle.iso_wire.specs.Framing.{Splits};

use iso_wire::laws::{frames, splits_once};
use iso_wire::{Framed, Header, unframe};
use std::alloc::{AllocError, Global};

/// The bodies of the frames that some bytes begin with, and the bytes behind them.
#[derive(Drop)]
pub struct Split<'a> {
    /// The body of each whole frame.
    pub bodies: Vec<&'a [u8]>,
    /// The bytes behind the last of them, which begin with no whole frame.
    pub rest: &'a [u8],
}

/// Splits bytes into frames and a rest.
pub fn split_frames<'a>(
    alloc: Global,
    header: Header,
    bytes: &'a [u8],
) -> Result<Split<'a>, AllocError>
    // Memory aside, it is the split of the bytes into whole frames and a rest that begins with
    // none.
    ensures { IfOk result
        (λ split. Splits header bytes.now (map (λ b. b.now) split.bodies.items) split.rest.now) }
{
    frames(); // for the prover: a frame more comes behind the others
    splits_once(); // for the prover: bytes have one split into frames
    let mut bodies = Vec::new(alloc);
    let mut rest = bytes;
    while let Ok(Framed::Got { body, used }) = unframe(header, rest) {
        bodies.push(body)?;
        let (_, behind) = rest.split_at(used);
        rest = behind;
    }
    Ok(Split { bodies, rest })
}

/// The whole frames that some bytes begin with.
#[derive(Clone, Copy, Debug, PartialEq, Eq)]
pub struct Front {
    /// How many there are.
    pub frames: usize,
    /// How many bytes they take.
    pub size: usize,
}

/// Counts the whole frames that some bytes begin with, up to the first that isn't whole or has a bad header. Takes no memory.
pub fn count_frames(header: Header, bytes: &[u8]) -> Front
    // So many whole frames, of so many bytes, stand in front, and no whole frame follows them.
    ensures { IsFront header bytes.now result }
{
    frames(); // for the prover: a frame more comes behind the others
    splits_once(); // for the prover: bytes have one split into frames
    let mut count = 0;
    let mut rest = bytes;
    while let Ok(Framed::Got { used, .. }) = unframe(header, rest) {
        let (_, behind) = rest.split_at(used);
        rest = behind;
        count += 1;
    }
    Front {
        frames: count,
        size: bytes.len() - rest.len(),
    }
}
