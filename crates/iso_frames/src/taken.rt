//! Frames that came, and the digests of their bytes.

use crate::reading::Read;
use iso_wire::{Framed, Header, unframe};
use std::alloc::{AllocError, Global};
use std::hash::{FoldHasher, Hasher};

/// Frames that came on a connection.
#[derive(Drop)]
pub struct Taken {
    /// What each told.
    pub read: Vec<Read>,
    /// The digest of the bytes of each.
    pub digests: Vec<u64>,
}

impl Taken {
    /// No frame. Takes no memory.
    pub fn new(alloc: Global) -> Taken {
        Taken {
            read: Vec::new(alloc),
            digests: Vec::new(alloc),
        }
    }

    /// Forgets the frames, and keeps the room for others.
    pub fn clear(&mut self) {
        self.read.clear();
        self.digests.clear();
    }
}

/// The digest of the body of a frame.
fn digest_of(body: &[u8]) -> u64 {
    let mut hasher = FoldHasher::default();
    hasher.write(body);
    hasher.finish()
}

/// Adds the digests of the bodies of the frames at the front of what came, in their order.
pub fn add_digests(header: Header, came: &[u8], digests: &mut Vec<u64>) -> Result<(), AllocError> {
    let mut rest = came;
    for _ in 0..came.len() {
        let Ok(Framed::Got { body, used }) = unframe(header, rest) else {
            return Ok(());
        };
        digests.push(digest_of(body))?;
        rest = &rest[used..];
    }
    Ok(())
}
