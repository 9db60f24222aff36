//! The bytes that come from a peer.

ghost use Rattle.std.specs.Prelude.{◌≡◌, ◌++◌, ℕ, List, [], length, OnOk, OnErr};
ghost use Rattle.iso_wire.specs.Framing.{Splits, is_bad_header};

use iso_compare::{Front, count_frames};
use iso_wire::laws::splits_once;
use iso_wire::{Header, unframe};
use std::alloc::{AllocError, Global};
use std::marker::Model;

/// The bytes that came from a peer, which are frames, and how many of them are whole. A contract sees the bytes and the
/// header of the frames.
#[derive(Drop)]
pub struct Heard {
    header: Header,
    bytes: Vec<u8>,
    /// The whole frames that the bytes begin with.
    whole: Front,
}

impl Model for Heard {
    ghost use Rattle.iso_compare.specs.Fronts.{IsFront};
    ghost use Rattle.iso_replay.specs.Hearing.{Came};

    ghost Value = { Came };

    ghost view = { λ heard. record { header = heard.header; bytes = heard.bytes.items } };

    ghost invariant = { λ heard. IsFront heard.header heard.bytes.items heard.whole };
}

/// Whether bytes begin with a header that isn't of digits.
fn begins_badly(header: Header, bytes: &[u8]) -> bool
    ensures { result ≡ is_bad_header header bytes.now }
{
    splits_once();
    match unframe(header, bytes) {
        Ok(_) => false,
        Err(_) => true,
    }
}

impl Heard {
    /// No bytes. Takes no memory.
    pub fn new(alloc: Global, header: Header) -> Heard
        // The frames that come have this header.
        ensures header { result.header ≡ header }
        // No byte has come.
        ensures bytes { result.bytes ≡ [] }
    {
        Heard {
            header,
            bytes: Vec::new(alloc),
            whole: Front { frames: 0, size: 0 },
        }
    }

    /// Puts a piece behind the bytes that came.
    pub fn hear(&mut self, piece: &[u8]) -> Result<(), AllocError>
        // Memory aside, the piece stands behind the bytes that came before.
        ensures ok { OnOk result (self.new.bytes ≡ self.old.bytes ++ piece.now) }
        // The header of the frames stays the same.
        ensures header { self.new.header ≡ self.old.header }
        // Without memory nothing is changed.
        ensures unchanged { OnErr result (self.new ≡ self.old) }
    {
        self.bytes.extend_from_slice(piece)?;
        splits_once();
        let (_, rest) = self.bytes.split_at(self.whole.size);
        let more = count_frames(self.header, rest);
        self.whole.frames += more.frames;
        self.whole.size += more.size;
        Ok(())
    }

    /// How many whole frames came. Takes no memory.
    pub fn frames(&self) -> usize
        ensures { (bodies : List (List ℕ)) (rest : List ℕ)
            → Splits self.now.header self.now.bytes bodies rest
            → result ≡ length bodies }
    {
        splits_once();
        self.whole.frames
    }

    /// Whether the bytes behind the whole frames begin with a header that isn't of digits. Takes no memory.
    pub fn is_bad(&self) -> bool
        ensures { (bodies : List (List ℕ)) (rest : List ℕ)
            → Splits self.now.header self.now.bytes bodies rest
            → result ≡ is_bad_header self.now.header rest }
    {
        splits_once();
        let (_, rest) = self.bytes.split_at(self.whole.size);
        begins_badly(self.header, rest)
    }

    /// The bytes that came.
    pub fn into_bytes(self) -> Vec<u8>
        ensures { result.items ≡ self.bytes }
    {
        self.bytes
    }
}
