//! An exchange with a host: what is still to be sent, what came, and when it ends.

ghost use Rattle.std.specs.Prelude.{◌≡◌, ◌≤◌, ◌-◌, ◌++◌, ℕ, List, [], drop, length, true, false, OnOk, OnErr};
ghost use Rattle.iso_wire.specs.Framing.{Splits};
ghost use Rattle.iso_replay.specs.Exchanging.{ending_of};

use crate::heard::Heard;
use std::alloc::AllocError;
use std::marker::Model;

/// How an exchange ends.
#[derive(Clone, Copy, Debug, PartialEq, Eq)]
pub enum Ending {
    /// All is sent, and as many frames came as are wanted.
    Whole,
    /// The header of a frame that came isn't of digits.
    BadHeader,
    /// The host ended its side.
    Closed,
    /// For too long the host took nothing, and nothing came.
    Silent,
}

/// An exchange with a host. Moments are milliseconds of a clock that never goes back.
#[derive(Drop)]
pub struct Exchange<'a> {
    unsent: &'a [u8],
    heard: Heard,
    wanted: usize,
    patience: u64,
    moved: u64,
    has_ended: bool,
}

impl<'a> Model for Exchange<'a> {
    ghost use Rattle.iso_replay.specs.Exchanging.{Standing};

    ghost Value = { Standing };

    ghost view = { λ e. record {
      unsent = e.unsent.now;
      heard = e.heard;
      wanted = e.wanted;
      patience = e.patience;
      moved = e.moved;
      has_ended = e.has_ended;
    } };
}

impl<'a> Exchange<'a> {
    /// An exchange that begins now: these bytes are sent, and so many frames are wanted. It ends where for `patience`
    /// milliseconds the host takes nothing and nothing comes.
    pub fn new(
        heard: Heard,
        frames: &'a [u8],
        wanted: usize,
        patience: u64,
        now: u64,
    ) -> Exchange<'a>
        ensures { result ≡ record {
          unsent = frames.now;
          heard = heard;
          wanted = wanted;
          patience = patience;
          moved = now;
          has_ended = false;
        } }
    {
        Exchange {
            unsent: frames,
            heard,
            wanted,
            patience,
            moved: now,
            has_ended: false,
        }
    }

    /// The bytes that are still to be sent.
    pub fn unsent(&self) -> &'a [u8]
        ensures { result.now ≡ self.now.unsent }
    {
        self.unsent
    }

    /// The host took so many of the bytes that are to be sent.
    pub fn sends(&mut self, count: usize, now: u64)
        // No more bytes are told than are still to be sent.
        requires { count ≤ length self.old.unsent }
        // Those bytes are sent, a byte moved last at this moment, and nothing else changes.
        ensures { self.new ≡ record self.old { unsent = drop count self.old.unsent; moved = now } }
    {
        let (_, later) = self.unsent.split_at(count);
        self.unsent = later;
        self.moved = now;
    }

    /// A piece came.
    pub fn hears(&mut self, piece: &[u8], now: u64) -> Result<(), AllocError>
        // Memory aside, the piece stands behind the bytes that came before.
        ensures came { OnOk result (self.new.heard.bytes ≡ self.old.heard.bytes ++ piece.now) }
        // Memory aside, a byte moved last at this moment; of the rest only what came changes.
        ensures others { OnOk result
            (self.new ≡ record self.old { heard = self.new.heard; moved = now }) }
        // The header of the frames that come stays the same.
        ensures header { self.new.heard.header ≡ self.old.heard.header }
        // Without memory the exchange is as it was.
        ensures unchanged { OnErr result (self.new ≡ self.old) }
    {
        self.heard.hear(piece)?;
        self.moved = now;
        Ok(())
    }

    /// The host ended its side, or its connection failed.
    pub fn ends(&mut self)
        // The exchange keeps that the host has ended, and nothing else changes.
        ensures { self.new ≡ record self.old { has_ended = true } }
    {
        self.has_ended = true;
    }

    /// How it ends at a moment, if it does.
    pub fn ending(&self, now: u64) -> Option<Ending>
        // `Whole`: all is sent and enough frames came; else `BadHeader`: a header isn't of digits;
        // else `Closed`: the host ended; else `Silent`: no byte moved for the patience; else none.
        ensures { (bodies : List (List ℕ)) (rest : List ℕ)
            → Splits self.now.heard.header self.now.heard.bytes bodies rest
            → result ≡ ending_of self.now bodies rest now }
    {
        if self.unsent.is_empty() && self.wanted <= self.heard.frames() {
            return Some(Ending::Whole);
        }
        if self.heard.is_bad() {
            return Some(Ending::BadHeader);
        }
        if self.has_ended {
            return Some(Ending::Closed);
        }
        if self.patience <= now.saturating_sub(self.moved) {
            return Some(Ending::Silent);
        }
        None
    }

    /// How many milliseconds it may wait at a moment for a byte to move.
    pub fn pause(&self, now: u64) -> u64
        // It is what is left of the patience since a byte moved last, 0 where none is left.
        ensures { result ≡ self.now.patience - (now - self.now.moved) }
    {
        self.patience.saturating_sub(now.saturating_sub(self.moved))
    }

    /// The bytes that came.
    pub fn into_came(self) -> Vec<u8>
        ensures { result.items ≡ self.entry.heard.bytes }
    {
        self.heard.into_bytes()
    }
}
