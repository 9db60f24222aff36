//! One peer of a host with rules.

use bytes::BytesMut;
use iso_script_peers::{Bounds, Standing, is_done};
use std::alloc::{AllocError, Global};
use std::io::{ErrorKind, Read, Write};

/// How many bytes are read at once.
const BLOCK: usize = 16_384;

/// One peer, on a stream that doesn't wait.
#[derive(Drop)]
pub(crate) struct Peer<S> {
    pub stream: S,
    /// Its number: peers are counted from 1 on.
    pub number: u64,
    pub standing: Standing,
    /// The bytes that came and weren't taken.
    pub came: BytesMut<Global>,
    /// The bytes that wait to be written.
    pub waiting: BytesMut<Global>,
    /// How many bytes are held back for it.
    pub held: usize,
    /// Whether something may have come that isn't read.
    pub may_have_come: bool,
    /// Whether its end came, read or not yet.
    pub is_ending: bool,
    /// Whether the stream may take bytes.
    pub may_take: bool,
    /// Whether whole frames may have come that weren't taken.
    pub has_frames: bool,
}

impl<S: Read + Write + Drop> Peer<S> {
    /// A peer that was let in. Takes no memory.
    pub fn new(alloc: Global, stream: S, number: u64) -> Peer<S> {
        Peer {
            stream,
            number,
            standing: Standing::Open,
            came: BytesMut::new(alloc),
            waiting: BytesMut::new(alloc),
            held: 0,
            may_have_come: true,
            is_ending: false,
            may_take: true,
            has_frames: false,
        }
    }

    /// Whether nothing more is taken of it for now.
    pub fn is_full(&self, bounds: &Bounds) -> bool {
        bounds.is_full(self.waiting.len(), self.held)
    }

    /// Whether bytes are read now.
    pub fn may_read(&self, bounds: &Bounds) -> bool {
        self.may_have_come && self.standing == Standing::Open && !self.is_full(bounds)
    }

    /// Whether frames are taken now.
    pub fn may_take_frames(&self, bounds: &Bounds) -> bool {
        self.has_frames
            && matches!(self.standing, Standing::Open | Standing::Ended)
            && !self.is_full(bounds)
    }

    /// No frame is taken of it for now, and none any more where a bad header came.
    pub fn stop_taking(&mut self, is_bad: bool) {
        if is_bad {
            self.standing = Standing::Cut;
        } else {
            self.has_frames = false;
        }
    }

    /// Whether bytes are written now.
    pub fn may_write(&self) -> bool {
        self.may_take && !self.waiting.is_empty() && self.standing != Standing::Closed
    }

    /// Whether it is closed now.
    pub fn is_done(&self) -> bool {
        let more = self.has_frames && self.standing == Standing::Ended;
        !more && is_done(self.standing, self.waiting.len(), self.held, self.may_take)
    }

    /// Something may have come of it, or it may take bytes again: whether its end came too.
    pub fn notice(&mut self, ends: bool) {
        self.may_have_come = true;
        self.may_take = true;
        self.is_ending = self.is_ending || ends;
    }

    /// Reads once, behind the bytes that came.
    pub fn read(&mut self) -> Result<(), AllocError> {
        self.came.reserve(BLOCK)?;
        let room = self.came.capacity() - self.came.len();
        match self.came.read_from(&mut self.stream) {
            Ok(0) => self.standing = Standing::Ended,
            // A short read empties the stream, and what comes later gives an event. An end behind the bytes gives none of its
            // own, so a peer whose end came is read until it is seen.
            Ok(count) => {
                self.has_frames = true;
                if count < room && !self.is_ending {
                    self.may_have_come = false;
                }
            }
            Err(error) => match error.kind() {
                ErrorKind::WouldBlock => self.may_have_come = false,
                ErrorKind::Interrupted => {}
                _ => self.standing = Standing::Closed,
            },
        }
        Ok(())
    }

    /// Writes once, from the front of what waits.
    pub fn write(&mut self) {
        match self.stream.write(self.waiting.as_slice()) {
            Ok(0) => self.standing = Standing::Closed,
            Ok(count) => self.waiting.advance(count),
            Err(error) => match error.kind() {
                ErrorKind::WouldBlock => self.may_take = false,
                ErrorKind::Interrupted => {}
                _ => self.standing = Standing::Closed,
            },
        }
    }
}
