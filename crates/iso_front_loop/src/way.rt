//! One connection of a front.

use bytes::BytesMut;
use std::alloc::{AllocError, Global};
use std::io::{ErrorKind, Read, Write};

/// How many bytes are read at once.
const BLOCK: usize = 16_384;

/// How many writes a connection has in one turn.
const WRITES: usize = 64;

/// How a connection stands.
#[derive(Clone, Copy, PartialEq, Eq)]
pub(crate) enum Standing {
    /// Bytes may come of it.
    Open,
    /// Nothing more comes of it.
    Ended,
    /// It is closed.
    Closed,
}

/// One connection, on a stream that doesn't wait.
#[derive(Drop)]
pub(crate) struct Way<S> {
    pub stream: S,
    pub standing: Standing,
    /// The bytes that came and weren't taken.
    pub came: BytesMut<Global>,
    /// The bytes that wait to be written.
    pub waiting: BytesMut<Global>,
    /// Whether whole frames may have come that weren't taken.
    pub has_frames: bool,
    /// Whether it ever took or gave a byte.
    pub is_up: bool,
    may_have_come: bool,
    is_ending: bool,
    may_take: bool,
}

impl<S: Read + Write + Drop> Way<S> {
    /// A connection of which nothing came yet. Takes no memory.
    pub fn new(alloc: Global, stream: S) -> Way<S> {
        Way {
            stream,
            standing: Standing::Open,
            came: BytesMut::new(alloc),
            waiting: BytesMut::new(alloc),
            has_frames: false,
            is_up: false,
            may_have_come: true,
            is_ending: false,
            may_take: true,
        }
    }

    /// Something may have come of it, or it may take bytes again: whether its end came too.
    pub fn notice(&mut self, ends: bool) {
        self.may_have_come = true;
        self.may_take = true;
        self.is_ending = self.is_ending || ends;
    }

    /// Whether bytes are read now, if there is room for what they ask.
    pub fn may_read(&self) -> bool {
        self.may_have_come && self.standing == Standing::Open && !self.has_frames
    }

    /// Whether bytes are written now.
    pub fn may_write(&self) -> bool {
        self.may_take && !self.waiting.is_empty() && self.standing != Standing::Closed
    }

    /// Whether nothing more is to be had of it.
    pub fn is_over(&self) -> bool {
        match self.standing {
            Standing::Open => false,
            Standing::Ended => !self.has_frames,
            Standing::Closed => true,
        }
    }

    /// Reads once, behind the bytes that came: whether more came.
    pub fn read(&mut self) -> Result<bool, AllocError> {
        self.came.reserve(BLOCK)?;
        let before = self.came.len();
        let room = self.came.capacity() - before;
        match self.came.read_from(&mut self.stream) {
            Ok(0) => self.standing = Standing::Ended,
            // A short read empties the stream, and what comes later gives an event. An end behind the bytes gives none of its
            // own, so a connection whose end came is read until it is seen.
            Ok(count) => {
                self.has_frames = true;
                self.is_up = true;
                if count < room && !self.is_ending {
                    self.may_have_come = false;
                }
            }
            Err(error) => match error.kind() {
                ErrorKind::WouldBlock | ErrorKind::NotConnected => self.may_have_come = false,
                ErrorKind::Interrupted => {}
                _ => self.standing = Standing::Closed,
            },
        }
        Ok(self.came.len() > before)
    }

    /// No whole frame is at the front of what came: the rest is yet to come, or it is none.
    pub fn stop_taking(&mut self, is_none: bool) {
        self.has_frames = false;
        if is_none {
            self.standing = Standing::Closed;
        }
    }

    /// Writes once, from the front of what waits.
    fn write(&mut self) {
        match self.stream.write(self.waiting.as_slice()) {
            Ok(0) => self.standing = Standing::Closed,
            Ok(count) => {
                self.is_up = true;
                self.waiting.advance(count);
            }
            Err(error) => match error.kind() {
                ErrorKind::WouldBlock | ErrorKind::NotConnected => self.may_take = false,
                ErrorKind::Interrupted => {}
                _ => self.standing = Standing::Closed,
            },
        }
    }

    /// Writes what waits, as far as the stream takes it.
    pub fn write_all(&mut self) {
        for _ in 0..WRITES {
            if !self.may_write() {
                return;
            }
            self.write();
        }
    }
}
