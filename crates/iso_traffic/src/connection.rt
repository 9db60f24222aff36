//! One connection to the host.

use bytes::BytesMut;
use std::alloc::{AllocError, Global};
use std::io::{ErrorKind, Read, Write};

/// How many bytes are read at once.
const BLOCK: usize = 16_384;

/// How a connection stands.
#[derive(Clone, Copy, PartialEq, Eq)]
pub(crate) enum State {
    /// It is asked for, and the host hasn't taken it.
    Asked,
    /// It is open.
    Open,
    /// It is open until what waits is written, as far as the system takes it: it is cut then.
    Cut,
    /// The host or the system closed it.
    Closed,
}

/// One connection to the host, on a stream that doesn't wait.
#[derive(Drop)]
pub(crate) struct Connection<S> {
    pub stream: S,
    pub state: State,
    /// The bytes that came and weren't taken.
    pub came: BytesMut<Global>,
    /// The bytes that wait to be written.
    pub waiting: BytesMut<Global>,
    /// Whether something may have come that isn't read.
    pub may_have_come: bool,
    /// Whether its end came, read or not yet.
    pub is_ending: bool,
    /// Whether the stream may take bytes.
    pub may_take: bool,
}

impl<S: Read + Write + Drop> Connection<S> {
    /// A connection that is asked for.
    pub fn new(alloc: Global, stream: S) -> Connection<S> {
        Connection {
            stream,
            state: State::Asked,
            came: BytesMut::new(alloc),
            waiting: BytesMut::new(alloc),
            may_have_come: true,
            is_ending: false,
            may_take: true,
        }
    }

    /// Whether orders go out on it.
    pub fn is_open(&self) -> bool {
        self.state == State::Open
    }

    /// Whether bytes may be written now.
    pub fn may_write(&self) -> bool {
        self.may_take && !self.waiting.is_empty() && matches!(self.state, State::Open | State::Cut)
    }

    /// Reads once, behind the bytes that came.
    pub fn read(&mut self) -> Result<(), AllocError> {
        self.came.reserve(BLOCK)?;
        let room = self.came.capacity() - self.came.len();
        match self.came.read_from(&mut self.stream) {
            Ok(0) => self.state = State::Closed,
            // A short read empties the stream, and what comes later gives an event. An end behind the bytes gives none of its
            // own, so a connection whose end came is read until it is seen.
            Ok(count) => {
                if count < room && !self.is_ending {
                    self.may_have_come = false;
                }
            }
            Err(error) => match error.kind() {
                ErrorKind::WouldBlock => self.may_have_come = false,
                ErrorKind::Interrupted => {}
                _ => self.state = State::Closed,
            },
        }
        Ok(())
    }

    /// Writes once, from the front of what waits.
    pub fn write(&mut self) {
        match self.stream.write(self.waiting.as_slice()) {
            Ok(0) => self.state = State::Closed,
            Ok(count) => self.waiting.advance(count),
            Err(error) => match error.kind() {
                ErrorKind::WouldBlock => self.may_take = false,
                ErrorKind::Interrupted => {}
                _ => self.state = State::Closed,
            },
        }
    }
}
