//! Streams in memory, and what opens them.
ghost use Rattle.std.specs.Prelude.{◌≤◌, length, IfOk};

use iso_front_loop::Dial;
use std::alloc::{AllocError, Global};
use std::io;
use std::io::{ErrorKind, Read, Write};
use std::net::SocketAddr;

/// A stream that gives what it was fed, and keeps what was written.
#[derive(Drop)]
pub struct Line {
    fed: Vec<u8>,
    at: usize,
    taken: Vec<u8>,
    is_over: bool,
    /// Whether it takes bytes.
    pub takes: bool,
}

impl Line {
    /// A stream of which nothing came yet. Takes no memory.
    pub fn new(alloc: Global) -> Line {
        Line {
            fed: Vec::new(alloc),
            at: 0,
            taken: Vec::new(alloc),
            is_over: false,
            takes: true,
        }
    }

    /// Feeds it.
    pub fn feed(&mut self, bytes: &[u8]) -> Result<(), AllocError> {
        self.fed.extend_from_slice(bytes)
    }

    /// Ends it behind what it was fed.
    pub fn end(&mut self) {
        self.is_over = true;
    }

    /// What was written, in all.
    pub fn taken(&self) -> &[u8] {
        &self.taken
    }

    /// Gives a front of the rest.
    fn give(&mut self, buffer: &mut [u8]) -> io::Result<usize>
        ensures bound { IfOk result (λ n. n ≤ length buffer.old) }
    {
        let at = self.at.min(self.fed.len());
        let (_, rest) = self.fed.split_at(at);
        let count = rest.len().min(buffer.len());
        if count == 0 {
            if self.is_over {
                return Ok(0);
            }
            return Err(io::Error::from(ErrorKind::WouldBlock));
        }
        buffer[..count].copy_from_slice(&rest[..count]);
        self.at = at + count;
        Ok(count)
    }
}

impl Read for Line {
    fn read(&mut self, buffer: &mut [u8]) -> io::Result<usize> {
        self.give(buffer)
    }
}

impl Write for Line {
    fn write(&mut self, bytes: &[u8]) -> io::Result<usize> {
        if !self.takes {
            return Err(io::Error::from(ErrorKind::WouldBlock));
        }
        self.taken.extend_from_slice(bytes)?;
        Ok(bytes.len())
    }

    fn flush(&mut self) -> io::Result<()> {
        Ok(())
    }
}

/// What opens such streams, and counts them.
#[derive(Drop)]
pub struct Dials {
    /// Where they are made.
    pub alloc: Global,
    /// How often one was wanted.
    pub count: usize,
    /// Whether none is there.
    pub refuses: bool,
}

impl Dial<Line> for Dials {
    fn dial(&mut self, _token: usize, _address: SocketAddr) -> Option<Line> {
        self.count = self.count.saturating_add(1);
        if self.refuses {
            return None;
        }
        Some(Line::new(self.alloc))
    }
}
