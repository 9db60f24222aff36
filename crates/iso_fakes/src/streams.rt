//! A reader and a writer that move a few bytes at a time and fail at a call, and streams that are interrupted.

use std::alloc::Global;
use std::io;
use std::io::{ErrorKind, Read, Write};

/// Gives at most `piece` bytes a read, and fails once `calls` reads are made.
#[derive(Drop)]
pub struct FewBytes<'a> {
    pub bytes: &'a [u8],
    pub piece: usize,
    pub calls: u32,
}

impl<'a> Read for FewBytes<'a> {
    fn read(&mut self, buffer: &mut [u8]) -> io::Result<usize> {
        if self.calls == 0 {
            return Err(io::Error::from(ErrorKind::BrokenPipe));
        }
        self.calls -= 1;
        let count = self.bytes.len().min(self.piece).min(buffer.len());
        let (front, rest) = self.bytes.split_at(count);
        buffer[..count].copy_from_slice(front);
        self.bytes = rest;
        Ok(count)
    }
}

/// Takes at most `piece` bytes a write, and fails once `calls` writes are made. It counts its flushes, which may fail.
#[derive(Drop)]
pub struct FewTaken {
    pub taken: Vec<u8>,
    pub piece: usize,
    pub calls: u32,
    pub flushes: u32,
    pub fails_to_flush: bool,
}

impl FewTaken {
    /// A writer that took no bytes yet, and was never flushed.
    pub fn new(alloc: Global, piece: usize, calls: u32, fails_to_flush: bool) -> FewTaken {
        FewTaken {
            taken: Vec::new(alloc),
            piece,
            calls,
            flushes: 0,
            fails_to_flush,
        }
    }
}

impl Write for FewTaken {
    fn write(&mut self, bytes: &[u8]) -> io::Result<usize> {
        if self.calls == 0 {
            return Err(io::Error::from(ErrorKind::BrokenPipe));
        }
        self.calls -= 1;
        let count = bytes.len().min(self.piece);
        self.taken.extend_from_slice(&bytes[..count])?;
        Ok(count)
    }

    fn flush(&mut self) -> io::Result<()> {
        self.flushes = self.flushes.saturating_add(1);
        if self.fails_to_flush {
            return Err(io::Error::from(ErrorKind::BrokenPipe));
        }
        Ok(())
    }
}

/// A stream whose first `times` calls are interrupted.
#[derive(Drop)]
pub struct Interrupted<S> {
    pub stream: S,
    pub times: u32,
}

impl<S> Interrupted<S> {
    /// Whether this call is one of those.
    fn is_interrupted(&mut self) -> bool {
        let is_interrupted = self.times > 0;
        self.times = self.times.saturating_sub(1);
        is_interrupted
    }
}

impl<S: Read> Read for Interrupted<S> {
    fn read(&mut self, buffer: &mut [u8]) -> io::Result<usize> {
        if self.is_interrupted() {
            return Err(io::Error::from(ErrorKind::Interrupted));
        }
        self.stream.read(buffer)
    }
}

impl<S: Write> Write for Interrupted<S> {
    fn write(&mut self, bytes: &[u8]) -> io::Result<usize> {
        if self.is_interrupted() {
            return Err(io::Error::from(ErrorKind::Interrupted));
        }
        self.stream.write(bytes)
    }

    fn flush(&mut self) -> io::Result<()> {
        if self.is_interrupted() {
            return Err(io::Error::from(ErrorKind::Interrupted));
        }
        self.stream.flush()
    }
}
