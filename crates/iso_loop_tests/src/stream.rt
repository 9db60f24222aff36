//! A stream that gives what a script says, and takes so many bytes a turn.
ghost use Rattle.std.specs.Prelude.{◌≤◌, length, IfOk};

use std::io;
use std::io::{ErrorKind, Read, Write};

/// What comes of a stream.
#[derive(Clone, Copy)]
pub enum Coming {
    /// These bytes.
    Bytes(&'static [u8]),
    /// Nothing more in this turn.
    Nothing,
    /// The end.
    End,
    /// A connection that failed.
    Failure,
}

/// A stream that gives what a script says, and takes so many bytes a turn.
#[derive(Drop)]
pub struct Script<'t> {
    coming: &'static [Coming],
    /// The rest of the bytes that a read had no room for.
    rest: &'static [u8],
    /// What was written.
    taken: &'t mut Vec<u8>,
    /// How many bytes it gives in each turn.
    gives: usize,
    /// How many bytes it takes in each turn.
    takes: usize,
    /// How many it gives still.
    left: usize,
    /// How many it takes still.
    room: usize,
}

impl<'t> Script<'t> {
    /// A stream at its first byte.
    pub fn new(
        coming: &'static [Coming],
        gives: usize,
        takes: usize,
        taken: &'t mut Vec<u8>,
    ) -> Script<'t> {
        Script {
            coming,
            rest: &[],
            taken,
            gives,
            takes,
            left: gives,
            room: takes,
        }
    }

    /// What comes next.
    fn next(&mut self) -> Coming {
        match self.coming.split_first() {
            None => Coming::Nothing,
            Some((first, others)) => {
                self.coming = others;
                *first
            }
        }
    }

    /// Nothing more comes in this turn.
    fn pause(&mut self) -> io::Error {
        self.left = self.gives;
        io::Error::from(ErrorKind::WouldBlock)
    }

    /// Gives a front of the rest.
    fn give(&mut self, buffer: &mut [u8]) -> io::Result<usize>
        ensures bound { IfOk result (λ n. n ≤ length buffer.old) }
    {
        let count = self.rest.len().min(buffer.len()).min(self.left);
        if count == 0 {
            return Err(self.pause());
        }
        let (front, rest) = self.rest.split_at(count);
        buffer[..count].copy_from_slice(front);
        self.rest = rest;
        self.left -= count;
        Ok(count)
    }
}

impl Read for Script<'_> {
    fn read(&mut self, buffer: &mut [u8]) -> io::Result<usize> {
        if !self.rest.is_empty() {
            return self.give(buffer);
        }
        match self.next() {
            Coming::Bytes(bytes) => {
                self.rest = bytes;
                self.give(buffer)
            }
            Coming::Nothing => Err(self.pause()),
            Coming::End => Ok(0),
            Coming::Failure => Err(io::Error::from(ErrorKind::ConnectionReset)),
        }
    }
}

impl Write for Script<'_> {
    fn write(&mut self, bytes: &[u8]) -> io::Result<usize> {
        let count = bytes.len().min(self.room);
        if count == 0 {
            self.room = self.takes;
            return Err(io::Error::from(ErrorKind::WouldBlock));
        }
        self.taken.extend_from_slice(&bytes[..count])?;
        self.room -= count;
        Ok(count)
    }

    fn flush(&mut self) -> io::Result<()> {
        Ok(())
    }
}
