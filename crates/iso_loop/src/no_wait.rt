//! A stream of this process that is written to without waiting for its reader.
ghost use Rattle.std.specs.Prelude.{◌≤◌, length, IfOk};

use iso_lines::LoopFault;
use mio::unix::SourceFd;
use mio::{Events, Interest, Poll, Token};
use std::alloc::Global;
use std::io;
use std::io::{ErrorKind, Write};
use std::net::Net;
use std::os::fd::RawFd;
use std::time::Duration;

/// A pipe that takes bytes now takes so many without waiting.
const PIECE: usize = 4_096;

/// The only token.
const STREAM: Token = Token(0);

/// A stream that answers `WouldBlock` where it takes nothing now, as a pipe whose reader stands still.
#[derive(Drop)]
pub struct NoWait<W> {
    out: W,
    fd: RawFd,
    poll: Poll,
    events: Events<Global>,
    /// Whether the system tells when it takes bytes. Of a file it doesn't, which always takes some.
    is_watched: bool,
}

impl<W: Write + Drop> NoWait<W> {
    /// A writer to the stream of this number, as 2 is the error stream's.
    pub fn new<R: Net>(rt: &R, alloc: Global, fd: RawFd, out: W) -> Result<NoWait<W>, LoopFault> {
        let poll = match Poll::new(rt) {
            Ok(poll) => poll,
            Err(_) => return Err(LoopFault::Wait),
        };
        let events = Events::with_capacity(alloc, 1)?;
        let is_watched = poll
            .registry()
            .register(&mut SourceFd(&fd), STREAM, Interest::WRITABLE)
            .is_ok();
        Ok(NoWait {
            out,
            fd,
            poll,
            events,
            is_watched,
        })
    }

    /// Whether it takes bytes now.
    fn takes(&mut self) -> bool {
        if !self.is_watched {
            return true;
        }
        let fd = self.fd;
        // the system tells of a change alone, unless it is asked anew
        let asked = self
            .poll
            .registry()
            .reregister(&mut SourceFd(&fd), STREAM, Interest::WRITABLE);
        if asked.is_err() {
            return true;
        }
        match self
            .poll
            .poll(&mut self.events, Some(Duration::from_millis(0)))
        {
            Ok(()) => !self.events.is_empty(),
            Err(_) => false,
        }
    }

    /// Writes a first piece.
    fn write_piece(&mut self, bytes: &[u8]) -> io::Result<usize>
        ensures bound { IfOk result (λ count. count ≤ length bytes.now) }
    {
        let size = if self.is_watched {
            bytes.len().min(PIECE)
        } else {
            bytes.len()
        };
        self.out.write(&bytes[..size])
    }
}

impl<W: Write + Drop> Write for NoWait<W> {
    fn write(&mut self, bytes: &[u8]) -> io::Result<usize> {
        if self.takes() {
            self.write_piece(bytes)
        } else {
            Err(ErrorKind::WouldBlock.into())
        }
    }

    fn flush(&mut self) -> io::Result<()> {
        self.out.flush()
    }
}
