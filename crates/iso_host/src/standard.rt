//! A std reader or writer as an inlet or an outlet.
ghost use Rattle.std.specs.Prelude.{◌≡◌};
ghost use Rattle.std.specs.Io.{ReadsAtMost, WritesAtMost};
ghost use Rattle.std.specs.Io.KnownBytes.{Keeps, ReadConsumes, WriteAppends};
ghost use Rattle.iso_host.specs.Counts.{none_yet};
ghost use Rattle.iso_host.specs.Standard.{counts_of, stream_of};

use crate::counting::{Call, Tally};
use crate::streams::{Failed, Inlet, Outlet};
use std::io::{ErrorKind, Read, Write};

/// The most times that a call is made which the system interrupts each time.
const MOST_TRIES: u32 = 1_000;

/// One read, made again where the system interrupted it.
fn read_uninterrupted<S: Read>(stream: &mut S, buffer: &mut [u8]) -> Result<usize, Failed>
    ensures bound { ReadsAtMost result buffer.new }
    ensures bytes { ReadConsumes
        (S.remaining stream.old) (S.remaining stream.new) result buffer.new }
{
    for _ in 0..MOST_TRIES {
        match stream.read(buffer) {
            Ok(count) => return Ok(count),
            Err(error) if error.kind() == ErrorKind::Interrupted => {}
            Err(_) => return Err(Failed),
        }
    }
    Err(Failed)
}

/// One write, made again where the system interrupted it.
fn write_uninterrupted<S: Write>(stream: &mut S, bytes: &[u8]) -> Result<usize, Failed>
    ensures bound { WritesAtMost result bytes.now }
    ensures bytes { WriteAppends (S.contents stream.old) (S.contents stream.new) result bytes.now }
{
    for _ in 0..MOST_TRIES {
        match stream.write(bytes) {
            Ok(count) => return Ok(count),
            Err(error) if error.kind() == ErrorKind::Interrupted => {}
            Err(_) => return Err(Failed),
        }
    }
    Err(Failed)
}

/// One flush, made again where the system interrupted it.
fn flush_uninterrupted<S: Write>(stream: &mut S) -> Result<(), Failed>
    ensures { Keeps (S.contents stream.old) (S.contents stream.new) }
{
    for _ in 0..MOST_TRIES {
        match stream.flush() {
            Ok(()) => return Ok(()),
            Err(error) if error.kind() == ErrorKind::Interrupted => {}
            Err(_) => return Err(Failed),
        }
    }
    Err(Failed)
}

/// A std reader or writer, with the counts of its calls.
///
/// A call that the system interrupts is made again, up to 1,000 times, and counts once. Any other call that std answers
/// with an error is `Failed`, and so is a write that takes none of at least one byte.
#[derive(Drop)]
pub struct Std<S> {
    stream: S,
    tally: Tally,
}

impl<S> Std<S> {
    /// The stream, with no call counted yet.
    pub fn new(stream: S) -> Std<S>
        // The stream inside is the one that was given.
        ensures stream { stream_of result ≡ stream }
        // No read, write, flush or failure is counted yet.
        ensures counts { counts_of result ≡ none_yet }
    {
        Std {
            stream,
            tally: Tally::new(),
        }
    }
}

impl<S: Read> Inlet for Std<S> {
    ghost remaining = { λ s. S.remaining (stream_of s) };

    ghost counts = { counts_of };

    fn read(&mut self, buffer: &mut [u8]) -> Result<usize, Failed> {
        match read_uninterrupted(&mut self.stream, buffer) {
            Ok(count) => {
                self.tally = self.tally.then(&Call::Read(count));
                Ok(count)
            }
            Err(_) => {
                self.tally = self.tally.then(&Call::Failed);
                Err(Failed)
            }
        }
    }
}

impl<S: Write> Outlet for Std<S> {
    ghost contents = { λ s. S.contents (stream_of s) };

    ghost counts = { counts_of };

    fn write(&mut self, bytes: &[u8]) -> Result<usize, Failed> {
        match write_uninterrupted(&mut self.stream, bytes) {
            Ok(count) if count > 0 || bytes.is_empty() => {
                self.tally = self.tally.then(&Call::Wrote(count));
                Ok(count)
            }
            _ => {
                self.tally = self.tally.then(&Call::Failed);
                Err(Failed)
            }
        }
    }

    fn flush(&mut self) -> Result<(), Failed> {
        match flush_uninterrupted(&mut self.stream) {
            Ok(()) => {
                self.tally = self.tally.then(&Call::Flushed);
                Ok(())
            }
            Err(_) => {
                self.tally = self.tally.then(&Call::FlushFailed);
                Err(Failed)
            }
        }
    }
}
