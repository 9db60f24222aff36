//! A writer that moves a few bytes a call, and of whose calls one fails.
ghost use Rattle.std.specs.Prelude.{Some};

use iso_host::{Call, Failed, Outlet, Tally};
use std::alloc::Global;

/// Takes at most so many bytes a write, and at least one. One of its writes and flushes fails, counted together from 1;
/// with 0 none does.
#[derive(Drop)]
pub struct Writer {
    pub taken: Vec<u8>,
    pub piece: usize,
    pub fails_at: u32,
    pub writes: u32,
    pub flushes: u32,
    pub tally: Tally,
}

impl Writer {
    /// A writer that took no bytes yet.
    pub fn new(alloc: Global, piece: usize, fails_at: u32) -> Writer {
        Writer {
            taken: Vec::new(alloc),
            piece,
            fails_at,
            writes: 0,
            flushes: 0,
            tally: Tally::new(),
        }
    }
}

impl Outlet for Writer {
    ghost contents = { λ w. Some w.taken.items };

    ghost counts = { λ w. w.tally.counts };

    fn write(&mut self, bytes: &[u8]) -> Result<usize, Failed> {
        self.writes = self.writes.saturating_add(1);
        let count = bytes.len().min(self.piece.max(1));
        let fails = self.writes.saturating_add(self.flushes) == self.fails_at;
        if fails || self.taken.extend_from_slice(&bytes[..count]).is_err() {
            self.tally = self.tally.then(&Call::Failed);
            return Err(Failed);
        }
        self.tally = self.tally.then(&Call::Wrote(count));
        Ok(count)
    }

    fn flush(&mut self) -> Result<(), Failed> {
        self.flushes = self.flushes.saturating_add(1);
        if self.writes.saturating_add(self.flushes) == self.fails_at {
            self.tally = self.tally.then(&Call::FlushFailed);
            return Err(Failed);
        }
        self.tally = self.tally.then(&Call::Flushed);
        Ok(())
    }
}
