//! How far a long start or another long job is, on a terminal.

ghost use Rattle.std.specs.Prelude.{◌≡◌, ◌+◌, nat_le};

use iso_journal::Watch;
use std::io::Write;

/// At least so many orders are between two lines: a few milliseconds.
const STEP: usize = 65_536;

/// Writes over the line that stands there.
const CLEARED: &[u8] = b"\r\x1b[K";

/// Rewrites a line of a terminal while a long job goes on.
#[derive(Drop)]
pub struct Progress<'a, F> {
    faults: &'a mut F,
    is_terminal: bool,
    shown: usize,
}

impl<'a, F: Write> Progress<'a, F> {
    /// Nothing is shown yet. Where the stream is no terminal, nothing ever is.
    pub fn new(faults: &'a mut F, is_terminal: bool) -> Progress<'a, F> {
        Progress {
            faults,
            is_terminal,
            shown: 0,
        }
    }

    /// So many orders were read.
    pub fn read(&mut self, orders: usize) {
        if self.is_terminal && is_next(self.shown, orders) {
            let _ = write!(self.faults, "\rrumpadol: {orders} orders are read");
            let _ = self.faults.flush();
            self.shown = orders;
        }
    }

    /// So many orders of so many were written.
    pub fn written(&mut self, orders: usize, of: usize) {
        if self.is_terminal && is_next(self.shown, orders) {
            let _ = write!(
                self.faults,
                "\rrumpadol: {orders} of {of} orders are copied"
            );
            let _ = self.faults.flush();
            self.shown = orders;
        }
    }

    /// Takes the line away, if one was shown.
    pub fn clear(self) {
        if self.shown > 0 {
            let _ = self.faults.write_all(CLEARED);
            let _ = self.faults.flush();
        }
    }
}

impl<'a, F: Write> Watch for Progress<'a, F> {
    fn replayed(&mut self, orders: usize, of: usize) {
        if self.is_terminal && is_next(self.shown, orders) {
            let _ = write!(
                self.faults,
                "\rrumpadol: {orders} of {of} orders are decided again"
            );
            let _ = self.faults.flush();
            self.shown = orders;
        }
    }
}

/// Whether so many orders are shown, where the last line showed so many.
fn is_next(shown: usize, orders: usize) -> bool
    ensures { result ≡ nat_le (shown + 65536) orders }
{
    orders.saturating_sub(shown) >= STEP
}
