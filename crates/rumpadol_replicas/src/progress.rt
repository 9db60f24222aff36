//! How far a long start is, on a terminal.
use std::io::Write;

/// At least so many orders are between two lines.
const STEP: u32 = 65_536;

/// Writes over the line that stands there.
const CLEARED: &[u8] = b"\r\x1b[K";

/// Rewrites a line of a terminal while a long start goes on.
#[derive(Drop)]
pub struct Progress<'a, F> {
    faults: &'a mut F,
    is_terminal: bool,
    shown: u32,
}

/// Whether so many orders are shown, where the last line showed so many.
pub fn is_next(shown: u32, orders: u32) -> bool {
    orders.saturating_sub(shown) >= STEP
}

impl<'a, F: Write> Progress<'a, F> {
    /// Nothing is shown yet. Where the stream is no terminal, nothing ever is.
    pub fn new(faults: &'a mut F, is_terminal: bool) -> Progress<'a, F> {
        Progress {
            faults,
            is_terminal,
            shown: 0,
        }
    }

    /// So many orders are decided again now.
    pub fn show(&mut self, orders: u32) {
        if self.is_terminal && is_next(self.shown, orders) {
            let _ = write!(self.faults, "\rrumpadol: {orders} orders are decided again");
            let _ = self.faults.flush();
            self.shown = orders;
        }
    }

    /// Takes the line away, if one was shown.
    pub fn clear(&mut self) {
        if self.shown > 0 {
            let _ = self.faults.write_all(CLEARED);
            let _ = self.faults.flush();
            self.shown = 0;
        }
    }
}
