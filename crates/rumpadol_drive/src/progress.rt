//! How far a run is, on a terminal.

use iso_traffic::{Progress, Watch};
use std::io::Write;

/// Writes over the line that stands there.
const CLEARED: &[u8] = b"\r\x1b[K";

/// At least so many milliseconds are between two lines.
const STEP: u64 = 200;

/// Rewrites a line of a terminal while a run goes on.
#[derive(Drop)]
pub(crate) struct ProgressLine<'a, F> {
    faults: &'a mut F,
    is_terminal: bool,
    next: u64,
}

impl<'a, F: Write> ProgressLine<'a, F> {
    /// Nothing is shown yet. Where the stream is no terminal, nothing ever is.
    pub fn new(faults: &'a mut F, is_terminal: bool) -> ProgressLine<'a, F> {
        ProgressLine {
            faults,
            is_terminal,
            next: 0,
        }
    }

    /// Takes the line away, if one was shown.
    pub fn clear(self) {
        if self.next > 0 {
            let _ = self.faults.write_all(CLEARED);
            let _ = self.faults.flush();
        }
    }
}

impl<'a, F: Write> Watch for ProgressLine<'a, F> {
    fn moment(&mut self, _now: u64, progress: &Progress) {
        if !self.is_terminal || progress.elapsed < self.next {
            return;
        }
        let Progress {
            elapsed,
            begun,
            open,
            sent,
            answers,
            connected,
        } = *progress;
        let seconds = elapsed / 1_000;
        let _ = self.faults.write_all(CLEARED);
        let _ = write!(
            self.faults,
            "rumpadol: {seconds} s: {begun} purchases, {open} open, {sent} frames sent, {answers} answers, {connected} connections"
        );
        let _ = self.faults.flush();
        self.next = elapsed.saturating_add(STEP);
    }
}
