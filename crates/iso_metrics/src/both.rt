//! Two that are told the same.

use crate::metrics::Metrics;
use iso_lines::{Event, Lines, Pages};

/// Two that are told the same events, the first one first.
#[derive(Drop)]
pub struct Both<A, B> {
    /// Who is told first.
    pub first: A,
    /// Who is told then.
    pub second: B,
}

impl<A: Lines, B: Lines> Lines for Both<A, B> {
    fn tell(&mut self, at: u64, event: &Event) {
        self.first.tell(at, event);
        self.second.tell(at, event);
    }

    fn flush(&mut self) {
        self.first.flush();
        self.second.flush();
    }

    fn dropped(&self) -> u64 {
        self.first.dropped().saturating_add(self.second.dropped())
    }
}

/// A log beside metrics: these tell how many lines of the log were dropped.
impl<A: Lines> Pages for Both<A, Metrics> {
    fn answer(&mut self, request: &[u8], out: &mut Vec<u8>) -> bool {
        self.second.dropped = self.first.dropped();
        self.second.answer_request(request, out)
    }
}
