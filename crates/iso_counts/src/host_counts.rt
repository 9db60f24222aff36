//! What is counted of a host and its journal.
ghost use Rattle.std.specs.Prelude.{◌≡◌};
ghost use Rattle.iso_counts.specs.HostCounted.{kept_of, host_counted_of};

use crate::histogram::Histogram;
use iso_lines::Event;

/// What is counted of a host and its journal. Counts stop at the greatest number.
#[derive(Clone, Copy, Debug, PartialEq, Eq)]
pub struct HostCounts {
    /// How long syncs took.
    pub syncs: Histogram,
    /// Orders that were kept with them.
    pub kept: u64,
    /// How many entries the journal has.
    pub entries: u32,
    /// How many it may have.
    pub limit: u32,
    /// Whether it can be written.
    pub can_write: bool,
}

impl HostCounts {
    /// Those of a host that starts over a journal of so many entries.
    pub fn new(entries: u32, limit: u32) -> HostCounts {
        HostCounts {
            syncs: Histogram::NONE,
            kept: 0,
            entries,
            limit,
            can_write: true,
        }
    }

    /// Counts a sync and the orders that it kept.
    fn count_sync(&mut self, orders: usize, micros: u64)
        ensures { self.new ≡ kept_of self.old orders micros }
    {
        self.syncs.add(micros);
        self.kept = self.kept.saturating_add(orders as u64);
    }

    /// Counts an event.
    pub fn count(&mut self, event: &Event)
        // An event changes its own counts of the host, and no other.
        ensures { self.new ≡ host_counted_of self.old event.now }
    {
        match *event {
            Event::Kept { orders, micros } => self.count_sync(orders, micros),
            Event::Answered { entry, .. } => self.entries = self.entries.max(entry),
            Event::Journal { entries, limit, .. } => {
                self.entries = entries;
                self.limit = limit;
            }
            Event::LogFailed => self.can_write = false,
            _ => {}
        }
    }
}
