//! What a host tells of itself in numbers.

use crate::labels::add_escaped;
use iso_counts::{HostCounts, LinkCounts, count_link, link_of};
use iso_lines::{Event, Lines};
use std::alloc::{AllocError, Global};

/// What a host tells of itself in numbers: of each link by its name, and of the host as a whole.
#[derive(Drop)]
pub struct Metrics {
    pub(crate) alloc: Global,
    /// The names of the links, as they stand in labels.
    pub(crate) names: Vec<String>,
    /// The counts of the links, in the same order.
    pub(crate) links: Vec<LinkCounts>,
    /// The counts of the host.
    pub(crate) host: HostCounts,
    /// How many lines of the log were dropped.
    pub dropped: u64,
    /// When the host started, in milliseconds since 1970.
    pub(crate) started: u64,
}

impl Metrics {
    /// The metrics of a host that starts now, in milliseconds since 1970, over a journal of so many entries. It has no link
    /// yet. Takes no memory.
    pub fn new(alloc: Global, entries: u32, limit: u32, started: u64) -> Metrics {
        Metrics {
            alloc,
            names: Vec::new(alloc),
            links: Vec::new(alloc),
            host: HostCounts::new(entries, limit),
            dropped: 0,
            started,
        }
    }

    /// Adds a link. They are added in the order of their lines.
    pub fn add_link(&mut self, name: &str) -> Result<(), AllocError> {
        let mut label = String::new(self.alloc);
        add_escaped(&mut label, name)?;
        self.links.push(LinkCounts::NONE)?;
        self.names.push(label)?;
        Ok(())
    }

    /// Whether the journal can be written.
    pub fn can_write(&self) -> bool {
        self.host.can_write
    }

    /// Counts an event.
    fn count(&mut self, event: &Event) {
        self.host.count(event);
        if let Some(link) = link_of(event) {
            count_link(&mut self.links, link, event);
        }
    }
}

impl Lines for Metrics {
    fn tell(&mut self, _at: u64, event: &Event) {
        self.count(event);
    }

    fn flush(&mut self) {}
}
