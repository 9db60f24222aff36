//! The connection of an acquirer to a shard.

use crate::way::Way;
use std::alloc::{AllocError, Global};
use std::io::{Read, Write};

/// How many milliseconds a shard has to take a connection, and how many pass at least until the next one is opened.
pub(crate) const PATIENCE: u64 = 1_000;

/// The connection of an acquirer to a shard, where there is one.
#[derive(Drop)]
pub(crate) struct Leg<S> {
    pub way: Option<Way<S>>,
    /// The moment from which one may be opened, in milliseconds.
    next: u64,
}

impl<S: Read + Write + Drop> Leg<S> {
    /// None yet. Takes no memory.
    pub fn new() -> Leg<S> {
        Leg { way: None, next: 0 }
    }

    /// Whether one is opened now, before a frame goes to the shard.
    pub fn is_wanted(&self, now: u64) -> bool {
        self.way.is_none() && self.next <= now
    }

    /// Takes the connection that was opened now, if one could be.
    pub fn open(&mut self, alloc: Global, now: u64, stream: Option<S>) {
        self.next = now.saturating_add(PATIENCE);
        self.way = match stream {
            Some(stream) => Some(Way::new(alloc, stream)),
            None => None,
        };
    }

    /// Puts a frame behind what waits: whether there is a connection for it.
    pub fn put(&mut self, frame: &[u8]) -> Result<bool, AllocError> {
        match &mut self.way {
            Some(way) => {
                way.waiting.extend_from_slice(frame)?;
                Ok(true)
            }
            None => Ok(false),
        }
    }

    /// How many bytes wait for the shard.
    pub fn waiting(&self) -> usize {
        match &self.way {
            Some(way) => way.waiting.len(),
            None => 0,
        }
    }

    /// Something may have come of the shard, or it may take bytes again: whether its end came too.
    pub fn notice(&mut self, ends: bool) {
        if let Some(way) = &mut self.way {
            way.notice(ends);
        }
    }

    /// Writes what waits, as far as the shard takes it.
    pub fn write(&mut self) {
        if let Some(way) = &mut self.way {
            way.write_all();
        }
    }

    /// Whether the connection is let go: it ended, or the shard didn't take it in time.
    fn is_lost(&self, now: u64) -> bool {
        match &self.way {
            Some(way) => way.is_over() || (!way.is_up && self.next <= now),
            None => false,
        }
    }

    /// Lets the connection go if it is lost: whether it was.
    pub fn let_go(&mut self, now: u64) -> bool {
        let lost = self.is_lost(now);
        if lost {
            self.way = None;
        }
        lost
    }

    /// Whether something is done with it without a further event; only written, where its answers have no room.
    pub fn goes_on(&self, has_room: bool) -> bool {
        match &self.way {
            Some(way) => way.may_write() || (has_room && (way.may_read() || way.has_frames)),
            None => false,
        }
    }
}
