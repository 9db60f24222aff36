//! A log that remembers what tests look at.

use iso_lines::{Closing, Event, Lines, Refusal};
use std::alloc::Global;

/// A log that remembers what tests look at.
#[derive(Drop)]
pub struct Seen {
    /// Which peers were closed, when and why.
    pub closed: Vec<(u64, u64, Closing)>,
    /// Why peers were refused.
    pub refused: Vec<Refusal>,
    /// The message type, the code and the place of each order that was answered.
    pub answered: Vec<(u16, u8, u32)>,
    /// The message type and the code of each other message that was answered.
    pub replied: Vec<(u16, u8)>,
    /// How many frames weren't answered.
    pub silent: u32,
    /// How many frames were no message.
    pub unreadable: u32,
    /// How many orders were of acquirers that the line may not speak for.
    pub foreign: u32,
    /// How many bytes came and went.
    pub moved: (u64, u64),
}

impl Seen {
    /// Nothing yet.
    pub fn new(alloc: Global) -> Seen {
        Seen {
            closed: Vec::new(alloc),
            refused: Vec::new(alloc),
            answered: Vec::new(alloc),
            replied: Vec::new(alloc),
            silent: 0,
            unreadable: 0,
            foreign: 0,
            moved: (0, 0),
        }
    }

    /// Remembers what came of a frame.
    fn see_frame(&mut self, event: &Event) {
        match *event {
            Event::Answered {
                kind,
                code,
                entry,
                ..
            } => {
                let _ = self.answered.push((kind.unwrap_or(0), code, entry));
            }
            Event::Replied { kind, code, .. } => {
                let _ = self.replied.push((kind.unwrap_or(0), code));
            }
            Event::Silent { .. } => self.silent = self.silent.saturating_add(1),
            Event::Unreadable { .. } => self.unreadable = self.unreadable.saturating_add(1),
            Event::Foreign { .. } => self.foreign = self.foreign.saturating_add(1),
            _ => {}
        }
    }
}

impl Lines for Seen {
    fn tell(&mut self, at: u64, event: &Event) {
        match *event {
            Event::Closed { peer, why, .. } => {
                let _ = self.closed.push((peer, at, why));
            }
            Event::Refused { why, .. } => {
                let _ = self.refused.push(why);
            }
            Event::Moved { came, went, .. } => {
                self.moved.0 = self.moved.0.saturating_add(came);
                self.moved.1 = self.moved.1.saturating_add(went);
            }
            _ => self.see_frame(event),
        }
    }

    fn flush(&mut self) {}
}
