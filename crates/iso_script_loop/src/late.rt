//! Answers that are held back until their moment.

use std::alloc::{AllocError, Global};
use std::cmp::Reverse;
use std::collections::BinaryHeap;

/// An answer that is held back.
#[derive(PartialEq, Eq, PartialOrd, Ord, Drop)]
pub(crate) struct Held {
    /// The key of its peer.
    pub key: usize,
    /// The number of its peer: another one may have the key by then.
    pub peer: u64,
    /// Its frame.
    pub frame: Vec<u8>,
}

/// An answer, and the moment at which it goes out, in milliseconds. Of one moment, what was held back first goes first.
#[derive(PartialEq, Eq, PartialOrd, Ord, Drop)]
struct Until {
    at: Reverse<u64>,
    number: Reverse<u64>,
    held: Held,
}

/// What is held back, by its moment.
#[derive(Drop)]
pub(crate) struct Late {
    heap: BinaryHeap<Until>,
    /// How often something was held back.
    count: u64,
}

impl Late {
    /// Nothing is held back. Takes no memory.
    pub fn new(alloc: Global) -> Late {
        Late {
            heap: BinaryHeap::new(alloc),
            count: 0,
        }
    }

    /// Holds an answer back until a moment, in milliseconds.
    pub fn hold(&mut self, at: u64, held: Held) -> Result<(), AllocError> {
        let number = self.count.saturating_add(1);
        self.heap.push(Until {
            at: Reverse(at),
            number: Reverse(number),
            held,
        })?;
        self.count = number;
        Ok(())
    }

    /// The moment at which the next one is due.
    pub fn next_due(&self) -> Option<u64> {
        match self.heap.peek() {
            Some(first) => Some(first.at.0),
            None => None,
        }
    }

    /// Takes the one that is due first, if it is due by that moment.
    pub fn take_due(&mut self, now: u64) -> Option<Held> {
        match self.next_due() {
            Some(at) if at <= now => match self.heap.pop() {
                Some(first) => Some(first.held),
                None => None,
            },
            Some(_) | None => None,
        }
    }
}
