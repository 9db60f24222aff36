//! A log in memory.
ghost use Rattle.std.specs.Prelude.{◌≡◌, ◌++◌, ℕ, [], List, take};
ghost use Rattle.iso_durable.specs.Front.{Always};

use crate::log::{Log, LogFailed};
use iso_order::{Answer, Order};
use std::alloc::Global;

/// A log in memory, for tests. Its crash is a new one with `kept` and some of `waiting` from the front.
#[derive(Drop)]
pub struct MemoryLog {
    /// The orders that each crash keeps.
    pub kept: Vec<Order>,
    /// Those that wait for a sync.
    pub waiting: Vec<Order>,
}

impl MemoryLog {
    /// A log with nothing in it.
    pub fn new(alloc: Global) -> MemoryLog
        // A new log keeps no order yet.
        ensures kept { result.kept.items ≡ [] }
        // No order waits in a new log.
        ensures waiting { result.waiting.items ≡ [] }
    {
        MemoryLog {
            kept: Vec::new(alloc),
            waiting: Vec::new(alloc),
        }
    }
}

impl Log for MemoryLog {
    ghost is_ready = { λ _. Always };

    ghost synced = { λ l. l.kept.items };

    ghost pending = { λ l. l.waiting.items };

    ghost may_leave = { λ l orders. (n : ℕ) × (orders ≡ l.kept.items ++ take n l.waiting.items) };

    fn append(&mut self, order: Order, _answer: Answer) -> Result<(), LogFailed> {
        match self.waiting.push(order) {
            Ok(()) => Ok(()),
            Err(_) => Err(LogFailed),
        }
    }

    fn sync(&mut self) -> Result<(), LogFailed> {
        match self.kept.append(&mut self.waiting) {
            Ok(()) => Ok(()),
            Err(_) => Err(LogFailed),
        }
    }

    fn make_room(&mut self, _orders: usize) -> Result<(), LogFailed> {
        self.sync()
    }

    ghost leaves_front = { λ log ready c left. left };
}
