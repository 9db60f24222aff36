//! A log in memory that remembers the answers, and fails after so many syncs.
ghost use Rattle.std.specs.Prelude.{◌≡◌, ◌++◌, ℕ, take};
ghost use Rattle.iso_durable.specs.Front.{Always};

use iso_durable::{Log, LogFailed, MemoryLog};
use iso_order::{Answer, Order};
use std::alloc::Global;

/// A log in memory, with the answers that were added to it, which fails after so many syncs.
#[derive(Drop)]
pub struct ToldLog {
    /// The orders.
    pub log: MemoryLog,
    /// The answers that came with them.
    pub answers: Vec<Answer>,
    /// How many syncs are left before each fails.
    pub syncs_left: u32,
}

impl ToldLog {
    /// A log with nothing in it.
    pub fn new(alloc: Global, syncs: u32) -> ToldLog {
        ToldLog {
            log: MemoryLog::new(alloc),
            answers: Vec::new(alloc),
            syncs_left: syncs,
        }
    }
}

impl Log for ToldLog {
    ghost is_ready = { λ _. Always };

    ghost synced = { λ l. l.log.kept.items };

    ghost pending = { λ l. l.log.waiting.items };

    ghost may_leave = { λ l orders. (n : ℕ) × (orders ≡ l.log.kept.items ++ take n l.log.waiting.items) };

    fn append(&mut self, order: Order, answer: Answer) -> Result<(), LogFailed> {
        let _ = self.answers.push(answer);
        self.log.append(order, answer)
    }

    fn sync(&mut self) -> Result<(), LogFailed> {
        if self.syncs_left == 0 {
            return Err(LogFailed);
        }
        self.syncs_left -= 1;
        self.log.sync()
    }

    fn make_room(&mut self, orders: usize) -> Result<(), LogFailed> {
        self.log.make_room(orders)
    }

    ghost leaves_front = { λ log ready c left. left };
}
