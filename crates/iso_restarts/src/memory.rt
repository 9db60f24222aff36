//! A log in memory.
ghost use Rattle.std.specs.Prelude.{◌≡◌, ◌++◌, ℕ, [], List, take};
ghost use Rattle.iso_restarts.specs.Front.{Always};

use crate::log::{LogFailed, NoteLog};
use crate::note::Note;
use std::alloc::Global;

/// A log in memory, for tests. Its crash is a new one with `kept` and some of `waiting` from the front.
#[derive(Drop)]
pub struct MemoryNotes {
    /// The notes that each crash keeps.
    pub kept: Vec<Note>,
    /// Those that wait for a sync.
    pub waiting: Vec<Note>,
}

impl MemoryNotes {
    /// A log with nothing in it.
    pub fn new(alloc: Global) -> MemoryNotes
        // No note is kept yet.
        ensures kept { result.kept.items ≡ [] }
        // No note waits for a sync.
        ensures waiting { result.waiting.items ≡ [] }
    {
        MemoryNotes {
            kept: Vec::new(alloc),
            waiting: Vec::new(alloc),
        }
    }
}

impl NoteLog for MemoryNotes {
    ghost is_ready = { λ _. Always };

    ghost synced = { λ l. l.kept.items };

    ghost pending = { λ l. l.waiting.items };

    ghost may_leave = { λ l notes. (n : ℕ) × (notes ≡ l.kept.items ++ take n l.waiting.items) };

    fn append(&mut self, note: Note) -> Result<(), LogFailed> {
        match self.waiting.push(note) {
            Ok(()) => Ok(()),
            Err(_) => Err(LogFailed),
        }
    }

    fn sync(&mut self) -> Result<(), LogFailed> {
        match self.kept.append(&mut self.waiting) {
            Ok(()) => Ok(()),
            Err(_) => Err(LogFailed),
        }
    }

    ghost leaves_front = { λ log ready c left. left };
}
