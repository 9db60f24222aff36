//! A log that keeps nothing.
ghost use Rattle.std.specs.Prelude.{List, []};
ghost use Rattle.iso_restarts.specs.declared.note.Note.{Note};

use iso_restarts::{LogFailed, Note, NoteLog};

/// A log that keeps nothing: with the end of the run all is forgotten. It never counts as ready, so it promises nothing.
#[derive(Clone, Copy, Debug, Drop)]
pub struct Unkept;

impl NoteLog for Unkept {
    ghost is_ready = { λ _. ⊥ };

    ghost synced = { λ _. [] };

    ghost pending = { λ _. [] };

    ghost may_leave = { λ _ _. ⊥ };

    fn append(&mut self, _note: Note) -> Result<(), LogFailed> {
        Ok(())
    }

    fn sync(&mut self) -> Result<(), LogFailed> {
        Ok(())
    }

    ghost leaves_front = { λ log ready c left. absurd left };
}
